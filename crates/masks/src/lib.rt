// Access masks, one for each account, in a lent slice: whether they are valid, and whether all are zero. A slice of
// any other length is neither.
#![tactic(auto)]

ghost use Rattle.std.specs.Prelude.{◌≡◌, replicate};
ghost use Rattle.lists.specs.Lists.{same};
ghost use Rattle.records.specs.Sizes.{accounts};
ghost use Rattle.consistency.specs.Relations.{valid_masks};

use records::constants::ALL_ACCESS;
use records::sizes::ACCOUNTS;

// Whether each mask is within all access.
pub fn valid_masks(masks: &[u32]) -> bool
    ensures { result ≡ valid_masks masks.now }
{
    masks.len() == ACCOUNTS && masks.iter().all(|m| bits::within(*m, ALL_ACCESS))
}

// Whether each mask is zero, as in a free slot.
pub fn zero_masks(masks: &[u32]) -> bool
    ensures { result ≡ same masks.now (replicate accounts 0) }
{
    masks == [0; ACCOUNTS].as_slice()
}

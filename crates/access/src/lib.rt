// The access rule: what an account may do with a file.
#![tactic(auto)]

ghost use Rattle.std.specs.Prelude.{◌≡◌};
ghost use Rattle.records.specs.{Checked.as_option, Slots.{is_data, mask_of}};
ghost use Rattle.access.specs.Access.{effective, need, access_from, access_rule};

use records::constants::{MAXIMUM_ALLOWED, READ_ONLY};
use records::{File, FileType};

// What a read-only data file withholds: to write and to append data.
const WRITES: u32 = 0x6;

#[tactic(auto, unfolding(records::specs::Slots::is_data))]
fn is_data(t: FileType) -> bool
    ensures { result ≡ is_data t }
{
    matches!(t, FileType::Data)
}

// The account's access mask on a file; an account past the last has none.
#[tactic(auto, unfolding(records::specs::Slots::mask_of))]
pub fn mask_of(f: File, account: u32) -> u32
    ensures { result ≡ mask_of f account }
{
    f.masks.get(account as usize).copied().unwrap_or(0)
}

// What the account may do with the file at all: its mask there, less the writes on a read-only data file.
#[tactic(auto, unfolding(crate::specs::Access::effective))]
fn effective(f: File, account: u32) -> u32
    ensures { result ≡ effective f account }
{
    let mask = mask_of(f, account);
    if is_data(f.file_type) && bits::has(f.attributes, READ_ONLY) {
        bits::without(mask, WRITES)
    } else {
        mask
    }
}

// What the access asked comes to: all of it but the maximum-allowed bit.
#[tactic(auto, unfolding(crate::specs::Access::need))]
fn need(access: u32) -> u32
    ensures { result ≡ need access }
{
    bits::without(access, MAXIMUM_ALLOWED)
}

// The rule over an effective mask: the access granted, or none where it is denied.
#[tactic(auto, unfolding(records::specs::Checked::as_option, crate::specs::Access::access_from))]
fn access_from(mask: u32, access: u32) -> Option<u32>
    ensures { as_option result ≡ access_from mask access }
{
    let n = need(access);
    if !bits::within(n, mask) || mask == 0 {
        None
    } else if bits::has(access, MAXIMUM_ALLOWED) {
        Some(mask)
    } else {
        Some(n)
    }
}

// The access granted on the file, or none where the rule denies it.
#[tactic(auto, unfolding(crate::specs::Access::access_rule))]
pub fn access_rule(f: File, account: u32, access: u32) -> Option<u32>
    ensures { as_option result ≡ access_rule f account access }
{
    access_from(effective(f, account), access)
}

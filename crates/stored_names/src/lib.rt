// Names as they stand in a record, zeros after the last unit. A name is lent, whatever its places.
#![tactic(auto)]

ghost use Rattle.std.specs.Prelude.{◌≡◌, length, get_or, take, replicate};
ghost use Rattle.lists.specs.Lists.{same, padded};
ghost use Rattle.records.specs.Sizes.{file_name_limit};
ghost use Rattle.units.specs.Units.{equal_units};
ghost use Rattle.stored_names.specs.StoredNames.{units};

use records::sizes::FILE_NAME_LIMIT;
use std::array;
use units::folded_unit;

// The unit at a place, zero past the last place.
pub fn unit_at(name: &[u16], at: usize) -> u16
    ensures { result ≡ get_or name.now at 0 }
{
    name.get(at).copied().unwrap_or(0)
}

// A name as it is stored: zeros after its units, and no more places than a record has.
pub fn stored_name(name: &[u16]) -> [u16; FILE_NAME_LIMIT]
    ensures { result ≡ take file_name_limit (padded file_name_limit name.now) }
{
    array::from_fn(|at| unit_at(name, at))
}

// Whether a stored name matches a part of a path. The first difference settles it.
pub fn name_equals(name: &[u16], part: &[u16], fold: bool) -> bool
    ensures { result ≡ equal_units fold (units name.now) part.now }
{
    for (i, sought) in part.iter().enumerate() {
        let unit = unit_at(name, i);
        if unit == 0 || folded_unit(unit, fold) != folded_unit(*sought, fold) {
            return false;
        }
    }
    unit_at(name, part.len()) == 0
}

// Whether two stored names have equal units. The first difference settles it.
pub fn same_names(a: &[u16], b: &[u16]) -> bool
    ensures { result ≡ same (units a.now) (units b.now) }
{
    for (i, unit) in a.iter().enumerate() {
        if *unit != unit_at(b, i) {
            return false;
        }
        if *unit == 0 {
            return true;
        }
    }
    unit_at(b, a.len()) == 0
}

// Whether a stored name is all zero. Every place is looked at, without a branch: many at once.
pub fn zero_name(name: &[u16]) -> bool
    ensures { result ≡ same name.now (replicate (length name.now) 0) }
{
    let mut zeros = true;
    for unit in name {
        zeros &= *unit == 0;
    }
    zeros
}

// The tests of a name in a used slot. Each goes through all places without a branch on a unit, so that it is compiled
// to instructions that take eight of them at once. A name is lent, whatever its places.
#![tactic(auto)]

ghost use Rattle.std.specs.Prelude.{◌≡◌, cond, ◌||◌, ◌∷◌, [], eqb};
ghost use Rattle.lists.specs.Lists.{all, same};
ghost use Rattle.units.specs.Units.{dot};
ghost use Rattle.stored_names.specs.StoredNames.{units};
ghost use Rattle.name_tests.specs.NameTests.{good_file_name, good_stream_name, fits_stored, zero_or_valid};

use names::{NameKind, valid_unit};
use records::sizes::{FILE_NAME_LIMIT, STREAM_NAME_LIMIT};
use stored_names::{unit_at, zero_name};

const DOT: u16 = 0x2E;

// A number, where the unit is not zero.
fn if_some(unit: u16, number: u16) -> u16
    ensures { result ≡ cond (eqb unit 0) 0 number }
{
    if unit == 0 { 0 } else { number }
}

// Whether a name has no more places than a record, and every place after the last unit is zero. The first odd numbers
// add up to the square of how many they are, and any others to more: so the odd numbers of the places that are not zero
// tell whether these come first.
fn well_stored(name: &[u16]) -> bool
    ensures { result ≡ fits_stored name.now }
{
    if name.len() > FILE_NAME_LIMIT {
        return false;
    }
    let mut count: u16 = 0;
    let mut sum: u16 = 0;
    for (i, unit) in name.iter().enumerate() {
        count += if_some(*unit, 1);
        sum += if_some(*unit, 2 * i as u16 + 1);
    }
    sum == count * count
}

fn zero_or_valid(unit: u16, kind: NameKind) -> bool
    ensures { result ≡ zero_or_valid kind unit }
{
    (unit == 0) | valid_unit(unit, kind)
}

// Whether every place is zero or has a valid unit.
fn zeros_or_valid(name: &[u16], kind: NameKind) -> bool
    ensures { result ≡ all (zero_or_valid kind) name.now }
{
    let mut valid = true;
    for unit in name {
        valid &= zero_or_valid(*unit, kind);
    }
    valid
}

// Whether a stored name is `.` or `..`.
fn is_dots(name: &[u16]) -> bool
    ensures { result ≡ (same (units name.now) (dot ∷ []) || same (units name.now) (dot ∷ dot ∷ [])) }
{
    if unit_at(name, 0) != DOT {
        return false;
    }
    match unit_at(name, 1) {
        0 => true,
        DOT => unit_at(name, 2) == 0,
        _ => false,
    }
}

pub fn good_file_name(name: &[u16]) -> bool
    ensures { result ≡ good_file_name name.now }
{
    if name.len() != FILE_NAME_LIMIT {
        return false;
    }
    if name[0] == 0 {
        return false;
    }
    if is_dots(name) {
        return false;
    }
    well_stored(name) & zeros_or_valid(name, NameKind::FileName)
}

// The empty name is common, and quickly told.
pub fn good_stream_name(name: &[u16]) -> bool
    ensures { result ≡ good_stream_name name.now }
{
    if name.len() != STREAM_NAME_LIMIT {
        return false;
    }
    if name[0] != 0 {
        return well_stored(name) & zeros_or_valid(name, NameKind::StreamName);
    }
    zero_name(name)
}

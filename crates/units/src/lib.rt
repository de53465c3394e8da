// Comparison of UTF-16 units, exactly or with a to z folded to A to Z.
#![tactic(auto)]

ghost use Rattle.std.specs.Prelude.{◌≡◌};
ghost use Rattle.units.specs.Units.{upper, folded, equal_units};

// a to z as A to Z, every other unit as it is.
#[tactic(auto, unfolding(crate::specs::Units::upper))]
fn upper_unit(unit: u16) -> u16
    ensures { result ≡ upper unit }
{
    match unit {
        0x61..=0x7A => unit - 0x20,
        _ => unit,
    }
}

// A unit as it is compared.
#[tactic(auto, unfolding(crate::specs::Units::folded))]
pub fn folded_unit(unit: u16, fold: bool) -> u16
    ensures { result ≡ folded fold unit }
{
    if fold { upper_unit(unit) } else { unit }
}

// Whether two rows of units are equal. Different lengths, or the first difference, settle it.
pub fn equal_units(a: &[u16], b: &[u16], fold: bool) -> bool
    ensures { result ≡ equal_units fold a.now b.now }
{
    a.len() == b.len()
        && a.iter()
            .zip(b)
            .all(|(x, y)| folded_unit(*x, fold) == folded_unit(*y, fold))
}

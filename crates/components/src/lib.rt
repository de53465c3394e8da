// The components of a path, and the units between two places (step 4). A place is a number of units from the path's start.
#![tactic(auto)]

ghost use Rattle.std.specs.Prelude.{◌≡◌, take, drop};
ghost use Rattle.components.specs.Positions.{place_of, place_after, next_component, part_of};

const BACKSLASH: u16 = 0x5C;

// A part of a path, from one place up to another.
#[derive(Clone, Copy)]
pub struct Part {
    pub start: usize,
    pub end: usize,
}

// The units from a place on.
fn units_from(units: &[u16], start: usize) -> &[u16]
    ensures { result.now ≡ drop start units.now }
{
    units.get(start..).unwrap_or(&[])
}

// The first place from `at` on that does not hold the sign, or the end.
fn skip_sign(units: &[u16], sign: u16, at: usize) -> usize
    ensures { result ≡ place_after sign units.now at }
{
    let rest = units_from(units, at);
    at + rest
        .iter()
        .position(|unit| *unit != sign)
        .unwrap_or(rest.len())
}

// The first place from `at` on that holds the sign, or the end.
pub fn find_sign(units: &[u16], sign: u16, at: usize) -> usize
    ensures { result ≡ place_of sign units.now at }
{
    let rest = units_from(units, at);
    at + rest
        .iter()
        .position(|unit| *unit == sign)
        .unwrap_or(rest.len())
}

// The first component from `at` on. Where there is none, the part is empty and stands at the end.
#[tactic(auto, unfolding(crate::specs::Positions::next_component))]
pub fn next_component(path: &[u16], at: usize) -> Part
    ensures { result ≡ next_component path.now at }
{
    let start = skip_sign(path, BACKSLASH, at);
    Part {
        start,
        end: find_sign(path, BACKSLASH, start),
    }
}

// The units before a place.
pub fn units_before(units: &[u16], end: usize) -> &[u16]
    ensures { result.now ≡ take end units.now }
{
    units.get(..end).unwrap_or(units)
}

// The units of a part.
#[tactic(auto, unfolding(crate::specs::Positions::part_of))]
pub fn part_of(units: &[u16], part: Part) -> &[u16]
    ensures { result.now ≡ part_of units.now part }
{
    units_from(units_before(units, part.end), part.start)
}

// Which names are valid (step 4).
#![tactic(auto)]

ghost use Rattle.std.specs.Prelude.{◌≡◌, ◌||◌, ◌∷◌, []};
ghost use Rattle.lists.specs.Lists.{same};
ghost use Rattle.records.specs.Sizes.{file_name_limit, stream_name_limit};
ghost use Rattle.units.specs.Units.{dot};
ghost use Rattle.names.specs.Names.{lowest_unit, valid_unit, valid_units, valid_file_name, valid_stream_name};

use records::sizes::{FILE_NAME_LIMIT, STREAM_NAME_LIMIT};

const DOT: u16 = 0x2E;

// Whose name it is.
#[derive(Clone, Copy)]
pub enum NameKind {
    FileName,
    StreamName,
}

// The lowest unit of a name: control units, 1 to 31, stand in stream names alone, and unit 0 in none.
#[tactic(auto, unfolding(crate::specs::Names::lowest_unit))]
fn lowest_unit(kind: NameKind) -> u16
    ensures { result ≡ lowest_unit kind }
{
    match kind {
        NameKind::FileName => 0x20,
        NameKind::StreamName => 0x1,
    }
}

// Whether a unit may stand in a name: not below its lowest, none of `" * / < > ? |`, neither colon nor backslash.
#[tactic(auto, unfolding(crate::specs::Names::valid_unit, lists::specs::Lists::one_of, lists::specs::Lists::any))]
pub fn valid_unit(unit: u16, kind: NameKind) -> bool
    ensures { result ≡ valid_unit kind unit }
{
    (lowest_unit(kind) <= unit)
        & (unit != 0x22)
        & (unit != 0x2A)
        & (unit != 0x2F)
        & (unit != 0x3C)
        & (unit != 0x3E)
        & (unit != 0x3F)
        & (unit != 0x7C)
        & (unit != 0x5C)
        & (unit != 0x3A)
}

// Whether a name is no longer than the limit and has valid units only.
fn valid_units(name: &[u16], kind: NameKind, limit: usize) -> bool
    ensures { result ≡ valid_units kind limit name.now }
{
    name.len() <= limit && name.iter().all(|unit| valid_unit(*unit, kind))
}

// Whether a name is `.` or `..`.
#[tactic(auto, using(crate::proofs::ValidNames::same_pointwise))]
fn is_dots(name: &[u16]) -> bool
    ensures { result ≡ (same name.now (dot ∷ []) || same name.now (dot ∷ dot ∷ [])) }
{
    name == [DOT].as_slice() || name == [DOT, DOT].as_slice()
}

#[tactic(auto, unfolding(crate::specs::Names::valid_file_name), using(base::proofs::Laws::empty_length))]
pub fn valid_file_name(name: &[u16]) -> bool
    ensures { result ≡ valid_file_name file_name_limit name.now }
{
    !name.is_empty() && !is_dots(name) && valid_units(name, NameKind::FileName, FILE_NAME_LIMIT)
}

#[tactic(auto, unfolding(crate::specs::Names::valid_stream_name))]
pub fn valid_stream_name(name: &[u16]) -> bool
    ensures { result ≡ valid_stream_name stream_name_limit name.now }
{
    valid_units(name, NameKind::StreamName, STREAM_NAME_LIMIT)
}

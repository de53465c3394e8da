// Paths: how one is taken apart (step 4 of an open). A place is a number of units from the path's start.
#![tactic(auto)]

ghost use Rattle.std.specs.Prelude.{◌≡◌, true, ◌∷◌};
ghost use Rattle.units.specs.Units.{backslash, colon, data_type, equal_units};
ghost use Rattle.components.specs.Components.{components, split};
ghost use Rattle.components.specs.Positions.{part_of, parents_of, Within};
ghost use Rattle.paths.specs.Paths.{leaf_of, ends_in, valid_leaf, parse_components, parse_path};
ghost use Rattle.paths.specs.Positions.{as_leaf, named, checked, Parsed, ParsedParts};

use components::{Part, find_sign, next_component, part_of, units_before};
use names::{valid_file_name, valid_stream_name};
use records::sizes::PATH_LIMIT;
use units::equal_units;

const BACKSLASH: u16 = 0x5C;

const COLON: u16 = 0x3A;

// `$DATA`
const DATA_TYPE: [u16; 5] = [0x24, 0x44, 0x41, 0x54, 0x41];

// A path's last component: where its file name and its stream name stand, and whether it has a colon (the flag and the
// stream's name stand side by side in `Leaf` of specs/Paths too).
#[derive(Clone, Copy)]
pub struct LeafParts {
    pub file: Part,
    pub stream: Part,
    pub colon: bool,
}

// A path taken apart: refused with OBJECT_NAME_INVALID, without a component, or by its last component.
#[derive(Clone, Copy)]
pub enum ParsedPath {
    Invalid,
    Root,
    Named(LeafParts),
}

// Whether the units are `$DATA`, whatever their case.
fn is_data_type(units: &[u16]) -> bool
    ensures { result ≡ equal_units true units.now data_type }
{
    equal_units(units, &DATA_TYPE, true)
}

// The last component after its file name: STREAM or STREAM:TYPE.
fn stream_parts(path: &[u16], file: Part, rest: Part) -> ParsedPath
    ensures { ParsedParts (Within path.now file × Within path.now rest) path.now result (named (parents_of path.now file) (leaf_of (part_of path.now file ∷ split colon (part_of path.now rest)))) }
{
    let units = units_before(path, rest.end);
    let colon = find_sign(units, COLON, rest.start);
    let leaf = ParsedPath::Named(LeafParts {
        file,
        stream: Part { end: colon, ..rest },
        colon: true,
    });
    if colon < units.len() {
        let stream_type = Part {
            start: colon + 1,
            ..rest
        };
        return if is_data_type(part_of(path, stream_type)) {
            leaf
        } else {
            ParsedPath::Invalid
        };
    }
    if rest.start == colon {
        ParsedPath::Invalid
    } else {
        leaf
    }
}

// The last component by its colons: FILE, FILE:STREAM or FILE:STREAM:TYPE.
fn leaf_parts(path: &[u16], component: Part) -> ParsedPath
    ensures { ParsedParts (Within path.now component) path.now result (named (parents_of path.now component) (leaf_of (split colon (part_of path.now component)))) }
{
    let units = units_before(path, component.end);
    let colon = find_sign(units, COLON, component.start);
    let file = Part {
        end: colon,
        ..component
    };
    if colon < units.len() {
        let rest = Part {
            start: colon + 1,
            ..component
        };
        return stream_parts(path, file, rest);
    }
    ParsedPath::Named(LeafParts {
        file,
        stream: Part {
            start: colon,
            end: colon,
        },
        colon: false,
    })
}

// Whether a last component's names are valid, and it has no colon where a directory is asked for.
#[tactic(auto, unfolding(crate::specs::Paths::valid_leaf, crate::specs::Positions::as_leaf))]
fn valid_leaf(path: &[u16], leaf: LeafParts, wants_directory: bool) -> bool
    ensures { result ≡ valid_leaf wants_directory (as_leaf path.now leaf) }
{
    valid_file_name(part_of(path, leaf.file))
        && valid_stream_name(part_of(path, leaf.stream))
        && !(wants_directory && leaf.colon)
}

// The last component, valid.
fn checked_leaf(path: &[u16], component: Part, wants_directory: bool) -> ParsedPath
    ensures { ParsedParts (Within path.now component) path.now result (checked wants_directory (parents_of path.now component) (leaf_of (split colon (part_of path.now component)))) }
{
    let parsed = leaf_parts(path, component);
    let ParsedPath::Named(leaf) = parsed else {
        return ParsedPath::Invalid;
    };
    if valid_leaf(path, leaf, wants_directory) {
        return parsed;
    }
    ParsedPath::Invalid
}

// The components in order: each before the last a valid file name, then the last.
fn parse_components(path: &[u16], wants_directory: bool) -> ParsedPath
    ensures { Parsed path.now result (parse_components wants_directory (components path.now)) }
{
    let mut part = next_component(path, 0);
    if part.start == part.end {
        return ParsedPath::Root;
    }
    loop {
        let next = next_component(path, part.end);
        if next.start == next.end {
            return checked_leaf(path, part, wants_directory);
        }
        if !valid_file_name(part_of(path, part)) {
            return ParsedPath::Invalid;
        }
        part = next;
    }
}

// Whether the last unit is a backslash.
#[tactic(auto, using(crate::proofs::Parsing::ends_empty, crate::proofs::Parsing::ends_last))]
fn ends_in_backslash(path: &[u16]) -> bool
    ensures { result ≡ ends_in backslash path.now }
{
    path.last().is_some_and(|unit| *unit == BACKSLASH)
}

// The path whole. `wants_directory` and `wants_file` are options 0x1 and 0x40 of an open.
pub fn parse_path(path: &[u16], wants_directory: bool, wants_file: bool) -> ParsedPath
    ensures { Parsed path.now result (parse_path wants_directory wants_file path.now) }
{
    if PATH_LIMIT < path.len() {
        return ParsedPath::Invalid;
    }
    if wants_file && ends_in_backslash(path) {
        return ParsedPath::Invalid;
    }
    parse_components(path, wants_directory)
}

// The arguments that are bytes: masks and a path, as the numbers that they stand for.
ghost use Rattle.std.specs.Prelude.{◌≡◌, take};
ghost use Rattle.exports.specs.Returns.{MasksRead, ReadsAs};

use crate::{Masks, PathUnits};
use codecs::{read_units, read_words};
use records::sizes::ACCOUNTS;

// One unit more than a path may have: units that step 4 refuses, whatever they are.
const UNITS: usize = 256;

// No masks where there are too few bytes or too many.
pub fn read_masks(bytes: &[u8]) -> Masks
    ensures { MasksRead result bytes.now }
{
    let mut masks = [0u32; ACCOUNTS];
    if bytes.len() != 4 * ACCOUNTS {
        return Masks { masks, count: 0 };
    }
    read_words(bytes, 0, &mut masks);
    Masks {
        masks,
        count: ACCOUNTS,
    }
}

// A path of odd length, or one over the limit, is not read: any units that are over the limit stand for it.
pub fn read_path(bytes: &[u8]) -> PathUnits
    ensures { ReadsAs result bytes.now }
{
    let mut units = [0u16; UNITS];
    let count = bytes.len() / 2;
    if bytes.len() % 2 != 0 || UNITS <= count {
        return PathUnits {
            units,
            count: UNITS,
        };
    }
    read_units(bytes, 0, &mut units[..count]);
    PathUnits { units, count }
}

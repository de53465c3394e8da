// What the lines' functions answer: the first elements of an array, and how many they are. No heap: memory is fixed.
ghost use Rattle.std.specs.Prelude.{◌≤◌, ◌≡◌, take};
ghost use Rattle.script_lines.specs.Lines.{line_limit};

use crate::LINE_LIMIT;

// A path as units: the first of an array.
#[derive(Clone, Copy)]
pub struct PathUnits {
    pub units: [u16; LINE_LIMIT],
    pub count: usize,
    ghost inside: { count ≤ line_limit },
}

impl PathUnits {
    pub fn as_slice(&self) -> &[u16]
        ensures { result.now ≡ take self.now.count self.now.units }
    {
        &self.units[..self.count]
    }
}

// What is printed: the first bytes of an array.
#[derive(Clone, Copy)]
pub struct Printed {
    pub bytes: [u8; 32],
    pub count: usize,
    ghost inside: { count ≤ 32 },
}

impl Printed {
    pub fn as_slice(&self) -> &[u8]
        ensures { result.now ≡ take self.now.count self.now.bytes }
    {
        &self.bytes[..self.count]
    }
}

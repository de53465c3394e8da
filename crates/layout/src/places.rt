// Where a slot's record stands in the bytes.
#![tactic(auto)]

ghost use Rattle.std.specs.Prelude.{◌+◌, ◌*◌, ◌≤◌, MatchOption};
ghost use Rattle.layout.specs.Layout.{tables_size};
ghost use Rattle.layout.specs.Places.{IsPlace};

use crate::{
    FILE_SIZE, FILES_AT, LINK_SIZE, LINKS_AT, OPEN_SIZE, OPENS_AT, STREAM_SIZE, STREAMS_AT,
};
use records::sizes::{FILE_SLOTS, LINK_SLOTS, OPEN_SLOTS, STREAM_SLOTS};

// A table in the bytes: where it starts, the bytes of a record, its slots.
#[derive(Clone, Copy)]
pub struct Table {
    pub at: usize,
    pub size: usize,
    pub slots: usize,
}

pub const FILES: Table = Table {
    at: FILES_AT,
    size: FILE_SIZE,
    slots: FILE_SLOTS,
};

pub const LINKS: Table = Table {
    at: LINKS_AT,
    size: LINK_SIZE,
    slots: LINK_SLOTS,
};

pub const STREAMS: Table = Table {
    at: STREAMS_AT,
    size: STREAM_SIZE,
    slots: STREAM_SLOTS,
};

pub const OPENS: Table = Table {
    at: OPENS_AT,
    size: OPEN_SIZE,
    slots: OPEN_SLOTS,
};

impl Table {
    // The place of a slot's record. Past the table's end there is none.
    pub fn place(self, slot: usize) -> Option<usize>
        requires { self.at + self.size * self.slots ≤ tables_size }
        ensures { MatchOption result (self.slots ≤ slot) (IsPlace self slot) }
    {
        if slot < self.slots {
            Some(self.at + self.size * slot)
        } else {
            None
        }
    }
}

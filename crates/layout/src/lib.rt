// The tables in bytes (docs/LAYOUT.md): where each field stands, what the bytes stand for, and the sizes and places by
// name for the code above.
#![tactic(auto)]

ghost use Rattle.std.specs.Prelude.{◌≡◌};
ghost use Rattle.layout.specs.Kinds.{kind_of, kind_number, mark_number};

pub mod places;

use records::FileType;
use records::sizes::{
    ACCOUNTS, FILE_NAME_LIMIT, FILE_SLOTS, LINK_SLOTS, OPEN_SLOTS, STREAM_NAME_LIMIT, STREAM_SLOTS,
};

// the mark's place in a file
pub const FILE_MARK_IN: usize = 2 + 4 + 4 * ACCOUNTS;

// bytes of a record
pub const FILE_SIZE: usize = FILE_MARK_IN + 2;

pub const LINK_SIZE: usize = 2 + 2 + 2 * FILE_NAME_LIMIT;

// the counts' and the mark's place in a stream
pub const COUNTS_IN: usize = 2 + 2 + 2 * STREAM_NAME_LIMIT;

pub const STREAM_MARK_IN: usize = COUNTS_IN + 2 * 7;

pub const STREAM_SIZE: usize = STREAM_MARK_IN + 2;

// the mark's place in an open
pub const OPEN_MARK_IN: usize = 8 + 2 + 2 + 4 + 4;

pub const OPEN_SIZE: usize = OPEN_MARK_IN + 2;

// places
pub const MARK_AT: usize = 0;

pub const NEXT_AT: usize = 2;

pub const FILES_AT: usize = 10;

pub const LINKS_AT: usize = FILES_AT + FILE_SIZE * FILE_SLOTS;

pub const STREAMS_AT: usize = LINKS_AT + LINK_SIZE * LINK_SLOTS;

pub const OPENS_AT: usize = STREAMS_AT + STREAM_SIZE * STREAM_SLOTS;

// all of it
pub const TABLES_SIZE: usize = OPENS_AT + OPEN_SIZE * OPEN_SLOTS;

// The lent bytes of the tables: as many as the tables have.
pub type TableBytes = [u8; TABLES_SIZE];

// The kind and the mark by their numbers. They are functions: `From` and the type of the kind are of other crates.
#[tactic(auto, unfolding(crate::specs::Kinds::kind_of), using(crate::proofs::Tests::directory_kind))]
pub fn kind_of(n: u16) -> FileType
    ensures { result ≡ kind_of n }
{
    match n {
        0 => FileType::Unused,
        1 => FileType::Data,
        _ => FileType::Directory,
    }
}

#[tactic(auto, unfolding(crate::specs::Kinds::kind_number))]
pub fn kind_number(t: FileType) -> u16
    ensures { result ≡ kind_number t }
{
    match t {
        FileType::Unused => 0,
        FileType::Data => 1,
        FileType::Directory => 2,
    }
}

#[tactic(auto, unfolding(crate::specs::Kinds::mark_number))]
pub fn mark_number(mark: bool) -> u16
    ensures { result ≡ mark_number mark }
{
    u16::from(mark)
}

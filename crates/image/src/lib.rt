// The image of the tables: a row of blocks of 512 bytes (docs/IMAGE.md). Which record a block holds, and its check.
#![tactic(auto)]

ghost use Rattle.std.specs.Prelude.{◌≡◌, ◌%◌, take};
ghost use Rattle.image.specs.Blocks.{check_at, byte_sum, record_of};

use records::sizes::{FILE_SLOTS, LINK_SLOTS, STREAM_SLOTS};

pub const BLOCK_SIZE: usize = 512;

pub type Block = [u8; BLOCK_SIZE];

// the place of the check in a block
pub const CHECK_AT: usize = 510;

// the place of the record in a block: after the number; in the header also after the edition and the slot counts
pub const RECORD_AT: usize = 4;

pub const HEADER_AT: usize = RECORD_AT + 2 * 4;

pub const EDITION: u16 = 1;

pub const IMAGE_BLOCKS: usize = 1 + FILE_SLOTS + LINK_SLOTS + STREAM_SLOTS;

// Which record of the tables a block holds, by its slot. `Past` is no `None`: the definitions place_of, size_of, preface and
// spare_for are by these five cases.
#[derive(Clone, Copy)]
pub enum BlockRecord {
    Header,
    FileSlot(usize),
    LinkSlot(usize),
    StreamSlot(usize),
    Past,
}

// The record of a block: the header first, then every slot of files, links and streams.
pub fn record_of(n: usize) -> BlockRecord
    ensures { result ≡ record_of n }
{
    if n == 0 {
        return BlockRecord::Header;
    }
    if n <= FILE_SLOTS {
        return BlockRecord::FileSlot(n - 1);
    }
    if n <= FILE_SLOTS + LINK_SLOTS {
        return BlockRecord::LinkSlot(n - 1 - FILE_SLOTS);
    }
    if n < IMAGE_BLOCKS {
        return BlockRecord::StreamSlot(n - 1 - FILE_SLOTS - LINK_SLOTS);
    }
    BlockRecord::Past
}

// The sum of a block's first 510 bytes modulo 65,536.
pub fn block_check(block: &Block) -> u16
    ensures { result ≡ byte_sum (take check_at block.now) % 65536 }
{
    let mut sum: u32 = 0;
    for byte in &block[..CHECK_AT] {
        sum += u32::from(*byte);
    }
    (sum % 0x10000) as u16
}

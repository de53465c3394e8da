// Writing the image: blocks of the lent tables into a lent row.
#![tactic(auto)]

ghost use Rattle.std.specs.Prelude.{◌+◌, ◌≡◌, ◌≤◌, ◌&&◌, leb, length};
ghost use Rattle.records.specs.State.{Answers};
ghost use Rattle.little_endian.specs.LittleEndian.{part};
ghost use Rattle.little_endian.specs.Writes.{Wrote};
ghost use Rattle.image.specs.Blocks.{block_size, image_blocks, number_size, record_of};
ghost use Rattle.image.specs.declared.BlockRecord.TheVariants.{Header};
ghost use Rattle.image.specs.Image.{whole_blocks, blocks_in, write_image};
ghost use Rattle.image_write.specs.Kept.{kept_content, kept_block};

use audit::audit;
use byte_rows::{clear, copy_part};
use image::{
    BLOCK_SIZE, Block, BlockRecord, CHECK_AT, EDITION, HEADER_AT, IMAGE_BLOCKS, RECORD_AT,
    block_check, record_of,
};
use layout::{
    COUNTS_IN, FILE_MARK_IN, FILE_SIZE, FILES_AT, LINK_SIZE, LINKS_AT, STREAM_SIZE, STREAMS_AT,
    TABLES_SIZE, TableBytes,
};
use little_endian::{write_u16, write_u32};
use records::sizes::{FILE_SLOTS, LINK_SLOTS, STREAM_SLOTS};
use records::{Answer, Outcome, Status};

// What a call answers that refuses unsound tables.
const CORRUPT: Answer = Answer {
    outcome: Outcome::Refused(Status::FileCorruptError),
    granted: 0,
};

// The header's content: edition, slot counts, read-only mark and next handle.
fn write_header(tables: &TableBytes, block: &mut Block)
    ensures { Wrote block.old number_size (kept_content tables.now Header) block.new }
{
    write_u16(block, RECORD_AT, EDITION);
    write_u16(block, 6, FILE_SLOTS as u16);
    write_u16(block, 8, LINK_SLOTS as u16);
    write_u16(block, 10, STREAM_SLOTS as u16);
    copy_part(tables, 0, FILES_AT, block, HEADER_AT);
}

// A block's content: of its record what an image keeps.
fn write_content(tables: &TableBytes, n: usize, block: &mut Block)
    ensures { Wrote block.old number_size (kept_content tables.now (record_of n)) block.new }
{
    match record_of(n) {
        BlockRecord::Header => write_header(tables, block),
        BlockRecord::FileSlot(k) => copy_part(
            tables,
            FILES_AT + FILE_SIZE * k,
            FILE_MARK_IN,
            block,
            RECORD_AT,
        ),
        BlockRecord::LinkSlot(k) => copy_part(
            tables,
            LINKS_AT + LINK_SIZE * k,
            LINK_SIZE,
            block,
            RECORD_AT,
        ),
        BlockRecord::StreamSlot(k) => copy_part(
            tables,
            STREAMS_AT + STREAM_SIZE * k,
            COUNTS_IN,
            block,
            RECORD_AT,
        ),
        BlockRecord::Past => {}
    }
}

// A block: its number, its content, zeros, and the check over all of these.
fn write_block(tables: &TableBytes, n: u32, block: &mut Block)
    ensures { block.new ≡ kept_block tables.now n }
{
    clear(block);
    write_u32(block, 0, n);
    write_content(tables, n as usize, block);
    let check = block_check(block);
    write_u16(block, CHECK_AT, check);
}

// The same, of a part of a row that has a block's length.
fn write_part(tables: &TableBytes, n: u32, part: &mut [u8])
    requires { length part.old ≡ block_size }
    ensures { part.new ≡ kept_block tables.now n }
{
    if let Some(block) = part.as_mut_array::<BLOCK_SIZE>() {
        write_block(tables, n, block);
    }
}

// Whether a row of so many bytes is whole blocks of the image, from block `first` on.
fn row_fits(first: u32, long: usize) -> bool
    ensures { result ≡ (whole_blocks long && leb (first + blocks_in long) image_blocks) }
{
    let last = first as usize + long / BLOCK_SIZE;
    (long % BLOCK_SIZE == 0) & (last <= IMAGE_BLOCKS)
}

// Blocks of the image from block `first` on, as many as the row has room for. Unsound tables are refused first, then a row that
// isn't whole blocks of the image. A refusal leaves the row.
pub fn write_image(tables: &[u8], first: u32, row: &mut [u8]) -> Answer
    ensures { Answers result row.new (write_image tables.now first row.old) }
{
    let Some(tables) = tables.as_array::<TABLES_SIZE>() else {
        return CORRUPT;
    };
    if !audit(tables) {
        return CORRUPT;
    }
    if !row_fits(first, row.len()) {
        return Answer {
            outcome: Outcome::Refused(Status::InvalidParameter),
            granted: 0,
        };
    }
    for i in 0..row.len() / BLOCK_SIZE {
        let at = BLOCK_SIZE * i;
        let end = at + BLOCK_SIZE;
        write_part(tables, first + i as u32, &mut row[at..end]);
    }
    Answer {
        outcome: Outcome::Done,
        granted: 0,
    }
}

// Reading the image: blocks of a lent row into a second lent set of tables, and the closing call, which copies that set to the
// tables.
#![tactic(auto)]

ghost use Rattle.std.specs.Prelude.{◌≡◌, ◌+◌, ◌≤◌, length};
ghost use Rattle.base.specs.Base.{any, open_used};
ghost use Rattle.little_endian.specs.LittleEndian.{part};
ghost use Rattle.little_endian.specs.Writes.{Wrote};
ghost use Rattle.layout.specs.Layout.{decode};
ghost use Rattle.records.specs.State.{Answers};
ghost use Rattle.image.specs.Blocks.{block_size};
ghost use Rattle.image.specs.Image.{Reading, unread, blocks_in, put_block, read_blocks, read_row, checked_image, read_image, finish_image};
ghost use Rattle.image_read.specs.Reads.{or_corrupt, corrupt};

use audit::audit;
use byte_rows::{clear, copy, copy_part};
use image::{BLOCK_SIZE, Block, BlockRecord, HEADER_AT, IMAGE_BLOCKS, RECORD_AT, record_of};
use image_alone::block_alone;
use layout::{
    FILE_SIZE, FILES_AT, LINK_SIZE, LINKS_AT, STREAM_SIZE, STREAMS_AT, TABLES_SIZE, TableBytes,
};
use records::sizes::OPEN_SLOTS;
use records::{Answer, Outcome, Status};
use records_opens::read_handle;

// What a call answers that refuses a corrupt image, and what one that is done.
const CORRUPT: Answer = Answer {
    outcome: Outcome::Refused(Status::FileCorruptError),
    granted: 0,
};

const DONE: Answer = Answer {
    outcome: Outcome::Done,
    granted: 0,
};

// The record of block n into the second set, which block 0 clears first.
fn put_block(spare: &mut TableBytes, n: usize, block: &Block)
    ensures { spare.new ≡ put_block n block.now spare.old }
{
    match record_of(n) {
        BlockRecord::Header => {
            clear(spare);
            copy_part(block, HEADER_AT, FILES_AT, spare, 0);
        }
        BlockRecord::FileSlot(k) => copy_part(
            block,
            RECORD_AT,
            FILE_SIZE,
            spare,
            FILES_AT + FILE_SIZE * k,
        ),
        BlockRecord::LinkSlot(k) => copy_part(
            block,
            RECORD_AT,
            LINK_SIZE,
            spare,
            LINKS_AT + LINK_SIZE * k,
        ),
        BlockRecord::StreamSlot(k) => copy_part(
            block,
            RECORD_AT,
            STREAM_SIZE,
            spare,
            STREAMS_AT + STREAM_SIZE * k,
        ),
        BlockRecord::Past => {}
    }
}

// The blocks of a row, from block `first` on, up to one that can't stand at its number.
fn read_blocks(spare: &mut TableBytes, first: u32, row: &[u8]) -> bool
    ensures { read_blocks (record { spare = spare.entry.now; reader = first }) (blocks_in (length row.now)) row.now ≡ or_corrupt result (record { spare = spare.exit.now; reader = first + blocks_in (length row.now) }) }
{
    let (blocks, _) = row.as_chunks::<BLOCK_SIZE>();
    for i in 0..blocks.len() {
        let n = first as usize + i;
        if !block_alone(n, &blocks[i]) {
            return false;
        }
        put_block(spare, n, &blocks[i]);
    }
    true
}

// A row read: a number that no reading gives and a row that isn't whole blocks are refused first.
fn read_row(spare: &mut TableBytes, first: u32, row: &[u8]) -> bool
    ensures { read_row (record { spare = spare.entry.now; reader = first }) row.now ≡ or_corrupt result (record { spare = spare.exit.now; reader = first + blocks_in (length row.now) }) }
{
    if IMAGE_BLOCKS < first as usize {
        return false;
    }
    if row.len() % BLOCK_SIZE != 0 {
        return false;
    }
    read_blocks(spare, first, row)
}

// Some open is in the tables.
fn has_opens(b: &TableBytes) -> bool
    ensures { result ≡ any open_used (decode b.now).opens.rows }
{
    for i in 0..OPEN_SLOTS {
        if read_handle(b, i).0 != 0 {
            return true;
        }
    }
    false
}

// Whether all blocks were read and what they hold is sound together, without opens.
fn is_checked(spare: &TableBytes, reader: u32) -> bool
    ensures { checked_image (record { spare = spare.entry.now; reader = reader }) ≡ or_corrupt result spare.entry.now }
{
    if reader as usize != IMAGE_BLOCKS {
        return false;
    }
    if !audit(spare) {
        return false;
    }
    !has_opens(spare)
}

// A refusal: the second set is cleared, and block 0 comes next.
fn refuse_reading(spare: &mut TableBytes, reader: &mut u32) -> Answer
    ensures { Answers result (record { spare = spare.exit.now; reader = reader.new }) (corrupt unread) }
{
    clear(spare);
    *reader = 0;
    CORRUPT
}

// The blocks of a row, from the reader's block on. A row that is refused clears the second set, and block 0 comes next.
pub fn read_image(spare: &mut [u8], reader: &mut u32, row: &[u8]) -> Answer
    ensures { Answers result (record { spare = spare.exit.now; reader = reader.new }) (read_image (record { spare = spare.entry.now; reader = reader.old }) row.now) }
{
    let Some(spare) = spare.as_mut_array::<TABLES_SIZE>() else {
        return CORRUPT;
    };
    let first = *reader;
    if !read_row(spare, first, row) {
        return refuse_reading(spare, reader);
    }
    *reader = first + (row.len() / BLOCK_SIZE) as u32;
    DONE
}

// The closing call: after exactly the last block, a second set that is sound and has no opens is copied to the tables.
pub fn finish_image(tables: &mut [u8], spare: &mut [u8], reader: &mut u32) -> Answer
    ensures { Answers result (record { tables = tables.exit.now; reading = record { spare = spare.exit.now; reader = reader.new } }) (finish_image (record { tables = tables.entry.now; reading = record { spare = spare.entry.now; reader = reader.old } })) }
{
    let Some(tables) = tables.as_mut_array::<TABLES_SIZE>() else {
        return CORRUPT;
    };
    let Some(spare) = spare.as_mut_array::<TABLES_SIZE>() else {
        return CORRUPT;
    };
    if !is_checked(spare, *reader) {
        return refuse_reading(spare, reader);
    }
    copy(spare, tables);
    *reader = 0;
    DONE
}

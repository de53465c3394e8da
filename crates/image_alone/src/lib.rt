// Whether a block, by itself, can stand at its number in an image of consistent tables: it is well formed, and its record has no
// fault that shows without other blocks.
#![tactic(auto)]

ghost use Rattle.std.specs.Prelude.{◌+◌, ◌≡◌, ◌&&◌, ltb, length, replicate};
ghost use Rattle.lists.specs.Lists.{same};
ghost use Rattle.little_endian.specs.LittleEndian.{part};
ghost use Rattle.records.specs.Namespace.{bare};
ghost use Rattle.image.specs.declared.BlockRecord.TheVariants.{Header};
ghost use Rattle.image.specs.Blocks.{block_size, image_blocks, size_of, preface, record_at, number_size};
ghost use Rattle.image.specs.Alone.{record_in, well_formed, header_alone, file_alone, link_placed, link_alone, stream_placed, stream_alone, record_alone, block_alone};

use audit_opens::same_counts;
use image::{
    Block, BlockRecord, CHECK_AT, EDITION, HEADER_AT, IMAGE_BLOCKS, RECORD_AT, block_check,
    record_of,
};
use layout::{FILE_SIZE, FILES_AT, LINK_SIZE, MARK_AT, NEXT_AT, STREAM_SIZE};
use layout_stands::{file_stands, stream_stands};
use little_endian::{read_u16, read_u32, read_u64};
use records::sizes::{FILE_SLOTS, LINK_SLOTS, STREAM_SLOTS};
use records::slots::{ZERO_COUNTS, is_directory, link_used, stream_used};
use records::{File, FileType, Link, Stream};
use records_files::file_from;
use records_links::link_from;
use records_streams::stream_from;
use stored_names::unit_at;

// Whether every byte is zero. Every place is looked at, without a branch: many at once.
fn is_clear(b: &[u8]) -> bool
    ensures { result ≡ same b.now (replicate (length b.now) 0) }
{
    let mut zeros = true;
    for byte in b {
        zeros &= *byte == 0;
    }
    zeros
}

// Whether what stands before the record is right: in the header the edition and the slot counts.
fn prefaced(held: BlockRecord, block: &Block) -> bool
    ensures { result ≡ same (part block.now number_size (length (preface held))) (preface held) }
{
    match held {
        BlockRecord::Header => {
            (read_u16(block, 4) == EDITION)
                & (read_u16(block, 6) as usize == FILE_SLOTS)
                & (read_u16(block, 8) as usize == LINK_SLOTS)
                & (read_u16(block, 10) as usize == STREAM_SLOTS)
        }
        BlockRecord::FileSlot(_)
        | BlockRecord::LinkSlot(_)
        | BlockRecord::StreamSlot(_)
        | BlockRecord::Past => true,
    }
}

// Where the record ends in its block.
fn record_end(held: BlockRecord) -> usize
    ensures { result ≡ record_at held + size_of held }
{
    match held {
        BlockRecord::Header => HEADER_AT + FILES_AT,
        BlockRecord::FileSlot(_) => RECORD_AT + FILE_SIZE,
        BlockRecord::LinkSlot(_) => RECORD_AT + LINK_SIZE,
        BlockRecord::StreamSlot(_) => RECORD_AT + STREAM_SIZE,
        BlockRecord::Past => RECORD_AT,
    }
}

// Number, check, edition, slot counts and zeros are right. Past the last block none is.
fn well_formed(n: usize, block: &Block) -> bool
    ensures { result ≡ (ltb n image_blocks && well_formed n block.now) }
{
    if n >= IMAGE_BLOCKS {
        return false;
    }
    let held = record_of(n);
    let end = record_end(held);
    (read_u32(block, 0) as usize == n)
        & prefaced(held, block)
        & is_clear(&block[end..CHECK_AT])
        & (read_u16(block, CHECK_AT) == block_check(block))
}

// A read-only mark that there is, and a next handle.
#[tactic(auto, using(crate::proofs::Formed::header_parts))]
fn header_alone(block: &Block) -> bool
    ensures { result ≡ header_alone (record_in Header block.now) }
{
    (read_u16(block, HEADER_AT + MARK_AT) < 2) & (read_u64(block, HEADER_AT + NEXT_AT) != 0)
}

// A file by itself, without a mark; file 0 is a directory.
#[tactic(auto, unfolding(image::specs::Alone::file_alone))]
fn file_alone(k: usize, f: File) -> bool
    ensures { result ≡ file_alone k f }
{
    audit_files::slot_consistent(f) & !f.delete_pending & ((k != 0) | is_directory(f.file_type))
}

// A used link is of a file that there is, in one that there is. The file is not the root and not its own parent.
#[tactic(auto, unfolding(image::specs::Alone::link_placed))]
fn link_placed(l: Link) -> bool
    ensures { result ≡ link_placed l }
{
    ((l.file.0 as usize) < FILE_SLOTS)
        & ((l.parent.0 as usize) < FILE_SLOTS)
        & (l.file.0 != 0)
        & (l.file != l.parent)
}

#[tactic(auto, unfolding(image::specs::Alone::link_alone))]
fn link_alone(l: Link) -> bool
    ensures { result ≡ link_alone l }
{
    audit_links::slot_consistent(l, FileType::Data, FileType::Directory)
        & (!link_used(l) | link_placed(l))
}

// A used stream is of a file that there is. A directory's has no name, and the root's is a directory's.
fn stream_placed(s: Stream) -> bool
    ensures { result ≡ stream_placed (bare s) }
{
    if s.file.0 as usize >= FILE_SLOTS {
        return false;
    }
    if is_directory(s.stream_type) {
        unit_at(&s.name, 0) == 0
    } else {
        s.file.0 != 0
    }
}

// A stream by itself, without counts and without a mark.
fn stream_alone(s: Stream) -> bool
    ensures { result ≡ stream_alone s }
{
    audit_streams::slot_consistent(s, s.stream_type)
        & (!stream_used(s) | stream_placed(s))
        & same_counts(s.counts, ZERO_COUNTS)
        & !s.delete_pending
}

// The record in a block by itself.
fn record_alone(held: BlockRecord, block: &Block) -> bool
    ensures { result ≡ record_alone held (record_in held block.now) }
{
    match held {
        BlockRecord::Header => header_alone(block),
        BlockRecord::FileSlot(k) => file_stands(block, RECORD_AT)
            && file_alone(k, file_from(block, RECORD_AT)),
        BlockRecord::LinkSlot(_) => link_alone(link_from(block, RECORD_AT)),
        BlockRecord::StreamSlot(_) => stream_stands(block, RECORD_AT)
            && stream_alone(stream_from(block, RECORD_AT)),
        BlockRecord::Past => false,
    }
}

// A block that an image of consistent tables can have at a number.
pub fn block_alone(n: usize, block: &Block) -> bool
    ensures { result ≡ block_alone n block.now }
{
    well_formed(n, block) && record_alone(record_of(n), block)
}

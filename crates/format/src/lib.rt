// Format: the lent bytes become those of fresh tables, with the root alone.
#![tactic(auto)]

ghost use Rattle.std.specs.Prelude.{◌≡◌, length, get_or, take, replicate};
ghost use Rattle.lists.specs.Lists.{padded};
ghost use Rattle.records.specs.Sizes.{accounts};
ghost use Rattle.records.specs.State.{Answers};
ghost use Rattle.format.specs.Format.{root_file, root_stream, fresh_tables};
ghost use Rattle.format.specs.Bytes.{format_bytes, StandFor};

use byte_rows::clear;
use layout::{TABLES_SIZE, TableBytes};
use masks::valid_masks;
use records::constants::DIRECTORY;
use records::sizes::{ACCOUNTS, STREAM_NAME_LIMIT};
use records::slots::ZERO_COUNTS;
use records::{Answer, File, FileNo, FileType, Handle, Outcome, Status, Stream, StreamNo};
use records_files::write_file;
use records_streams::write_stream;
use records_volume::{write_mark, write_next};

// The mask of an account, zero past the last one.
fn mask_at(masks: &[u32], account: usize) -> u32
    ensures { result ≡ get_or masks.now account 0 }
{
    if account < masks.len() {
        masks[account]
    } else {
        0
    }
}

// The masks by value, as a file holds them: one for each account.
fn copied(masks: &[u32]) -> [u32; ACCOUNTS]
    ensures { result ≡ take accounts (padded accounts masks.now) }
{
    let mut copy = [0u32; ACCOUNTS];
    for account in 0..ACCOUNTS {
        copy[account] = mask_at(masks, account);
    }
    copy
}

// File 0.
fn root_file(masks: [u32; ACCOUNTS]) -> File
    ensures { result ≡ root_file masks }
{
    File {
        file_type: FileType::Directory,
        attributes: DIRECTORY,
        masks,
        delete_pending: false,
    }
}

// Its stream.
fn root_stream() -> Stream
    ensures { result ≡ root_stream }
{
    Stream {
        file: FileNo(0),
        stream_type: FileType::Directory,
        name: [0; STREAM_NAME_LIMIT],
        counts: ZERO_COUNTS,
        delete_pending: false,
    }
}

// The bytes of fresh tables: all zero but the mark, the next handle, file 0 and its stream.
fn write_fresh(b: &mut TableBytes, masks: [u32; ACCOUNTS], read_only: bool)
    ensures { StandFor b.new (fresh_tables masks read_only) }
{
    clear(b);
    write_mark(b, read_only);
    write_next(b, Handle(1));
    write_file(b, FileNo(0), root_file(masks));
    write_stream(b, StreamNo(0), root_stream());
}

// The length decides first, then the masks. A refusal leaves every byte.
pub fn format(b: &mut [u8], masks: &[u32], read_only: bool) -> Answer
    ensures { Answers result b.new (format_bytes b.old masks.now read_only) }
{
    let Some(tables) = b.as_mut_array::<TABLES_SIZE>() else {
        return Answer {
            outcome: Outcome::Refused(Status::FileCorruptError),
            granted: 0,
        };
    };
    if !valid_masks(masks) {
        return Answer {
            outcome: Outcome::Refused(Status::InvalidParameter),
            granted: 0,
        };
    }
    write_fresh(tables, copied(masks), read_only);
    Answer {
        outcome: Outcome::Done,
        granted: 0,
    }
}

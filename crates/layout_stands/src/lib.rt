// Whether lent bytes stand for tables at all: as many as the tables have, with kinds and marks that there are.
#![tactic(auto)]

ghost use Rattle.std.specs.Prelude.{◌≡◌, ◌+◌, ◌≤◌, ◌&&◌, ltb, length, drop};
ghost use Rattle.little_endian.specs.LittleEndian.{from_bytes, part};
ghost use Rattle.codecs.specs.Codec.{row_stands};
ghost use Rattle.records.specs.Sizes.{file_slots, stream_slots, open_slots};
ghost use Rattle.layout.specs.Kinds.{kinds, marks};
ghost use Rattle.layout.specs.Records.{file_codec, stream_codec, open_codec};
ghost use Rattle.layout.specs.Layout.{file_size, stream_size, files_at, streams_at, opens_at, files_codec, streams_codec, stands_for_tables};

use layout::{
    FILE_MARK_IN, FILE_SIZE, FILES_AT, MARK_AT, OPEN_MARK_IN, OPEN_SIZE, OPENS_AT, STREAM_MARK_IN,
    STREAM_SIZE, STREAMS_AT, TABLES_SIZE, TableBytes,
};
use little_endian::read_u16;
use records::sizes::{FILE_SLOTS, OPEN_SLOTS, STREAM_SLOTS};

// The kind at a place and the mark of the same record, at its place there, are ones that there are.
fn typed_stands(b: &[u8], at: usize, mark_in: usize) -> bool
    requires { (at + 2 ≤ length b.now) × (at + mark_in + 2 ≤ length b.now) }
    ensures { result ≡ (ltb (from_bytes (part b.now at 2)) kinds && ltb (from_bytes (part b.now (at + mark_in) 2)) marks) }
{
    (read_u16(b, at) < 3) & (read_u16(b, at + mark_in) < 2)
}

// The bytes at a place stand for a file. And so of a stream.
#[tactic(auto, using(layout::proofs::Stands::file_stands))]
pub fn file_stands(b: &[u8], at: usize) -> bool
    requires { at + file_size ≤ length b.now }
    ensures { result ≡ file_codec.stands (part b.now at file_size) }
{
    typed_stands(b, at, FILE_MARK_IN)
}

#[tactic(auto, using(layout::proofs::Stands::stream_stands))]
pub fn stream_stands(b: &[u8], at: usize) -> bool
    requires { at + stream_size ≤ length b.now }
    ensures { result ≡ stream_codec.stands (part b.now at stream_size) }
{
    typed_stands(b, at, STREAM_MARK_IN)
}

fn files_stand(b: &TableBytes) -> bool
    ensures { result ≡ row_stands file_codec file_slots (part b.now files_at files_codec.size) }
{
    (0..FILE_SLOTS).all(|i| file_stands(b, FILES_AT + FILE_SIZE * i))
}

fn streams_stand(b: &TableBytes) -> bool
    ensures { result ≡ row_stands stream_codec stream_slots (part b.now streams_at streams_codec.size) }
{
    (0..STREAM_SLOTS).all(|i| stream_stands(b, STREAMS_AT + STREAM_SIZE * i))
}

fn opens_stand(b: &TableBytes) -> bool
    ensures { result ≡ row_stands open_codec open_slots (drop opens_at b.now) }
{
    (0..OPEN_SLOTS).all(|i| read_u16(b, OPENS_AT + OPEN_SIZE * i + OPEN_MARK_IN) < 2)
}

// The tests in the order of the definition.
fn tables_stand(b: &TableBytes) -> bool
    ensures { result ≡ stands_for_tables b.now }
{
    if 1 < read_u16(b, MARK_AT) {
        return false;
    }
    if !files_stand(b) {
        return false;
    }
    if !streams_stand(b) {
        return false;
    }
    opens_stand(b)
}

pub fn stands_for_tables(b: &[u8]) -> bool
    ensures { result ≡ stands_for_tables b.now }
{
    match b.as_array::<TABLES_SIZE>() {
        Some(tables) => tables_stand(tables),
        None => false,
    }
}

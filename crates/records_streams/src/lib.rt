// The streams in the lent bytes: each read and written by its number. A number past the table's end reads as a free slot,
// and nothing is written there.
#![tactic(auto)]

ghost use Rattle.std.specs.Prelude.{◌≡◌, ◌+◌, ◌≤◌, length};
ghost use Rattle.little_endian.specs.LittleEndian.{part};
ghost use Rattle.little_endian.specs.Writes.{Wrote};
ghost use Rattle.layout.specs.Records.{counts_codec, stream_codec};
ghost use Rattle.layout.specs.Layout.{stream_size, decode, Changed};
ghost use Rattle.layout.specs.Puts.{put_stream, put_counts};
ghost use Rattle.tables.specs.Tables.{stream_at};

use codecs::{read_units, write_units};
use layout::places::STREAMS;
use layout::{COUNTS_IN, STREAM_MARK_IN, TableBytes, kind_number, kind_of, mark_number};
use little_endian::{read_u16, write_u16};
use records::sizes::STREAM_NAME_LIMIT;
use records::slots::{ZERO_COUNTS, ZERO_STREAM};
use records::{FileNo, FileType, ShareCounts, Stream, StreamNo};

fn counts_from(b: &[u8], at: usize) -> ShareCounts
    requires { at + counts_codec.size ≤ length b.now }
    ensures { result ≡ counts_codec.decode (part b.now at counts_codec.size) }
{
    ShareCounts {
        opens: read_u16(b, at),
        readers: read_u16(b, at + 2),
        writers: read_u16(b, at + 4),
        deleters: read_u16(b, at + 6),
        shared_read: read_u16(b, at + 8),
        shared_write: read_u16(b, at + 10),
        shared_delete: read_u16(b, at + 12),
    }
}

fn put_counts(b: &mut [u8], at: usize, c: ShareCounts)
    requires { at + counts_codec.size ≤ length b.old }
    ensures { Wrote b.old at (counts_codec.encode c) b.new }
{
    write_u16(b, at, c.opens);
    write_u16(b, at + 2, c.readers);
    write_u16(b, at + 4, c.writers);
    write_u16(b, at + 6, c.deleters);
    write_u16(b, at + 8, c.shared_read);
    write_u16(b, at + 10, c.shared_write);
    write_u16(b, at + 12, c.shared_delete);
}

pub fn stream_from(b: &[u8], at: usize) -> Stream
    requires { at + stream_size ≤ length b.now }
    ensures { result ≡ stream_codec.decode (part b.now at stream_size) }
{
    let mut name = [0; STREAM_NAME_LIMIT];
    read_units(b, at + 4, &mut name);
    Stream {
        file: FileNo(read_u16(b, at + 2)),
        stream_type: kind_of(read_u16(b, at)),
        name,
        counts: counts_from(b, at + COUNTS_IN),
        delete_pending: read_u16(b, at + STREAM_MARK_IN) != 0,
    }
}

pub fn read_stream(b: &TableBytes, n: StreamNo) -> Stream
    ensures { result ≡ stream_at (decode b.now).volume.streams n }
{
    match STREAMS.place(n.0 as usize) {
        Some(at) => stream_from(b, at),
        None => ZERO_STREAM,
    }
}

fn put_stream(b: &mut [u8], at: usize, s: Stream)
    requires { at + stream_size ≤ length b.old }
    ensures { Wrote b.old at (stream_codec.encode s) b.new }
{
    write_u16(b, at, kind_number(s.stream_type));
    write_u16(b, at + 2, s.file.0);
    write_units(b, at + 4, &s.name);
    put_counts(b, at + COUNTS_IN, s.counts);
    write_u16(b, at + STREAM_MARK_IN, mark_number(s.delete_pending));
}

pub fn write_stream(b: &mut TableBytes, n: StreamNo, s: Stream)
    ensures { Changed b.old b.new (put_stream (decode b.old) n s) }
{
    if let Some(at) = STREAMS.place(n.0 as usize) {
        put_stream(b, at, s);
    }
}

// A stream's share counts alone.
pub fn read_counts(b: &TableBytes, n: StreamNo) -> ShareCounts
    ensures { result ≡ (stream_at (decode b.now).volume.streams n).counts }
{
    match STREAMS.place(n.0 as usize) {
        Some(at) => counts_from(b, at + COUNTS_IN),
        None => ZERO_COUNTS,
    }
}

pub fn write_counts(b: &mut TableBytes, n: StreamNo, c: ShareCounts)
    ensures { Changed b.old b.new (put_counts (decode b.old) n c) }
{
    if let Some(at) = STREAMS.place(n.0 as usize) {
        put_counts(b, at + COUNTS_IN, c);
    }
}

// A stream's kind alone.
pub fn read_stream_type(b: &TableBytes, n: StreamNo) -> FileType
    ensures { result ≡ (stream_at (decode b.now).volume.streams n).stream_type }
{
    match STREAMS.place(n.0 as usize) {
        Some(at) => kind_of(read_u16(b, at)),
        None => FileType::Unused,
    }
}

// A stream's file alone.
pub fn read_stream_file(b: &TableBytes, n: StreamNo) -> FileNo
    ensures { result ≡ (stream_at (decode b.now).volume.streams n).file }
{
    match STREAMS.place(n.0 as usize) {
        Some(at) => FileNo(read_u16(b, at + 2)),
        None => FileNo(0),
    }
}

// A stream's mark alone: it goes with its last open.
pub fn read_stream_mark(b: &TableBytes, n: StreamNo) -> bool
    ensures { result ≡ (stream_at (decode b.now).volume.streams n).delete_pending }
{
    match STREAMS.place(n.0 as usize) {
        Some(at) => read_u16(b, at + STREAM_MARK_IN) != 0,
        None => false,
    }
}

// The opens in the lent bytes: each read and written by its row. A row past the table's end reads as a free one, and
// nothing is written there.
#![tactic(auto)]

ghost use Rattle.std.specs.Prelude.{◌≡◌, ◌+◌, ◌≤◌, length};
ghost use Rattle.little_endian.specs.LittleEndian.{part};
ghost use Rattle.little_endian.specs.Writes.{Wrote};
ghost use Rattle.layout.specs.Records.{open_codec};
ghost use Rattle.layout.specs.Layout.{open_size, decode, Changed};
ghost use Rattle.layout.specs.Puts.{put_open};
ghost use Rattle.tables.specs.Tables.{row_at};

use layout::places::OPENS;
use layout::{OPEN_MARK_IN, TableBytes, mark_number};
use little_endian::{read_u16, read_u32, read_u64, write_u16, write_u32, write_u64};
use records::slots::ZERO_OPEN;
use records::{FileNo, Handle, Open, StreamNo};

fn open_from(b: &[u8], at: usize) -> Open
    requires { at + open_size ≤ length b.now }
    ensures { result ≡ open_codec.decode (part b.now at open_size) }
{
    Open {
        handle: Handle(read_u64(b, at)),
        file: FileNo(read_u16(b, at + 8)),
        stream: StreamNo(read_u16(b, at + 10)),
        granted: read_u32(b, at + 12),
        share: read_u32(b, at + 16),
        delete_on_close: read_u16(b, at + OPEN_MARK_IN) != 0,
    }
}

pub fn read_open(b: &TableBytes, n: usize) -> Open
    ensures { result ≡ row_at (decode b.now).opens n }
{
    match OPENS.place(n) {
        Some(at) => open_from(b, at),
        None => ZERO_OPEN,
    }
}

fn put_open(b: &mut [u8], at: usize, o: Open)
    requires { at + open_size ≤ length b.old }
    ensures { Wrote b.old at (open_codec.encode o) b.new }
{
    write_u64(b, at, o.handle.0);
    write_u16(b, at + 8, o.file.0);
    write_u16(b, at + 10, o.stream.0);
    write_u32(b, at + 12, o.granted);
    write_u32(b, at + 16, o.share);
    write_u16(b, at + OPEN_MARK_IN, mark_number(o.delete_on_close));
}

pub fn write_open(b: &mut TableBytes, n: usize, o: Open)
    ensures { Changed b.old b.new (put_open (decode b.old) n o) }
{
    if let Some(at) = OPENS.place(n) {
        put_open(b, at, o);
    }
}

// An open's handle alone.
pub fn read_handle(b: &TableBytes, n: usize) -> Handle
    ensures { result ≡ (row_at (decode b.now).opens n).handle }
{
    match OPENS.place(n) {
        Some(at) => Handle(read_u64(b, at)),
        None => Handle(0),
    }
}

// An open's file alone.
pub fn read_open_file(b: &TableBytes, n: usize) -> FileNo
    ensures { result ≡ (row_at (decode b.now).opens n).file }
{
    match OPENS.place(n) {
        Some(at) => FileNo(read_u16(b, at + 8)),
        None => FileNo(0),
    }
}

// An open's stream alone.
pub fn read_open_stream(b: &TableBytes, n: usize) -> StreamNo
    ensures { result ≡ (row_at (decode b.now).opens n).stream }
{
    match OPENS.place(n) {
        Some(at) => StreamNo(read_u16(b, at + 10)),
        None => StreamNo(0),
    }
}

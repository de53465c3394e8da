// The files in the lent bytes: each read and written by its number. A number past the table's end reads as a free slot,
// and nothing is written there.
#![tactic(auto)]

ghost use Rattle.std.specs.Prelude.{◌≡◌, ◌+◌, ◌≤◌, length};
ghost use Rattle.little_endian.specs.LittleEndian.{part};
ghost use Rattle.little_endian.specs.Writes.{Wrote};
ghost use Rattle.layout.specs.Records.{file_codec};
ghost use Rattle.layout.specs.Layout.{file_size, decode, Changed};
ghost use Rattle.layout.specs.Puts.{put_file};
ghost use Rattle.tables.specs.Tables.{file_at};

use codecs::{read_words, write_words};
use layout::places::FILES;
use layout::{FILE_MARK_IN, TableBytes, kind_number, kind_of, mark_number};
use little_endian::{read_u16, read_u32, write_u16, write_u32};
use records::sizes::ACCOUNTS;
use records::slots::ZERO_FILE;
use records::{File, FileNo, FileType};

pub fn file_from(b: &[u8], at: usize) -> File
    requires { at + file_size ≤ length b.now }
    ensures { result ≡ file_codec.decode (part b.now at file_size) }
{
    let mut masks = [0; ACCOUNTS];
    read_words(b, at + 6, &mut masks);
    File {
        file_type: kind_of(read_u16(b, at)),
        attributes: read_u32(b, at + 2),
        masks,
        delete_pending: read_u16(b, at + FILE_MARK_IN) != 0,
    }
}

pub fn read_file(b: &TableBytes, n: FileNo) -> File
    ensures { result ≡ file_at (decode b.now).volume.files n }
{
    match FILES.place(n.0 as usize) {
        Some(at) => file_from(b, at),
        None => ZERO_FILE,
    }
}

fn put_file(b: &mut [u8], at: usize, f: File)
    requires { at + file_size ≤ length b.old }
    ensures { Wrote b.old at (file_codec.encode f) b.new }
{
    write_u16(b, at, kind_number(f.file_type));
    write_u32(b, at + 2, f.attributes);
    write_words(b, at + 6, &f.masks);
    write_u16(b, at + FILE_MARK_IN, mark_number(f.delete_pending));
}

pub fn write_file(b: &mut TableBytes, n: FileNo, f: File)
    ensures { Changed b.old b.new (put_file (decode b.old) n f) }
{
    if let Some(at) = FILES.place(n.0 as usize) {
        put_file(b, at, f);
    }
}

// A file's kind alone.
pub fn read_file_type(b: &TableBytes, n: FileNo) -> FileType
    ensures { result ≡ (file_at (decode b.now).volume.files n).file_type }
{
    match FILES.place(n.0 as usize) {
        Some(at) => kind_of(read_u16(b, at)),
        None => FileType::Unused,
    }
}

// A file's mark alone: it goes with its last open.
pub fn read_file_mark(b: &TableBytes, n: FileNo) -> bool
    ensures { result ≡ (file_at (decode b.now).volume.files n).delete_pending }
{
    match FILES.place(n.0 as usize) {
        Some(at) => read_u16(b, at + FILE_MARK_IN) != 0,
        None => false,
    }
}

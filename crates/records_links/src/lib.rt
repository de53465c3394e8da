// The links in the lent bytes: each read and written by its number. A number past the table's end reads as a free slot,
// and nothing is written there.
#![tactic(auto)]

ghost use Rattle.std.specs.Prelude.{◌≡◌, ◌+◌, ◌≤◌, length};
ghost use Rattle.little_endian.specs.LittleEndian.{part};
ghost use Rattle.little_endian.specs.Writes.{Wrote};
ghost use Rattle.layout.specs.Records.{link_codec};
ghost use Rattle.layout.specs.Layout.{link_size, decode, Changed};
ghost use Rattle.layout.specs.Puts.{put_link};
ghost use Rattle.base.specs.Base.{link_used};
ghost use Rattle.tables.specs.Tables.{link_at};

use codecs::{read_units, write_units};
use layout::TableBytes;
use layout::places::LINKS;
use little_endian::{read_u16, write_u16};
use records::sizes::FILE_NAME_LIMIT;
use records::slots::ZERO_LINK;
use records::{FileNo, Link, LinkNo};

pub fn link_from(b: &[u8], at: usize) -> Link
    requires { at + link_size ≤ length b.now }
    ensures { result ≡ link_codec.decode (part b.now at link_size) }
{
    let mut name = [0; FILE_NAME_LIMIT];
    read_units(b, at + 4, &mut name);
    Link {
        parent: FileNo(read_u16(b, at)),
        name,
        file: FileNo(read_u16(b, at + 2)),
    }
}

pub fn read_link(b: &TableBytes, n: LinkNo) -> Link
    ensures { result ≡ link_at (decode b.now).volume.links n }
{
    match LINKS.place(n.0 as usize) {
        Some(at) => link_from(b, at),
        None => ZERO_LINK,
    }
}

fn put_link(b: &mut [u8], at: usize, l: Link)
    requires { at + link_size ≤ length b.old }
    ensures { Wrote b.old at (link_codec.encode l) b.new }
{
    write_u16(b, at, l.parent.0);
    write_u16(b, at + 2, l.file.0);
    write_units(b, at + 4, &l.name);
}

pub fn write_link(b: &mut TableBytes, n: LinkNo, l: Link)
    ensures { Changed b.old b.new (put_link (decode b.old) n l) }
{
    if let Some(at) = LINKS.place(n.0 as usize) {
        put_link(b, at, l);
    }
}

// A link's parent alone.
pub fn read_parent(b: &TableBytes, n: LinkNo) -> FileNo
    ensures { result ≡ (link_at (decode b.now).volume.links n).parent }
{
    match LINKS.place(n.0 as usize) {
        Some(at) => FileNo(read_u16(b, at)),
        None => FileNo(0),
    }
}

// A link's file alone.
pub fn read_link_file(b: &TableBytes, n: LinkNo) -> FileNo
    ensures { result ≡ (link_at (decode b.now).volume.links n).file }
{
    match LINKS.place(n.0 as usize) {
        Some(at) => FileNo(read_u16(b, at + 2)),
        None => FileNo(0),
    }
}

// Whether a link's slot is used: by the first unit of its name alone.
pub fn read_link_used(b: &TableBytes, n: LinkNo) -> bool
    ensures { result ≡ link_used (link_at (decode b.now).volume.links n) }
{
    match LINKS.place(n.0 as usize) {
        Some(at) => read_u16(b, at + 4) != 0,
        None => false,
    }
}

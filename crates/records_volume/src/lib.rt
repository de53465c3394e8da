// The volume's read-only mark and next handle in the lent bytes.
#![tactic(auto)]

ghost use Rattle.std.specs.Prelude.{◌≡◌};
ghost use Rattle.layout.specs.Layout.{decode, Changed};
ghost use Rattle.layout.specs.Puts.{put_mark, put_next};

use layout::{MARK_AT, NEXT_AT, TableBytes, mark_number};
use little_endian::{read_u16, read_u64, write_u16, write_u64};
use records::Handle;

// The read-only mark.
pub fn read_mark(b: &TableBytes) -> bool
    ensures { result ≡ (decode b.now).volume.read_only }
{
    read_u16(b, MARK_AT) != 0
}

pub fn write_mark(b: &mut TableBytes, mark: bool)
    ensures { Changed b.old b.new (put_mark (decode b.old) mark) }
{
    write_u16(b, MARK_AT, mark_number(mark));
}

// The handle of the next open.
pub fn read_next(b: &TableBytes) -> Handle
    ensures { result ≡ (decode b.now).volume.next_handle }
{
    Handle(read_u64(b, NEXT_AT))
}

pub fn write_next(b: &mut TableBytes, h: Handle)
    ensures { Changed b.old b.new (put_next (decode b.old) h) }
{
    write_u64(b, NEXT_AT, h.0);
}

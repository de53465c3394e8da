// The lowest free slot of each table of the volume, in the lent bytes: one field a slot says whether it is free. A
// table with none is full.
#![tactic(auto)]

ghost use Rattle.std.specs.Prelude.{◌≡◌};
ghost use Rattle.records.specs.Checked.{as_checked};
ghost use Rattle.records.specs.Namespace.{namespace};
ghost use Rattle.layout.specs.Layout.{decode};
ghost use Rattle.free_slots.specs.Free.{Lowest, free_file, free_link, free_stream};

use layout::TableBytes;
use records::sizes::{FILE_SLOTS, LINK_SLOTS, STREAM_SLOTS};
use records::slots::is_used;
use records::{FileNo, LinkNo, Status, StreamNo};
use records_files::read_file_type;
use records_links::read_link_used;
use records_streams::read_stream_type;

// The lowest free slot from a place on, of a table of so many slots.
fn lowest<F: Fn(u16) -> bool>(from: usize, slots: u16, is_free: F) -> Result<u16, Status>
    requires { F.IsAlwaysCallable is_free }
    ensures { Lowest (F.post is_free) from slots result }
{
    for i in from..slots as usize {
        let n = i as u16;
        if is_free(n) {
            return Ok(n);
        }
    }
    Err(Status::DiskFull)
}

pub fn free_file(b: &TableBytes) -> Result<FileNo, Status>
    ensures { as_checked (λ n. n) result ≡ free_file (namespace (decode b.now).volume) }
{
    lowest(
        0,
        FILE_SLOTS as u16,
        |i| !is_used(read_file_type(b, FileNo(i))),
    )
    .map(FileNo)
}

pub fn free_link(b: &TableBytes) -> Result<LinkNo, Status>
    ensures { as_checked (λ n. n) result ≡ free_link (namespace (decode b.now).volume) }
{
    lowest(0, LINK_SLOTS as u16, |i| !read_link_used(b, LinkNo(i))).map(LinkNo)
}

// The search starts at a place: an open may add two streams.
pub fn free_stream(b: &TableBytes, from: usize) -> Result<StreamNo, Status>
    ensures { as_checked (λ n. n) result ≡ free_stream (namespace (decode b.now).volume) from }
{
    lowest(
        from,
        STREAM_SLOTS as u16,
        |i| !is_used(read_stream_type(b, StreamNo(i))),
    )
    .map(StreamNo)
}

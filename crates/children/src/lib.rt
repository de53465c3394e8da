// The children of a file: whether some link has it as its parent.
#![tactic(auto)]

ghost use Rattle.std.specs.Prelude.{◌≡◌};
ghost use Rattle.layout.specs.Layout.{decode};
ghost use Rattle.tables.specs.Tables.{link_at};
ghost use Rattle.consistency.specs.Relations.{child_of, has_children};

use layout::TableBytes;
use records::sizes::LINK_SLOTS;
use records::{FileNo, LinkNo};
use records_links::{read_link_used, read_parent};

// Whether the link at a number has a file as its parent. Whether it is used is read only where the parent agrees.
fn is_child(b: &TableBytes, f: FileNo, n: LinkNo) -> bool
    ensures { result ≡ child_of f (link_at (decode b.now).volume.links n) }
{
    read_parent(b, n) == f && read_link_used(b, n)
}

pub fn has_children(b: &TableBytes, f: FileNo) -> bool
    ensures { result ≡ has_children (decode b.now).volume.links f }
{
    (0..LINK_SLOTS).any(|i| is_child(b, f, LinkNo(i as u16)))
}

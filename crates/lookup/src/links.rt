// A directory's link by name: the lowest matching slot.
ghost use Rattle.std.specs.Prelude.{◌≡◌};
ghost use Rattle.records.specs.Namespace.{namespace};
ghost use Rattle.records.specs.Checked.{as_option};
ghost use Rattle.layout.specs.Layout.{decode};
ghost use Rattle.tables.specs.Tables.{link_at};
ghost use Rattle.lookup.specs.Lookup.{link_matches, find_link};

use layout::TableBytes;
use records::sizes::LINK_SLOTS;
use records::{FileNo, LinkNo};
use records_links::{read_link, read_parent};
use stored_names::name_equals;

// Whether a link is the directory's, under the name. The name is read only where the parent agrees.
#[tactic(auto, unfolding(crate::specs::Lookup::link_matches))]
fn link_matches(b: &TableBytes, n: LinkNo, dir: FileNo, name: &[u16], fold: bool) -> bool
    ensures { result ≡ link_matches fold dir name.now (link_at (decode b.now).volume.links n) }
{
    read_parent(b, n) == dir && name_equals(&read_link(b, n).name, name, fold)
}

pub fn find_link(b: &TableBytes, dir: FileNo, name: &[u16], fold: bool) -> Option<LinkNo>
    ensures { as_option result ≡ find_link (namespace (decode b.now).volume) fold dir name.now }
{
    (0..LINK_SLOTS as u16)
        .find(|i| link_matches(b, LinkNo(*i), dir, name, fold))
        .map(LinkNo)
}

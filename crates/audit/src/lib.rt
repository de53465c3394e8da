// The audit: whether lent bytes stand for consistent tables (the paper's soundness), decided table by table.
#![tactic(auto)]

ghost use Rattle.std.specs.Prelude.{◌≡◌};
ghost use Rattle.consistency.specs.Test.{consistent};
ghost use Rattle.layout.specs.Layout.{decode};
ghost use Rattle.audit.specs.Sound.{sound_bytes};

use audit_conflicts::no_conflicts;
use audit_files::files_consistent;
use audit_links::links_consistent;
use audit_marks::marks_consistent;
use audit_opens::opens_consistent;
use audit_streams::streams_consistent;
use layout::{TABLES_SIZE, TableBytes};
use layout_stands::stands_for_tables;

// Whether the tables are consistent. The walk over the opens decides once their counts are known to be true: as a chain of
// returns an order in which it comes before them is refused.
fn tables_consistent(b: &TableBytes) -> bool
    ensures { result ≡ consistent (decode b.now).volume (decode b.now).opens }
{
    if !files_consistent(b) {
        return false;
    }
    if !links_consistent(b) {
        return false;
    }
    if !streams_consistent(b) {
        return false;
    }
    if !opens_consistent(b) {
        return false;
    }
    if !no_conflicts(b) {
        return false;
    }
    marks_consistent(b)
}

// Whether the bytes stand for consistent tables.
#[tactic(auto, unfolding(crate::specs::Sound::sound_bytes))]
pub fn audit(b: &[u8]) -> bool
    ensures { result ≡ sound_bytes b.now }
{
    match b.as_array::<TABLES_SIZE>() {
        Some(tables) => stands_for_tables(tables) && tables_consistent(tables),
        None => false,
    }
}

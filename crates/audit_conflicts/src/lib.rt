// The audit of the opens against each other: no two of one stream conflict. It follows the test of the share counts,
// as it decides from them.
#![tactic(auto)]

ghost use Rattle.std.specs.Prelude.{◌≡◌, not, ◌||◌};
ghost use Rattle.records.specs.Slots.{open_used};
ghost use Rattle.layout.specs.Layout.{decode};
ghost use Rattle.tables.specs.Tables.{row_at};
ghost use Rattle.audit_conflicts.specs.Others.{agrees_with_others, others_test};

use layout::TableBytes;
use records::sizes::OPEN_SLOTS;
use records::slots::open_used;
use records_opens::read_open;
use records_streams::read_counts;
use sharing::others_check;

// Whether the row at a place is free, or passes against the counts of its stream less its own part.
fn row_passes(b: &TableBytes, i: usize) -> bool
    ensures { let t = decode b.now in
        let o = row_at t.opens i in
        result ≡ (not (open_used o) || agrees_with_others t.volume.streams o) }
{
    let o = read_open(b, i);
    !open_used(o) || !others_check(read_counts(b, o.stream), o)
}

// Whether each row does, in one pass.
pub fn no_conflicts(b: &TableBytes) -> bool
    ensures { let t = decode b.now in
        result ≡ others_test t.volume.streams t.opens.rows }
{
    (0..OPEN_SLOTS).all(|i| row_passes(b, i))
}

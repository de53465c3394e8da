// The opens as a lent row of records, `&[Open]` and `&mut [Open]`: the record at a row, a record stored at a row, and what a
// search finds. Above them stand functions on the lent bytes, which read the table into a row once.
#![tactic(auto)]

ghost use Rattle.std.specs.Prelude.{◌≡◌, get_or, set};
ghost use Rattle.lists.specs.Lists.{first};
ghost use Rattle.layout.specs.Layout.{decode};
ghost use Rattle.open_table.specs.Rows.{has_handle};
ghost use Rattle.records.specs.Checked.{as_option};
ghost use Rattle.records.specs.Terms.{terms_of};
ghost use Rattle.sharing.specs.Sharing.{conflict, any_conflict};
ghost use Rattle.tables.specs.Tables.{live};

use layout::TableBytes;
use records::sizes::OPEN_SLOTS;
use records::slots::ZERO_OPEN;
use records::{Handle, Open, StreamNo, Terms};
use records_opens::read_open;
use sharing::conflicting;

// The open at a row. Past the end it is the one that stands for none.
fn open_at(row: &[Open], i: usize, none: Open) -> Open
    ensures { result ≡ get_or row.now i none }
{
    row.get(i).copied().unwrap_or(none)
}

// An open stored at a row. Past the end nothing is stored.
fn store_at(row: &mut [Open], i: usize, o: Open)
    ensures { row.new ≡ set row.old i o }
{
    if i < row.len() {
        row[i] = o;
    }
}

// An open conflicts with one of these terms (the pair rule).
fn conflicts_with(o: Open, t: Terms) -> bool
    ensures { result ≡ conflict (terms_of o) t }
{
    let new = Open {
        granted: t.granted,
        share: t.share,
        ..o
    };
    conflicting(o, new)
}

// The lowest row whose open has the handle. No open has handle 0.
fn row_of(row: &[Open], h: Handle) -> Option<usize>
    ensures { as_option result ≡ first (has_handle h) row.now }
{
    row.iter().position(|o| o.handle.0 != 0 && o.handle == h)
}

// Some open on the stream conflicts with one of these terms.
fn some_conflict(row: &[Open], stream: StreamNo, t: Terms) -> bool
    ensures { result ≡ any_conflict stream t (live row.now) }
{
    row.iter().any(|o| o.handle.0 != 0 && o.stream == stream && conflicts_with(*o, t))
}

// The table of opens into a row. The row is the caller's: one that is answered, or that `array::from_fn` makes, is on the stack
// twice or three times, and a close then takes 18.6 kB.
fn read_opens(b: &TableBytes, rows: &mut [Open; OPEN_SLOTS])
    ensures { rows.new ≡ (decode b.now).opens.rows }
{
    for i in 0..OPEN_SLOTS {
        rows[i] = read_open(b, i);
    }
}

// The row of the open that has the handle. It is not inlined, so that its row of opens is on the stack only while it runs.
#[inline(never)]
pub fn find_open(b: &TableBytes, h: Handle) -> Option<usize>
    ensures { as_option result ≡ first (has_handle h) (decode b.now).opens.rows }
{
    let mut rows = [ZERO_OPEN; OPEN_SLOTS];
    read_opens(b, &mut rows);
    row_of(&rows, h)
}

// Some open on the stream conflicts with one of these terms: what the share check says from the counts, by the pair
// rule.
pub fn conflict_on(b: &TableBytes, stream: StreamNo, t: Terms) -> bool
    ensures { result ≡ any_conflict stream t (live (decode b.now).opens.rows) }
{
    let mut rows = [ZERO_OPEN; OPEN_SLOTS];
    read_opens(b, &mut rows);
    some_conflict(&rows, stream, t)
}

// The open that a row has once it is stored there, of the table read into a row: what goes back to the bytes. It is not
// inlined, for the same reason.
#[inline(never)]
pub fn change_row(b: &TableBytes, row: usize, o: Open) -> Open
    ensures { result ≡ o }
{
    let mut rows = [ZERO_OPEN; OPEN_SLOTS];
    read_opens(b, &mut rows);
    store_at(&mut rows, row, o);
    open_at(&rows, row, o)
}

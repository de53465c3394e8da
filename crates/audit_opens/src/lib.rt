// The audit of the open table: each row by itself, and the handles, by their numbers; then the share counts, counted
// anew and held against those that the streams have. A pass goes from the last row to the first, as each row comes in
// front of those passed.
#![tactic(auto)]

ghost use Rattle.std.specs.Prelude.{ℕ, ◌<◌, ◌≡◌, false, ◌&&◌, [], get_or};
ghost use Rattle.records.specs.Slots.{zero_counts, open_used};
ghost use Rattle.records.specs.Sizes.{stream_slots};
ghost use Rattle.records.specs.Namespace.{namespace};
ghost use Rattle.layout.specs.Layout.{decode};
ghost use Rattle.tables.specs.Tables.{live};
ghost use Rattle.sharing.specs.Sharing.{counts_of};
ghost use Rattle.consistency.specs.Slots.{slot_test};
ghost use Rattle.consistency.specs.Good.{good_open, is_zero_open};
ghost use Rattle.consistency.specs.Test.{opens_test, same_counts, counts_test};

use bits::within;
use distinct::distinct;
use layout::TableBytes;
use records::constants::{ALL_ACCESS, SHARE_ALL};
use records::sizes::{OPEN_SLOTS, STREAM_SLOTS};
use records::slots::{ZERO_COUNTS, is_used, open_used};
use records::{FileNo, FileType, Open, ShareCounts, StreamNo};
use records_opens::read_open;
use records_streams::{read_counts, read_stream_file, read_stream_type};
use records_volume::read_next;
use sharing::with_open;

// What a free slot has beside its handle is zero.
#[tactic(auto, unfolding(consistency::specs::Good::is_zero_open))]
fn is_zero_open(o: Open) -> bool
    ensures { result ≡ is_zero_open o }
{
    (o.file.0 == 0) & (o.stream.0 == 0) & (o.granted == 0) & (o.share == 0) & !o.delete_on_close
}

// A used slot, with the kind and the file of the stream that it names: the stream is used and its file is the open's,
// some access is granted and none but what there is, the sharing mode is one, the handle was given out, and no
// delete-on-close open is on the root.
#[tactic(auto, unfolding(consistency::specs::Good::good_open, records::specs::Namespace::bare_used))]
fn good_open(o: Open, kind: FileType, file: FileNo, next: u64) -> bool
    ensures { result ≡ good_open (record { file = file; stream_type = kind; name = []; delete_pending = false }) next o }
{
    is_used(kind)
        & (o.file == file)
        & (o.granted != 0)
        & within(o.granted, ALL_ACCESS)
        & (o.share <= SHARE_ALL)
        & (o.handle.0 < next)
        & !(o.delete_on_close & (o.file.0 == 0))
}

// A row by itself, with the kind and the file of the stream that it names.
fn row_consistent(o: Open, kind: FileType, file: FileNo, next: u64) -> bool
    ensures { result ≡ slot_test open_used (good_open (record { file = file; stream_type = kind; name = []; delete_pending = false }) next) is_zero_open o }
{
    if open_used(o) {
        good_open(o, kind, file, next)
    } else {
        is_zero_open(o)
    }
}

#[tactic(auto, unfolding(consistency::specs::Test::same_counts))]
pub fn same_counts(c: ShareCounts, d: ShareCounts) -> bool
    ensures { result ≡ same_counts c d }
{
    c == d
}

// The share counts of every stream, by its number, of its live opens. A row that names no slot of the streams table
// counts for none.
fn counts_found(b: &TableBytes) -> [ShareCounts; STREAM_SLOTS]
    ensures { (n : ℕ) → n < stream_slots → get_or result n zero_counts ≡ counts_of (record { 0 = n }) (live (decode b.now).opens.rows) }
{
    let mut counts = [ZERO_COUNTS; STREAM_SLOTS];
    for i in (0..OPEN_SLOTS).rev() {
        let o = read_open(b, i);
        let n = o.stream.0 as usize;
        if open_used(o) && n < STREAM_SLOTS {
            counts[n] = with_open(o, counts[n]);
        }
    }
    counts
}

// Whether every stream has the counts of its opens.
fn counts_true(b: &TableBytes) -> bool
    ensures { result ≡ counts_test (decode b.now).volume.streams (decode b.now).opens.rows }
{
    let counts = counts_found(b);
    (0..STREAM_SLOTS).all(|i| same_counts(read_counts(b, StreamNo(i as u16)), counts[i]))
}

// Each row by itself, and the handles. A row that names no slot of the streams table fails: no stream is used there,
// and the row is not zero.
fn rows_consistent(b: &TableBytes) -> bool
    ensures { let v = (decode b.now).volume in
        result ≡ opens_test (namespace v).streams v.next_handle.0 (decode b.now).opens.rows }
{
    let next = read_next(b).0;
    if next == 0 {
        return false;
    }
    let mut keys = [0u64; OPEN_SLOTS];
    for i in (0..OPEN_SLOTS).rev() {
        let o = read_open(b, i);
        let stream = o.stream;
        let kind = read_stream_type(b, stream);
        let file = read_stream_file(b, stream);
        if !row_consistent(o, kind, file, next) {
            return false;
        }
        keys[i] = o.handle.0;
    }
    distinct(&keys)
}

pub fn opens_consistent(b: &TableBytes) -> bool
    ensures { let t = decode b.now in
        let v = t.volume in
        let rows = t.opens.rows in
        result ≡ (opens_test (namespace v).streams v.next_handle.0 rows && counts_test v.streams rows) }
{
    rows_consistent(b) && counts_true(b)
}

// The audit of the marks: a marked file is not the root, has no children and has an open, and a marked stream has an
// open of its own. Marks are rare, so links and opens are looked through only for what is marked.
#![tactic(auto)]

ghost use Rattle.std.specs.Prelude.{◌≡◌};
ghost use Rattle.lists.specs.Lists.{all_from};
ghost use Rattle.records.specs.Namespace.{bare_at, namespace};
ghost use Rattle.layout.specs.Layout.{decode};
ghost use Rattle.tables.specs.Tables.{file_at};
ghost use Rattle.consistency.specs.Test.{file_mark_test, stream_mark_test, marks_test};

use children::has_children;
use layout::TableBytes;
use open_table::{file_has_open, stream_has_open};
use records::sizes::{FILE_SLOTS, STREAM_SLOTS};
use records::{FileNo, StreamNo};
use records_files::read_file_mark;
use records_streams::read_stream_mark;

// Children and opens are looked for only where there is a mark.
#[tactic(auto, unfolding(consistency::specs::Test::file_mark_test))]
fn file_mark_consistent(b: &TableBytes, n: FileNo) -> bool
    ensures { let t = decode b.now in
        result ≡ file_mark_test t.volume.links t.opens.rows n.0 (file_at t.volume.files n) }
{
    !read_file_mark(b, n) || (n.0 != 0 && !has_children(b, n) && file_has_open(b, n))
}

fn stream_mark_consistent(b: &TableBytes, n: StreamNo) -> bool
    ensures { let t = decode b.now in
        result ≡ stream_mark_test t.opens.rows n.0 (bare_at (namespace t.volume).streams n) }
{
    !read_stream_mark(b, n) || stream_has_open(b, n)
}

fn file_marks_consistent(b: &TableBytes) -> bool
    ensures { let t = decode b.now in
        result ≡ all_from (file_mark_test t.volume.links t.opens.rows) 0 t.volume.files }
{
    (0..FILE_SLOTS).all(|i| file_mark_consistent(b, FileNo(i as u16)))
}

fn stream_marks_consistent(b: &TableBytes) -> bool
    ensures { let t = decode b.now in
        result ≡ all_from (stream_mark_test t.opens.rows) 0 (namespace t.volume).streams }
{
    (0..STREAM_SLOTS).all(|i| stream_mark_consistent(b, StreamNo(i as u16)))
}

#[tactic(auto, unfolding(consistency::specs::Test::marks_test))]
pub fn marks_consistent(b: &TableBytes) -> bool
    ensures { let t = decode b.now in
        let v = t.volume in
        result ≡ marks_test v.files v.links (namespace v).streams t.opens.rows }
{
    file_marks_consistent(b) && stream_marks_consistent(b)
}

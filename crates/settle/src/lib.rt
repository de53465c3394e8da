// What becomes of the file and the stream of an open that was closed: decided by what the tables hold, and written.
#![tactic(auto)]

ghost use Rattle.std.specs.Prelude.{◌≡◌, ℕ, Bool};
ghost use Rattle.base.specs.Base.{link_slots, stream_slots, Tables, FileNo};
ghost use Rattle.layout.specs.Layout.{decode, Changed};
ghost use Rattle.layout.specs.Puts.{put_file, put_stream};
ghost use Rattle.records.specs.Namespace.{bare, namespace};
ghost use Rattle.store.specs.Close.{of_named_stream, marks_file, marks_stream, removes_file, removes_stream, close_effect, file_removed, marked_file};
ghost use Rattle.store.specs.Store.{store_view, marked_stream, settled};
ghost use Rattle.tables.specs.Tables.{file_at, stream_at};
ghost use Rattle.settle.specs.Settled.{as_effect, tables_after};
ghost use Rattle.settle.specs.Cleared.{FreedInTurn, is_link_of, link_freed, without_links, links_in_turn, is_stream_of, stream_freed, without_streams, streams_in_turn};

use children::has_children;
use layout::TableBytes;
use open_table::{file_has_open, stream_has_open};
use records::sizes::{LINK_SLOTS, STREAM_SLOTS};
use records::slots::{ZERO_FILE, ZERO_LINK, ZERO_STREAM, is_used};
use records::{File, FileNo, Link, LinkNo, Open, Stream, StreamNo};
use records_files::{read_file, read_file_mark, write_file};
use records_links::{read_link_file, read_link_used, write_link};
use records_streams::{
    read_stream, read_stream_file, read_stream_mark, read_stream_type, write_stream,
};
use stored_names::unit_at;

// What a close does to the file or the stream of its open.
#[derive(Clone, Copy)]
pub enum CloseEffect {
    Unchanged,
    FileMarked(FileNo),
    FileRemoved(FileNo),
    StreamMarked(StreamNo),
    StreamRemoved(StreamNo),
}

fn of_named_stream(b: &TableBytes, o: Open) -> bool
    ensures { result ≡ of_named_stream (namespace (decode b.now).volume) o }
{
    unit_at(&read_stream(b, o.stream).name, 0) != 0
}

// A delete-on-close open marks its file, unless that has children.
#[tactic(auto, unfolding(store::specs::Close::marks_file, records::specs::Namespace::namespace))]
fn marks_file(b: &TableBytes, o: Open) -> bool
    ensures { result ≡ marks_file (namespace (decode b.now).volume) o }
{
    o.delete_on_close && !of_named_stream(b, o) && !has_children(b, o.file)
}

// One of a named stream marks that stream alone.
#[tactic(auto, unfolding(store::specs::Close::marks_stream))]
fn marks_stream(b: &TableBytes, o: Open) -> bool
    ensures { result ≡ marks_stream (namespace (decode b.now).volume) o }
{
    o.delete_on_close && of_named_stream(b, o)
}

// A file that is marked, before or now, goes when no open on any of its streams remains.
#[tactic(auto, unfolding(store::specs::Close::removes_file, store::specs::Store::store_view, records::specs::Namespace::namespace))]
fn removes_file(b: &TableBytes, o: Open) -> bool
    ensures { result ≡ removes_file (store_view (decode b.now)) (namespace (decode b.now).volume) o }
{
    (read_file_mark(b, o.file) || marks_file(b, o)) && !file_has_open(b, o.file)
}

// A stream that is, when none on it does.
#[tactic(auto, unfolding(store::specs::Close::removes_stream, store::specs::Store::store_view, records::specs::Namespace::namespace, records::specs::Namespace::bare), using(consistency::proofs::Derived::bare_at_lem))]
fn removes_stream(b: &TableBytes, o: Open) -> bool
    ensures { result ≡ removes_stream (store_view (decode b.now)) (namespace (decode b.now).volume) o }
{
    (read_stream_mark(b, o.stream) || marks_stream(b, o)) && !stream_has_open(b, o.stream)
}

#[tactic(auto, unfolding(store::specs::Close::close_effect, crate::specs::Settled::as_effect))]
fn close_effect(b: &TableBytes, o: Open) -> CloseEffect
    ensures { as_effect result ≡ close_effect (store_view (decode b.now)) (namespace (decode b.now).volume) o }
{
    if removes_file(b, o) {
        return CloseEffect::FileRemoved(o.file);
    }
    if removes_stream(b, o) {
        return CloseEffect::StreamRemoved(o.stream);
    }
    if marks_file(b, o) {
        return CloseEffect::FileMarked(o.file);
    }
    if marks_stream(b, o) {
        return CloseEffect::StreamMarked(o.stream);
    }
    CloseEffect::Unchanged
}

// The marks of a file and of a stream stay two functions: a trait for both would be longer than they are.
fn mark_file(b: &mut TableBytes, n: FileNo)
    ensures { Changed b.old b.new (put_file (decode b.old) n (marked_file (file_at (decode b.old).volume.files n))) }
{
    let f = File {
        delete_pending: true,
        ..read_file(b, n)
    };
    write_file(b, n, f);
}

fn mark_stream(b: &mut TableBytes, n: StreamNo)
    ensures { Changed b.old b.new (put_stream (decode b.old) n (marked_stream (stream_at (decode b.old).volume.streams n))) }
{
    let s = Stream {
        delete_pending: true,
        ..read_stream(b, n)
    };
    write_stream(b, n, s);
}

// A table of which a file has records: its links, or its streams.
trait OfFile {
    const SLOTS: u16;

    ghost SLOTS: { ℕ };

    // the record at a slot is the file's
    ghost is_of: { ℕ → FileNo → Tables → Bool };

    // the tables with a slot freed, and without the file's records from a slot on
    ghost freed: { ℕ → Tables → Tables };

    ghost without_from: { ℕ → FileNo → Tables → Tables };

    fn is_of(b: &TableBytes, n: u16, f: FileNo) -> bool
        ensures { result ≡ is_of n f (decode b.now) };

    fn free(b: &mut TableBytes, n: u16)
        ensures { Changed b.old b.new (freed n (decode b.old)) };

    ghost laws: { FreedInTurn SLOTS is_of freed without_from };
}

impl OfFile for Link {
    const SLOTS: u16 = LINK_SLOTS as u16;

    ghost SLOTS = { link_slots };

    ghost is_of = { is_link_of };

    ghost freed = { link_freed };

    ghost without_from = { without_links };

    ghost laws = { links_in_turn };

    // a used link that names the file
    #[tactic(auto, unfolding(consistency::specs::Relations::link_to, tables::specs::Tables::link_at))]
    fn is_of(b: &TableBytes, n: u16, f: FileNo) -> bool {
        read_link_used(b, LinkNo(n)) && read_link_file(b, LinkNo(n)) == f
    }

    fn free(b: &mut TableBytes, n: u16) {
        write_link(b, LinkNo(n), ZERO_LINK);
    }
}

impl OfFile for Stream {
    const SLOTS: u16 = STREAM_SLOTS as u16;

    ghost SLOTS = { stream_slots };

    ghost is_of = { is_stream_of };

    ghost freed = { stream_freed };

    ghost without_from = { without_streams };

    ghost laws = { streams_in_turn };

    // a used stream that is the file's
    #[tactic(auto, unfolding(consistency::specs::Relations::stream_of, records::specs::Namespace::bare, records::specs::Namespace::bare_used, tables::specs::Tables::stream_at))]
    fn is_of(b: &TableBytes, n: u16, f: FileNo) -> bool {
        is_used(read_stream_type(b, StreamNo(n))) && read_stream_file(b, StreamNo(n)) == f
    }

    fn free(b: &mut TableBytes, n: u16) {
        write_stream(b, StreamNo(n), ZERO_STREAM);
    }
}

// The file's records in a table go.
fn clear<T: OfFile>(b: &mut TableBytes, f: FileNo)
    ensures { Changed b.old b.new (T.without_from 0 f (decode b.old)) }
{
    for i in 0..T::SLOTS {
        if T::is_of(b, i, f) {
            T::free(b, i);
        }
    }
}

// A file goes with its link and its streams.
fn remove_file(b: &mut TableBytes, f: FileNo)
    ensures { Changed b.old b.new (tables_after (file_removed f) (decode b.old)) }
{
    write_file(b, f, ZERO_FILE);
    clear::<Link>(b, f);
    clear::<Stream>(b, f);
}

fn write_effect(b: &mut TableBytes, e: CloseEffect)
    ensures { Changed b.old b.new (tables_after (as_effect e) (decode b.old)) }
{
    match e {
        CloseEffect::Unchanged => {}
        CloseEffect::FileMarked(f) => mark_file(b, f),
        CloseEffect::FileRemoved(f) => remove_file(b, f),
        CloseEffect::StreamMarked(s) => mark_stream(b, s),
        CloseEffect::StreamRemoved(s) => write_stream(b, s, ZERO_STREAM),
    }
}

// The open is struck already: the opens asked about are those that remain.
pub fn settle(b: &mut TableBytes, o: Open)
    ensures { Changed b.old b.new (settled (decode b.old) o) }
{
    write_effect(b, close_effect(b, o));
}

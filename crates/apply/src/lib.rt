// A decided call written into the tables: an accepted open, and an open that is struck. Only the records that change are
// written.
#![tactic(auto)]

ghost use Rattle.std.specs.Prelude.{ℕ, ◌≡◌, List, length};
ghost use Rattle.lists.specs.Lists.{padded};
ghost use Rattle.records.specs.Sizes.{file_name_limit, stream_name_limit};
ghost use Rattle.records.specs.Namespace.{Namespace, namespace};
ghost use Rattle.layout.specs.Layout.{decode, Changed};
ghost use Rattle.layout.specs.Puts.{put_file, put_link};
ghost use Rattle.tables.specs.Tables.{file_at};
ghost use Rattle.store.specs.Complete.{with_attributes, stream_new, link_new};
ghost use Rattle.components.specs.Positions.{part_of};
ghost use Rattle.open_steps.specs.declared.PlacedOpen.TheVariants as Place;
ghost use Rattle.open_steps.specs.Decisions.{streams_added, as_placed, as_accepted};
ghost use Rattle.apply.specs.Applied.{raised, Writes, StreamNames, StoredNames, put_bare, put_streams, placed_in, open_stored, applied, struck_from};

use components::part_of;
use layout::TableBytes;
use open_rows::change_row;
use open_steps::{AcceptedOpen, FileSlots, FileToAdd, PlacedOpen, StreamToAdd};
use records::{File, FileNo, FileType, Handle, Link, Open, Stream, StreamNo};
use records_files::{read_file, write_file};
use records_links::write_link;
use records_opens::{read_open, write_open};
use records_streams::{read_counts, write_counts, write_stream};
use records_volume::write_next;
use sharing::{with_open, without_open};
use stored_names::stored_name;

// The handle after this one; the last stays.
#[tactic(auto, unfolding(crate::specs::Applied::raised))]
fn raised(h: Handle) -> Handle
    ensures { result.0 ≡ raised h.0 }
{
    Handle(h.0.saturating_add(1))
}

// A file's new attributes.
fn write_attributes(b: &mut TableBytes, file: FileNo, attributes: u32)
    ensures { Changed b.old b.new (put_file (decode b.old) file (with_attributes attributes (file_at (decode b.old).volume.files file))) }
{
    let f = File {
        attributes,
        ..read_file(b, file)
    };
    write_file(b, file, f);
}

// A new stream, in a slot that keeps its share counts.
fn write_new_stream(
    b: &mut TableBytes,
    n: StreamNo,
    file: FileNo,
    stream_type: FileType,
    name: &[u16],
)
    ensures { Writes b.old b.new (length (padded stream_name_limit name.now) ≡ stream_name_limit)
        (put_bare (decode b.old) n (stream_new file stream_type name.now)) }
{
    let s = Stream {
        file,
        stream_type,
        name: stored_name(name),
        counts: read_counts(b, n),
        delete_pending: false,
    };
    write_stream(b, n, s);
}

// A stream added to a file, whose attributes become these.
fn write_stream_added(b: &mut TableBytes, path: &[u16], s: StreamToAdd, n: StreamNo)
    ensures { Writes b.old b.new (StoredNames (as_placed (namespace (decode b.old).volume) path.now (Place.NewStream s n)).change)
        (placed_in (decode b.old) (as_placed (namespace (decode b.old).volume) path.now (Place.NewStream s n))) }
{
    write_attributes(b, s.file, s.attributes);
    write_new_stream(b, n, s.file, FileType::Data, part_of(path, s.leaf.stream));
}

// The link of a new file.
fn write_link_added(b: &mut TableBytes, path: &[u16], f: FileToAdd, at: FileSlots)
    ensures { Writes b.old b.new (length (padded file_name_limit (part_of path.now f.leaf.file)) ≡ file_name_limit)
        (put_link (decode b.old) at.link (link_new f.dir (part_of path.now f.leaf.file) at.file)) }
{
    let l = Link {
        parent: f.dir,
        name: stored_name(part_of(path, f.leaf.file)),
        file: at.file,
    };
    write_link(b, at.link, l);
}

// The streams of a new file: the one without a name, and the one that the path names.
fn write_file_streams(b: &mut TableBytes, path: &[u16], f: FileToAdd, at: FileSlots)
    ensures { Writes b.old b.new (StreamNames (streams_added path.now f at))
        (put_streams (decode b.old) (streams_added path.now f at)) }
{
    write_new_stream(b, at.unnamed, at.file, f.file_type, &[]);
    let name = part_of(path, f.leaf.stream);
    if !name.is_empty() {
        write_new_stream(b, at.opened, at.file, f.file_type, name);
    }
}

// A file added to a directory, of which it copies the masks.
fn write_file_added(b: &mut TableBytes, path: &[u16], f: FileToAdd, at: FileSlots)
    ensures { Writes b.old b.new (StoredNames (as_placed (namespace (decode b.old).volume) path.now (Place.NewFile f at)).change)
        (placed_in (decode b.old) (as_placed (namespace (decode b.old).volume) path.now (Place.NewFile f at))) }
{
    let file = File {
        file_type: f.file_type,
        attributes: f.attributes,
        delete_pending: false,
        ..read_file(b, f.dir)
    };
    write_file(b, at.file, file);
    write_link_added(b, path, f, at);
    write_file_streams(b, path, f, at);
}

// What an accepted open changes or adds.
fn write_placed(b: &mut TableBytes, path: &[u16], placed: PlacedOpen)
    ensures { Writes b.old b.new (StoredNames (as_placed (namespace (decode b.old).volume) path.now placed).change)
        (placed_in (decode b.old) (as_placed (namespace (decode b.old).volume) path.now placed)) }
{
    match placed {
        PlacedOpen::Existing(file, _, Some(a)) => write_attributes(b, file, a),
        PlacedOpen::Existing(_, _, None) => {}
        PlacedOpen::NewStream(s, n) => write_stream_added(b, path, s, n),
        PlacedOpen::NewFile(f, at) => write_file_added(b, path, f, at),
    }
}

// The file and the stream that are opened.
#[tactic(auto, unfolding(open_steps::specs::Decisions::as_placed, open_steps::specs::Decisions::placed_stream, store::specs::Complete::place_file))]
fn opened(placed: PlacedOpen) -> (FileNo, StreamNo)
    ensures file { (ns : Namespace) (path : List ℕ) → result.0 ≡ (as_placed ns path placed).file }
    ensures stream { (ns : Namespace) (path : List ℕ) → result.1 ≡ (as_placed ns path placed).stream }
{
    match placed {
        PlacedOpen::Existing(file, stream, _) => (file, stream),
        PlacedOpen::NewStream(s, n) => (s.file, n),
        PlacedOpen::NewFile(_, at) => (at.file, at.opened),
    }
}

// The open takes its row and joins its stream's share counts, and the next handle rises by one. It is stored in the lent row
// of opens, and what that row then has goes into the bytes.
fn store_open(b: &mut TableBytes, row: usize, o: Open)
    ensures { Changed b.old b.new (open_stored (decode b.old) row o) }
{
    let stored = change_row(b, row, o);
    let counts = with_open(o, read_counts(b, o.stream));
    write_counts(b, o.stream, counts);
    write_open(b, row, stored);
    write_next(b, raised(o.handle));
}

// An accepted open.
pub fn apply_open(b: &mut TableBytes, path: &[u16], a: AcceptedOpen)
    ensures { Writes b.old b.new
        (StoredNames (as_placed (namespace (decode b.old).volume) path.now a.placed).change)
        (applied (decode b.old) (as_accepted (namespace (decode b.old).volume) path.now a) a.row) }
{
    write_placed(b, path, a.placed);
    let (file, stream) = opened(a.placed);
    let o = Open {
        handle: a.handle,
        file,
        stream,
        granted: a.terms.granted,
        share: a.terms.share,
        delete_on_close: a.delete_on_close,
    };
    store_open(b, a.row, o);
}

// An open that is struck: it leaves its stream's share counts, and its row has the record of a free one.
pub fn strike_open(b: &mut TableBytes, row: usize, free: Open)
    ensures { Changed b.old b.new (struck_from (decode b.old) row free) }
{
    let o = read_open(b, row);
    let counts = without_open(o, read_counts(b, o.stream));
    write_counts(b, o.stream, counts);
    write_open(b, row, free);
}

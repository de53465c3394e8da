// A file's stream by name: the lowest matching slot.
#![tactic(auto)]

ghost use Rattle.std.specs.Prelude.{◌≡◌};
ghost use Rattle.records.specs.Namespace.{namespace, bare};
ghost use Rattle.records.specs.Checked.{as_option};
ghost use Rattle.layout.specs.Layout.{decode};
ghost use Rattle.tables.specs.Tables.{stream_at};
ghost use Rattle.stream_lookup.specs.StreamLookup.{stream_matches, find_stream};

use layout::TableBytes;
use records::sizes::STREAM_SLOTS;
use records::slots::is_used;
use records::{FileNo, StreamNo};
use records_streams::{read_stream, read_stream_file, read_stream_type};
use stored_names::name_equals;

// Whether a stream is the file's, under the name. The name is read only where the file agrees and the slot is used.
#[tactic(auto, unfolding(crate::specs::StreamLookup::stream_matches, records::specs::Namespace::bare, records::specs::Namespace::bare_used))]
fn stream_matches(b: &TableBytes, n: StreamNo, file: FileNo, name: &[u16], fold: bool) -> bool
    ensures { result ≡ stream_matches fold file name.now (bare (stream_at (decode b.now).volume.streams n)) }
{
    read_stream_file(b, n) == file
        && is_used(read_stream_type(b, n))
        && name_equals(&read_stream(b, n).name, name, fold)
}

pub fn find_stream(b: &TableBytes, file: FileNo, name: &[u16], fold: bool) -> Option<StreamNo>
    ensures { as_option result ≡ find_stream (namespace (decode b.now).volume) fold file name.now }
{
    (0..STREAM_SLOTS as u16)
        .find(|i| stream_matches(b, StreamNo(*i), file, name, fold))
        .map(StreamNo)
}

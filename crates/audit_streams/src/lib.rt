// The audit of the streams table, in one pass over it from the last stream to the first: each stream by itself, a key
// for its name, and of each file how many streams it has and how many of them without a name. Then the names, by
// their keys, and the streams of each file.
#![tactic(auto)]

ghost use Rattle.std.specs.Prelude.{◌≡◌, cond, drop};
ghost use Rattle.lists.specs.Lists.{all, all_from, is_empty, keep, pairs};
ghost use Rattle.stored_names.specs.StoredNames.{units};
ghost use Rattle.records.specs.Namespace.{bare, bare_at, bare_used, namespace};
ghost use Rattle.layout.specs.Layout.{decode};
ghost use Rattle.consistency.specs.Slots.{slot_test};
ghost use Rattle.consistency.specs.Good.{good_stream, is_zero_stream, stream_names_differ};
ghost use Rattle.consistency.specs.Test.{streams_test};
ghost use Rattle.audit_streams.specs.Streams.{free_or_differs, has_streams, have_streams};

use distinct::distinct;
use layout::TableBytes;
use name_keys::name_key;
use name_tests::good_stream_name;
use records::sizes::{FILE_SLOTS, STREAM_SLOTS};
use records::slots::{is_directory, is_used, stream_used};
use records::{FileNo, FileType, Stream, StreamNo};
use records_files::read_file_type;
use records_streams::{read_stream, read_stream_file};
use stored_names::{same_names, unit_at, zero_name};

// What a free slot has beside its kind is zero.
fn is_zero_stream(s: Stream) -> bool
    ensures { result ≡ is_zero_stream (bare s) }
{
    (s.file.0 == 0) & zero_name(&s.name) & !s.delete_pending
}

// A used one has a valid name and is of a used file, whose type is given, and of that type; only a named one is
// marked.
fn good_stream(s: Stream, of: FileType) -> bool
    ensures { result ≡ good_stream of (bare s) }
{
    good_stream_name(&s.name)
        && is_used(of)
            & (is_directory(s.stream_type) == is_directory(of))
            & !(s.delete_pending & (unit_at(&s.name, 0) == 0))
}

// A stream by itself, with the type of its file. Each table has such a choice: as one function it would take two
// closures.
pub fn slot_consistent(s: Stream, of: FileType) -> bool
    ensures { result ≡ slot_test bare_used (good_stream of) is_zero_stream (bare s) }
{
    if stream_used(s) {
        good_stream(s, of)
    } else {
        is_zero_stream(s)
    }
}

// Whether a slot is free, or its stream differs from this one in file or name. Names are compared only where the file
// is one.
fn slot_differs(b: &TableBytes, s: Stream, n: StreamNo) -> bool
    ensures { result ≡ free_or_differs (bare s) (bare_at (namespace (decode b.now).volume).streams n) }
{
    if s.file != read_stream_file(b, n) {
        return true;
    }
    let q = read_stream(b, n);
    !stream_used(q) || !same_names(&s.name, &q.name)
}

// Whether every used stream from a place on differs from this one. The links have such a walk too: one function for
// both would take the reading of a slot and three tests of it as closures.
fn differs_from(b: &TableBytes, s: Stream, from: usize) -> bool
    ensures { result ≡ all (stream_names_differ (bare s))
        (keep bare_used (drop from (namespace (decode b.now).volume).streams)) }
{
    for j in from..STREAM_SLOTS {
        if !slot_differs(b, s, StreamNo(j as u16)) {
            return false;
        }
    }
    true
}

// Every two used streams: asked only where two keys agree.
fn names_differ(b: &TableBytes) -> bool
    ensures { result ≡ pairs stream_names_differ (keep bare_used (namespace (decode b.now).volume).streams) }
{
    for i in 0..STREAM_SLOTS {
        let s = read_stream(b, StreamNo(i as u16));
        if stream_used(s) && !differs_from(b, s, i + 1) {
            return false;
        }
    }
    true
}

// 1 for the empty name, else 0.
fn one_if_unnamed(name: &[u16]) -> u16
    ensures { result ≡ cond (is_empty (units name.now)) 1 0 }
{
    u16::from(unit_at(name, 0) == 0)
}

// A used file has one stream with the empty name, and as a directory no other.
fn file_has_streams(t: FileType, all: u16, unnamed: u16) -> bool
    ensures { result ≡ has_streams t all unnamed }
{
    !is_used(t) | ((unnamed == 1) & (!is_directory(t) | (all == 1)))
}

// Each file has the streams that it must have, by how many were counted.
fn files_have_streams(b: &TableBytes, all: &[u16; FILE_SLOTS], unnamed: &[u16; FILE_SLOTS]) -> bool
    ensures { result ≡ all_from (have_streams all.now unnamed.now) 0 (decode b.now).volume.files }
{
    (0..FILE_SLOTS).all(|i| {
        let t = read_file_type(b, FileNo(i as u16));
        file_has_streams(t, all[i], unnamed[i])
    })
}

pub fn streams_consistent(b: &TableBytes) -> bool
    ensures { result ≡ streams_test (decode b.now).volume.files (namespace (decode b.now).volume).streams }
{
    let mut keys = [0u64; STREAM_SLOTS];
    // Two tables of counts and not one of pairs: the law of counting, `Counted`, is of a list of numbers.
    let mut all = [0u16; FILE_SLOTS];
    let mut unnamed = [0u16; FILE_SLOTS];
    for i in (0..STREAM_SLOTS).rev() {
        let s = read_stream(b, StreamNo(i as u16));
        if !slot_consistent(s, read_file_type(b, s.file)) {
            return false;
        }
        let used = stream_used(s);
        keys[i] = if used { name_key(s.file.0, &s.name) } else { 0 };
        let f = s.file.0 as usize;
        if used && f < FILE_SLOTS {
            all[f] += 1;
            unnamed[f] += one_if_unnamed(&s.name);
        }
    }
    if !distinct(&keys) && !names_differ(b) {
        return false;
    }
    files_have_streams(b, &all, &unnamed)
}

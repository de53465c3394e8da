// The audit of the links table, in one pass over it: each link by itself, a key for its name, how many links name
// each file, and each file's parent. Then the names, by their keys, and the links and the parents of each file. The
// pass goes from the last link to the first, as the definitions go through them.
#![tactic(auto)]

ghost use Rattle.std.specs.Prelude.{ℕ, ◌<◌, ◌≡◌, cond, not, ◌||◌, eqb, get_or, drop};
ghost use Rattle.lists.specs.Lists.{all, all_from, keep, pairs};
ghost use Rattle.records.specs.Sizes.{file_slots};
ghost use Rattle.records.specs.Slots.{link_used};
ghost use Rattle.tables.specs.Tables.{link_at};
ghost use Rattle.layout.specs.Layout.{decode};
ghost use Rattle.consistency.specs.Slots.{slot_test};
ghost use Rattle.consistency.specs.Good.{good_link, is_zero_link, link_names_differ};
ghost use Rattle.consistency.specs.Test.{links_test};
ghost use Rattle.audit_links.specs.Linked.{leads, linked_at, file_linked};

use distinct::distinct;
use layout::TableBytes;
use name_keys::name_key;
use name_tests::good_file_name;
use records::sizes::{FILE_SLOTS, LINK_SLOTS};
use records::slots::{is_directory, is_used, link_used};
use records::{FileNo, FileType, Link, LinkNo};
use records_files::read_file_type;
use records_links::{read_link, read_parent};
use stored_names::{same_names, zero_name};

// What a free slot has is zero.
#[tactic(auto, unfolding(consistency::specs::Good::is_zero_link), using(records::proofs::Lengths::link_name_length))]
fn is_zero_link(l: Link) -> bool
    ensures { result ≡ is_zero_link l }
{
    l.parent.0 == 0 && l.file.0 == 0 && zero_name(&l.name)
}

// A used one has a valid name, of a used file in a directory, of which the types are given.
#[tactic(auto, using(crate::proofs::Links::link_parts))]
fn good_link(l: Link, of: FileType, above: FileType) -> bool
    ensures { result ≡ good_link of above l }
{
    good_file_name(&l.name) && is_used(of) && is_directory(above)
}

// A link by itself. Each table has such a choice: as one function it would take two closures.
pub fn slot_consistent(l: Link, of: FileType, above: FileType) -> bool
    ensures { result ≡ slot_test link_used (good_link of above) is_zero_link l }
{
    if link_used(l) {
        good_link(l, of, above)
    } else {
        is_zero_link(l)
    }
}

// Whether the link at a number is free, or differs from this one in parent or name. Names are compared only in one
// directory.
fn differs_at(b: &TableBytes, l: Link, n: LinkNo) -> bool
    ensures { result ≡ (not (link_used (link_at (decode b.now).volume.links n))
        || link_names_differ l (link_at (decode b.now).volume.links n)) }
{
    if l.parent != read_parent(b, n) {
        return true;
    }
    let m = read_link(b, n);
    !link_used(m) || !same_names(&l.name, &m.name)
}

// Whether every used link from a place on differs from this one. The streams have such a walk too: one function for
// both would take the reading of a slot and three tests of it as closures.
fn differs_from(b: &TableBytes, l: Link, from: usize) -> bool
    ensures { result ≡ all (link_names_differ l) (keep link_used (drop from (decode b.now).volume.links)) }
{
    for j in from..LINK_SLOTS {
        if !differs_at(b, l, LinkNo(j as u16)) {
            return false;
        }
    }
    true
}

// Every two used links, name by name: asked only where two keys agree.
fn names_differ(b: &TableBytes) -> bool
    ensures { result ≡ pairs link_names_differ (keep link_used (decode b.now).volume.links) }
{
    for i in 0..LINK_SLOTS {
        let l = read_link(b, LinkNo(i as u16));
        if link_used(l) && !differs_from(b, l, i + 1) {
            return false;
        }
    }
    true
}

// Each file its own parent.
fn own_numbers() -> [u16; FILE_SLOTS]
    ensures { (n : ℕ) → n < file_slots → get_or result n 0 ≡ n }
{
    std::array::from_fn(|i| i as u16)
}

// Whether the root is at most as many steps up as there are slots, by a table of parents.
fn leads_to_root(up: &[u16], from: usize) -> bool
    ensures { result ≡ leads up.now file_slots from }
{
    let mut at = from;
    for _left in (0..FILE_SLOTS).rev() {
        if at == 0 {
            return true;
        }
        if at >= up.len() {
            return false;
        }
        at = up[at] as usize;
    }
    at == 0
}

// How many links a file should have: the root none, every other one.
fn links_wanted(n: usize) -> u16
    ensures { result ≡ cond (eqb n 0) 0 1 }
{
    u16::from(n != 0)
}

// The file at a number has the links that it should, by how many were counted, and the root is above it.
#[tactic(auto, unfolding(crate::specs::Linked::linked_at))]
fn linked_at(count: u16, up: &[u16], n: usize) -> bool
    ensures { result ≡ linked_at count up.now n }
{
    count == links_wanted(n) && leads_to_root(up, n)
}

// Each used file is linked.
fn files_linked(b: &TableBytes, counts: &[u16; FILE_SLOTS], up: &[u16]) -> bool
    ensures { result ≡ all_from (file_linked counts.now up.now) 0 (decode b.now).volume.files }
{
    for (i, count) in counts.iter().enumerate() {
        if is_used(read_file_type(b, FileNo(i as u16))) && !linked_at(*count, up, i) {
            return false;
        }
    }
    true
}

// The links table: each slot, every two names of one directory, and the links and the parents of each file.
pub fn links_consistent(b: &TableBytes) -> bool
    ensures { result ≡ links_test (decode b.now).volume.files (decode b.now).volume.links }
{
    let mut keys = [0u64; LINK_SLOTS];
    // Two tables by a file's number and not one of pairs: `leads_to_root` walks the parents alone.
    let mut counts = [0u16; FILE_SLOTS];
    let mut up = own_numbers();
    for i in (0..LINK_SLOTS).rev() {
        let l = read_link(b, LinkNo(i as u16));
        if !slot_consistent(l, read_file_type(b, l.file), read_file_type(b, l.parent)) {
            return false;
        }
        let used = link_used(l);
        keys[i] = if used {
            name_key(l.parent.0, &l.name)
        } else {
            0
        };
        if used {
            let f = l.file.0 as usize;
            counts[f] += 1;
            up[f] = l.parent.0;
        }
    }
    if !distinct(&keys) && !names_differ(b) {
        return false;
    }
    files_linked(b, &counts, &up)
}

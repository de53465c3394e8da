// Whether the keys of a row are distinct, in one pass: each key is compared only with those before it in its bucket. A
// number that is 0 is no key, as a free slot has none. A row longer than the buckets' arrays hold is compared by pairs.
#![tactic(auto)]

ghost use Rattle.std.specs.Prelude.{◌<◌, ◌≡◌, get_or};
ghost use Rattle.lists.specs.Lists.{keep, pairs};
ghost use Rattle.distinct.specs.Keys.{is_key, differ};
ghost use Rattle.distinct.specs.Buckets.{buckets, bucket_of, pointer_at, found, Chain};

// How many keys the buckets hold.
const HELD: usize = 256;

// A prime, so that keys that differ by a power of two part.
const BUCKETS: usize = 251;

// The bucket of a key.
#[tactic(auto, unfolding(crate::specs::Buckets::bucket_of))]
fn bucket(key: u64) -> usize
    ensures { (result ≡ bucket_of key) × (result < buckets) }
{
    key as usize % BUCKETS
}

// The key at a place, none past the last.
fn key_at(keys: &[u64], at: usize) -> u64
    ensures { result ≡ get_or keys.now at 0 }
{
    keys.get(at).copied().unwrap_or(0)
}

// The pointer at a place, which leads back; 0 where there is none.
#[tactic(auto, unfolding(crate::specs::Buckets::pointer_at))]
fn pointer_at(next: &[u16], place: usize) -> usize
    ensures { result ≡ pointer_at next.now place }
{
    match next.get(place) {
        Some(to) if *to as usize <= place => *to as usize,
        _ => 0,
    }
}

// Whether the key is among those that the chain at `first` leads to. A pointer is a place plus one, 0 at a chain's end. The
// pointers stand in an array, as the crates have no heap.
fn in_chain(keys: &[u64], next: &[u16], first: usize, key: u64) -> bool
    ensures { Chain keys.now next.now first key → result ≡ found keys.now key first }
{
    let mut at = first;
    while at != 0 {
        let place = at - 1;
        if key_at(keys, place) == key {
            return true;
        }
        at = pointer_at(next, place);
    }
    false
}

// Whether the key stands before a place.
fn stands_before(keys: &[u64], end: usize, key: u64) -> bool
    ensures { result ≡ found keys.now key end }
{
    for i in (0..end).rev() {
        if key_at(keys, i) == key {
            return true;
        }
    }
    false
}

// Each key against all before it.
fn distinct_by_pairs(keys: &[u64]) -> bool
    ensures { result ≡ pairs differ (keep is_key keys.now) }
{
    for (place, key) in keys.iter().enumerate() {
        if *key != 0 && stands_before(keys, place, *key) {
            return false;
        }
    }
    true
}

// Whether every two keys differ. Each is compared with those before it in its bucket: `head` has each bucket's last key,
// `next` for each key the one before it.
pub fn distinct(keys: &[u64]) -> bool
    ensures { result ≡ pairs differ (keep is_key keys.now) }
{
    if HELD < keys.len() {
        return distinct_by_pairs(keys);
    }
    let mut head = [0u16; BUCKETS];
    let mut next = [0u16; HELD];
    for (i, key) in keys.iter().enumerate() {
        if *key != 0 {
            let b = bucket(*key);
            let first = head[b];
            if in_chain(keys, &next, first as usize, *key) {
                return false;
            }
            next[i] = first;
            head[b] = (i + 1) as u16;
        }
    }
    true
}

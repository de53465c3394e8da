// The sharing rule: when two opens of a stream conflict, the share counts of a stream, and the share check that decides
// from them.
#![tactic(auto)]

ghost use Rattle.std.specs.Prelude.{◌≡◌, cond, not, ◌&&◌, ◌||◌, [], ◌∷◌, ◌-◌, eqb, ltb};
ghost use Rattle.bits.specs.Bits.{has};
ghost use Rattle.sharing.specs.Sharing.{counted, conflicting, share_check};
ghost use Rattle.sharing.specs.Sharing.{counts_of_all, without_open};
ghost use Rattle.sharing.specs.Saturating.{count_limit, with_open_up_to};
ghost use Rattle.sharing.specs.Combined.{Combined};
ghost use Rattle.sharing.specs.Others.{others_check};

use records::slots::ZERO_COUNTS;
use records::{Open, ShareCounts, Terms};

// The access that reads, writes and deletes, and the sharing mode that allows each.
const READS: u32 = 0x21;

const WRITES: u32 = 0x6;

const DELETES: u32 = 0x10000;

const SHARE_READ: u32 = 1;

const SHARE_WRITE: u32 = 2;

const SHARE_DELETE: u32 = 4;

// An open is counted where it reads, writes or deletes.
fn counted(granted: u32) -> bool
    ensures { result ≡ counted granted }
{
    bits::has(granted, READS) | bits::has(granted, WRITES) | bits::has(granted, DELETES)
}

// An open has a kind of access that another's sharing mode doesn't allow.
fn unshared(granted: u32, other_share: u32, access: u32, allows: u32) -> bool
    ensures { result ≡ (has granted access && not (has other_share allows)) }
{
    bits::has(granted, access) & !bits::has(other_share, allows)
}

// The pair rule (the paper's clash): two counted opens, of which one has a kind of access that the other doesn't share.
pub fn conflicting(o: Open, q: Open) -> bool
    ensures { result ≡ conflicting o q }
{
    let reading = unshared(o.granted, q.share, READS, SHARE_READ)
        | unshared(q.granted, o.share, READS, SHARE_READ);
    let writing = unshared(o.granted, q.share, WRITES, SHARE_WRITE)
        | unshared(q.granted, o.share, WRITES, SHARE_WRITE);
    let deleting = unshared(o.granted, q.share, DELETES, SHARE_DELETE)
        | unshared(q.granted, o.share, DELETES, SHARE_DELETE);
    counted(o.granted) & counted(q.granted) & (reading | writing | deleting)
}

// A kind of access is held and some counted open doesn't share it, or it isn't shared and some open holds it.
fn kind_conflicts(wanted: bool, shared: bool, opens: u16, holders: u16, sharers: u16) -> bool
    ensures { result ≡ ((wanted && ltb sharers opens) || (not shared && not (eqb holders 0))) }
{
    (wanted & (sharers < opens)) | (!shared & (holders != 0))
}

// The share check (the paper's quick check) of a new open, from the counts of its stream.
pub fn share_check(c: ShareCounts, t: Terms) -> bool
    ensures { result ≡ share_check c t }
{
    let granted = t.granted;
    let share = t.share;
    let reads = bits::has(granted, READS);
    let writes = bits::has(granted, WRITES);
    let deletes = bits::has(granted, DELETES);
    let shares_read = bits::has(share, SHARE_READ);
    let shares_write = bits::has(share, SHARE_WRITE);
    let shares_delete = bits::has(share, SHARE_DELETE);
    let reading = kind_conflicts(reads, shares_read, c.opens, c.readers, c.shared_read);
    let writing = kind_conflicts(writes, shares_write, c.opens, c.writers, c.shared_write);
    let deleting = kind_conflicts(deletes, shares_delete, c.opens, c.deleters, c.shared_delete);
    (reads | writes | deletes) & (reading | writing | deleting)
}

// 1 where a set has some bit of the mask, else 0.
fn one_if_has(set: u32, mask: u32) -> u16
    ensures { result ≡ cond (has set mask) 1 0 }
{
    if bits::has(set, mask) { 1 } else { 0 }
}

// What one open adds to the counts: each is 0 or 1.
fn counts_of_one(o: Open) -> ShareCounts
    ensures { result ≡ counts_of_all (o ∷ []) }
{
    if counted(o.granted) {
        ShareCounts {
            opens: 1,
            readers: one_if_has(o.granted, READS),
            writers: one_if_has(o.granted, WRITES),
            deleters: one_if_has(o.granted, DELETES),
            shared_read: one_if_has(o.share, SHARE_READ),
            shared_write: one_if_has(o.share, SHARE_WRITE),
            shared_delete: one_if_has(o.share, SHARE_DELETE),
        }
    } else {
        ZERO_COUNTS
    }
}

// Each count combined with that of what is added or taken.
fn combined<F: Fn(u16, u16) -> u16>(c: ShareCounts, one: ShareCounts, by: F) -> ShareCounts
    requires { F.IsAlwaysCallable by }
    ensures { Combined (F.post by) c one result }
{
    ShareCounts {
        opens: by(c.opens, one.opens),
        readers: by(c.readers, one.readers),
        writers: by(c.writers, one.writers),
        deleters: by(c.deleters, one.deleters),
        shared_read: by(c.shared_read, one.shared_read),
        shared_write: by(c.shared_write, one.shared_write),
        shared_delete: by(c.shared_delete, one.shared_delete),
    }
}

// The counts with one open more. No count passes 65535: a stream has at most 256 opens, and then it is `with_open`.
pub fn with_open(o: Open, c: ShareCounts) -> ShareCounts
    ensures { result ≡ with_open_up_to count_limit o c }
{
    let one = counts_of_one(o);
    combined(c, one, |count, more| count.saturating_add(more))
}

// The counts with one open less.
pub fn without_open(o: Open, c: ShareCounts) -> ShareCounts
    ensures { result ≡ without_open o c }
{
    let one = counts_of_one(o);
    combined(c, one, |count, less| count.saturating_sub(less))
}

// The share check of an open that is among those counted, against the others: the counts less its own part.
#[tactic(auto, unfolding(crate::specs::Others::others_check))]
pub fn others_check(c: ShareCounts, o: Open) -> bool
    ensures { result ≡ others_check c o }
{
    let others = without_open(o, c);
    share_check(others, o.terms())
}

// Whether a pending open is accepted (the sharing check, step 10's share-read rule and step 12), and where its records
// go.
#![tactic(auto)]

ghost use Rattle.std.specs.Prelude.{◌≡◌, not, List, ℕ};
ghost use Rattle.records.specs.Checked.{as_checked};
ghost use Rattle.records.specs.Namespace.{namespace};
ghost use Rattle.layout.specs.Layout.{decode};
ghost use Rattle.paths.specs.Positions.{as_leaf};
ghost use Rattle.tables.specs.Tables.{file_has_open};
ghost use Rattle.store.specs.Prepare.{existing, creating, new_stream, new_file};
ghost use Rattle.store.specs.Complete.{share_of};
ghost use Rattle.store.specs.Complete as definitions;
ghost use Rattle.store.specs.Store.{store_view};
ghost use Rattle.open_steps.specs.Pendings.{as_read_sharing, as_existing, as_file, as_pending};
ghost use Rattle.open_steps.specs.Decisions.{as_placed};
ghost use Rattle.complete.specs.Placing.{PlacesOpen, file_slots, finished, Decides, completed};

use components::part_of;
use free_slots::{free_file, free_link, free_stream};
use layout::TableBytes;
use open_steps::{
    AcceptedOpen, ExistingOpen, FileSlots, FileToAdd, PendingOpen, PlacedOpen, SharingRule,
    StreamToAdd,
};
use open_table::{file_has_open, free_open};
use records::constants::SHARE_READ;
use records::sizes::LAST_HANDLE;
use records::{CreateAction, FileNo, Handle, Status, Terms};
use records_streams::read_counts;
use records_volume::read_next;
use sharing::share_check;

// Step 12: the open's row and handle.
fn open_place(b: &TableBytes) -> Result<(usize, Handle), Status>
    ensures { PlacesOpen (decode b.now) result }
{
    let Some(row) = free_open(b) else {
        return Err(Status::TooManyOpenedFiles);
    };
    let next = read_next(b);
    if next.0 == LAST_HANDLE {
        return Err(Status::InsufficientResources);
    }
    Ok((row, next))
}

// Step 10's end: the terms that an open is stored and counted with. Whether its file has an open is looked for only
// where that matters.
fn stored_terms(b: &TableBytes, rule: SharingRule, file: FileNo, t: Terms) -> Result<Terms, Status>
    ensures { as_checked (λ t. t) result ≡ share_of (as_read_sharing rule) (not (file_has_open (decode b.now).opens.rows file)) t }
{
    match rule {
        SharingRule::AddedIfAlone if !file_has_open(b, file) => Ok(Terms {
            share: t.share | SHARE_READ,
            ..t
        }),
        SharingRule::DeniedIfAlone if !file_has_open(b, file) => Err(Status::AccessDenied),
        _ => Ok(t),
    }
}

// Step 12's end: the open with its row and handle, and whether it deletes on close.
fn finish(
    b: &TableBytes,
    action: CreateAction,
    placed: PlacedOpen,
    terms: Terms,
    deletes: bool,
) -> Result<AcceptedOpen, Status>
    ensures { (path : List ℕ) → Decides (decode b.now) path result (finished (store_view (decode b.now)) action (as_placed (namespace (decode b.now).volume) path placed) terms deletes) }
{
    let (row, handle) = open_place(b)?;
    Ok(AcceptedOpen {
        action,
        placed,
        terms,
        handle,
        delete_on_close: deletes,
        row,
    })
}

// The sharing check of a stream that is there, then step 10's share-read rule.
fn complete_existing(b: &TableBytes, deletes: bool, e: ExistingOpen) -> Result<AcceptedOpen, Status>
    ensures { (path : List ℕ) → Decides (decode b.now) path result (definitions.complete (store_view (decode b.now)) (namespace (decode b.now).volume) deletes (existing (as_existing e))) }
{
    if share_check(read_counts(b, e.stream), e.terms) {
        return Err(Status::SharingViolation);
    }
    let terms = stored_terms(b, e.read_sharing, e.file, e.terms)?;
    let placed = PlacedOpen::Existing(e.file, e.stream, e.attributes);
    finish(b, e.action, placed, terms, deletes)
}

// Step 12 for a new stream.
fn complete_stream(b: &TableBytes, deletes: bool, s: StreamToAdd) -> Result<AcceptedOpen, Status>
    ensures { (path : List ℕ) → Decides (decode b.now) path result (definitions.complete (store_view (decode b.now)) (namespace (decode b.now).volume) deletes (creating (new_stream s.file (as_leaf path s.leaf) s.attributes) s.terms)) }
{
    let stream = free_stream(b, 0)?;
    let placed = PlacedOpen::NewStream(s, stream);
    finish(b, CreateAction::Created, placed, s.terms, deletes)
}

// Step 12 for a new file: its slots. The stream that is opened has one of its own where the path names one.
fn file_slots(b: &TableBytes, named: bool) -> Result<FileSlots, Status>
    ensures { as_checked (λ s. s) result ≡ file_slots (namespace (decode b.now).volume) named }
{
    let file = free_file(b)?;
    let link = free_link(b)?;
    let unnamed = free_stream(b, 0)?;
    let opened = if named {
        free_stream(b, unnamed.0 as usize + 1)?
    } else {
        unnamed
    };
    Ok(FileSlots {
        file,
        link,
        unnamed,
        opened,
    })
}

// Step 12 for a new file: a stream that the path names gets a slot of its own.
fn complete_file(
    b: &TableBytes,
    path: &[u16],
    deletes: bool,
    f: FileToAdd,
) -> Result<AcceptedOpen, Status>
    ensures { Decides (decode b.now) path.now result (definitions.complete (store_view (decode b.now)) (namespace (decode b.now).volume) deletes (creating (new_file f.dir (as_leaf path.now f.leaf) (as_file (decode b.now).volume.files f)) f.terms)) }
{
    match file_slots(b, !part_of(path, f.leaf.stream).is_empty()) {
        Ok(slots) => {
            let placed = PlacedOpen::NewFile(f, slots);
            finish(b, CreateAction::Created, placed, f.terms, deletes)
        }
        Err(status) => Err(status),
    }
}

// Whether a pending open is accepted; `deletes` says whether it deletes on close.
fn complete_pending(
    b: &TableBytes,
    path: &[u16],
    deletes: bool,
    pending: PendingOpen,
) -> Result<AcceptedOpen, Status>
    ensures { Decides (decode b.now) path.now result (definitions.complete (store_view (decode b.now)) (namespace (decode b.now).volume) deletes (as_pending (decode b.now).volume.files path.now pending)) }
{
    match pending {
        PendingOpen::Existing(e) => complete_existing(b, deletes, e),
        PendingOpen::NewStream(s) => complete_stream(b, deletes, s),
        PendingOpen::NewFile(f) => complete_file(b, path, deletes, f),
    }
}

// The same; a refusal of an earlier step stays.
pub fn complete(
    b: &TableBytes,
    path: &[u16],
    deletes: bool,
    pending: Result<PendingOpen, Status>,
) -> Result<AcceptedOpen, Status>
    ensures { Decides (decode b.now) path.now result (completed (store_view (decode b.now)) (namespace (decode b.now).volume) deletes (as_checked (as_pending (decode b.now).volume.files path.now) pending)) }
{
    let open = pending?;
    complete_pending(b, path, deletes, open)
}

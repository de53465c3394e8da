// What an open would do, once its target is found and before its sharing is checked (step 9, and the access part of
// steps 10 and 11).
#![tactic(auto)]

ghost use Rattle.std.specs.Prelude.{ℕ, ◌≡◌, cond, List, [], ◌∷◌};
ghost use Rattle.lists.specs.Lists.{one_of};
ghost use Rattle.records.specs.Constants.{open_only, open_if, add_subdirectory, add_file};
ghost use Rattle.records.specs.{Checked.{as_checked, as_option}, Namespace.namespace};
ghost use Rattle.layout.specs.Layout.{decode};
ghost use Rattle.paths.specs.Positions.{as_leaf};
ghost use Rattle.store.specs.Request.{wants_directory};
ghost use Rattle.store.specs.Prepare.{as_offered, grant, granted_new, new_type, attributes_new, admit_file, read_sharing_of, admit_existing, admit_open, hidden_or_system, gained, replacing, replacement, admit_replace, admit_stream, admit};
ghost use Rattle.admit.specs.Admitted.{admitted};
ghost use Rattle.open_steps.specs.Targets.{as_target};
ghost use Rattle.open_steps.specs.Pendings.{as_read_sharing, as_existing, as_pending};

use access::{access_rule, mask_of};
use components::part_of;
use layout::TableBytes;
use open_steps::{ExistingOpen, FileToAdd, FoundTarget, PendingOpen, SharingRule, StreamToAdd};
use paths::LeafParts;
use records::constants::{
    ADD_FILE, ADD_SUBDIRECTORY, ALL_ACCESS, ARCHIVE, DELETE, DIRECTORY, DISALLOW_EXCLUSIVE,
    FILE_GENERIC_WRITE, HIDDEN, MAXIMUM_ALLOWED, NOT_CONTENT_INDEXED, READ_ONLY, SHARE_READ,
    SUPERSEDE, SYSTEM, TEMPORARY, WRITE_DATA,
};
use records::{CreateAction, File, FileNo, FileType, Request, Status, StreamNo, Terms};
use records_files::read_file;
use records_volume::read_mark;
use request_checks::{deletes_on_close, only_opens, wants_directory};

// The tables and the request stay two parameters: a struct of both would be made and taken apart here alone, since the
// crates above and below have them apart.

// The access rule on a file, for the request's account; then, for an open that deletes on close, whether the file may
// go: not the root, and not one that is read-only. The terms are what is granted, and the sharing mode that was asked.
fn grant(b: &TableBytes, r: Request, file: FileNo, access: u32) -> Result<Terms, Status>
    ensures { as_checked (λ t. t) result ≡ grant (namespace (decode b.now).volume) r file access }
{
    let f = read_file(b, file);
    let stays = (file == FileNo(0)) | bits::has(f.attributes, READ_ONLY);
    let granted = access_rule(f, r.account, access).ok_or(Status::AccessDenied)?;
    if deletes_on_close(r) & stays {
        return Err(Status::CannotDelete);
    }
    Ok(Terms {
        granted,
        share: r.share,
    })
}

// Step 9: a new file's type.
#[tactic(auto, unfolding(store::specs::Prepare::new_type))]
fn new_type(r: Request) -> FileType
    ensures { result ≡ new_type r }
{
    if wants_directory(r) {
        FileType::Directory
    } else {
        FileType::Data
    }
}

// Its granted access: all of it where the maximum is asked.
#[tactic(auto, unfolding(store::specs::Prepare::granted_new))]
fn granted_new(access: u32) -> u32
    ensures { result ≡ granted_new access }
{
    if bits::has(access, MAXIMUM_ALLOWED) {
        ALL_ACCESS
    } else {
        access
    }
}

// Its attributes: those asked, the parent's not-content-indexed bit, and what its type has.
#[tactic(auto, unfolding(store::specs::Prepare::attributes_new))]
fn attributes_new(r: Request, parent: File) -> u32
    ensures { result ≡ attributes_new r parent }
{
    let own = bits::without(r.attributes & 0x3127, NOT_CONTENT_INDEXED);
    let kind = if wants_directory(r) {
        DIRECTORY
    } else {
        ARCHIVE
    };
    (own | (parent.attributes & NOT_CONTENT_INDEXED)) | kind
}

// What the account's mask on the parent must have.
fn add_right(r: Request) -> u32
    ensures { result ≡ cond (wants_directory r) add_subdirectory add_file }
{
    if wants_directory(r) {
        ADD_SUBDIRECTORY
    } else {
        ADD_FILE
    }
}

// Step 9: a temporary directory is refused first, then a read-only file that would be deleted on close, then by the
// parent's mask.
fn admit_file(
    b: &TableBytes,
    r: Request,
    dir: FileNo,
    leaf: LeafParts,
) -> Result<PendingOpen, Status>
    ensures { (path : List ℕ) → as_checked (as_pending (decode b.now).volume.files path) result ≡ admit_file (namespace (decode b.now).volume) r dir (as_leaf path leaf) }
{
    let temporary_directory = wants_directory(r) & bits::has(r.attributes, TEMPORARY);
    let cannot_delete = deletes_on_close(r) & bits::has(r.attributes, READ_ONLY);
    let parent = read_file(b, dir);
    let may_add = bits::has(mask_of(parent, r.account), add_right(r));
    if temporary_directory {
        return Err(Status::InvalidParameter);
    }
    if cannot_delete {
        return Err(Status::CannotDelete);
    }
    if !may_add {
        return Err(Status::AccessDenied);
    }
    Ok(PendingOpen::NewFile(FileToAdd {
        dir,
        leaf,
        file_type: new_type(r),
        attributes: attributes_new(r, parent),
        terms: Terms {
            granted: granted_new(r.access),
            share: r.share,
        },
    }))
}

// Step 10: share read is not offered, and the account's mask lacks some bit of 0x120116.
#[tactic(auto, unfolding(store::specs::Prepare::read_sharing_of, open_steps::specs::Pendings::as_read_sharing))]
fn read_sharing(r: Request, f: File) -> SharingRule
    ensures { as_read_sharing result ≡ read_sharing_of r f }
{
    if bits::has(r.share, SHARE_READ) | bits::within(FILE_GENERIC_WRITE, mask_of(f, r.account)) {
        SharingRule::AsOffered
    } else if bits::has(r.options, DISALLOW_EXCLUSIVE) {
        SharingRule::DeniedIfAlone
    } else {
        SharingRule::AddedIfAlone
    }
}

// The access rule on a stream that is there: `e` comes with the terms asked, and goes on with those granted.
fn admit_existing(b: &TableBytes, r: Request, e: ExistingOpen) -> Result<PendingOpen, Status>
    ensures { (path : List ℕ) → as_checked (as_pending (decode b.now).volume.files path) result ≡ admit_existing (namespace (decode b.now).volume) r (as_existing e) }
{
    match grant(b, r, e.file, e.terms.granted) {
        Ok(terms) => Ok(PendingOpen::Existing(ExistingOpen { terms, ..e })),
        Err(denial) => Err(denial),
    }
}

// Steps 10 and 11, open or open-if of what was found.
#[tactic(auto, unfolding(store::specs::Prepare::admit_open, open_steps::specs::Pendings::as_existing, records::specs::Checked::as_option))]
fn admit_open(
    b: &TableBytes,
    r: Request,
    file: FileNo,
    stream: StreamNo,
    read_sharing: SharingRule,
) -> Result<PendingOpen, Status>
    ensures { (path : List ℕ) → as_checked (as_pending (decode b.now).volume.files path) result ≡ admit_open (namespace (decode b.now).volume) r file stream (as_read_sharing read_sharing) }
{
    admit_existing(
        b,
        r,
        ExistingOpen {
            file,
            stream,
            terms: Terms {
                granted: r.access,
                share: r.share,
            },
            read_sharing,
            action: CreateAction::Opened,
            attributes: None,
        },
    )
}

// The file is hidden or system, and was not so asked.
#[tactic(auto, unfolding(store::specs::Prepare::hidden_or_system))]
fn hidden_or_system(r: Request, f: File) -> bool
    ensures { result ≡ hidden_or_system r f }
{
    (bits::has(f.attributes, HIDDEN) & !bits::has(r.attributes, HIDDEN))
        | (bits::has(f.attributes, SYSTEM) & !bits::has(r.attributes, SYSTEM))
}

// What the access gains before the access rule: the bits for the file's attributes where its stream without a name is
// replaced, and those for the replacing itself.
#[tactic(auto, unfolding(store::specs::Prepare::gained))]
fn gained(r: Request, unnamed: bool) -> u32
    ensures { result ≡ gained r unnamed }
{
    let for_attributes = if unnamed { 0x110 } else { 0 };
    let more = if r.disposition == SUPERSEDE {
        DELETE
    } else {
        WRITE_DATA
    };
    for_attributes | more
}

// What is done to the stream.
#[tactic(auto, unfolding(store::specs::Prepare::replacing))]
fn replacing(r: Request) -> CreateAction
    ensures { result ≡ replacing r }
{
    if r.disposition == SUPERSEDE {
        CreateAction::Superseded
    } else {
        CreateAction::Overwritten
    }
}

// The file's attributes: replaced with its stream without a name.
#[tactic(auto, unfolding(store::specs::Prepare::replacement, records::specs::Checked::as_option))]
fn replacement(r: Request, unnamed: bool) -> Option<u32>
    ensures { as_option result ≡ replacement r unnamed }
{
    unnamed.then_some(bits::without(r.attributes | ARCHIVE, 0x2080))
}

// Step 11, stream found, to be replaced: the file's attributes are looked at as they were.
fn admit_replace(
    b: &TableBytes,
    r: Request,
    file: FileNo,
    stream: StreamNo,
    unnamed: bool,
) -> Result<PendingOpen, Status>
    ensures { (path : List ℕ) → as_checked (as_pending (decode b.now).volume.files path) result ≡ admit_replace (namespace (decode b.now).volume) r file stream unnamed }
{
    if unnamed & hidden_or_system(r, read_file(b, file)) {
        return Err(Status::AccessDenied);
    }
    admit_existing(
        b,
        r,
        ExistingOpen {
            file,
            stream,
            terms: Terms {
                granted: r.access | gained(r, unnamed),
                share: r.share,
            },
            read_sharing: SharingRule::AsOffered,
            action: replacing(r),
            attributes: replacement(r, unnamed),
        },
    )
}

// Step 11, stream missing: the access rule first, then the volume's mark.
fn admit_stream(
    b: &TableBytes,
    r: Request,
    file: FileNo,
    leaf: LeafParts,
) -> Result<PendingOpen, Status>
    ensures { (path : List ℕ) → as_checked (as_pending (decode b.now).volume.files path) result ≡ admit_stream (namespace (decode b.now).volume) r file (as_leaf path leaf) }
{
    let terms = grant(b, r, file, r.access | WRITE_DATA)?;
    if read_mark(b) {
        return Err(Status::MediaWriteProtected);
    }
    Ok(PendingOpen::NewStream(StreamToAdd {
        file,
        leaf,
        attributes: read_file(b, file).attributes | ARCHIVE,
        terms,
    }))
}

// Step 11, stream found: opened, or replaced.
#[tactic(auto, unfolding(open_steps::specs::Pendings::as_read_sharing))]
fn admit_found(
    b: &TableBytes,
    r: Request,
    file: FileNo,
    stream: StreamNo,
    unnamed: bool,
) -> Result<PendingOpen, Status>
    ensures { (path : List ℕ) → as_checked (as_pending (decode b.now).volume.files path) result ≡ cond (one_of r.disposition (open_only ∷ open_if ∷ [])) (admit_open (namespace (decode b.now).volume) r file stream as_offered) (admit_replace (namespace (decode b.now).volume) r file stream unnamed) }
{
    if only_opens(r) {
        admit_open(b, r, file, stream, SharingRule::AsOffered)
    } else {
        admit_replace(b, r, file, stream, unnamed)
    }
}

// The access to a target.
#[tactic(auto, unfolding(records::specs::Namespace::namespace, store::specs::Prepare::admit, open_steps::specs::Targets::as_target, open_steps::specs::Targets::as_resolved, paths::specs::Positions::as_leaf, lists::specs::Lists::is_empty))]
fn admit_target(
    b: &TableBytes,
    r: Request,
    path: &[u16],
    target: FoundTarget,
) -> Result<PendingOpen, Status>
    ensures { as_checked (as_pending (decode b.now).volume.files path.now) result ≡ admit (namespace (decode b.now).volume) r (as_target path.now target) }
{
    match target {
        FoundTarget::Directory(at, stream) => {
            let sharing = read_sharing(r, read_file(b, at.file));
            admit_open(b, r, at.file, stream, sharing)
        }
        FoundTarget::Stream(at, leaf, stream) => {
            admit_found(b, r, at.file, stream, part_of(path, leaf.stream).is_empty())
        }
        FoundTarget::NoStream(at, leaf) => admit_stream(b, r, at.file, leaf),
        FoundTarget::NoFile(dir, leaf) => admit_file(b, r, dir, leaf),
    }
}

// The same; a refusal of an earlier step stays.
pub fn admit(
    b: &TableBytes,
    r: Request,
    path: &[u16],
    target: Result<FoundTarget, Status>,
) -> Result<PendingOpen, Status>
    ensures { as_checked (as_pending (decode b.now).volume.files path.now) result ≡ admitted (namespace (decode b.now).volume) r (as_checked (as_target path.now) target) }
{
    match target {
        Ok(found) => admit_target(b, r, path, found),
        Err(status) => Err(status),
    }
}

// What an open leads to (steps 1 to 8, and the stream of steps 10 and 11), found without looking at the opens.
#![tactic(auto)]

ghost use Rattle.std.specs.Prelude.{◌≡◌, ℕ, List, cond, eqb};
ghost use Rattle.records.specs.declared.Status.TheVariants.{ObjectNameCollision};
ghost use Rattle.records.specs.Constants.{create};
ghost use Rattle.records.specs.Checked.{refuse_if, as_checked};
ghost use Rattle.records.specs.Namespace.{namespace};
ghost use Rattle.layout.specs.Layout.{decode};
ghost use Rattle.components.specs.Positions.{part_of};
ghost use Rattle.paths.specs.Positions.{as_leaf};
ghost use Rattle.lookup.specs.Answers.{as_place, leaf_names};
ghost use Rattle.stream_lookup.specs.StreamLookup.{find_stream};
ghost use Rattle.store.specs.Target.{target_new, wrong_type, target_directory, target_data, target_found, target_at, target};
ghost use Rattle.open_steps.specs.Targets.{as_resolved, as_target};

use components::{Part, part_of};
use layout::TableBytes;
use lookup::{Located, locate};
use open_steps::{FoundFile, FoundTarget};
use paths::{LeafParts, ParsedPath, parse_path};
use records::constants::CREATE;
use records::slots::is_directory;
use records::{FileNo, Request, Status};
use records_files::read_file_type;
use records_streams::read_stream_mark;
use records_volume::read_mark;
use request_checks::{
    adds_nothing, bad_access, bad_parameters, only_opens, wants_both, wants_directory, wants_file,
    writes_volume,
};
use stream_lookup::find_stream;

// The root's path has no last component.
const NO_LEAF: LeafParts = LeafParts {
    file: Part { start: 0, end: 0 },
    stream: Part { start: 0, end: 0 },
    colon: false,
};

// Step 7: the last name is missing.
fn target_new(
    b: &TableBytes,
    r: Request,
    dir: FileNo,
    leaf: LeafParts,
) -> Result<FoundTarget, Status>
    ensures { (path : List ℕ) → as_checked (as_target path) result ≡ target_new (namespace (decode b.now).volume) r dir (as_leaf path leaf) }
{
    if adds_nothing(r) {
        return Err(Status::ObjectNameNotFound);
    }
    if read_mark(b) {
        return Err(Status::MediaWriteProtected);
    }
    Ok(FoundTarget::NoFile(dir, leaf))
}

// Refused where the type is wrong: a collision where the disposition is create.
fn refuse_type(r: Request, wrong: bool, status: Status) -> Result<(), Status>
    ensures { as_checked (λ u. u) result ≡ refuse_if wrong (cond (eqb r.disposition create) ObjectNameCollision status) }
{
    if !wrong {
        return Ok(());
    }
    if r.disposition == CREATE {
        return Err(Status::ObjectNameCollision);
    }
    Err(status)
}

// Step 8: a directory that a file or a colon is asked of, or a file that a directory is asked of.
#[tactic(auto, unfolding(store::specs::Target::wrong_type, paths::specs::Positions::as_leaf))]
fn check_type(r: Request, leaf: LeafParts, is_dir: bool) -> Result<(), Status>
    ensures { (path : List ℕ) → as_checked (λ u. u) result ≡ wrong_type r (as_leaf path leaf) is_dir }
{
    if is_dir {
        refuse_type(r, wants_file(r) | leaf.colon, Status::FileIsADirectory)
    } else {
        refuse_type(r, wants_directory(r), Status::NotADirectory)
    }
}

// Step 10: a found directory is opened and nothing else. A consistent one has its stream.
#[tactic(auto, using(crate::proofs::Directories::root_denied, crate::proofs::Directories::directory_collides), unfolding(records::specs::Checked::as_checked))]
fn target_directory(b: &TableBytes, r: Request, at: FoundFile) -> Result<FoundTarget, Status>
    ensures { (path : List ℕ) → as_checked (as_target path) result ≡ target_directory (namespace (decode b.now).volume) r (as_resolved at) }
{
    if !only_opens(r) {
        if at.file == FileNo(0) {
            return Err(Status::AccessDenied);
        }
        return Err(Status::ObjectNameCollision);
    }
    let no_name = [0u16; 0];
    let stream = find_stream(b, at.file, &no_name, false).ok_or(Status::FileCorruptError)?;
    Ok(FoundTarget::Directory(at, stream))
}

// Step 11: a found data file, by the stream of the last component's name; one that is marked is refused first.
fn target_data(
    b: &TableBytes,
    r: Request,
    path: &[u16],
    leaf: LeafParts,
    at: FoundFile,
) -> Result<FoundTarget, Status>
    ensures { as_checked (as_target path.now) result ≡ target_data (namespace (decode b.now).volume) r (as_resolved at) (as_leaf path.now leaf) (find_stream (namespace (decode b.now).volume) r.fold at.file (part_of path.now leaf.stream)) }
{
    match find_stream(b, at.file, part_of(path, leaf.stream), r.fold) {
        Some(stream) => {
            if read_stream_mark(b, stream) {
                return Err(Status::DeletePending);
            }
            if r.disposition == CREATE {
                return Err(Status::ObjectNameCollision);
            }
            Ok(FoundTarget::Stream(at, leaf, stream))
        }
        None => {
            if adds_nothing(r) {
                return Err(Status::ObjectNameNotFound);
            }
            Ok(FoundTarget::NoStream(at, leaf))
        }
    }
}

// A found file: step 8, and then its stream.
fn target_found(
    b: &TableBytes,
    r: Request,
    path: &[u16],
    leaf: LeafParts,
    at: FoundFile,
) -> Result<FoundTarget, Status>
    ensures { as_checked (as_target path.now) result ≡ target_found (namespace (decode b.now).volume) r (as_leaf path.now leaf) (as_resolved at) }
{
    let is_dir = is_directory(read_file_type(b, at.file));
    check_type(r, leaf, is_dir)?;
    if is_dir {
        target_directory(b, r, at)
    } else {
        target_data(b, r, path, leaf, at)
    }
}

// What is where the path leads.
fn target_at(
    b: &TableBytes,
    r: Request,
    path: &[u16],
    leaf: LeafParts,
    place: Located,
) -> Result<FoundTarget, Status>
    ensures { as_checked (as_target path.now) result ≡ target_at (namespace (decode b.now).volume) r (as_leaf path.now leaf) (as_place (as_leaf path.now leaf) place) }
{
    match place {
        Located::Root => {
            let at = FoundFile {
                link: None,
                file: FileNo(0),
            };
            target_found(b, r, path, leaf, at)
        }
        Located::Found(link, file) => {
            let at = FoundFile {
                link: Some(link),
                file,
            };
            target_found(b, r, path, leaf, at)
        }
        Located::Missing(dir) => target_new(b, r, dir, leaf),
    }
}

// The places of a parsed path's last component; a path without one has no names.
#[tactic(auto, unfolding(paths::specs::Positions::as_leaf, components::specs::Positions::part_of, lookup::specs::Answers::leaf_names))]
fn leaf_of(parsed: ParsedPath) -> LeafParts
    ensures { (path : List ℕ) → as_leaf path result ≡ leaf_names path parsed }
{
    match parsed {
        ParsedPath::Invalid | ParsedPath::Root => NO_LEAF,
        ParsedPath::Named(leaf) => leaf,
    }
}

// The steps in order.
#[tactic(auto, using(crate::proofs::Steps::parameters_refused, crate::proofs::Steps::access_refused, crate::proofs::Steps::types_refused), unfolding(records::specs::Checked::as_checked))]
pub fn find_target(b: &TableBytes, r: Request, path: &[u16]) -> Result<FoundTarget, Status>
    ensures { as_checked (as_target path.now) result ≡ target (namespace (decode b.now).volume) r path.now }
{
    // Steps 1, 2 and 3: the request's numbers alone.
    if bad_parameters(r) {
        return Err(Status::InvalidParameter);
    }
    if bad_access(r) {
        return Err(Status::AccessDenied);
    }
    if wants_both(r) {
        return Err(Status::InvalidParameter);
    }
    // Step 4.
    let parsed = parse_path(path, wants_directory(r), wants_file(r));
    if let ParsedPath::Invalid = parsed {
        return Err(Status::ObjectNameInvalid);
    }
    // Step 5.
    if read_mark(b) & writes_volume(r) {
        return Err(Status::MediaWriteProtected);
    }
    // Step 6, and what is where the path leads.
    let place = locate(b, path, parsed, r.fold)?;
    target_at(b, r, path, leaf_of(parsed), place)
}

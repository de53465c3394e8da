// The walk through a path's components (step 6).
ghost use Rattle.std.specs.Prelude.{◌≡◌};
ghost use Rattle.records.specs.Slots.{root};
ghost use Rattle.records.specs.Namespace.{namespace};
ghost use Rattle.records.specs.Checked.{as_checked};
ghost use Rattle.components.specs.Positions.{part_of, parents_of};
ghost use Rattle.paths.specs.Positions.{as_leaf};
ghost use Rattle.layout.specs.Layout.{decode};
ghost use Rattle.lookup.specs.Lookup.{locate};
ghost use Rattle.lookup.specs.Answers.{walked_from, as_place, path_to, leaf_names, locate_parsed};

use crate::links::find_link;
use crate::{Located, Walked};
use components::{Part, part_of, units_before};
use layout::TableBytes;
use path_reader::read_component;
use paths::{LeafParts, ParsedPath};
use records::slots::is_directory;
use records::{FileNo, Status};
use records_files::{read_file_mark, read_file_type};
use records_links::read_link_file;

// From the root through the components before `last`, each a directory, to the link that the directory has for `last`.
// A file that is marked ends the walk, whatever its kind; a file number past its table is no directory, and has no mark.
fn walk_path(b: &TableBytes, path: &[u16], last: Part, fold: bool) -> Result<Walked, Status>
    ensures { as_checked (λ w. w) result ≡ walked_from (namespace (decode b.now).volume) fold root (parents_of path.now last) (part_of path.now last) }
{
    let parents = units_before(path, last.start);
    let mut dir = FileNo(0);
    let mut at = 0;
    'components: loop {
        let part = read_component(parents, at);
        let is_last = part.start == part.end;
        let name = if is_last { last } else { part };
        let found = find_link(b, dir, part_of(path, name), fold);
        if is_last {
            break 'components Ok(match found {
                Some(link) => Walked::Link(link),
                None => Walked::Missing(dir),
            });
        }
        let Some(link) = found else {
            return Err(Status::ObjectPathNotFound);
        };
        let next = read_link_file(b, link);
        if read_file_mark(b, next) {
            break 'components Err(Status::DeletePending);
        }
        if !is_directory(read_file_type(b, next)) {
            break 'components Err(Status::ObjectPathNotFound);
        }
        dir = next;
        at = part.end;
    }
}

// Where a path with a last component leads; without a name it is the root's. A marked file is refused here too.
fn locate_leaf(b: &TableBytes, path: &[u16], leaf: LeafParts, fold: bool) -> Result<Located, Status>
    ensures { as_checked (as_place (as_leaf path.now leaf)) result ≡ locate (namespace (decode b.now).volume) fold (path_to path.now leaf) }
{
    if part_of(path, leaf.file).is_empty() {
        return Ok(Located::Root);
    }
    match walk_path(b, path, leaf.file, fold)? {
        Walked::Link(link) => {
            let file = read_link_file(b, link);
            if read_file_mark(b, file) {
                return Err(Status::DeletePending);
            }
            Ok(Located::Found(link, file))
        }
        Walked::Missing(dir) => Ok(Located::Missing(dir)),
    }
}

// Where a parsed path leads. An invalid one keeps its refusal.
pub fn locate(
    b: &TableBytes,
    path: &[u16],
    parsed: ParsedPath,
    fold: bool,
) -> Result<Located, Status>
    ensures { as_checked (as_place (leaf_names path.now parsed)) result ≡ locate_parsed (namespace (decode b.now).volume) fold path.now parsed }
{
    match parsed {
        ParsedPath::Invalid => Err(Status::ObjectNameInvalid),
        ParsedPath::Root => Ok(Located::Root),
        ParsedPath::Named(leaf) => locate_leaf(b, path, leaf, fold),
    }
}

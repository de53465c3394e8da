// What the steps of an open hand to each other: the target found, the open admitted, the open decided. A step that refuses
// answers a status in its place. `specs/` says what each stands for.
#![tactic(auto)]

use paths::LeafParts;
use records::{CreateAction, FileNo, FileType, Handle, LinkNo, StreamNo, Terms};

// A file that a path leads to, and the link that names it there. The root has none.
#[derive(Clone, Copy)]
pub struct FoundFile {
    pub link: Option<LinkNo>,
    pub file: FileNo,
}

// Steps 1 to 8: a stream that is there, or what is missing.
#[derive(Clone, Copy)]
pub enum FoundTarget {
    Directory(FoundFile, StreamNo),
    Stream(FoundFile, LeafParts, StreamNo),
    NoStream(FoundFile, LeafParts),
    NoFile(FileNo, LeafParts),
}

// What step 10 does to a directory's open when the directory has no open at all.
#[derive(Clone, Copy)]
pub enum SharingRule {
    AsOffered,
    AddedIfAlone,
    DeniedIfAlone,
}

// An open of a stream that is there: it goes to the sharing check. Its file's attributes become those that are there.
#[derive(Clone, Copy)]
pub struct ExistingOpen {
    pub file: FileNo,
    pub stream: StreamNo,
    pub terms: Terms,
    pub read_sharing: SharingRule,
    pub action: CreateAction,
    pub attributes: Option<u32>,
}

// A stream to add to a file, whose attributes become these.
#[derive(Clone, Copy)]
pub struct StreamToAdd {
    pub file: FileNo,
    pub leaf: LeafParts,
    pub attributes: u32,
    pub terms: Terms,
}

// A file to add to a directory, of which it copies the masks.
#[derive(Clone, Copy)]
pub struct FileToAdd {
    pub dir: FileNo,
    pub leaf: LeafParts,
    pub file_type: FileType,
    pub attributes: u32,
    pub terms: Terms,
}

// Steps 9 to 11: an open that no step before the sharing check refuses reaches that check, or it has none.
#[derive(Clone, Copy)]
pub enum PendingOpen {
    Existing(ExistingOpen),
    NewStream(StreamToAdd),
    NewFile(FileToAdd),
}

// The slots of a new file, its link and its streams: the one without a name, and the one that is opened.
#[derive(Clone, Copy)]
pub struct FileSlots {
    pub file: FileNo,
    pub link: LinkNo,
    pub unnamed: StreamNo,
    pub opened: StreamNo,
}

// What an accepted open changes or adds, and where.
#[derive(Clone, Copy)]
pub enum PlacedOpen {
    Existing(FileNo, StreamNo, Option<u32>),
    NewStream(StreamToAdd, StreamNo),
    NewFile(FileToAdd, FileSlots),
}

// An open that the sharing check and step 12 accept, with the row that it takes.
#[derive(Clone, Copy)]
pub struct AcceptedOpen {
    pub action: CreateAction,
    pub placed: PlacedOpen,
    pub terms: Terms,
    pub handle: Handle,
    pub delete_on_close: bool,
    pub row: usize,
}

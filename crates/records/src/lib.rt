// The records of document 01: what a volume and its table of opens hold, what an open asks and what a call answers.
// File, link and stream numbers and handles are types of their own, so that none can serve as another.
#![tactic(auto)]

ghost use Rattle.std.specs.Prelude.{◌≡◌};
ghost use Rattle.records.specs.Terms.{terms_of};

pub mod constants;
mod numbers;
pub mod sizes;
pub mod slots;

use crate::sizes::{
    ACCOUNTS, FILE_NAME_LIMIT, FILE_SLOTS, LINK_SLOTS, OPEN_SLOTS, STREAM_NAME_LIMIT, STREAM_SLOTS,
};

// A slot of the files table. File 0 is the root.
#[derive(Clone, Copy, PartialEq, Eq)]
pub struct FileNo(pub u16);

// A slot of the links table.
#[derive(Clone, Copy, PartialEq, Eq)]
pub struct LinkNo(pub u16);

// A slot of the streams table.
#[derive(Clone, Copy, PartialEq, Eq)]
pub struct StreamNo(pub u16);

// The number of an open. It is taken from the volume's next handle, never from a slot.
#[derive(Clone, Copy, PartialEq, Eq)]
pub struct Handle(pub u64);

// What a file or a stream is, with its number in the tables' bytes. A free slot of their tables is Unused.
#[derive(Clone, Copy, PartialEq, Eq)]
pub enum FileType {
    Unused = 0,
    Data = 1,
    Directory = 2,
}

// A file, with one access mask for each account. `delete_pending` marks one that goes with its last open.
#[derive(Clone, Copy, PartialEq, Eq)]
pub struct File {
    pub file_type: FileType,
    pub attributes: u32,
    pub masks: [u32; ACCOUNTS],
    pub delete_pending: bool,
}

// A name of a file in its parent directory. Units past the name are zero; a free slot has no name.
#[derive(Clone, Copy, PartialEq, Eq)]
pub struct Link {
    pub parent: FileNo,
    pub name: [u16; FILE_NAME_LIMIT],
    pub file: FileNo,
}

// The share counts of a stream (the paper's tallies): its counted opens, those that read, write and delete, and those
// that share reading, writing and deleting.
#[derive(Clone, Copy, PartialEq, Eq)]
pub struct ShareCounts {
    pub opens: u16,
    pub readers: u16,
    pub writers: u16,
    pub deleters: u16,
    pub shared_read: u16,
    pub shared_write: u16,
    pub shared_delete: u16,
}

// A stream of a file. A named one may be marked by itself.
#[derive(Clone, Copy, PartialEq, Eq)]
pub struct Stream {
    pub file: FileNo,
    pub stream_type: FileType,
    pub name: [u16; STREAM_NAME_LIMIT],
    pub counts: ShareCounts,
    pub delete_pending: bool,
}

// An open. A free slot has handle 0. `delete_on_close` says that its close marks its file, or its named stream.
#[derive(Clone, Copy, PartialEq, Eq)]
pub struct Open {
    pub handle: Handle,
    pub file: FileNo,
    pub stream: StreamNo,
    pub granted: u32,
    pub share: u32,
    pub delete_on_close: bool,
}

// The terms of an open: what it was granted, and what it shares.
#[derive(Clone, Copy, PartialEq, Eq)]
pub struct Terms {
    pub granted: u32,
    pub share: u32,
}

impl Open {
    pub fn terms(self) -> Terms
        ensures { result ≡ terms_of self }
    {
        Terms {
            granted: self.granted,
            share: self.share,
        }
    }
}

// The volume: all but the opens.
#[derive(Drop)]
pub struct Volume {
    pub read_only: bool,
    pub next_handle: Handle,
    pub files: [File; FILE_SLOTS],
    pub links: [Link; LINK_SLOTS],
    pub streams: [Stream; STREAM_SLOTS],
}

// The opens, which stand beside the volume.
#[derive(Drop)]
pub struct OpenTable {
    pub rows: [Open; OPEN_SLOTS],
}

// What an open asks, besides its path. `fold` says that a to z match A to Z.
#[derive(Clone, Copy, PartialEq, Eq)]
pub struct Request {
    pub account: u32,
    pub access: u32,
    pub share: u32,
    pub disposition: u32,
    pub options: u32,
    pub attributes: u32,
    pub fold: bool,
}

// What an open did, with document 01's number for it.
#[derive(Clone, Copy, PartialEq, Eq)]
pub enum CreateAction {
    Superseded = 0,
    Opened = 1,
    Created = 2,
    Overwritten = 3,
}

// Why a call was refused, with document 01's number for it.
#[derive(Clone, Copy, PartialEq, Eq)]
pub enum Status {
    FileCorruptError = 0xC000_0102,
    InvalidParameter = 0xC000_000D,
    AccessDenied = 0xC000_0022,
    ObjectNameInvalid = 0xC000_0033,
    MediaWriteProtected = 0xC000_00A2,
    ObjectPathNotFound = 0xC000_003A,
    ObjectNameNotFound = 0xC000_0034,
    ObjectNameCollision = 0xC000_0035,
    FileIsADirectory = 0xC000_00BA,
    NotADirectory = 0xC000_0103,
    SharingViolation = 0xC000_0043,
    DiskFull = 0xC000_007F,
    TooManyOpenedFiles = 0xC000_011F,
    InsufficientResources = 0xC000_009A,
    InvalidHandle = 0xC000_0008,
    CannotDelete = 0xC000_0121,
    DeletePending = 0xC000_0056,
}

// How a call ended. An open succeeds with its action and its handle; format, close and set_read_only are done.
#[derive(Clone, Copy, PartialEq, Eq)]
pub enum Outcome {
    Success(CreateAction, Handle),
    Done,
    Refused(Status),
}

// A call's answer: its outcome, and the access granted.
#[derive(Clone, Copy, PartialEq, Eq)]
pub struct Answer {
    pub outcome: Outcome,
    pub granted: u32,
}

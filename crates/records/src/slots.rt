// The records of a free slot, which are all zero, and the tests of a used one.
ghost use Rattle.std.specs.Prelude.{◌≡◌};
ghost use Rattle.records.specs.Slots.{is_used, is_directory, file_used, link_used, stream_used, open_used};

use crate::sizes::{ACCOUNTS, FILE_NAME_LIMIT, STREAM_NAME_LIMIT};
use crate::{File, FileNo, FileType, Handle, Link, Open, ShareCounts, Stream, StreamNo};

pub const ZERO_FILE: File = File {
    file_type: FileType::Unused,
    attributes: 0,
    masks: [0; ACCOUNTS],
    delete_pending: false,
};

pub const ZERO_LINK: Link = Link {
    parent: FileNo(0),
    name: [0; FILE_NAME_LIMIT],
    file: FileNo(0),
};

pub const ZERO_COUNTS: ShareCounts = ShareCounts {
    opens: 0,
    readers: 0,
    writers: 0,
    deleters: 0,
    shared_read: 0,
    shared_write: 0,
    shared_delete: 0,
};

pub const ZERO_STREAM: Stream = Stream {
    file: FileNo(0),
    stream_type: FileType::Unused,
    name: [0; STREAM_NAME_LIMIT],
    counts: ZERO_COUNTS,
    delete_pending: false,
};

pub const ZERO_OPEN: Open = Open {
    handle: Handle(0),
    file: FileNo(0),
    stream: StreamNo(0),
    granted: 0,
    share: 0,
    delete_on_close: false,
};

#[tactic(auto, unfolding(crate::specs::Slots::is_used))]
pub fn is_used(t: FileType) -> bool
    ensures { result ≡ is_used t }
{
    matches!(t, FileType::Data | FileType::Directory)
}

#[tactic(auto, unfolding(crate::specs::Slots::is_directory))]
pub fn is_directory(t: FileType) -> bool
    ensures { result ≡ is_directory t }
{
    matches!(t, FileType::Directory)
}

pub fn file_used(f: File) -> bool
    ensures { result ≡ file_used f }
{
    is_used(f.file_type)
}

pub fn link_used(l: Link) -> bool
    ensures { result ≡ link_used l }
{
    l.name[0] != 0
}

pub fn stream_used(s: Stream) -> bool
    ensures { result ≡ stream_used s }
{
    is_used(s.stream_type)
}

pub fn open_used(o: Open) -> bool
    ensures { result ≡ open_used o }
{
    o.handle.0 != 0
}

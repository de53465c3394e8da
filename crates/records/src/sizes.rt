// How much the tables and names hold (document 01, "Sizes"), as in specs/Sizes.antt.
pub const FILE_SLOTS: usize = 128;

pub const LINK_SLOTS: usize = 192;

pub const STREAM_SLOTS: usize = 256;

pub const OPEN_SLOTS: usize = 256;

// units of a file's name, and of a stream's
pub const FILE_NAME_LIMIT: usize = 32;

pub const STREAM_NAME_LIMIT: usize = 32;

pub const PATH_LIMIT: usize = 255;

pub const ACCOUNTS: usize = 8;

// the last value of the next handle, at which no open is accepted any more
pub const LAST_HANDLE: u64 = 0xFFFF_FFFF_FFFF_FFFF;

// The numbers of [MS-FSA], [MS-SMB2] and [MS-FSCC] that document 01 names, as in specs/Constants.antt.

// dispositions
pub const SUPERSEDE: u32 = 0;

pub const OPEN_ONLY: u32 = 1;

pub const CREATE: u32 = 2;

pub const OPEN_IF: u32 = 3;

pub const OVERWRITE: u32 = 4;

pub const OVERWRITE_IF: u32 = 5;

// options
pub const DIRECTORY_FILE: u32 = 0x1;

pub const NON_DIRECTORY_FILE: u32 = 0x40;

pub const DELETE_ON_CLOSE: u32 = 0x1000;

pub const DISALLOW_EXCLUSIVE: u32 = 0x2_0000;

// attributes
pub const READ_ONLY: u32 = 0x1;

pub const HIDDEN: u32 = 0x2;

pub const SYSTEM: u32 = 0x4;

pub const DIRECTORY: u32 = 0x10;

pub const ARCHIVE: u32 = 0x20;

pub const TEMPORARY: u32 = 0x100;

pub const NOT_CONTENT_INDEXED: u32 = 0x2000;

// all that a file may have
pub const FILE_ATTRIBUTES: u32 = 0x3137;

// access
pub const WRITE_DATA: u32 = 0x2;

pub const APPEND_DATA: u32 = 0x4;

pub const ADD_FILE: u32 = 0x2;

pub const ADD_SUBDIRECTORY: u32 = 0x4;

pub const DELETE: u32 = 0x1_0000;

pub const ALL_ACCESS: u32 = 0x1F01FF;

// FILE_GENERIC_WRITE
pub const FILE_GENERIC_WRITE: u32 = 0x12_0116;

pub const MAXIMUM_ALLOWED: u32 = 0x0200_0000;

// sharing modes
pub const SHARE_READ: u32 = 1;

pub const SHARE_ALL: u32 = 7;

//! The numbers of procedures, and the words of statuses (RFC 1094 sections 2.2 and 2.3.1).

pub const NULL: u32 = 0;

pub const GETATTR: u32 = 1;

pub const SETATTR: u32 = 2;

pub const ROOT: u32 = 3;

pub const LOOKUP: u32 = 4;

pub const READLINK: u32 = 5;

pub const READ: u32 = 6;

pub const WRITECACHE: u32 = 7;

pub const WRITE: u32 = 8;

pub const CREATE: u32 = 9;

pub const REMOVE: u32 = 10;

pub const RENAME: u32 = 11;

pub const LINK: u32 = 12;

pub const SYMLINK: u32 = 13;

pub const MKDIR: u32 = 14;

pub const RMDIR: u32 = 15;

pub const READDIR: u32 = 16;

pub const STATFS: u32 = 17;

pub const OK: &[u32] = &[0];

pub const PERM: &[u32] = &[1];

pub const NOENT: &[u32] = &[2];

pub const ACCES: &[u32] = &[13];

pub const EXIST: &[u32] = &[17];

pub const NOTDIR: &[u32] = &[20];

pub const ISDIR: &[u32] = &[21];

pub const FBIG: &[u32] = &[27];

pub const NOSPC: &[u32] = &[28];

pub const NOTEMPTY: &[u32] = &[66];

pub const STALE: &[u32] = &[70];

//! The numbers that the words of a command may give, and those that stand for options which are left out.

use tow_model::limits::FIRST_UNDATED;

/// The last moment, in seconds since 1970: the last one of the year 9999.
pub const LAST_MOMENT: u64 = FIRST_UNDATED - 1;

/// The most connections of a drill.
pub const MAX_DRILL: u32 = 1000;

/// The most threads that wait for the machine.
pub const MAX_LOOPS: u32 = 16;

/// The most threads that ask for files.
pub const MAX_WORKERS: u32 = 64;

/// The most connections at one time.
pub const MAX_SLOTS: u32 = 1024;

/// The most connections of a run.
pub const MAX_CONNECTIONS: u32 = 2_147_483_647;

pub const DEFAULT_LOOPS: u32 = 2;

pub const DEFAULT_WORKERS: u32 = 4;

pub const DEFAULT_SLOTS: u32 = 256;

/// No bound on the connections of a run but `MAX_CONNECTIONS`.
pub const DEFAULT_CONNECTIONS: u32 = 0;

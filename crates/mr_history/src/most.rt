//! The limits for which a journal can be made.

/// The most (S,G) entries.
pub const MOST_ENTRIES: u32 = 16_384;
/// The most waiting entries.
pub const MOST_UNRESOLVED: u32 = 64;
/// The most calls, ticks and receives.
pub const MOST_CONTROLS: u32 = 1_048_576;
/// The most phases.
pub const MOST_PHASES: u32 = 1_000;
/// The most packets of all lanes together.
pub const MOST_PACKETS: u32 = 1_048_576;
/// The most lanes.
pub const MOST_LANES: usize = 16;
/// The most daemons.
pub const MOST_DAEMONS: usize = 8;
/// The most devices.
pub const MOST_DEVICES: usize = 64;
/// The most records of a settle.
pub const MOST_RECORDS: usize = 64;
/// The most packets that one call releases.
pub const MOST_RELEASED: usize = 4;
/// The highest device number of a packet that a journal keeps.
pub const LAST_DEVICE: u32 = 255;
/// How many vifs there may be (ipmr.c, MAXVIFS).
pub const VIFS: usize = 32;

//! The limits of what is kept, forwarded and read, each stated once.

/// The vifs of a forwarder, numbered from 0 (MAXVIFS of mroute.h).
pub const MAXVIFS: u16 = 32;

/// The devices of a scenario.
pub const MOST_DEVICES: usize = 64;

/// The (S,G) entries that `limit entries` may allow.
pub const MOST_ENTRIES: u32 = 16_384;

/// The (S,G) entries that a scenario without `limit entries` allows.
pub const DEFAULT_ENTRIES: u32 = 1_024;

/// The waiting entries that `limit unresolved` may allow.
pub const MOST_UNRESOLVED: u32 = 64;

/// The waiting entries that a scenario without `limit unresolved` allows.
pub const DEFAULT_UNRESOLVED: u32 = 10;

/// The packets of one waiting entry.
pub const MOST_PACKETS: usize = 4;

/// The age in milliseconds from which a waiting entry expires at a tick.
pub const EXPIRY_MS: u64 = 10_000;

/// The unread reports (upcalls) of a daemon.
pub const MOST_UNREAD: usize = 64;

/// The age in milliseconds that an (S,G) entry's last attempt of a wrong-interface report has to be
/// above for another one (MFC_ASSERT_THRESH of mroute.h).
pub const ASSERT_GAP_MS: u64 = 3_000;

/// The packets that a lane keeps before it settles them.
pub const MOST_RECORDS: usize = 64;

/// The lanes of a scenario.
pub const MOST_LANES: u32 = 16;

/// The daemons of a scenario.
pub const MOST_DAEMONS: usize = 8;

/// The configuration files of a scenario's `smc` line.
pub const MOST_CONFIGURATIONS: usize = 8;

/// The phases of a scenario.
pub const MOST_PHASES: usize = 1_000;

/// The items of all lanes of a scenario: lines `pkt`, and records of traces.
pub const MOST_ITEMS: u32 = 1_048_576;

/// The control entries (calls, ticks and receives) that `limit control` may allow.
pub const MOST_CONTROLS: u32 = 1_048_576;

/// The control entries that a scenario without `limit control` allows.
pub const DEFAULT_CONTROLS: u32 = 65_536;

/// The history entries of a run, and the packets that they count: above all that a scenario's
/// limits allow, so that no number or total runs over.
pub const MOST_HISTORY: u32 = 4_194_304;

/// The bytes of a file that is read; a longer one is a failed read.
pub const LONGEST_FILE: u64 = 268_435_456;

/// The bytes of the name of a file.
pub const LONGEST_NAME: usize = 255;

/// The bytes of the name of a device.
pub const LONGEST_DEVICE_NAME: usize = 15;

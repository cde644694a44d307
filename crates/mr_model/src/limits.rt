use mr_base::{Device, List};

/// The fixed data of a run.
#[derive(Clone, Debug, Drop, PartialEq, Eq)]
pub struct Limits {
    /// How many entries the tables may hold, 1 to 16,384.
    pub entries: u32,
    /// How many waiting entries there may be, 1 to 64.
    pub unresolved: u32,
    /// How many calls, ticks and receives the history may hold, 1 to 1,048,576.
    pub controls: u32,
    /// How many phases it may hold, at most 1,000.
    pub phases: u32,
    /// For each lane how many packets it has; all items together are at most 1,048,576.
    pub packets: List<u32>,
    /// For each daemon whether it is an admin.
    pub admins: List<bool>,
    /// The devices, at most 64.
    pub devices: List<Device>,
}

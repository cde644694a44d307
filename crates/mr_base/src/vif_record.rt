/// A virtual interface (vif) of the forwarder.
#[derive(Clone, Copy, Debug, PartialEq, Eq)]
pub struct VifRecord {
    /// Its index, 0 to 31.
    pub vif: u8,
    /// The number of its device, from 1; 0 for the register vif.
    pub dev: u32,
    /// Whether it is the register vif, whose copies go to the daemon as reports.
    pub register: bool,
    /// Whether it is static: kept when the owner leaves.
    pub fixed: bool,
    /// The number of the history entry that made it.
    pub number: u32,
}

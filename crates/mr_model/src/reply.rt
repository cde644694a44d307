use mr_base::Errno;

/// What an entry counted.
#[derive(Clone, Copy, Debug, Default, PartialEq, Eq)]
pub struct RouteTotals {
    pub packets: u64,
    /// The sum of the packets' total lengths.
    pub bytes: u64,
    /// How many of the packets came in on a wrong interface.
    pub wrong: u64,
}

/// What a vif counted.
#[derive(Clone, Copy, Debug, Default, PartialEq, Eq)]
pub struct VifTotals {
    pub packets_in: u64,
    pub packets_out: u64,
    pub bytes_in: u64,
    pub bytes_out: u64,
}

/// The answer to a control call.
#[derive(Clone, Copy, Debug, PartialEq, Eq)]
pub enum Reply {
    Good,
    Value(u32),
    Sg(RouteTotals),
    Vif(VifTotals),
    Refused(Errno),
}

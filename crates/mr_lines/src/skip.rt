use mr_base::LaneNo;

/// An item of a lane that is no packet, since its head is refused.
#[derive(Clone, Copy, Debug, PartialEq, Eq)]
pub struct Skip {
    pub lane: LaneNo,
    /// The lane's item number, from 1.
    pub index: u32,
    /// 1 to 8 as mr_base's `HeadError`; 0 for a frame that does not say IPv4.
    pub cause: u8,
}

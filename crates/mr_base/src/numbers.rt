//! Numbers with names of their own, and the answers that carry nothing.

/// An IPv4 address as a number: 10.0.0.1 is `Addr(0x0A000001)`.
#[derive(Clone, Copy, Debug, Default, PartialEq, Eq)]
pub struct Addr(pub u32);

/// A set of vifs: bit i stands for vif i, 0 to 31.
#[derive(Clone, Copy, Debug, Default, PartialEq, Eq)]
pub struct Mask(pub u32);

/// A lane of packets, numbered from 1.
#[derive(Clone, Copy, Debug, Default, PartialEq, Eq)]
pub struct LaneNo(pub u32);

/// A daemon, numbered from 1.
#[derive(Clone, Copy, Debug, Default, PartialEq, Eq)]
pub struct DaemonNo(pub u32);

/// Memory ran out.
#[derive(Clone, Copy, Debug, PartialEq, Eq)]
pub struct Memory;

/// A call of the outside world failed, and its object's count of faults rose.
#[derive(Clone, Copy, Debug, PartialEq, Eq)]
pub struct Failed;

/// No control entry (call, tick or receive) is left under the limit.
#[derive(Clone, Copy, Debug, PartialEq, Eq)]
pub struct ControlFull;

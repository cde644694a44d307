use mr_base::Addr;
use smc_conf::Prefix;

/// A route that a rule made for a packet that had none.
#[derive(Clone, Copy, Debug, PartialEq, Eq)]
pub struct Learned {
    /// The vif on which the packet came.
    pub vif: u8,
    pub src: Addr,
    pub dst: Addr,
    /// The rule's prefix of sources.
    pub source: Prefix,
    /// The rule's prefix of groups.
    pub group: Prefix,
}

//! What a configuration says.

use mr_base::{Addr, FileName, List};

/// Addresses that begin with the same bits.
#[derive(Clone, Copy, Debug, PartialEq, Eq)]
pub struct Prefix {
    /// The first address: its bits behind the first `len` are zeros.
    pub addr: Addr,
    /// How many bits are the same, 0 to 32.
    pub len: u8,
}

/// An interface that may get a vif.
#[derive(Debug, Drop)]
pub struct Phyint {
    /// The name of a device, 1 to 15 bytes.
    pub name: FileName,
    pub enabled: bool,
    /// The TTL threshold, 1 to 255.
    pub threshold: u8,
}

/// Groups that are joined on an interface.
#[derive(Debug, Drop)]
pub struct Group {
    /// The name of the interface, 1 to 15 bytes.
    pub input: FileName,
    pub source: Prefix,
    pub group: Prefix,
}

/// Where packets of these sources and groups go on.
#[derive(Debug, Drop)]
pub struct Rule {
    /// The name of the interface on which they come, 1 to 15 bytes.
    pub input: FileName,
    pub source: Prefix,
    pub group: Prefix,
    /// The names of the interfaces on which they go out, one or more, as they are given.
    pub outs: List<FileName>,
}

/// A configuration: its lines, in the order of the file.
#[derive(Debug, Drop)]
pub struct Conf {
    /// No two have one name, and at most 32 are enabled.
    pub phyints: List<Phyint>,
    pub groups: List<Group>,
    pub rules: List<Rule>,
}

//! Scenarios: what a run is asked to do.

use crate::boxed_name::BoxedName;
use mr_base::{Addr, DaemonNo, FileName, LaneNo, List};
use mr_model::{Limits, Request};

/// A device and its name.
#[derive(Debug, Drop)]
pub struct Named {
    pub name: FileName,
    pub addr: Addr,
}

/// The sorts of daemon.
#[derive(Debug, Drop)]
pub enum DaemonKind {
    /// It may change tables only while it owns the machine.
    Plain,
    /// It may always change tables.
    Admin,
    /// An admin that is driven by smcroute, with 1 to 8 configuration files.
    Smc(List<FileName>),
}

/// What a lane is given.
#[derive(Debug, Drop)]
pub enum Given {
    /// The bytes of one packet, at most 65,535.
    Bytes(List<u8>),
    /// A file, each of whose records is an item.
    Trace(BoxedName),
}

/// An item of a lane.
#[derive(Debug, Drop)]
pub struct Item {
    /// Its line in the scenario.
    pub line: u32,
    pub lane: LaneNo,
    /// The number of the device on which it comes, from 1.
    pub dev: u32,
    pub given: Given,
}

/// What a daemon does.
#[derive(Debug, Drop)]
pub enum Script {
    /// It makes a control call.
    Ask(Request),
    /// It sets an option to these bytes, at most 65,535.
    Raw { opt: u16, bytes: List<u8> },
    /// It asks for another table (MRT_TABLE), which no machine of one table has.
    Table(u32),
    /// It lets so many milliseconds pass.
    Tick(u32),
    /// It asks for a report.
    Recv,
    /// Its smcroute starts.
    Start,
    /// It asks for up to so many reports, 1 to 64.
    Poll(u32),
    /// A command of smcroutectl: its words, parted by one space.
    Words(List<u8>),
}

/// A line of a daemon's script.
#[derive(Debug, Drop)]
pub struct ScriptLine {
    /// Its line in the scenario.
    pub line: u32,
    pub daemon: DaemonNo,
    pub script: Script,
}

/// A phase: all its lanes and daemons are done before the next one begins.
#[derive(Debug, Drop)]
pub struct Phase {
    /// Its line in the scenario.
    pub line: u32,
    /// The items of all lanes, in their order.
    pub items: List<Item>,
    /// The lines of all daemons, in their order.
    pub script: List<ScriptLine>,
}

/// A whole scenario. Lines are counted from 1, and one beyond 4,294,967,295 has that number.
#[derive(Debug, Drop)]
pub struct Scenario {
    /// Its `packets` are one zero per lane: the items are not read yet.
    pub limits: Limits,
    /// At most 64, numbered from 1.
    pub devices: List<Named>,
    /// How many lanes there are, 0 to 16.
    pub lanes: u32,
    /// At most 8, numbered from 1.
    pub daemons: List<DaemonKind>,
    /// At most 1,000.
    pub phases: List<Phase>,
}

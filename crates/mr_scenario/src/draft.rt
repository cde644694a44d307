use crate::scenario::{DaemonKind, Named, Phase};
use mr_base::List;

/// A scenario of which some lines are read.
#[derive(Debug, Drop)]
pub struct Draft {
    /// Whether the line `scenario 1` was read.
    pub begun: bool,
    /// `limit entries N`
    pub entries: Option<u32>,
    /// `limit unresolved N`
    pub unresolved: Option<u32>,
    /// `limit control N`
    pub controls: Option<u32>,
    /// `lanes N`
    pub lanes: Option<u32>,
    pub devices: List<Named>,
    pub daemons: List<DaemonKind>,
    /// How many `pkt` items there are.
    pub sent: u32,
    /// The phases that have ended.
    pub phases: List<Phase>,
    /// The phase whose lines are read now.
    pub current: Option<Phase>,
}

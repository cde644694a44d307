use crate::conf::{Group, Phyint, Rule};
use mr_base::List;

/// A configuration of which some lines are read.
#[derive(Debug, Drop)]
pub(crate) struct Draft {
    pub(crate) phyints: List<Phyint>,
    /// How many of them are enabled.
    pub(crate) enabled: u32,
    pub(crate) groups: List<Group>,
    pub(crate) rules: List<Rule>,
}

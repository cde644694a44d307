//! Configurations of smcroute: interfaces, groups and rules, what the lines of a text spell, and
//! the reader that gives it.
#![tactic(auto)]

mod conf;
mod draft;
mod forms;
mod lines;
mod phyints;
mod ranges;
mod reading;
mod stop;
#[cfg(test)]
mod tests;
mod worked;

pub use conf::{Conf, Group, Phyint, Prefix, Rule};
pub use forms::{group_word, source_word};
pub use reading::read;
pub use stop::{ConfError, Kind, MOST_TEXT};
pub use worked::worked_configurations;

//! Scenarios: what a run is asked to do, what the lines of a text spell, and the reader that gives
//! it.
#![tactic(auto)]

mod boxed_name;
mod counting;
mod draft;
mod forms;
mod head_lines;
mod hex;
mod laws;
mod operations;
mod phase_lines;
mod reading;
mod requests;
mod scenario;
mod stop;
#[cfg(test)]
mod tests;

pub use boxed_name::BoxedName;
pub use laws::spelled_fits;
pub use reading::read;
pub use scenario::{DaemonKind, Given, Item, Named, Phase, Scenario, Script, ScriptLine};
pub use stop::{Kind, MOST_TEXT, ScenarioError};

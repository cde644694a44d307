//! The routing machine after smcroute: rules, groups and learned routes, which requests each
//! command and each report makes, and which text each command answers.
#![tactic(auto)]

mod changing;
mod commands;
mod input;
mod mistake;
mod plan;
mod ranges;
mod replies;
mod show;
mod showing;
mod smc;
mod stop;
#[cfg(test)]
mod tests;
mod worked;

pub use input::{Input, Output};
pub use mistake::Mistake;
pub use plan::Plan;
pub use smc::Smc;
pub use worked::worked_rows;

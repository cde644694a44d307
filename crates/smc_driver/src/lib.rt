//! The driver of a daemon with a routing machine: the lines that a scenario has for it in a phase,
//! played one after another over a caller.
#![tactic(auto)]

mod asking;
mod lines;
mod receiving;
#[cfg(test)]
mod tests;

pub use lines::drive;

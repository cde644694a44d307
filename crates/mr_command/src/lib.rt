//! The words of the command line, and what they ask for.
#![tactic(auto)]

mod reading;
#[cfg(test)]
mod tests;
mod worked;

pub use reading::{Command, MOST_SEED, command_of};
pub use worked::worked_words;

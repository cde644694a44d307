//! Scenarios that a seed makes, and the summary of a history.
#![tactic(auto)]

mod drawing;
mod generating;
mod routes;
mod summing;
#[cfg(test)]
mod tests;
mod worked;
mod writing;

pub use generating::generate;
pub use routes::{ENTRIES, VIFS};
pub use worked::{worked_summary, worked_words};
pub use writing::write_summary;

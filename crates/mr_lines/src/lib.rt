//! The lines of a history's text: what each says, its words, and both ways between them.
#![tactic(auto)]

mod cursor;
mod fields;
mod items;
mod laws;
mod line;
mod masks;
mod numbers;
mod outcomes;
mod reading;
mod requests;
mod skip;
mod tail;
#[cfg(test)]
mod tests;
mod words;

pub use laws::{line_again, line_clean, line_is_one, line_splits, line_takes, spaced_again};
pub use line::Line;
pub use reading::{read_line, read_record};
pub use skip::Skip;
pub use tail::{RouteLine, Tail, VifLine};

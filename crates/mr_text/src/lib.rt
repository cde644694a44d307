//! A history as text: one text for each history, and each text read back.
#![tactic(auto)]

mod history_text;
mod laws;
mod orders;
mod reading;
mod reading_state;
mod settles;
mod steps;
#[cfg(test)]
mod tests;
#[cfg(test)]
mod tests_forms;
#[cfg(test)]
mod tests_worked;
#[cfg(test)]
mod tests_writing;
mod writing;

pub use history_text::{HistoryText, TextError};
pub use laws::{lines_begin, none_begins, one_text, read_is_text, text_is_read};
pub use reading::read_history;
pub use writing::{write_call_lines, write_entry, write_history, write_skips, write_tail};

//! What the routing machine after smcroute reads and says: the words of a command, and what lines
//! are made of.
#![tactic(auto)]

mod text;
mod words;

pub use text::{write_address, write_name, write_names, write_number};
pub use words::next_word;

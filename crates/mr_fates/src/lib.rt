//! The fates of packets that had to wait, as a list of lines in the order of their parking: the
//! object that keeps them, and the laws by which one more entry of a history changes them.
#![tactic(auto)]

mod fates;
mod lane;
mod laws;
#[cfg(test)]
mod tests;
mod worked;

pub use fates::{Fates, MOST_LANES, MOST_PACKETS};
pub use laws::{expired_in_turn, fates_after, fates_push, lines_of_lane};
pub use worked::{worked_entries, worked_lines};

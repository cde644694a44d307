//! The lines of packets that were forwarded without the lock, written and read. A history has one
//! for nearly each packet, and most of them repeat one of a few ways, whose bytes are kept in mind.
#![tactic(auto)]

mod front;
mod heads;
mod known;
mod numbers;
mod rows;
mod same;
mod taking;
#[cfg(test)]
mod tests;
mod way;
mod ways;
mod writing;

pub use numbers::short_number;
pub use rows::put_mask;
pub use taking::{Kept, take_record};
pub use ways::Ways;
pub use writing::write_record;

//! The forwarding cache of Linux 6.1 (net/ipv4/ipmr.c, `struct mr_table`): the (S,G) entries, and
//! those for any origin or any group, as a list of fixed capacity, newest first.
#![tactic(auto)]

mod cache;
mod laws;
mod matching;
mod search;
#[cfg(test)]
mod tests;
mod worked;

pub use cache::{Cache, MOST_SLOTS};
pub use laws::{above_all, number_names, numbers_fall, walk_below};
pub use matching::{is_entry, is_named, reaches, ttl_of};
pub use worked::worked_numbers;

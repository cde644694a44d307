//! The packets that wait for an (S,G) entry, by source and group (ipmr.c, mfc_unres_queue): at most
//! four of each, for ten seconds after the first of them.
#![tactic(auto)]

mod room;
mod slots;
#[cfg(test)]
mod tests;
mod unresolved;
mod waiting;

pub use room::{ParkError, Room};
pub use unresolved::{EXPIRY_MS, MOST_ENTRIES, MOST_PACKETS, Unresolved};
pub use waiting::Waiting;

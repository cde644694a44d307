//! The journal of the one-thread machine: its history, kept in little room, and the totals of its
//! (S,G) entries and vifs. All memory is taken when it is made; no push takes any.
#![tactic(auto)]

mod counting;
mod counting_all;
mod journal;
mod meeting;
mod merging;
mod most;
mod numbered;
mod pushes;
mod seeing;
mod small;
mod store;
mod store_pushes;
#[cfg(test)]
mod tests;
mod totals;
mod unfolding;
mod view;
mod walking;

pub use journal::Journal;
pub use most::{
    LAST_DEVICE, MOST_CONTROLS, MOST_DAEMONS, MOST_DEVICES, MOST_ENTRIES, MOST_LANES, MOST_PACKETS,
    MOST_PHASES, MOST_RECORDS, MOST_RELEASED, MOST_UNRESOLVED, VIFS,
};
pub use numbered::Numbered;
pub use small::Records;
pub use view::EntryView;

//! A lock over a value with a journal, whose entries are counted by a word that anybody may read.
//!
//! A caller has a seat, and takes the lock with it. It then finds all that it had seen as a
//! beginning of the value's list, and in the list just those entries of its own that it made, in
//! their order.
//! Seats are tokens of no bytes: what they know is for contracts alone.
#![tactic(auto)]

mod book;
mod dealer;
mod desk;
mod guard;
mod journaled;
mod names;
mod opened;
mod pairs;
mod place;
mod rule;
mod seat;
#[cfg(test)]
mod tests;
mod view;
mod worked;
mod worked_values;

pub use book::Book;
pub use dealer::Dealer;
pub use guard::Guard;
pub use journaled::{Authored, Journaled};
pub use names::BookName;
pub use opened::Opened;
pub use pairs::{Pair, Pairs};
pub use seat::{HeldSeat, Seat};
pub use view::Known;
pub use worked::{Row, worked_on_threads, worked_row};
pub use worked_values::{worked_seats, worked_table};

//! Reports to the owner of the machine (struct igmpmsg of mroute.h): the queue of those that it
//! has not read yet, and their bytes.
#![tactic(auto)]

mod queue;
mod report;
#[cfg(test)]
mod tests;
mod upcall;
mod worked;

pub use queue::{MOST_UNREAD, Queue};
pub use report::bytes_of;
pub use upcall::Upcall;
pub use worked::worked_reports;

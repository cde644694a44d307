//! The top call: a scenario is read or made from a seed, run by its lanes and daemons on threads,
//! and written as its history and its egress files, or summed up.
#![tactic(auto)]

mod asking;
mod calling;
mod daemons;
mod egress;
mod generating;
mod outputs;
mod replaying;
mod running;
mod sending;
mod top;
mod turns;
mod writing;

pub use mr_load::{Loaded, MOST_TRACE_BYTES, Status, TraceCause, load};
pub use top::run;

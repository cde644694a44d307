//! A scenario is loaded: read from a store with the files that it names, its items told apart into
//! the packets and the skips of each lane, and the routing machines of its daemons made. And what a
//! history of a scenario has to have: each lane's packets and each daemon's calls, once and in
//! their order.
#![tactic(auto)]

mod gathering;
mod lane;
mod laws;
mod loading;
mod machines;
mod named_file;
mod naming;
mod parts;
mod passing;
mod reading;
mod status;
mod totals;

pub use lane::LanePackets;
pub use laws::{every_item, lanes_by_phases, limits_within};
pub use loading::{Loaded, load};
pub use parts::{devices_of, lanes_of, lines_of, phases_of};
pub use status::{Status, TraceCause};
pub use totals::MOST_TRACE_BYTES;

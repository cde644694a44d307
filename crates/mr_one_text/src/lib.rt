//! One text has one history. The text says no flow, but the flows of a history are those of its
//! scenario's packets.
#![tactic(auto)]

mod laws;
mod worked;

pub use laws::{
    flows_are_sent, legal_has_room, one_history, room_fits, says_no_flow, text_tells, turns_tell,
};
pub use worked::{all_room_taken, each_kind};

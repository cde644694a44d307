//! The lines of a history are written, each with its exact bytes.
#![tactic(auto)]

mod calls;
mod lines;
#[cfg(test)]
mod tests;
mod words;

pub use lines::{
    write_call, write_end, write_fate, write_first, write_phase, write_recv, write_released,
    write_route, write_settle, write_skip, write_slow, write_tick, write_vif,
};

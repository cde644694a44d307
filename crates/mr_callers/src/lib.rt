//! The callers of a run, which are its daemons and its lanes: each one's entries of a history are
//! its own, in their order. And the law that joins what the callers did in a phase to a history
//! that has what its scenario asks.
#![tactic(auto)]

mod laws;

pub use laws::phases_join;

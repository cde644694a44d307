//! What the daemons of a scenario that drive a routing machine do: definitions, worked rows of
//! them, and laws of how many entries they make.
#![tactic(auto)]

mod laws;
mod worked;

pub use laws::{
    begun_bound, courses_bound, daemons_bound, packets_bring, phases_driven, runs_bound,
};
pub use worked::worked_office;

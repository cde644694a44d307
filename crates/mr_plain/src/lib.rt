//! The plain machine: it judges histories by the definitions, over plain lists, and shares no code
//! with the machine that makes them.
#![tactic(auto)]

mod answering;
mod ending;
mod following;
mod laws;
mod lines;
mod meeting;
mod past;
mod plain;
mod releasing;
mod room;
mod taking;
#[cfg(test)]
mod tests;

pub use answering::CallAnswer;
pub use laws::looks_aside;
pub use plain::Plain;

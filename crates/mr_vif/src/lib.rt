//! The vifs of a table as an object, and masks of vifs: what is asked for a packet is answered in
//! constant time and without memory.
#![tactic(auto)]

mod answers;
mod laws;
mod masks;
#[cfg(test)]
mod tests;
mod vifs;
mod worked;

pub use laws::{masks_meet, origin_outs};
pub use masks::sends;
pub use vifs::Vifs;
pub use worked::worked_vifs;

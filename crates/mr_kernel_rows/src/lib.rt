//! Worked rows of the one-thread machine: each step of a row is made by the machine as one object,
//! and what it comes to is compared with what the rules of ipmr.c say.
#![tactic(auto)]

#[cfg(test)]
mod late;
mod one_lane;
#[cfg(test)]
mod playing;
#[cfg(test)]
mod tests;
mod worked;

pub use one_lane::OneLane;
pub use worked::worked_late;

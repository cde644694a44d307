//! Judging the text of a history of a loaded scenario: whether it is one that the machine may have,
//! or the first line at which it is not. Each rule stands in `specs/` with its line.
#![tactic(auto)]

mod judgement;
mod laws;

pub use judgement::Judgement;
pub use laws::{right_is_run, run_is_right};

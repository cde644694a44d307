//! What a history ends with, as the lines of its text; and the text of a history of a scenario.
#![tactic(auto)]

mod tail;

pub use tail::tail_of;

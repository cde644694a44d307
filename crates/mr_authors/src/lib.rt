//! Who made each entry of a history: the router itself, a lane or a daemon. And what the entries of
//! one of them tell, wherever the others' stand.
#![tactic(auto)]

mod laws;

pub use laws::{own_ends, own_gathers, own_grows, own_of_nobody, own_tells};

//! Lanes and daemons that share one multicast machine: each may have a thread of its own, and the
//! history of all is one legal history.
//!
//! The machine lies behind a lock, over a journal that is counted. A lane or a daemon takes the
//! lock for each entry that it makes. It then finds all that it had seen as a beginning of the
//! history, and of its own entries just those that it made, in their order.
#![tactic(auto)]

mod bound;
mod calling;
mod daemon;
mod lane;
mod loops;
mod machine;
mod names;
mod opened;
mod router;
mod seats;
mod signed;

pub use bound::Bound;
pub use daemon::Daemon;
pub use lane::{Handled, Lane};
pub use names::{RunName, TurnName};
pub use opened::Opened;
pub use router::{Router, Team};

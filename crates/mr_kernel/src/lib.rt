//! The multicast forwarder as a machine of one thread (net/ipv4/ipmr.c): it owns its journal, its
//! tables, the packets that wait and the unread reports.
#![tactic(auto)]

mod answering;
mod arriving;
mod calling;
mod changing;
mod closing;
mod deciding;
mod expiring;
mod granting;
mod kernel;
mod live;
mod plan;
mod releasing;
mod replying;
mod reporting;

pub use kernel::Kernel;
pub use plan::Plan;

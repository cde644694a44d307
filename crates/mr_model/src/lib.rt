//! The one-thread multicast machine of Linux 6.1 (net/ipv4/ipmr.c), said over lists: the types of
//! its calls, packets and history, and in `specs/` the definitions of what a legal history is.
#![tactic(auto)]

mod caller;
mod change;
mod change_laws;
mod ending;
mod entry;
mod flow;
mod laws;
mod limits;
mod message;
mod outcome;
mod packet;
mod reply;
mod request;
mod step;
mod verdict;

pub use caller::{CallError, Caller};
pub use change::{Change, What};
pub use change_laws::{changes_make_tables, changes_push, numbers_rise};
pub use ending::{Ending, Fate, FateLine};
pub use entry::{Entry, FastRecord, ReleasedId};
pub use flow::Flow;
pub use laws::{
    attempts_push, fate_push, legal_push, legal_within, lively_lane_push, lively_push, met_push,
    now_push, owner_push, past_push, pushed_push, route_counts_push, state_agrees, state_push,
    switches_push, unfolded_push, unread_agrees, vif_counts_push,
};
pub use limits::Limits;
pub use message::{Kind, MessageId, Told};
pub use outcome::{Cause, Outcome, Report};
pub use packet::{Freed, Packet};
pub use reply::{Reply, RouteTotals, VifTotals};
pub use request::{MfcCtl, MfcKey, Request, VifCtl};
pub use step::Step;
pub use verdict::Verdict;

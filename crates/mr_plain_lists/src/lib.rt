//! The plain lists by which histories are judged: vifs, (S,G) entries, waiting packets and reports,
//! and what the lists answer. They share no code with the machine that makes histories.
#![tactic(auto)]

mod changing;
mod counting;
mod ending;
mod entries;
mod judging;
mod known;
mod outcomes;
mod refusing;
mod replying;
mod routes;
mod slots;
mod vifs;

pub use changing::{MRT_FLUSH_MFC, change, has_flag, what_of};
pub use ending::{route_lines, vif_lines};
pub use entries::{has_named, is_entry, proxy_in, reaches, thresholds};
pub use judging::verdict;
pub use known::{Group, Held, Known, MOST_HELD, Meeting, Tried};
pub use outcomes::{Reports, group_of, is_owner, judged, outcome, reports_of};
pub use refusing::error_of;
pub use replying::reply;
pub use routes::Routes;
pub use vifs::{register_vif, vif_on};

//! Laws of whole legal histories of `mr_model`: what holds of each of them, by induction over its
//! entries.
#![tactic(auto)]

mod fates;
mod histories;
mod rows;
mod settling;
mod shape;

pub use fates::{each_once, fates_hold, one_fate};
pub use histories::{call_releases, legal_induction, none_waits_served};
pub use rows::worked_lists;
pub use settling::settle_changes_nothing;
pub use shape::waiting_shape;

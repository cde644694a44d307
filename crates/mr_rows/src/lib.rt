//! Worked histories of the one-thread multicast machine, each shown to be legal and to have its
//! ending by computing the definitions of `mr_model` on it; and one that has what its scenario
//! asks, by those of `mr_load`.
#![tactic(auto)]

mod control;
mod forwarding;
mod lanes;
mod made;
mod near_misses;
mod reports;
mod waiting;

pub use control::{
    all_changes, changed_in_place, checks_in_order, control_errors, counters_start_again,
    daemon_polls, flushed_by_bits, owner_changes, static_by_caller, switches_set, vif_made_again,
};
pub use forwarding::{
    absent_parent, newest_star, ordinary_path, proxy_entry, proxy_of_the_parent, star_entry,
    thresholds, two_vifs_on_a_device, vif_added_later,
};
pub use lanes::{full_settle, nothing_happens, old_looks, two_lanes};
pub use made::{lanes_side_by_side, made_near_misses, office_made, records_as_asked, side_by_side};
pub use near_misses::{
    control_near_misses, ending_near_misses, fate_near_misses, forwarding_near_misses,
    lively_near_misses, place_near_misses, report_near_misses, waiting_near_misses,
};
pub use reports::{
    nobody_is_told, pim_reports, register_copies_lost, register_report, released_reports,
    wrong_interface,
};
pub use waiting::{
    expiry, facts_of_fates, joins_when_full, no_room_twice, nobody_owns, waiting_entries_full,
    waiting_packets_released, waits_from_the_first, wildcard_releases_nothing,
};

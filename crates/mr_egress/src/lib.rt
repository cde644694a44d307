//! The egress trace of a device: the packets that leave by it over a history, as a pcap file.
#![tactic(auto)]

mod copying;
mod fast;
mod finding;
mod laws;
mod place;
mod tracing;

pub use fast::FastPackets;
pub use laws::{copy_is_whole, file_spells_its_trace, worked_copies, worked_files};
pub use tracing::file;

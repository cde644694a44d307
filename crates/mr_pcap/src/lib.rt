//! Traces: classic pcap files (the savefile format of libpcap), read and written. A trace keeps
//! its file as it is, and its records are ranges of the file's bytes.
#![tactic(auto)]

mod frames;
mod header;
mod laws;
mod link_type;
mod numbers;
mod order;
mod pcap_error;
mod reading;
mod record;
#[cfg(test)]
mod tests;
mod trace;
mod worked;
mod writing;

pub use frames::ip_part;
pub use laws::{records_are_spelled, written_is_read};
pub use link_type::LinkType;
pub use pcap_error::PcapError;
pub use reading::read;
pub use record::Record;
pub use trace::Trace;
pub use worked::worked_traces;
pub use writing::{write, write_header, write_record};

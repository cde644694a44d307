//! The records of control calls as bytes (mroute.h), both ways: those that options set, and the
//! counts that two ioctls read. Numbers are little-endian, addresses in network order, and there
//! is no padding.
#![tactic(auto)]

mod counts;
mod fields;
mod options;
mod reading;
#[cfg(test)]
mod tests;
mod worked;
mod writing;

pub use counts::{SG_COUNT_LENGTH, VIF_COUNT_LENGTH, read_sg, read_vif, sg_bytes, vif_bytes};
pub use reading::read_set;
pub use worked::worked_records;
pub use writing::set_bytes;

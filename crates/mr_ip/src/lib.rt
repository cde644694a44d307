//! IPv4 heads (RFC 791 section 3.1): read from the bytes of a packet, made for one, and changed to
//! send it on.
#![tactic(auto)]

mod address;
mod cause;
mod fields;
mod making;
mod reading;
mod sending;
mod sum;
#[cfg(test)]
mod tests;

pub use address::{is_bad_source, is_link_local, is_multicast};
pub use cause::cause_of;
pub use making::make_head;
pub use mr_base::HeadError;
pub use reading::{accepted_body, accepted_head, read_head};
pub use sending::sent_head;

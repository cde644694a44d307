//! The tables of the forwarder (net/ipv4/ipmr.c, `struct mr_table`): the vifs, the entries and the
//! switches, what a control call changes in them, and what they say of a packet.
#![tactic(auto)]

mod deciding;
mod devices;
mod entries;
mod flags;
mod interfaces;
mod laws;
mod tables;
#[cfg(test)]
mod tests;
mod worked;

pub use flags::{
    MRT_FLUSH_MFC, MRT_FLUSH_MFC_STATIC, MRT_FLUSH_VIFS, MRT_FLUSH_VIFS_STATIC, has_flag,
};
pub use laws::{
    changes_apply, entry_applies, good_call_applies, legal_changes_fit, number_is_above,
};
pub use mr_model::{Change, What};
pub use tables::{MOST_DEVICES, Tables};
pub use worked::worked_fits;

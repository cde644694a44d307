//! The options of mroute.h that can be set, and the lengths of their records in bytes.

pub(crate) const MRT_INIT: u16 = 200;

pub(crate) const MRT_DONE: u16 = 201;

pub(crate) const MRT_ADD_VIF: u16 = 202;

pub(crate) const MRT_DEL_VIF: u16 = 203;

pub(crate) const MRT_ADD_MFC: u16 = 204;

pub(crate) const MRT_DEL_MFC: u16 = 205;

pub(crate) const MRT_ASSERT: u16 = 207;

pub(crate) const MRT_PIM: u16 = 208;

pub(crate) const MRT_ADD_MFC_PROXY: u16 = 210;

pub(crate) const MRT_DEL_MFC_PROXY: u16 = 211;

pub(crate) const MRT_FLUSH: u16 = 212;

/// The flag of a vif by its device's number.
pub(crate) const VIFF_USE_IFINDEX: u8 = 8;

pub(crate) const VIFCTL_LENGTH: usize = 16;

pub(crate) const MFCCTL_LENGTH: usize = 58;

pub(crate) const INT_LENGTH: usize = 4;

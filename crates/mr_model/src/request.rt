use mr_base::Addr;

/// What `MRT_ADD_VIF` is given (struct vifctl of mroute.h). Threshold, rate and remote have no
/// effect.
#[derive(Clone, Copy, Debug, PartialEq, Eq)]
pub struct VifCtl {
    pub vif: u16,
    /// 0 for a device by its address, 4 for the register vif, 8 for a device by its number.
    pub flags: u8,
    /// An address, or with flags 8 a device's number.
    pub local: u32,
}

/// What `MRT_ADD_MFC` is given (struct mfcctl of mroute.h).
#[derive(Clone, Copy, Debug, PartialEq, Eq)]
pub struct MfcCtl {
    /// The origin, 0.0.0.0 for any.
    pub src: Addr,
    /// The group, 0.0.0.0 for any.
    pub dst: Addr,
    pub parent: u16,
    /// The threshold that is asked for each vif; 0 and 255 mean none.
    pub ttls: [u8; 32],
}

/// What names an entry that is to be deleted.
#[derive(Clone, Copy, Debug, PartialEq, Eq)]
pub struct MfcKey {
    pub src: Addr,
    pub dst: Addr,
    pub parent: u16,
}

/// A control call, after the options 200 to 212 of mroute.h and two ioctls.
#[derive(Clone, Copy, Debug, PartialEq, Eq)]
pub enum Request {
    /// MRT_INIT: the caller becomes the owner.
    Init,
    /// MRT_DONE: the owner leaves.
    Finish,
    AddVif(VifCtl),
    DelVif(u16),
    AddMfc(MfcCtl),
    DelMfc(MfcKey),
    /// MRT_ADD_MFC_PROXY: as `AddMfc`, but the parent too names the entry.
    AddProxy(MfcCtl),
    DelProxy(MfcKey),
    Pim(u32),
    Assert(u32),
    /// MRT_FLUSH: 1 entries, 2 static entries, 4 vifs, 8 static vifs.
    Flush(u32),
    /// An option that cannot be set.
    Unknown(u16),
    /// A settable option with a record of wrong length.
    BadLength(u16),
    GetVersion,
    GetPim,
    GetAssert,
    /// SIOCGETVIFCNT.
    VifCount(u16),
    /// SIOCGETSGCNT.
    SgCount { src: Addr, dst: Addr },
}

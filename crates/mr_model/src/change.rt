use mr_base::Addr;

/// What a good call changes in the tables, with the values that hold after it.
#[derive(Clone, Copy, Debug, PartialEq, Eq)]
pub enum What {
    /// A vif is added behind the others.
    AddVif {
        vif: u8,
        /// 0 for the register vif.
        dev: u32,
        register: bool,
        fixed: bool,
    },
    DelVif(u8),
    /// An entry is put in front of the others.
    NewRoute {
        src: Addr,
        dst: Addr,
        parent: u8,
        ttls: [u8; 32],
        fixed: bool,
    },
    /// The entry with the number `target` changes in its place.
    OldRoute {
        target: u32,
        parent: u8,
        ttls: [u8; 32],
        fixed: bool,
    },
    /// The entry with this number goes.
    DropRoute(u32),
    /// MRT_FLUSH by its bits: 1 entries, 2 static entries, 4 vifs, 8 static vifs. MRT_DONE is 5.
    Flush(u32),
    /// MRT_PIM by its truth value.
    Pim(bool),
    /// MRT_ASSERT by its truth value.
    Assert(bool),
}

/// A change of the tables, with the number of the call that made it.
#[derive(Clone, Copy, Debug, PartialEq, Eq)]
pub struct Change {
    pub number: u32,
    pub what: What,
}

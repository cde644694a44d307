use mr_base::Mask;

/// What the tables say of a packet.
#[derive(Clone, Copy, Debug, PartialEq, Eq)]
pub enum Verdict {
    /// It goes out on these vifs, none of them the register vif. Such a verdict is called plain.
    Forward {
        /// The number of the entry that it met.
        entry: u32,
        /// The vif on which it counts in, where there is one.
        input: Option<u8>,
        outs: Mask,
    },
    /// The same, with the register vif among the outputs.
    Register {
        entry: u32,
        input: Option<u8>,
        outs: Mask,
    },
    /// It came in on a wrong interface, and goes nowhere.
    Wrong {
        entry: u32,
        vif: Option<u8>,
    },
    /// It met no entry; `vif` is that of its device.
    Miss {
        vif: u8,
    },
    /// It met no entry, and its device has no vif.
    NoVif,
}

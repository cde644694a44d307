use mr_base::{Addr, FileName, List};
use mr_model::{FateLine, RouteTotals, VifTotals};

/// A live entry, with what it counted.
#[derive(Clone, Copy, Debug, PartialEq, Eq)]
pub struct RouteLine {
    /// The number of the history entry that made it.
    pub number: u32,
    pub src: Addr,
    pub dst: Addr,
    pub parent: u8,
    pub totals: RouteTotals,
}

/// A live vif, with what it counted.
#[derive(Debug, Drop)]
pub struct VifLine {
    pub vif: u8,
    /// The name of its device; the register device's is `pimreg`.
    pub name: FileName,
    pub totals: VifTotals,
}

/// What a history ends with.
#[derive(Debug, Drop)]
pub struct Tail {
    /// The live entries, by rising number.
    pub routes: List<RouteLine>,
    /// The live vifs, by rising index.
    pub vifs: List<VifLine>,
    /// The fate of each packet that waited, in the order in which they began to.
    pub fates: List<FateLine>,
}

ghost use Rattle.std.specs.Prelude.{◌≡◌};
ghost use Rattle.mr_pcap.specs.declared.pcap_error.PcapError.TheVariants.{Memory};

use std::alloc::{AllocError, AllocFailed};

/// Why bytes are not a trace: the first of these that holds, in this order, or want of memory.
#[derive(Clone, Copy, Debug, PartialEq, Eq)]
pub enum PcapError {
    /// There are fewer than the 24 bytes of a file's header.
    CutHeader,
    /// The first four bytes are no magic number of a classic pcap file.
    Magic,
    /// The link type is none of `LinkType`.
    LinkType,
    /// The head or the bytes of this record are cut; records are numbered from 1, and
    /// 4,294,967,295 stands for that number and all above.
    CutRecord(u32),
    /// There was no memory for the places of the records.
    Memory,
}

impl From<AllocError> for PcapError {
    ghost from_gives = { λ _ e. e ≡ Memory };

    fn from(_e: AllocError) -> PcapError {
        PcapError::Memory
    }
}

impl<T: Drop> From<AllocFailed<T>> for PcapError {
    ghost from_gives = { λ _ e. e ≡ Memory };

    fn from(_e: AllocFailed<T>) -> PcapError {
        PcapError::Memory
    }
}

use mr_base::Mask;

/// Whether a wrong-interface packet was reported to the owner.
#[derive(Clone, Copy, Debug, PartialEq, Eq)]
pub enum Report {
    /// No report was attempted.
    Quiet,
    /// The report stands among the unread ones.
    Told,
    /// It was attempted, with no owner or no room.
    Lost,
}

/// Why a packet that missed was dropped.
#[derive(Clone, Copy, Debug, PartialEq, Eq)]
pub enum Cause {
    /// Its device has no vif.
    NoVif,
    /// Nobody owns the machine.
    NoDaemon,
    /// The waiting entries are at their limit.
    Entries,
    /// Its waiting entry has four packets.
    Packets,
    /// 64 reports are unread.
    Upcall,
}

/// What became of a packet that was decided under the lock.
#[derive(Clone, Copy, Debug, Default, PartialEq, Eq)]
pub enum Outcome {
    Forward {
        entry: u32,
        input: Option<u8>,
        outs: Mask,
    },
    /// One copy went to the register vif, as a report that was `told` or lost.
    Register {
        entry: u32,
        input: Option<u8>,
        outs: Mask,
        told: bool,
    },
    Wrong {
        entry: u32,
        vif: Option<u8>,
        report: Report,
    },
    /// It waits for an entry.
    #[default]
    Parked,
    Dropped(Cause),
}

ghost use Rattle.std.specs.Prelude.{◌≡◌};
ghost use Rattle.mr_load.specs.Statuses.{number_of};

use mr_base::{FileName, List};
use mr_scenario::Kind;
use smc_conf::Kind as ConfKind;

/// Why a file is refused as a trace: the first of these that holds, in the order `CutHeader`,
/// `Magic`, `LinkType`, `CutRecord`, `TooMany`.
#[derive(Clone, Copy, Debug, PartialEq, Eq)]
pub enum TraceCause {
    /// The first four bytes are no magic number of a classic pcap file.
    Magic,
    /// The link type is none of those that are read: 1, 101, 113, 228 and 276.
    LinkType,
    /// There are fewer than the 24 bytes of a file's header.
    CutHeader,
    /// The head or the bytes of this record are cut; records are numbered from 1, and
    /// 4,294,967,295 stands for that number and all above.
    CutRecord(u32),
    /// With it the items of all lanes are more than `MOST_ITEMS` of mr_base, or the bytes of the
    /// trace files more than `MOST_TRACE_BYTES`.
    TooMany,
}

/// How a run ended.
#[derive(Debug, Drop)]
pub enum Status {
    /// The history was written.
    Good,
    /// The words are not `replay SCENARIO`, with a file word of 1 to 255 bytes that does not begin
    /// with `out-`.
    Usage,
    /// The first bad line of the scenario, what is wrong with it, and what was found there: the
    /// word at fault or the line, its first `MOST_TEXT` bytes (mr_scenario). Nothing was written.
    Scenario {
        line: u32,
        kind: Kind,
        text: List<u8>,
    },
    /// The file, which a line names, is the first that is no accepted trace, or is too much with
    /// those before it. Nothing was written.
    Trace {
        file: FileName,
        cause: TraceCause,
    },
    /// The file, which a daemon names, is the first that is no accepted configuration: its first
    /// bad line, what is wrong with it, and its first 4,096 bytes. Nothing was written.
    Conf {
        file: FileName,
        line: u32,
        kind: ConfKind,
        text: List<u8>,
    },
    /// The file could not be read. Nothing was written.
    StoreFault {
        file: FileName,
    },
    /// The sink failed; it took a prefix of the history.
    SinkFault,
    /// Memory ran out. Nothing was written.
    Memory,
    /// The daemons' calls, ticks and receives are more than `limit control` allows. Nothing was
    /// written.
    ControlFull,
}

impl Status {
    /// The exit status of the program: 0 Good, 1 Usage, 2 Scenario, 3 Trace, 4 StoreFault,
    /// 5 SinkFault, 6 Memory, 8 ControlFull, 11 Conf.
    pub fn number(&self) -> u8
        ensures { result ≡ number_of self.now }
    {
        match self {
            Status::Good => 0,
            Status::Usage => 1,
            Status::Scenario { .. } => 2,
            Status::Trace { .. } => 3,
            Status::StoreFault { .. } => 4,
            Status::SinkFault => 5,
            Status::Memory => 6,
            Status::ControlFull => 8,
            Status::Conf { .. } => 11,
        }
    }
}

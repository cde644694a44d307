use mr_base::DaemonNo;
use mr_history::Numbered;
use mr_tables::Tables;
use mr_unres::Waiting;
use mr_upcall::Queue;

/// What the machine knows at one moment, but for its journal and the fates.
#[derive(Debug, Drop)]
pub struct Live {
    /// The daemon whose MRT_INIT holds.
    pub owner: Option<DaemonNo>,
    pub tables: Tables,
    /// The milliseconds of all ticks so far.
    pub moment: u64,
    pub waiting: Waiting,
    pub unread: Queue,
    /// For each entry by its number the moment of the last attempt to report a wrong interface.
    pub attempts: Numbered<Option<u64>>,
}

//! The vocabulary that every crate of Rotchimel shares: addresses, numbers and heads, the records
//! of routes and vifs, and the traits of the outside world with objects in memory that meet them.
#![tactic(auto)]

mod clock;
mod device;
mod door;
mod errno;
mod few;
mod file_name;
mod gate;
mod head;
mod head_error;
mod limits;
mod link;
mod list;
mod list_clock;
mod log;
mod mem_door;
mod mem_link;
mod mem_sink;
mod mem_store;
mod numbers;
mod open_gate;
mod read_error;
mod route;
mod sink;
mod store;
mod store_call;
#[cfg(test)]
mod tests;
mod vif_record;
mod worked;

pub use clock::Clock;
pub use device::Device;
pub use door::Door;
pub use errno::Errno;
pub use few::Few;
pub use file_name::FileName;
pub use gate::Gate;
pub use head::Head;
pub use head_error::HeadError;
pub use limits::{
    ASSERT_GAP_MS, DEFAULT_CONTROLS, DEFAULT_ENTRIES, DEFAULT_UNRESOLVED, EXPIRY_MS,
    LONGEST_DEVICE_NAME, LONGEST_FILE, LONGEST_NAME, MAXVIFS, MOST_CONFIGURATIONS, MOST_CONTROLS,
    MOST_DAEMONS, MOST_DEVICES, MOST_ENTRIES, MOST_HISTORY, MOST_ITEMS, MOST_LANES, MOST_PACKETS,
    MOST_PHASES, MOST_RECORDS, MOST_UNREAD, MOST_UNRESOLVED,
};
pub use link::Link;
pub use list::List;
pub use list_clock::ListClock;
pub use log::Log;
pub use mem_door::MemDoor;
pub use mem_link::MemLink;
pub use mem_sink::MemSink;
pub use mem_store::MemStore;
pub use numbers::{Addr, ControlFull, DaemonNo, Failed, LaneNo, Mask, Memory};
pub use open_gate::OpenGate;
pub use read_error::ReadError;
pub use route::Route;
pub use sink::Sink;
pub use store::Store;
pub use store_call::StoreCall;
pub use vif_record::VifRecord;
pub use worked::worked_heads;

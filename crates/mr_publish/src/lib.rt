//! Published copies of the tables: one publisher changes them, and lookers decide on packets by
//! them with no lock.
//!
//! There are two copies, and lookers see one of them while the publisher changes the other. A look
//! gives the verdict of the tables after a beginning of the published changes, which never gets
//! shorter, and which holds all changes of each note that the looker has learnt.
#![tactic(auto)]

mod copies;
mod front;
mod inside;
mod list;
mod looker;
mod names;
mod note;
mod opened;
mod pair;
mod publisher;
#[cfg(test)]
mod tests;
mod worked;

pub use inside::Inside;
pub use looker::Looker;
pub use names::PairName;
pub use note::Note;
pub use opened::OpenedList;
pub use pair::publish_pair;
pub use publisher::Publisher;
pub use worked::{worked_lists, worked_looks, worked_rule};

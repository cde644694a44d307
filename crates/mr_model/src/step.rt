use crate::entry::{Entry, FastRecord};
use mr_base::LaneNo;

/// A step of the unfolded history: a fast packet at its place, or an entry.
#[derive(Clone, Debug, Drop)]
pub enum Step {
    Fast { lane: LaneNo, fast: FastRecord },
    Kept(Entry),
}

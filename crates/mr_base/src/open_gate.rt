use crate::gate::Gate;
use crate::numbers::LaneNo;

/// A gate that lets every lane pass at once.
#[derive(Clone, Copy, Debug, Default, PartialEq, Eq)]
pub struct OpenGate;

impl Gate for OpenGate {
    fn pass(&self, _lane: LaneNo, _index: u32) {}
}

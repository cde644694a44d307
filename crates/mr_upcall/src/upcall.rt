use mr_base::Head;
use mr_model::MessageId;

/// A report with the head of the packet that caused it. It cannot be cloned: who holds it hands
/// it over by moving it.
#[derive(Debug, Drop)]
pub struct Upcall {
    pub id: MessageId,
    /// The packet's head, as the packet came in.
    pub head: Head,
}

use mr_base::Errno;

/// The requests that wait for their replies.
#[derive(Clone, Copy, Debug, PartialEq, Eq)]
pub struct Plan {
    /// How many.
    pub left: usize,
    /// The first error among the replies so far.
    pub refused: Option<Errno>,
    /// Whether they come of a report, and not of a command.
    pub learning: bool,
}

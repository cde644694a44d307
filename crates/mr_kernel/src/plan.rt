use mr_model::{Change, Reply};

/// What a control call would come to.
#[derive(Clone, Copy, Debug, PartialEq, Eq)]
pub enum Plan {
    /// It changes no tables: its answer.
    Answer(Reply),
    /// The change that it makes, with the number of the call; it is answered `Good`.
    Tables(Change),
}

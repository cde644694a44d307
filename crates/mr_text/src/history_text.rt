ghost use Rattle.std.specs.Prelude.{◌≡◌};
ghost use Rattle.mr_text.specs.declared.history_text.TextError.TheVariants as error;

use mr_base::List;
use mr_lines::{Skip, Tail};
use mr_model::Entry;
use std::alloc::{AllocError, AllocFailed};

/// A history as its text gives it. Flows are not printed: those of its entries are all zeros.
#[derive(Debug, Drop)]
pub struct HistoryText {
    pub skips: List<Skip>,
    pub entries: List<Entry>,
    pub tail: Tail,
    /// For each entry the number of its first line, from 1; 4,294,967,295 for one beyond.
    pub lines: List<u32>,
}

/// Why a text was not read.
#[derive(Clone, Copy, Debug, PartialEq, Eq)]
pub enum TextError {
    /// The first line outside the grammar, from 1; 4,294,967,295 for one beyond.
    Line(u32),
    Memory,
}

impl From<AllocError> for TextError {
    ghost from_gives = { λ _ e. e ≡ error.Memory };

    fn from(_e: AllocError) -> TextError {
        TextError::Memory
    }
}

impl<T: Drop> From<AllocFailed<T>> for TextError {
    ghost from_gives = { λ _ e. e ≡ error.Memory };

    fn from(_e: AllocFailed<T>) -> TextError {
        TextError::Memory
    }
}

//! Laws that tie the tables as an object to those of a history.

ghost use Rattle.mr_tables.specs.Laws.{GoodCallApplies, EntryApplies, NumberIsAbove, ChangesApply};
ghost use Rattle.mr_tables.specs.Laws.{FirstChangesApply, LegalChangesFit};

/// Applying what a good call changes takes the tables of a state to those of the state after that
/// call.
pub fn good_call_applies()
    ensures { GoodCallApplies }
{}

/// Applying what an entry changes, if it changes anything, takes the tables of a history to those
/// with that entry.
pub fn entry_applies()
    ensures { EntryApplies }
{}

/// The number of the next call is above those of all entries of a history's tables.
pub fn number_is_above()
    ensures { NumberIsAbove }
{}

/// Applying the changes of a history in order to empty tables gives its tables, and those up to n
/// the tables of its first n entries.
pub fn changes_apply()
    ensures all { ChangesApply }
    ensures first { FirstChangesApply }
{}

/// The changes of a legal history fit, each what those before it made.
pub fn legal_changes_fit()
    ensures { LegalChangesFit }
{}

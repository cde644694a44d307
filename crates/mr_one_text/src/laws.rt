//! Laws of texts and of the histories that they tell.

ghost use Rattle.mr_one_text.specs.Laws.{FlowsAreSent, LegalHasRoom, OneHistory, OneWritten};
ghost use Rattle.mr_one_text.specs.Laws.{RoomFits, SaysNoFlow, TextTells, TurnsTell};

/// The text of any skips, entries and tail is that of the entries with every flow set to zero.
pub fn says_no_flow()
    ensures { SaysNoFlow }
{}

/// Two histories of one scenario that are the same but for flows are the same.
pub fn flows_are_sent()
    ensures { FlowsAreSent }
{}

/// Two legal histories of one scenario are the same, where the same callers act in the same order
/// with the same looks.
pub fn turns_tell()
    ensures { TurnsTell }
{}

/// A text tells who acts in which order and with which looks.
pub fn text_tells()
    ensures { TextTells }
{}

/// A legal history has no more entries than its limits leave room for.
pub fn legal_has_room()
    ensures { LegalHasRoom }
{}

/// The limits of a scenario that was read leave room for so few entries that 64 bits number them.
pub fn room_fits()
    ensures { RoomFits }
{}

/// Two legal histories of one scenario with one text are the same, whatever stands behind their
/// entries; and so are two that are written as one text.
pub fn one_history()
    ensures told { OneHistory }
    ensures written { OneWritten }
{}

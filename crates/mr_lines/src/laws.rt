//! Laws of lines.

ghost use Rattle.mr_lines.specs.Laws.{LineTakes, LineAgain, LineClean, LineSplits, LineIsOne};
ghost use Rattle.mr_lines.specs.Laws.{SpacedAgain};

/// Words that say a line are its words, and the line fits.
pub fn line_takes()
    ensures { LineTakes }
{}

/// A line that fits is read from its words.
pub fn line_again()
    ensures { LineAgain }
{}

/// A line that fits has words, and none of them has a space or a line feed.
pub fn line_clean()
    ensures { LineClean }
{}

/// The words of a line that fits, parted by one space, are cut into just these words.
pub fn line_splits()
    ensures { LineSplits }
{}

/// The text of a line that fits has no line feed.
pub fn line_is_one()
    ensures { LineIsOne }
{}

/// The parts of bytes, parted by one space, are the bytes.
pub fn spaced_again()
    ensures { SpacedAgain }
{}

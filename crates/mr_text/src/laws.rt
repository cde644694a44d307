//! Laws of the definitions in `specs/`: a history has one text, and each text is read as what it is
//! the text of.

ghost use Rattle.mr_text.specs.Laws.{FirstLines, LinesBegin, NoneBegins, OneText, ReadIsText};
ghost use Rattle.mr_text.specs.Laws.{TextIsRead};

/// What is read fits the grammar, and its text is just what was read.
pub fn read_is_text()
    ensures { ReadIsText }
{}

/// The text of parts that fit the grammar is read, as these parts.
pub fn text_is_read()
    ensures { TextIsRead }
{}

/// Parts that fit the grammar and have the same text are the same.
pub fn one_text()
    ensures { OneText }
{}

/// No text of parts that fit the grammar begins with the lines up to the first that may not come.
pub fn none_begins()
    ensures { NoneBegins }
{}

/// The lines before the first that may not come begin such a text, and they are what the bytes
/// begin with.
pub fn lines_begin()
    ensures text { LinesBegin }
    ensures bytes { FirstLines }
{}

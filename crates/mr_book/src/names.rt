//! The name of a book, by which contracts tell books apart.
use std::marker::Brand;

/// Which book it is. A program picks it once, where it names an opened book (`Opened::named`), by
/// passing `Brand` to a function that is generic in the name.
pub trait BookName {
    ghost use Rattle.atomic_table.specs.Seated.{TableId};

    // The table of the book's count.
    ghost table: { TableId };
}

impl BookName for Brand {
    ghost use Rattle.mr_book.specs.Views.{no_table};

    ghost table = { no_table };
}

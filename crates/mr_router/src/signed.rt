use mr_book::Authored;
use mr_model::Entry;
use std::marker::Model;

/// An entry of the history as the book knows it, with who made it. Contracts see the entry. No
/// value of it is made.
#[derive(Drop)]
pub struct Signed {
    entry: Entry,
}

impl Model for Signed {
    ghost use Rattle.mr_model.specs.declared.entry.Entry.{Entry};

    ghost Value = { Entry };

    ghost view = { λ s. s.entry };
}

impl Authored for Signed {
    ghost use Rattle.mr_authors.specs.Authors.{author};

    ghost author = { author };
}

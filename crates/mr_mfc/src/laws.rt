//! Laws of entries whose numbers fall, as those of every cache do.

ghost use Rattle.mr_mfc.specs.Laws.{NumberFinds, NumberChanges, NumberRemoves, NumberThere};
ghost use Rattle.mr_mfc.specs.Laws.{InsertFalls, ChangeFalls, RemoveFalls, FlushFalls, AboveEach};
ghost use Rattle.mr_mfc.specs.Laws.{EachAbove, FirstBelow, NextBelow};

/// The first entry that passes a test can be found, changed and removed by its number.
pub fn number_names()
    ensures there { NumberThere }
    ensures finds { NumberFinds }
    ensures changes { NumberChanges }
    ensures removes { NumberRemoves }
{}

/// Numbers still fall behind each call that changes a cache.
pub fn numbers_fall()
    ensures insert { InsertFalls }
    ensures change { ChangeFalls }
    ensures remove { RemoveFalls }
    ensures flush { FlushFalls }
{}

/// A number is above those of all entries where it is above each.
pub fn above_all()
    ensures each { AboveEach }
    ensures all { EachAbove }
{}

/// From a number above all, and from each entry's number on, the entry below leads through all
/// entries in order.
pub fn walk_below()
    ensures first { FirstBelow }
    ensures next { NextBelow }
{}

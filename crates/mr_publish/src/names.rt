//! The name of a publisher and its lookers, by which contracts tell pairs apart.
use std::marker::Brand;

/// Which pair it is. A program picks it once, by passing `Brand` to a function that is generic in
/// the name, with the list that it has opened and the tables at the start.
pub trait PairName {
    ghost use Rattle.logbook.specs.Pages.{Book};
    ghost use Rattle.mr_tables.specs.Values.{TablesValue};

    // The list of the published changes.
    ghost list: { Book };

    // The tables before the first change.
    ghost start: { TablesValue };
}

impl PairName for Brand {
    ghost use Rattle.std.specs.Prelude.{[]};
    ghost use Rattle.mr_publish.specs.Copies.{empty_tables};
    ghost use Rattle.mr_publish.specs.Rules.{no_list};

    ghost list = { no_list };

    ghost start = { empty_tables 0 [] };
}

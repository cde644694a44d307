ghost use Rattle.std.specs.Prelude.{◌≡◌, []};

use crate::front::{Front, Head};
use crate::list::{Rising, SeenChanges};
use crate::names::PairName;
use logbook::{Seen, Start, Word};
use mr_model::Change;
use std::marker::{Model, PhantomData};

/// A list of published changes that is empty and has no name yet. Contracts see which list it is.
#[derive(Drop)]
pub struct OpenedList {
    word: Word<Change, u64, Rising>,
    seen: SeenChanges,
}

impl Model for OpenedList {
    ghost use Rattle.std.specs.Prelude.{◌≡◌, []};
    ghost use Rattle.logbook.specs.Pages.{Book};
    ghost use Rattle.mr_publish.specs.Rules.{head_of};

    ghost Value = { Book };

    ghost view = { λ o. o.seen.book };

    ghost invariant = { λ o. (o.seen.log ≡ []) × (o.word ≡ head_of o.seen.book) };
}

impl OpenedList {
    /// An empty list. It takes no memory.
    pub fn new() -> OpenedList {
        let (seen, mut pen, _second) = Seen::open(Start::alone(), 0, 0);
        OpenedList {
            word: Word::tracked(0, &mut pen),
            seen,
        }
    }

    /// The list's word under a name, and a front that has seen nothing.
    pub(crate) fn named<J: PairName>(self) -> (Head<J>, Front<J>)
        requires { self ≡ J.list }
        ensures { result.1 ≡ [] }
    {
        let OpenedList { word, seen } = self;
        let head = Head {
            word,
            of: PhantomData,
        };
        let front = Front {
            version: 0,
            seen,
            of: PhantomData,
        };
        (head, front)
    }
}

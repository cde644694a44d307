ghost use Rattle.std.specs.Prelude.{◌≡◌, ◌<◌, ◌++◌, ◌∷◌, [], IsTrue, IfOk, OnOk, OnErr};
ghost use Rattle.mr_tables.specs.Fitting.{fits};
ghost use Rattle.mr_publish.specs.Copies.{tables_after, empty_tables};
ghost use Rattle.mr_publish.specs.Lists.{last_number};
ghost use Rattle.mr_publish.specs.Values.{first_sight};

use crate::copies::{Batch, CopyWriter, show};
use crate::front::{Front, Head, never};
use crate::looker::Looker;
use crate::names::PairName;
use crate::note::Note;
use mr_base::Memory;
use mr_model::Change;
use std::alloc::Global;
use std::marker::Model;
use std::sync::Wait;

/// What publishes changes of the tables. It must be spent by [`Publisher::end`].
///
/// Contracts see the changes that are published, and those that wait to be.
pub struct Publisher<J: PairName> {
    pub(crate) back: CopyWriter<J>,
    pub(crate) head: Head<J>,
    pub(crate) front: Front<J>,
    pub(crate) staged: Vec<Change>,
    /// The number of the last staged change, or else of the last published one.
    pub(crate) newest: u32,
    pub(crate) alloc: Global,
}

impl<J: PairName> Model for Publisher<J> {
    ghost use Rattle.std.specs.Prelude.{◌≡◌, ◌++◌, [], drop};
    ghost use Rattle.mr_model.specs.Numbers.{NumbersRise};
    ghost use Rattle.mr_tables.specs.Fitting.{FitInTurn};
    ghost use Rattle.mr_publish.specs.Copies.{tables_after};
    ghost use Rattle.mr_publish.specs.Lists.{last_number};
    ghost use Rattle.mr_publish.specs.Values.{Published};

    ghost Value = { Published };

    ghost view = { λ p. record { published = p.front; staged = p.staged.items } };

    ghost invariant = { λ p. (drop p.back.behind p.back.log.items ≡ [])
        × (p.back.desk.shown.value.tables ≡ tables_after J.start p.front)
        × FitInTurn (tables_after J.start p.front) p.staged.items
        × NumbersRise 0 (p.front ++ p.staged.items)
        × (p.newest ≡ last_number 0 (p.front ++ p.staged.items)) };
}

impl<J: PairName> Publisher<J> {
    /// A change waits to be published. It fits the tables as published and staged, as what
    /// `Tables::would` gives on such tables does, and its number is above 0 and above those of all
    /// changes published and staged.
    ///
    /// # Errors
    ///
    /// [`Memory`] where memory runs out; nothing is staged then.
    pub fn stage(&mut self, change: &Change) -> Result<(), Memory>
        requires fits { IsTrue (fits
            (tables_after J.start (self.old.published ++ self.old.staged)) change.now) }
        requires above { last_number 0 (self.old.published ++ self.old.staged)
            < change.now.number }
        ensures staged { OnOk result (self.new ≡ record {
          published = self.old.published;
          staged = self.old.staged ++ change.now ∷ [];
        }) }
        ensures same { OnErr result (self.new ≡ self.old) }
    {
        let pushed = self.staged.push(*change);
        let Ok(()) = pushed else { return Err(Memory) };
        self.newest = change.number;
        Ok(())
    }

    /// Publishes all staged changes at once: a look sees all of them or none. It takes no memory,
    /// and waits for lookers that still see the copy from before the last publishing.
    pub fn publish<R: Wait>(self, rt: &R) -> Publisher<J>
        ensures { result ≡ record { published = self.published ++ self.staged; staged = [] } }
    {
        let Publisher {
            back,
            head,
            front,
            staged,
            newest,
            alloc,
        } = self;
        let front = front.advance(rt, &head, staged.as_slice(), newest);
        let batch = Batch {
            changes: staged,
            mark: front.mark(),
        };
        let back = match show(rt, back, batch) {
            Ok(back) => back,
            Err(_back) => never(rt),
        };
        Publisher {
            back,
            head,
            front,
            staged: Vec::new(alloc),
            newest,
            alloc,
        }
    }

    /// A note of all that is published, for lookers to learn. It has no bytes but a number.
    pub fn note(&self) -> Note<J>
        ensures { result ≡ self.now.published }
    {
        Note {
            front: self.front.again(),
        }
    }

    /// The number of the last published change, or 0.
    pub fn version(&self) -> u32
        ensures { result ≡ last_number 0 self.now.published }
    {
        self.front.version()
    }

    /// The number of the last staged change, or else of the last published one, or 0.
    pub fn newest(&self) -> u32
        ensures { result ≡ last_number 0 (self.now.published ++ self.now.staged) }
    {
        self.newest
    }

    /// Spends the publisher. Lookers count each further look as refused.
    pub fn end<R: Wait>(self, rt: &R) {
        let Publisher {
            back,
            head: _,
            front: _,
            staged: _,
            newest: _,
            alloc: _,
        } = self;
        back.take(rt);
    }

    /// A looker that has seen nothing, before anything is published.
    pub(crate) fn looker(&self) -> Result<Looker<J>, Memory>
        requires { self.now.published ≡ [] }
        ensures { IfOk result (λ l. l ≡ first_sight) }
    {
        match self.back.factory().reader() {
            Err(_) => Err(Memory),
            Ok(reader) => Ok(Looker {
                reader: Some(reader),
                seen: self.front.again(),
                learnt: self.front.again(),
                refusals: 0,
            }),
        }
    }
}

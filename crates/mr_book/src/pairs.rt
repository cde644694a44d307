//! A value for worked rows: numbers with their authors.
ghost use Rattle.std.specs.Prelude.{◌≡◌, ◌++◌, ◌∷◌, [], List, IfOk, OnOk, OnErr, length};
ghost use Rattle.mr_book.specs.Pairs.{pair};

use crate::journaled::{Authored, Journaled};
use mr_base::Memory;
use std::alloc::Global;
use std::marker::Model;

/// A number, and the number of the caller that added it.
#[derive(Clone, Copy, Debug, PartialEq, Eq)]
pub struct Pair {
    pub author: u64,
    pub number: u64,
}

impl Authored for Pair {
    ghost author = { λ p. p.author };
}

/// A list of pairs.
#[derive(Drop)]
pub struct Pairs {
    items: Vec<Pair>,
}

impl Model for Pairs {
    ghost use Rattle.std.specs.Prelude.{List};
    ghost use Rattle.mr_book.specs.declared.pairs.Pair.{Pair};

    ghost Value = { List Pair };

    ghost view = { λ p. p.items.items };
}

impl Journaled for Pairs {
    type Entry = Pair;

    ghost entries = { λ p. p };

    fn count(&self) -> u64 {
        self.items.len() as u64
    }
}

impl Pairs {
    pub fn new(alloc: Global) -> Pairs
        ensures { result ≡ [] }
    {
        Pairs {
            items: Vec::new(alloc),
        }
    }

    /// The pairs in their order.
    pub fn as_slice(&self) -> &[Pair]
        ensures { result.now ≡ self.now }
    {
        self.items.as_slice()
    }

    /// Adds a pair at the end.
    ///
    /// # Errors
    ///
    /// Where memory ran out, the list is as it was.
    pub fn push(&mut self, author: u64, number: u64) -> Result<(), Memory>
        ensures added { OnOk result (self.new ≡ self.old ++ pair author number ∷ []) }
        ensures same { OnErr result (self.new ≡ self.old) }
    {
        let Ok(()) = self.items.push(Pair { author, number }) else {
            return Err(Memory);
        };
        Ok(())
    }

    /// The same pairs in a list of its own.
    ///
    /// # Errors
    ///
    /// Memory, where it ran out.
    pub fn copy(&self) -> Result<Pairs, Memory>
        ensures { IfOk result (λ p. p ≡ self.now) }
    {
        let Ok(items) = Vec::from_slice(*self.items.allocator(), self.items.as_slice()) else {
            return Err(Memory);
        };
        Ok(Pairs { items })
    }
}

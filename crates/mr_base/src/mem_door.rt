ghost use Rattle.std.specs.Prelude.{◌≡◌, ◌≤◌, ◌+◌, Some, IfOk, [], false, if◌then◌else◌, length};
ghost use Rattle.std.specs.Vec.{vec_capacity};

use crate::door::Door;
use crate::mem_link::MemLink;
use crate::numbers::{Failed, Memory};
use std::alloc::Global;

/// A door in memory, which tells.
#[derive(Drop)]
pub struct MemDoor {
    waiting: Vec<MemLink>,
    out: bool,
    given_back: Vec<MemLink>,
    ghost room: { length given_back.items + ((if out then 1 else 0) + length waiting.items)
        ≤ vec_capacity given_back },
}

impl MemDoor {
    /// A door by which these links are to come, with room for all of them once they are given back.
    /// `fails` has the numbers, from 1, of the calls of `next` that are to fail; for now it has to
    /// be empty.
    ///
    /// # Errors
    ///
    /// [`Memory`] where there is none for that room.
    pub fn with(alloc: Global, links: Vec<MemLink>, fails: Vec<u64>) -> Result<Self, Memory>
        requires { fails.items ≡ [] }
        ensures to_come { IfOk result (λ door.
            ⟦<MemDoor as Door>⟧.to_come door ≡ Some links.items) }
        ensures given_back { IfOk result (λ door.
            ⟦<MemDoor as Door>⟧.given_back door ≡ Some []) }
        ensures none_out { IfOk result (λ door. ⟦<MemDoor as Door>⟧.is_out door ≡ false) }
        ensures faults { IfOk result (λ door. ⟦<MemDoor as Door>⟧.faults door ≡ 0) }
    {
        match Vec::with_capacity(alloc, links.len()) {
            Ok(given_back) => Ok(MemDoor {
                waiting: links,
                out: false,
                given_back,
            }),
            Err(_) => Err(Memory),
        }
    }

    /// The links given back so far.
    pub fn given_back(&self) -> &[MemLink]
        ensures { ⟦<MemDoor as Door>⟧.given_back self.now ≡ Some result.now }
    {
        self.given_back.as_slice()
    }
}

impl Door for MemDoor {
    ghost use Rattle.std.specs.Prelude.{Some};

    type Link = MemLink;

    ghost to_come = { λ d. Some d.waiting.items };

    ghost given_back = { λ d. Some d.given_back.items };

    ghost is_out = { λ d. d.out };

    ghost faults = { λ d. 0 };

    fn next(&mut self) -> Result<Option<MemLink>, Failed> {
        if self.waiting.is_empty() {
            return Ok(None);
        }
        let link = self.waiting.remove(0);
        self.out = true;
        Ok(Some(link))
    }

    fn back(&mut self, link: MemLink) {
        self.out = false;
        match self.given_back.push(link) {
            Ok(()) => (),
            Err(_) => unreachable!(),
        }
    }
}

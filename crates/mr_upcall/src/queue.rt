ghost use Rattle.std.specs.Prelude.{◌≡◌, ◌<◌, ◌≤◌, ◌↔◌, [], ◌∷◌, ◌++◌, length, IsErr, IsNone};
ghost use Rattle.std.specs.Prelude.{IfErr, IfNone, IfSome, OnErr, OnOk, slice_index_or, slice_set};

use crate::upcall::Upcall;
use std::marker::Model;

/// How many reports may be unread.
pub const MOST_UNREAD: usize = mr_base::MOST_UNREAD;

/// The reports that the owner has not read, oldest first: at most `MOST_UNREAD`, in a ring that
/// lies in the value itself. No call takes memory, and each takes the same time however many
/// there are, but `clear`.
#[derive(Debug, Drop)]
pub struct Queue {
    slots: [Option<Upcall>; MOST_UNREAD],
    /// Where the oldest report lies.
    oldest: usize,
    len: usize,
}

impl Model for Queue {
    ghost use Rattle.std.specs.Prelude.{List};
    ghost use Rattle.mr_upcall.specs.Rings.{in_ring, IsRing};
    ghost use Rattle.mr_upcall.specs.declared.queue.TheConstants.{MOST_UNREAD};
    ghost use Rattle.mr_upcall.specs.declared.upcall.Upcall.{Upcall};

    ghost Value = { List Upcall };

    ghost view = { λ q. in_ring q.oldest q.slots };

    ghost invariant = { λ q. IsRing MOST_UNREAD q.oldest q.len q.slots };
}

/// Takes what lies in a slot, which is empty then.
fn take_out(slots: &mut [Option<Upcall>], index: usize) -> Option<Upcall>
    requires { index < length slots.old }
    ensures value { result ≡ slice_index_or slots.old index None }
    ensures after { slots.new ≡ slice_set slots.old index None }
{
    slots[index].take()
}

impl Queue {
    /// The empty queue.
    pub fn new() -> Queue
        ensures { result ≡ [] }
    {
        Queue {
            slots: Default::default(),
            oldest: 0,
            len: 0,
        }
    }

    /// Puts a report behind the others.
    ///
    /// # Errors
    /// The report itself, exactly where `MOST_UNREAD` are unread.
    pub fn push(&mut self, message: Upcall) -> Result<(), Upcall>
        ensures pushed { OnOk result (self.new ≡ self.old ++ message ∷ []) }
        ensures full { IsErr result ↔ (length self.old ≡ MOST_UNREAD) }
        ensures handed_back { IfErr result (λ back. back ≡ message) }
        ensures stays { OnErr result (self.new ≡ self.old) }
    {
        if self.len == MOST_UNREAD {
            return Err(message);
        }
        let behind = (self.oldest + self.len) % MOST_UNREAD;
        self.slots[behind] = Some(message);
        self.len += 1;
        Ok(())
    }

    /// Takes the oldest report; none exactly where there is none.
    pub fn pop(&mut self) -> Option<Upcall>
        ensures oldest { IfSome result (λ message. self.old ≡ message ∷ self.new) }
        ensures empty { IsNone result ↔ (self.old ≡ []) }
        ensures stays { IfNone result (self.new ≡ self.old) }
    {
        if self.len == 0 {
            return None;
        }
        let message = take_out(&mut self.slots, self.oldest);
        self.oldest = (self.oldest + 1) % MOST_UNREAD;
        self.len -= 1;
        message
    }

    /// How many reports are unread.
    pub fn len(&self) -> u32
        ensures count { result ≡ length self.now }
        ensures within { length self.now ≤ MOST_UNREAD }
    {
        self.len as u32
    }

    /// Drops all reports.
    pub fn clear(&mut self)
        ensures { self.new ≡ [] }
    {
        while self.pop().is_some() {}
    }
}

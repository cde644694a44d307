ghost use Rattle.std.specs.Prelude.{◌≡◌, ◌≤◌, ◌<◌, ℕ, List, [], ◌∷◌, ◌++◌, IfOk, OnErr, IsErr};
ghost use Rattle.std.specs.Prelude.{IsErrOf};

use crate::message::Told;
use crate::reply::Reply;
use crate::request::Request;
use mr_base::ControlFull;

/// Why a control call made no entry.
#[derive(Clone, Copy, Debug, PartialEq, Eq)]
pub enum CallError {
    /// Memory ran out, and nothing changed.
    Memory,
    /// No control entry is left.
    ControlFull,
}

/// Who makes control calls: a daemon, as its routing program sees it. What it did stands in a list.
pub trait Caller {
    ghost use Rattle.mr_model.specs.Deeds.{Deed, Asked, Received, Ticked};

    /// What it did so far.
    ghost did: { Self → List Deed };

    /// How many control entries are left in what it has seen.
    ghost entries_left: { Self → ℕ };

    /// How many control entries are left in what this caller has seen.
    fn left(&self) -> u32
        ensures { result ≡ entries_left self.now };

    /// Makes a control call.
    ///
    /// # Errors
    ///
    /// [`CallError::ControlFull`] where no control entry is left, and [`CallError::Memory`] where a
    /// change of the tables finds no memory; neither is an entry.
    fn call(&mut self, request: &Request) -> Result<Reply, CallError>
        ensures ok { IfOk result (λ reply.
            did self.new ≡ did self.old ++ Asked request.now reply ∷ []) }
        ensures err { OnErr result (did self.new ≡ did self.old) }
        ensures falls { entries_left self.new ≤ entries_left self.old }
        ensures full { IsErrOf result CallError.ControlFull → entries_left self.new ≡ 0 }
        ensures surely { entries_left self.old ≡ 0 → IsErr result };

    /// Takes the oldest unread report; none where there is none, or where the caller is not the
    /// owner.
    ///
    /// # Errors
    ///
    /// [`ControlFull`] where no control entry is left.
    fn recv(&mut self) -> Result<Option<Told>, ControlFull>
        ensures ok { IfOk result (λ told. did self.new ≡ did self.old ++ Received told ∷ []) }
        ensures err { OnErr result (did self.new ≡ did self.old) }
        ensures falls { entries_left self.new ≤ entries_left self.old }
        ensures full { IsErr result → entries_left self.new ≡ 0 }
        ensures surely { entries_left self.old ≡ 0 → IsErr result };

    /// Lets so many milliseconds pass.
    ///
    /// # Errors
    ///
    /// [`ControlFull`] where no control entry is left.
    fn tick(&mut self, ms: u32) -> Result<(), ControlFull>
        ensures ok { IfOk result (λ _. did self.new ≡ did self.old ++ Ticked ms ∷ []) }
        ensures err { OnErr result (did self.new ≡ did self.old) }
        ensures falls { entries_left self.new ≤ entries_left self.old }
        ensures full { IsErr result → entries_left self.new ≡ 0 }
        ensures surely { entries_left self.old ≡ 0 → IsErr result };
}

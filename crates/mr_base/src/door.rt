use crate::link::Link;
use crate::numbers::Failed;

/// A door by which links come in, one after another, and to which each is given back.
pub trait Door {
    ghost use Rattle.std.specs.Prelude.{◌≡◌, ◌≤◌, ℕ, Bool, true, false, Option, List, [], ◌∷◌};
    ghost use Rattle.std.specs.Prelude.{IfOk, OnErr};
    ghost use Rattle.mr_base.specs.Outside.{Rose, Takes, GivesLink, gave_link};

    type Link: Link;

    // The links that are still to come, if the door tells.
    ghost to_come: { Self → Option (List Self.Link) };

    // The links given back so far, if the door tells.
    ghost given_back: { Self → Option (List Self.Link) };

    // Whether a link is out: given, and not yet given back.
    ghost is_out: { Self → Bool };

    // How many calls failed; it stops at its highest value, 2^64 - 1.
    ghost faults: { Self → ℕ };

    /// The next link, or `None` where none is to come.
    ///
    /// # Errors
    ///
    /// [`Failed`] where no link could be taken; nothing is said of those to come then.
    fn next(&mut self) -> Result<Option<Self::Link>, Failed>
        requires { is_out self.old ≡ false }
        ensures first { IfOk result (λ link. GivesLink (to_come self.old) link (to_come self.new)) }
        ensures kept { given_back self.new ≡ given_back self.old }
        ensures out { is_out self.new ≡ gave_link result }
        ensures count { faults self.old ≤ faults self.new }
        ensures good { IfOk result (λ _. faults self.new ≡ faults self.old) }
        ensures fault { OnErr result (Rose (faults self.old) (faults self.new)) };

    /// Takes back the link that is out.
    fn back(&mut self, link: Self::Link)
        requires { is_out self.old ≡ true }
        ensures added { Takes (given_back self.old) (link ∷ []) (given_back self.new) }
        ensures kept { to_come self.new ≡ to_come self.old }
        ensures out { is_out self.new ≡ false }
        ensures count { faults self.new ≡ faults self.old };
}

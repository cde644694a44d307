ghost use Rattle.std.specs.Prelude.{◌≡◌, nat_le, MatchBool, ⊤};
ghost use mathlib.Core.List.{IsPrefix};
ghost use Rattle.mr_model.specs.Numbers.{NumbersRise};
ghost use Rattle.mr_publish.specs.Lists.{last_number};

use crate::front::Front;
use crate::names::PairName;
use std::marker::Model;

/// What was published when the note was made. Contracts see the changes.
#[derive(Drop)]
pub struct Note<J: PairName> {
    pub(crate) front: Front<J>,
}

impl<J: PairName> Model for Note<J> {
    ghost use Rattle.std.specs.Prelude.{List};
    ghost use Rattle.mr_model.specs.declared.change.Change.{Change};

    ghost Value = { List Change };

    ghost view = { λ n. n.front };
}

impl<J: PairName> Note<J> {
    /// A copy, for another looker.
    pub fn again(&self) -> Note<J>
        ensures { result ≡ self.now }
    {
        Note {
            front: self.front.again(),
        }
    }

    /// Whether the other's last change is the later one, or the same. Of two notes of one publisher
    /// one begins the other: this says which.
    pub fn begins(&self, other: &Note<J>) -> bool
        ensures is { result ≡ nat_le (last_number 0 self.now) (last_number 0 other.now) }
        ensures begins { MatchBool result (IsPrefix self.now other.now) ⊤ }
        ensures begun { MatchBool result ⊤ (IsPrefix other.now self.now) }
    {
        self.front.begins(&other.front)
    }

    /// The number of the last change, or 0.
    pub fn version(&self) -> u32
        ensures number { result ≡ last_number 0 self.now }
        ensures rise { NumbersRise 0 self.now }
    {
        self.front.version()
    }
}

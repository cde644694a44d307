//! Beginnings of the list of published changes that were seen.
ghost use Rattle.std.specs.Prelude.{◌≡◌, ◌==◌, ◌++◌, nat_le, IsTrue, MatchBool, ⊤};
ghost use mathlib.Core.List.{IsPrefix};
ghost use Rattle.mr_model.specs.Numbers.{NumbersRise};
ghost use Rattle.mr_publish.specs.Lists.{last_number};
ghost use Rattle.mr_publish.specs.Rules.{head_of};
ghost use Rattle.mr_publish.specs.Values.{marked};

use crate::list::{Add, AskNothing, Batched, Nothing, Rising, SeenChanges};
use crate::names::PairName;
use logbook::{Offer, Word};
use mr_model::Change;
use std::marker::{Brand, Model, PhantomData};
use std::sync::Wait;

/// The word with the number of the last change.
#[derive(Drop)]
pub struct Head<J: PairName> {
    pub word: Word<Change, u64, Rising>,
    pub of: PhantomData<J>,
    ghost head_is: { word ≡ head_of J.list },
}

/// A beginning of a list, with the number of its last change, or 0. Contracts see which list it is,
/// and the changes.
#[derive(Drop)]
pub struct Mark {
    version: u32,
    seen: SeenChanges,
}

impl Model for Mark {
    ghost use Rattle.std.specs.Prelude.{◌≡◌};
    ghost use Rattle.mr_model.specs.Numbers.{NumbersRise};
    ghost use Rattle.mr_publish.specs.Lists.{last_number};
    ghost use Rattle.mr_publish.specs.Values.{Marked, marked};

    ghost Value = { Marked };

    ghost view = { λ m. marked m.seen.book m.seen.log };

    ghost invariant = { λ m. (m.version ≡ last_number 0 m.seen.log)
        × NumbersRise 0 m.seen.log };
}

impl Mark {
    /// A copy.
    pub fn again(&self) -> Mark
        ensures { result ≡ self.now }
    {
        Mark {
            version: self.version,
            seen: self.seen.again(),
        }
    }

    /// The same under the list's name.
    #[inline(always)]
    pub fn named<J: PairName>(&self) -> Front<J>
        requires { self.now.list ≡ J.list }
        ensures changes { result ≡ self.now.changes }
        ensures rise { NumbersRise 0 result }
    {
        Front {
            version: self.version,
            seen: self.seen.again(),
            of: PhantomData,
        }
    }
}

/// A beginning of the list `J`, with the number of its last change, or 0. Contracts see its
/// changes.
#[derive(Drop)]
pub struct Front<J: PairName> {
    pub version: u32,
    pub seen: SeenChanges,
    pub of: PhantomData<J>,
}

impl<J: PairName> Model for Front<J> {
    ghost use Rattle.std.specs.Prelude.{◌≡◌, List};
    ghost use Rattle.mr_model.specs.Numbers.{NumbersRise};
    ghost use Rattle.mr_model.specs.declared.change.Change.{Change};
    ghost use Rattle.mr_publish.specs.Lists.{last_number};

    ghost Value = { List Change };

    ghost view = { λ f. f.seen.log };

    ghost invariant = { λ f. (f.version ≡ last_number 0 f.seen.log)
        × (f.seen.book ≡ J.list)
        × NumbersRise 0 f.seen.log };
}

impl<J: PairName> Front<J> {
    /// A copy.
    #[inline(always)]
    pub fn again(&self) -> Front<J>
        ensures { result ≡ self.now }
    {
        Front {
            version: self.version,
            seen: self.seen.again(),
            of: PhantomData,
        }
    }

    /// The number of the last change, or 0.
    #[inline(always)]
    pub fn version(&self) -> u32
        ensures number { result ≡ last_number 0 self.now }
        ensures rise { NumbersRise 0 self.now }
    {
        self.version
    }

    /// The same in a copy of the tables.
    pub fn mark(&self) -> Mark
        ensures { result ≡ marked J.list self.now }
    {
        Mark {
            version: self.version,
            seen: self.seen.again(),
        }
    }

    /// Whether the other has a later last change, or the same: of two beginnings of one list that
    /// says which begins the other.
    #[inline(always)]
    pub fn begins(&self, other: &Front<J>) -> bool
        ensures is { result ≡ nat_le (last_number 0 self.now) (last_number 0 other.now) }
        ensures begins { MatchBool result (IsPrefix self.now other.now) ⊤ }
        ensures begun { MatchBool result ⊤ (IsPrefix other.now self.now) }
    {
        let mut both = self.seen.again();
        both.learn(&other.seen);
        self.version <= other.version
    }

    /// Whether both have the same last change. They are then the same.
    pub fn is(&self, other: &Front<J>) -> bool
        ensures is { result ≡ (last_number 0 self.now == last_number 0 other.now) }
        ensures same { IsTrue result → self.now ≡ other.now }
    {
        let mut both = self.seen.again();
        both.learn(&other.seen);
        self.version == other.version
    }

    /// Publishes changes behind all that were seen: `newest` is the number of the last.
    pub fn advance<R: Wait>(
        self,
        rt: &R,
        head: &Head<J>,
        changes: &[Change],
        newest: u32,
    ) -> Front<J>
        requires rise { NumbersRise 0 (self ++ changes.now) }
        requires newest { newest ≡ last_number 0 (self ++ changes.now) }
        ensures { result ≡ self ++ changes.now }
    {
        let Front {
            version,
            mut seen,
            of,
        } = self;
        let found = add::<J, Brand>(head, &mut seen, version, newest, changes);
        if found != u64::from(version) {
            never(rt);
        }
        Front {
            version: newest,
            seen,
            of,
        }
    }
}

/// The step that adds changes, where the list ends with what was seen. It gives the number of the
/// list's last change.
fn add<J: PairName, X: Batched>(
    head: &Head<J>,
    seen: &mut SeenChanges,
    version: u32,
    newest: u32,
    changes: &[Change],
) -> u64
    requires batch { X.changes ≡ changes.now }
    requires list { seen.old.book ≡ J.list }
    requires version { version ≡ last_number 0 seen.old.log }
    requires rise { NumbersRise 0 (seen.old.log ++ changes.now) }
    requires newest { newest ≡ last_number 0 (seen.old.log ++ changes.now) }
    ensures list { seen.new.book ≡ seen.old.book }
    ensures added { MatchBool (result == version) (seen.new.log ≡ seen.old.log ++ changes.now) ⊤ }
{
    // what is added is known to contracts alone
    let _ = changes;
    let mut offer: Offer<Change, u64, Rising, Nothing> = seen.plain::<Nothing, (), AskNothing>(&());
    let mut pen = seen.no_pen();
    head.word.compare_exchange::<Add<X>, Nothing>(
        u64::from(version),
        u64::from(newest),
        seen,
        &mut offer,
        &mut pen,
    )
}

/// Waits for ever, where something comes that does not come in fact, but that contracts cannot rule
/// out.
pub fn never<R: Wait>(rt: &R) -> ! {
    for _ in rt.forever() {}
    unreachable!()
}

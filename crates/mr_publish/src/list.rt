//! The list of the published changes, which only grows. It has no bytes but the number of its last
//! change: it exists for contracts.
use logbook::{Gain, Plain, Play, Rule, Seen};
use mr_model::Change;
use std::marker::{Brand, PhantomData};

/// A beginning of the list.
pub type SeenChanges = Seen<Change, u64, Rising>;

/// The rule: the word is the number of the last change, and the numbers rise.
pub struct Rising;

impl Rule<Change, u64> for Rising {
    ghost use Rattle.std.specs.Prelude.{[]};
    ghost use base.Fml.{ftrue};
    ghost use Rattle.mr_publish.specs.Rules.{IsKept};

    ghost holds = { λ cells log. IsKept cells log };

    ghost first = { [] };

    ghost hinted = { λ n log. Unit {0} };

    ghost shows = { λ log. [] };

    ghost keeps = { λ names log. ftrue };

    ghost moves = { λ ask before after answer. Unit {0} };
}

/// Clients of the list trade nothing.
pub struct Nothing;

impl Gain<Change, u64> for Nothing {
    ghost use base.Fml.{ftrue};

    ghost after = { λ names about answer. ftrue };
}

/// Changes that are added together. A call picks them.
pub trait Batched {
    ghost use Rattle.std.specs.Prelude.{List};
    ghost use Rattle.mr_model.specs.declared.change.Change.{Change};

    ghost changes: { List Change };
}

impl Batched for Brand {
    ghost use Rattle.std.specs.Prelude.{[]};

    ghost changes = { [] };
}

/// The step that adds the changes of `X`.
pub struct Add<X> {
    of: PhantomData<X>,
}

impl<X: Batched> Play<Change, u64> for Add<X> {
    ghost use Rattle.mr_publish.specs.Rules.{Adds};

    ghost then = { Adds X.changes };
}

/// What a step asks of the clients.
pub struct AskNothing;

impl Plain<(), Change, u64> for AskNothing {
    ghost use Rattle.std.specs.Prelude.{None};
    ghost use Rattle.mr_publish.specs.Rules.{no_change};

    ghost ask = { λ _. no_change };

    ghost state = { λ _. None };
}

ghost use Rattle.std.specs.Prelude.{◌≡◌, []};
ghost use Rattle.mr_book.specs.Views.{pen};

use crate::journaled::Journaled;
use crate::names::BookName;
use crate::place::Place;
use std::marker::PhantomData;

/// What lies under the lock while nobody has it: the value, and the seat that has seen its list.
pub struct Desk<T: Journaled, B: BookName> {
    pub value: T,
    pub keeper: Place<T::Entry>,
    pub of: PhantomData<B>,
    ghost named: { keeper.table_id ≡ B.table },
    ghost knows: { keeper.me ≡ (pen (T.entries value), []) },
}

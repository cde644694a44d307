use crate::names::BookName;
use crate::place::Place;
use std::marker::{Model, PhantomData};

/// A caller's seat at the book `B`, outside the lock. Contracts see what it knows. It has no bytes,
/// and may go to another thread.
#[derive(Drop)]
pub struct Seat<E, B: BookName> {
    pub(crate) place: Place<E>,
    pub(crate) of: PhantomData<B>,
}

impl<E, B: BookName> Model for Seat<E, B> {
    ghost use Rattle.std.specs.Prelude.{◌≡◌, []};
    ghost use Rattle.mr_book.specs.declared.view.Known.{Known};
    ghost use Rattle.mr_book.specs.Views.{caller};

    ghost Value = { Known E };

    ghost view = { λ s. s.place.me.0.known };

    ghost invariant = { λ s. (s.place.table_id ≡ B.table)
        × (s.place.me ≡ (caller s.place.me.0.known, [])) };
}

/// The seat of a caller that has the lock. Contracts see what it knows.
pub struct HeldSeat<E, B: BookName> {
    pub(crate) place: Place<E>,
    pub(crate) of: PhantomData<B>,
}

impl<E, B: BookName> Model for HeldSeat<E, B> {
    ghost use Rattle.std.specs.Prelude.{◌≡◌, []};
    ghost use Rattle.mr_book.specs.declared.view.Known.{Known};
    ghost use Rattle.mr_book.specs.Views.{holder};

    ghost Value = { Known E };

    ghost view = { λ s. s.place.me.0.known };

    ghost invariant = { λ s. (s.place.table_id ≡ B.table)
        × (s.place.me ≡ (holder s.place.me.0.known, [])) };
}

ghost use Rattle.std.specs.Prelude.{◌≡◌};

use crate::names::BookName;
use crate::place::Place;
use std::marker::{Model, PhantomData};

/// The numbers of a book's callers that no seat has yet: `Book::deal` gives a seat with the next.
#[derive(Drop)]
pub struct Dealer<E, B: BookName> {
    pub(crate) place: Place<E>,
    pub(crate) next: u32,
    pub(crate) left: u32,
    pub(crate) of: PhantomData<B>,
}

impl<E, B: BookName> Model for Dealer<E, B> {
    ghost use Rattle.std.specs.Prelude.{◌≡◌, ◌+◌, ◌<◌, ◌^◌, []};
    ghost use Rattle.mr_book.specs.Opening.{Numbers};
    ghost use Rattle.mr_book.specs.Views.{caller, dealing};

    ghost Value = { Numbers };

    ghost view = { λ d. record { next = d.next; left = d.left } };

    ghost invariant = { λ d. (d.place.table_id ≡ B.table)
        × (d.place.me ≡ (caller (dealing d.next d.left), []))
        × (d.next + d.left < 2 ^ 32) };
}

impl<E, B: BookName> Dealer<E, B> {
    /// How many seats are not dealt yet.
    pub fn left(&self) -> u32
        ensures { result ≡ self.now.left }
    {
        self.left
    }
}

ghost use Rattle.std.specs.Prelude.{◌≡◌, [], IfOk, IfErr};

use crate::book::Book;
use crate::dealer::Dealer;
use crate::desk::Desk;
use crate::journaled::Journaled;
use crate::names::BookName;
use crate::place::{CountTable, Place};
use crate::rule::GivePen;
use mr_base::Memory;
use std::alloc::Global;
use std::marker::{Model, PhantomData};
use std::sync::Mutex;

/// A book that has no name yet. Contracts see its table, and how many callers it is for.
pub struct Opened<T: Journaled> {
    table: CountTable<T::Entry>,
    value: T,
    keeper: Place<T::Entry>,
    dealer: Place<T::Entry>,
    callers: u32,
}

impl<T: Journaled> Model for Opened<T> {
    ghost use Rattle.std.specs.Prelude.{◌≡◌, []};
    ghost use Rattle.mr_book.specs.Opening.{Opening};
    ghost use Rattle.mr_book.specs.Views.{caller, dealing, pen};

    ghost Value = { Opening };

    ghost view = { λ o. record { table = o.table.shared.table_id; callers = o.callers } };

    ghost invariant = { λ o. (o.table.shared.table_id.words ≡ 1)
        × (o.keeper.table_id ≡ o.table.shared.table_id)
        × (o.dealer.table_id ≡ o.table.shared.table_id)
        × (T.entries o.value ≡ [])
        × (o.keeper.me ≡ (pen [], []))
        × (o.dealer.me ≡ (caller (dealing 0 o.callers), [])) };
}

impl<T: Journaled> Opened<T> {
    /// A book over a value whose list is empty, for callers with the numbers 0 to `callers` - 1.
    ///
    /// # Errors
    ///
    /// Where memory ran out, the value comes back.
    pub fn new(alloc: Global, value: T, callers: u32) -> Result<Opened<T>, (T, Memory)>
        requires { T.entries value ≡ [] }
        ensures callers { IfOk result (λ o. o.callers ≡ callers) }
        ensures back { IfErr result (λ e. e.0 ≡ value) }
    {
        let Ok((table, mut dealer)) = CountTable::of_words(alloc, &[0], &callers) else {
            return Err((value, Memory));
        };
        let keeper = table.shared.split_seat::<GivePen>(&mut dealer);
        Ok(Opened {
            table,
            value,
            keeper,
            dealer,
            callers,
        })
    }

    /// The book under its name, and the dealer of its seats.
    pub fn named<B: BookName>(self) -> (Book<T, B>, Dealer<T::Entry, B>)
        requires { self.table ≡ B.table }
        ensures { result.1 ≡ record { next = 0; left = self.callers } }
    {
        let Opened {
            table,
            value,
            keeper,
            dealer,
            callers,
        } = self;
        let desk = Desk {
            value,
            keeper,
            of: PhantomData,
        };
        let book = Book {
            table,
            desk: Mutex::new(Some(desk)),
        };
        let dealer = Dealer {
            place: dealer,
            next: 0,
            left: callers,
            of: PhantomData,
        };
        (book, dealer)
    }
}

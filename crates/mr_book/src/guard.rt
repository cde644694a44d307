ghost use Rattle.std.specs.Prelude.{◌≡◌, ◌++◌, ◌∷◌, [], Some, None, length};
ghost use Rattle.std.specs.Sync.Mutex.{mutex_guard_value};
ghost use Rattle.mr_book.specs.Views.{with_entry};

use crate::book::Book;
use crate::desk::Desk;
use crate::journaled::Journaled;
use crate::names::BookName;
use crate::place::count_one;
use crate::rule::{GivePen, Look};
use crate::seat::{HeldSeat, Seat};
use std::marker::{Brand, PhantomData};
use std::mem;
use std::sync::MutexGuard;

/// The lock, with the value and the caller's seat. It must be spent by `leave`.
///
/// `seat.seen` is the list at the entering or the last commit.
pub struct Guard<'a, T: Journaled, B: BookName> {
    pub value: T,
    pub seat: HeldSeat<T::Entry, B>,
    pub(crate) lock: MutexGuard<'a, Option<Desk<T, B>>>,
    pub(crate) book: &'a Book<T, B>,
    ghost taken: { mutex_guard_value lock ≡ None },
}

impl<'a, T: Journaled, B: BookName> Guard<'a, T, B> {
    /// Counts the one entry that the list has more than at the entering or the last commit. It was
    /// made under the seat's number.
    pub fn commit(&mut self)
        requires { (e : T.Entry)
            × (T.entries self.old.value ≡ self.old.seat.seen ++ e ∷ [])
            × (self.old.seat.number ≡ Some (T.Entry.author e)) }
        ensures value { self.new.value ≡ self.old.value }
        ensures seat { (e : T.Entry)
            → T.entries self.old.value ≡ self.old.seat.seen ++ e ∷ []
            → self.new.seat ≡ with_entry T.Entry.author e self.old.seat }
    {
        let seat = &mut self.seat;
        count_one::<T, Brand>(&self.book.table.shared, &mut seat.place, &self.value);
    }

    /// The count, which is the length of the list at the entering or the last commit.
    pub fn count(&mut self) -> u64
        ensures count { result ≡ length self.old.seat.seen }
        ensures value { self.new.value ≡ self.old.value }
        ensures seat { self.new.seat ≡ self.old.seat }
    {
        let seat = &mut self.seat;
        self.book.table.shared.load::<Look>(&mut seat.place, 0)
    }

    /// Gives the lock back. The list is as at the entering or the last commit.
    pub fn leave(self) -> Seat<T::Entry, B>
        requires { T.entries self.value ≡ self.seat.seen }
        ensures { result ≡ self.entry.seat }
    {
        let Guard {
            value,
            seat,
            mut lock,
            book,
        } = self;
        let HeldSeat { mut place, of } = seat;
        let keeper = book.table.shared.split_seat::<GivePen>(&mut place);
        let desk = Desk {
            value,
            keeper,
            of: PhantomData,
        };
        let before = mem::replace(&mut *lock, Some(desk));
        let None = before else { unreachable!() };
        Seat { place, of }
    }
}

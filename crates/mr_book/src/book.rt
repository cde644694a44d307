ghost use Rattle.std.specs.Prelude.{◌≡◌, ◌+◌, ◌-◌, ◌<◌, ◌≤◌, [], length};
ghost use mathlib.Core.List.{IsPrefix};
ghost use Rattle.mr_book.specs.Rule.{OwnEntries};
ghost use Rattle.mr_book.specs.Views.{newcomer, copied, met, with_seen};

use crate::dealer::Dealer;
use crate::desk::Desk;
use crate::guard::Guard;
use crate::journaled::Journaled;
use crate::names::BookName;
use crate::place::{CountTable, take_in};
use crate::rule::{CopySeen, DealNumber, Look};
use crate::seat::{HeldSeat, Seat};
use std::marker::PhantomData;
use std::sync::{Mutex, Wait};

/// A lock over a value, with a word that counts the entries of the value's list.
pub struct Book<T: Journaled, B: BookName> {
    pub(crate) table: CountTable<T::Entry>,
    pub(crate) desk: Mutex<Option<Desk<T, B>>>,
    ghost named: { table.shared.table_id ≡ B.table },
    ghost one_word: { table.shared.table_id.words ≡ 1 },
}

impl<T: Journaled, B: BookName> Book<T, B> {
    /// A seat with the dealer's next number, which has seen nothing.
    pub fn deal(&self, dealer: &mut Dealer<T::Entry, B>) -> Seat<T::Entry, B>
        requires { 0 < dealer.old.left }
        ensures seat { result ≡ newcomer dealer.old.next }
        ensures dealer { dealer.new
            ≡ record { next = dealer.old.next + 1; left = dealer.old.left - 1 } }
    {
        dealer.next += 1;
        dealer.left -= 1;
        let place = self
            .table
            .shared
            .split_seat::<DealNumber>(&mut dealer.place);
        Seat {
            place,
            of: PhantomData,
        }
    }

    /// A seat that has seen what this one has, and has no number.
    pub fn split(&self, seat: &mut Seat<T::Entry, B>) -> Seat<T::Entry, B>
        ensures seat { seat.new ≡ seat.old }
        ensures copy { result ≡ copied seat.old }
    {
        let place = self.table.shared.split_seat::<CopySeen>(&mut seat.place);
        Seat {
            place,
            of: PhantomData,
        }
    }

    /// Takes the lock. What the seat had seen is a beginning of the value's list, and the entries
    /// of its numbers in the list are just those that it knows.
    pub fn enter<R: Wait>(&self, rt: &R, seat: Seat<T::Entry, B>) -> Guard<'_, T, B>
        ensures begins { IsPrefix seat.seen (T.entries result.value) }
        ensures own { OwnEntries T.Entry.author seat.owns (T.entries result.value) }
        ensures seat { result.seat ≡ with_seen (T.entries result.value) seat }
    {
        let mut lock = self.desk.lock(rt);
        let Some(desk) = lock.take() else { never(rt) };
        let Desk {
            value,
            keeper,
            of: _,
        } = desk;
        let Seat { mut place, of } = seat;
        take_in(&self.table.shared, &mut place, keeper);
        Guard {
            value,
            seat: HeldSeat { place, of },
            lock,
            book: self,
        }
    }

    /// `into` has then seen the longer of what both had seen, and answers for the numbers of both.
    /// Nobody can make an entry under the number of `from` any more.
    pub fn meet(&self, from: Seat<T::Entry, B>, into: &mut Seat<T::Entry, B>)
        ensures met { into.new ≡ met into.old from }
        ensures into { IsPrefix into.old.seen into.new.seen }
        ensures from { IsPrefix from.seen into.new.seen }
    {
        let Seat { place, of: _ } = from;
        take_in(&self.table.shared, &mut into.place, place);
    }

    /// How many entries are counted. A seat that has seen as many has seen all of them, and knows
    /// the entries of its numbers in what it has seen.
    pub fn confirm(&self, seat: &mut Seat<T::Entry, B>) -> u64
        ensures seat { seat.new ≡ seat.old }
        ensures least { length seat.old.seen ≤ result }
        ensures own { result ≡ length seat.old.seen
            → OwnEntries T.Entry.author seat.old.owns seat.old.seen }
    {
        self.table.shared.load::<Look>(&mut seat.place, 0)
    }

    /// Gives the value back, once no thread shares the book. What the seat had seen is a beginning
    /// of the value's list, and the entries of its numbers in it are just those that it knows.
    pub fn close<R: Wait>(self, rt: &R, seat: Seat<T::Entry, B>) -> T
        ensures begins { IsPrefix seat.seen (T.entries result) }
        ensures own { OwnEntries T.Entry.author seat.owns (T.entries result) }
    {
        let Book { table, desk } = self;
        let Some(desk) = desk.into_inner() else {
            never(rt)
        };
        let Desk {
            value,
            mut keeper,
            of: _,
        } = desk;
        let Seat { place, of: _ } = seat;
        take_in(&table.shared, &mut keeper, place);
        value
    }
}

// The value is away only while a guard has the lock, so this does not come. That cannot be known of
// what a lock holds, so it waits.
fn never<R: Wait>(rt: &R) -> ! {
    for _ in rt.forever() {}
    unreachable!()
}

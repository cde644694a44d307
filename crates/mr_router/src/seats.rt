//! What lanes, daemons and the router do with their seats at the book.

ghost use Rattle.std.specs.Prelude.{◌≡◌, ◌<◌, ◌≤◌, [], length};
ghost use mathlib.Core.List.{IsPrefix};
ghost use Rattle.mr_book.specs.Rule.{OwnEntries};
ghost use Rattle.mr_book.specs.Views.{copied, with_seen};
ghost use Rattle.mr_model.specs.Legal.{IsLegal};
ghost use Rattle.mr_authors.specs.Authors.{author};

use crate::machine::Machine;
use crate::names::RunName;
use crate::signed::Signed;
use mr_book::{Book, BookName, Guard, Seat};
use std::mem;
use std::sync::Wait;

/// Takes the lock with a caller's seat, and leaves a copy in its place.
pub fn take_lock<'a, B: BookName, C: RunName, R: Wait>(
    rt: &R,
    book: &'a Book<Machine<C>, B>,
    seat: &mut Seat<Signed, B>,
) -> Guard<'a, Machine<C>, B>
    ensures begins { IsPrefix seat.old.seen result.value }
    ensures own { OwnEntries author seat.old.owns result.value }
    ensures seat { result.seat ≡ with_seen result.value seat.old }
    ensures legal { IsLegal C.limits result.value }
{
    let copy = book.split(seat);
    let own = mem::replace(seat, copy);
    let guard = book.enter(rt, own);
    guard.value.facts();
    guard
}

/// `into` has then seen what `from` had seen, too.
pub fn gather<B: BookName, C: RunName>(
    book: &Book<Machine<C>, B>,
    from: &mut Seat<Signed, B>,
    into: &mut Seat<Signed, B>,
)
    ensures from { from.new ≡ from.old }
    ensures into { into.new ≡ with_seen into.new.seen into.old }
    ensures all_of_from { IsPrefix from.old.seen into.new.seen }
    ensures all_of_into { IsPrefix into.old.seen into.new.seen }
{
    let copy = book.split(from);
    book.meet(copy, into);
}

/// `into` has then seen just what `from` has, which is all that is counted, and it has no other
/// entries in it than it knows.
pub fn announce<B: BookName, C: RunName, R: Wait>(
    rt: &R,
    book: &Book<Machine<C>, B>,
    from: &mut Seat<Signed, B>,
    into: &mut Seat<Signed, B>,
    count: u64,
)
    requires begins { IsPrefix into.old.seen from.old.seen }
    requires count { count ≡ length from.old.seen }
    ensures from { from.new ≡ from.old }
    ensures into { into.new ≡ with_seen from.old.seen into.old }
    ensures own { OwnEntries author into.old.owns from.old.seen }
{
    let copy = book.split(from);
    book.meet(copy, into);
    // nobody else makes entries now; that cannot be known of the count, so it would wait
    if book.confirm(into) != count {
        never(rt);
    }
}

// This does not come.
fn never<R: Wait>(rt: &R) -> ! {
    for _ in rt.forever() {}
    unreachable!()
}

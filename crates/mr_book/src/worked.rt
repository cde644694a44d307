//! A worked row: A adds 5, B adds 6 and then 7, A enters and looks, B meets into A, and the book is
//! closed.
ghost use Rattle.std.specs.Prelude.{◌≡◌, ◌∷◌, [], map, Some, IfOk, OnOk, OnErr};
ghost use mathlib.Core.List.{IsPrefix};
ghost use Rattle.mr_book.specs.Rule.{by, OwnEntries};
ghost use Rattle.mr_book.specs.Views.{newcomer, with_own};
ghost use Rattle.mr_book.specs.Pairs.{pair, pair_author};

use crate::book::Book;
use crate::names::BookName;
use crate::opened::Opened;
use crate::pairs::{Pair, Pairs};
use crate::seat::Seat;
use mr_base::Memory;
use std::sync::Wait;
use std::thread;
use std::thread::Threads;

// A caller's seat, and whether all its numbers were added.
type Added<B> = (Seat<Pair, B>, Result<(), Memory>);

/// What A found when it entered, and what was there at the end.
#[derive(Drop)]
pub struct Row {
    pub found: Pairs,
    pub closed: Pairs,
}

/// The row on one thread. The numbers of A and B are 0 and 1.
///
/// # Errors
///
/// Memory, where it ran out.
pub fn worked_row<B: BookName, R: Wait>(rt: &R, opened: Opened<Pairs>) -> Result<Row, Memory>
    requires named { opened.table ≡ B.table }
    requires callers { opened.callers ≡ 2 }
    ensures found { IfOk result (λ row. by pair_author 0 row.found ≡ pair 0 5 ∷ []) }
    ensures goes_on { IfOk result (λ row. IsPrefix row.found row.closed) }
    ensures of_a { IfOk result (λ row. by pair_author 0 row.closed ≡ pair 0 5 ∷ []) }
    ensures of_b { IfOk result (λ row.
        by pair_author 1 row.closed ≡ pair 1 6 ∷ pair 1 7 ∷ []) }
{
    let (book, mut dealer) = opened.named::<B>();
    let a = book.deal(&mut dealer);
    let b = book.deal(&mut dealer);
    let five = add_five(rt, &book, a);
    let others = add_others(rt, &book, b);
    finish(rt, book, five, others)
}

/// The row with A and B on threads of their own. Their numbers may then stand in any order.
///
/// # Errors
///
/// Memory, where it ran out.
pub fn worked_on_threads<B: BookName + Send + Sync, R: Threads + Wait + Sync>(
    rt: &R,
    opened: Opened<Pairs>,
) -> Result<Row, Memory>
    requires named { opened.table ≡ B.table }
    requires callers { opened.callers ≡ 2 }
    ensures found { IfOk result (λ row. by pair_author 0 row.found ≡ pair 0 5 ∷ []) }
    ensures goes_on { IfOk result (λ row. IsPrefix row.found row.closed) }
    ensures of_a { IfOk result (λ row. by pair_author 0 row.closed ≡ pair 0 5 ∷ []) }
    ensures of_b { IfOk result (λ row.
        by pair_author 1 row.closed ≡ pair 1 6 ∷ pair 1 7 ∷ []) }
{
    let (book, mut dealer) = opened.named::<B>();
    let a = book.deal(&mut dealer);
    let b = book.deal(&mut dealer);
    let shared = &book;
    let (five, others) = thread::join(
        rt,
        move || -> Added<B>
            requires { a ≡ newcomer 0 }
            ensures added { OnOk result.1 (result.0.owns ≡ (0, pair 0 5 ∷ []) ∷ []) }
        { add_five(rt, shared, a) },
        move || -> Added<B>
            requires { b ≡ newcomer 1 }
            ensures added { OnOk result.1
                (result.0.owns ≡ (1, pair 1 6 ∷ pair 1 7 ∷ []) ∷ []) }
        { add_others(rt, shared, b) },
    );
    finish(rt, book, five, others)
}

fn add_five<B: BookName, R: Wait>(rt: &R, book: &Book<Pairs, B>, seat: Seat<Pair, B>) -> Added<B>
    requires { seat ≡ newcomer 0 }
    ensures { OnOk result.1 (result.0.owns ≡ (0, pair 0 5 ∷ []) ∷ []) }
{
    add(rt, book, seat, 0, 5)
}

fn add_others<B: BookName, R: Wait>(rt: &R, book: &Book<Pairs, B>, seat: Seat<Pair, B>) -> Added<B>
    requires { seat ≡ newcomer 1 }
    ensures { OnOk result.1 (result.0.owns ≡ (1, pair 1 6 ∷ pair 1 7 ∷ []) ∷ []) }
{
    let (seat, six) = add(rt, book, seat, 1, 6);
    let (seat, seven) = add(rt, book, seat, 1, 7);
    let (Ok(()), Ok(())) = (six, seven) else {
        return (seat, Err(Memory));
    };
    (seat, Ok(()))
}

// Adds a number under the seat's own, and commits it.
fn add<B: BookName, R: Wait>(
    rt: &R,
    book: &Book<Pairs, B>,
    seat: Seat<Pair, B>,
    author: u64,
    number: u64,
) -> Added<B>
    requires { seat.number ≡ Some author }
    ensures number { result.0.number ≡ seat.number }
    ensures own { OnOk result.1
        (result.0.owns ≡ map (with_own pair_author (pair author number)) seat.owns) }
    ensures same { OnErr result.1 (result.0.owns ≡ seat.owns) }
{
    let mut guard = book.enter(rt, seat);
    let added = guard.value.push(author, number);
    let Ok(()) = added else {
        return (guard.leave(), Err(Memory));
    };
    guard.commit();
    (guard.leave(), Ok(()))
}

// What is left of the row once both have added their numbers.
fn finish<B: BookName, R: Wait>(
    rt: &R,
    book: Book<Pairs, B>,
    five: Added<B>,
    others: Added<B>,
) -> Result<Row, Memory>
    requires five { OnOk five.1 (five.0.owns ≡ (0, pair 0 5 ∷ []) ∷ []) }
    requires others { OnOk others.1 (others.0.owns ≡ (1, pair 1 6 ∷ pair 1 7 ∷ []) ∷ []) }
    ensures found { IfOk result (λ row. by pair_author 0 row.found ≡ pair 0 5 ∷ []) }
    ensures goes_on { IfOk result (λ row. IsPrefix row.found row.closed) }
    ensures of_a { IfOk result (λ row. by pair_author 0 row.closed ≡ pair 0 5 ∷ []) }
    ensures of_b { IfOk result (λ row.
        by pair_author 1 row.closed ≡ pair 1 6 ∷ pair 1 7 ∷ []) }
{
    let (a, added_a) = five;
    let (b, added_b) = others;
    let row = look_and_close(rt, book, a, b);
    let (Ok(()), Ok(())) = (added_a, added_b) else {
        return Err(Memory);
    };
    row
}

// A enters and takes a copy, and then B's seat is met into A's.
fn look_and_close<B: BookName, R: Wait>(
    rt: &R,
    book: Book<Pairs, B>,
    a: Seat<Pair, B>,
    b: Seat<Pair, B>,
) -> Result<Row, Memory>
    ensures found { IfOk result (λ row. OwnEntries pair_author a.owns row.found) }
    ensures goes_on { IfOk result (λ row. IsPrefix row.found row.closed) }
    ensures of_a { IfOk result (λ row. OwnEntries pair_author a.owns row.closed) }
    ensures of_b { IfOk result (λ row. OwnEntries pair_author b.owns row.closed) }
{
    let guard = book.enter(rt, a);
    let copy = guard.value.copy();
    let mut a = guard.leave();
    book.meet(b, &mut a);
    let closed = book.close(rt, a);
    let Ok(found) = copy else {
        return Err(Memory);
    };
    Ok(Row { found, closed })
}

ghost use Rattle.std.specs.Prelude.{◌≡◌, ◌<◌, Some};

use crate::{Book, BookName, Opened, Pair, Pairs, Seat, worked_on_threads, worked_row};
use std::marker::Brand;
use std::process::Abort;
use std::sync::Wait;
use std::test::*;

#[test]
fn one_thread(rt: HostRuntime) -> Result<(), Fail> {
    let opened = Opened::new(rt.alloc(), Pairs::new(rt.alloc()), 2)
        .ok()
        .ok_or("the book")?;
    let row = worked_row::<Brand, _>(&rt, opened).ok().ok_or("the row")?;
    let all = [(0, 5), (1, 6), (1, 7)].map(|(author, number)| Pair { author, number });
    assert!(rt; row.found.as_slice() == &all[..]);
    assert!(rt; row.closed.as_slice() == &all[..]);
    Ok(())
}

#[test]
fn two_threads(rt: HostRuntime) -> Result<(), Fail> {
    for _ in 0..100 {
        let opened = Opened::new(rt.alloc(), Pairs::new(rt.alloc()), 2)
            .ok()
            .ok_or("the book")?;
        let row = worked_on_threads::<Brand, _>(&rt, opened)
            .ok()
            .ok_or("the row")?;
        assert_eq!(rt; texts_of(row.found.as_slice()), [*b"5--", *b"67-"]);
        assert_eq!(rt; texts_of(row.closed.as_slice()), [*b"5--", *b"67-"]);
    }
    Ok(())
}

// The digits of A's numbers and those of B's, each in their order. They are the same whatever the
// schedule of the threads.
fn texts_of(pairs: &[Pair]) -> [[u8; 3]; 2] {
    let mut texts = [*b"---"; 2];
    let mut places = [0; 2];
    for pair in pairs {
        let caller = usize::from(pair.author != 0);
        let place = places[caller];
        if place < 3 && pair.number < 10 {
            texts[caller][place] = b'0' + pair.number as u8;
            places[caller] = place + 1;
        }
    }
    texts
}

#[test]
fn counts(rt: HostRuntime) -> Result<(), Fail> {
    let opened = Opened::new(rt.alloc(), Pairs::new(rt.alloc()), 1)
        .ok()
        .ok_or("the book")?;
    counted::<Brand, _>(&rt, opened);
    Ok(())
}

fn counted<B: BookName, R: Wait + Abort>(rt: &R, opened: Opened<Pairs>)
    requires named { opened.table ≡ B.table }
    requires callers { 0 < opened.callers }
{
    let (book, mut dealer) = opened.named::<B>();
    assert_eq!(rt; dealer.left(), 1);
    let seat = book.deal(&mut dealer);
    let mut seat = add_two(rt, &book, seat);
    let mut copy = book.split(&mut seat);
    assert_eq!(rt; book.confirm(&mut copy), 2);
    book.meet(copy, &mut seat);
    assert_eq!(rt; book.close(rt, seat).as_slice().len(), 2);
}

// Two commits under one lock.
fn add_two<B: BookName, R: Wait + Abort>(
    rt: &R,
    book: &Book<Pairs, B>,
    seat: Seat<Pair, B>,
) -> Seat<Pair, B>
    requires { seat.number ≡ Some 0 }
{
    let mut guard = book.enter(rt, seat);
    let before = guard.count();
    let first = guard.value.push(0, 5);
    let Ok(()) = first else {
        return guard.leave();
    };
    guard.commit();
    let second = guard.value.push(0, 6);
    let Ok(()) = second else {
        return guard.leave();
    };
    guard.commit();
    let after = guard.count();
    assert_eq!(rt; (before, after), (0, 2));
    guard.leave()
}

//! The rule of the table that has the count, and the steps on it.
use crate::journaled::Authored;
use crate::view::View;
use atomic_table::{Join, Play, Split, TableRule};
use std::marker::{Brand, PhantomData};

/// The rule: word 0 is the length of the list, and each seat has seen a beginning of it.
pub struct Counting;

impl<E: Authored> TableRule<(), View<E>, u32> for Counting {
    ghost use Rattle.mr_book.specs.Rule.{IsCounted};
    ghost use Rattle.mr_book.specs.Views.{opener};

    ghost holds = { λ _ s. IsCounted E.author s };

    ghost first = { λ callers. opener callers };
}

/// A load: the count is found.
pub struct Look;

impl<E: Authored> Play<(), View<E>> for Look {
    ghost use Rattle.std.specs.Prelude.{◌≡◌};
    ghost use Rattle.mr_book.specs.Steps.{Looked};

    ghost then = { λ step m n w. Looked E.author m.0 n w.0 × (w.1 ≡ m.1) };
}

/// The list whose last entry is counted. A call picks it.
pub trait Grown<E> {
    ghost use Rattle.std.specs.Prelude.{List};

    ghost list: { List E };
}

impl<E> Grown<E> for Brand {
    ghost use Rattle.std.specs.Prelude.{[]};

    ghost list = { [] };
}

/// An addition of 1: the last entry of the list of `X` is counted.
pub struct Count<X> {
    of: PhantomData<X>,
}

impl<E: Authored, X: Grown<E>> Play<(), View<E>> for Count<X> {
    ghost use Rattle.std.specs.Prelude.{◌≡◌};
    ghost use Rattle.mr_book.specs.Steps.{CountsOne};

    ghost then = { λ step m n w. CountsOne E.author X.list m.0 n w.0 × (w.1 ≡ m.1) };
}

/// The right to count goes to a new seat, the pen.
pub struct GivePen;

impl<E> Split<View<E>> for GivePen {
    ghost use Rattle.mr_book.specs.Views.{caller, pen};

    ghost left = { λ v. caller v.known };

    ghost right = { λ v. pen v.known.seen };
}

/// The first number goes to a new seat.
pub struct DealNumber;

impl<E> Split<View<E>> for DealNumber {
    ghost use Rattle.mr_book.specs.Views.{caller, dealt_out, first_dealt};

    ghost left = { λ v. caller (dealt_out v.known) };

    ghost right = { λ v. caller (first_dealt v.known) };
}

/// A new seat has seen as much, and has no number.
pub struct CopySeen;

impl<E> Split<View<E>> for CopySeen {
    ghost use Rattle.mr_book.specs.Views.{caller, copied};

    ghost left = { λ v. v };

    ghost right = { λ v. caller (copied v.known) };
}

/// One seat takes in another, which is spent.
pub struct TakeIn;

impl<E> Join<View<E>> for TakeIn {
    ghost use Rattle.mr_book.specs.Views.{nobody};
    ghost use Rattle.mr_book.specs.Steps.{joined};

    ghost both = { joined };

    ghost spent = { nobody };
}

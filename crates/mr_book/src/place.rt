//! The table of the count, and the steps of which each takes two.
ghost use Rattle.std.specs.Prelude.{◌≡◌, ℕ, ◌∷◌, ◌++◌, [], Some};
ghost use Rattle.mr_book.specs.Steps.{joined, Looked};
ghost use Rattle.mr_book.specs.Views.{holder, with_entry};

use crate::journaled::{Authored, Journaled};
use crate::rule::{Count, Counting, Grown, Look, TakeIn};
use crate::view::View;
use atomic_table::{Seat, Shared, Table};
use std::alloc::Global;

/// A seat of the table, with no slots.
pub type Place<E> = Seat<(), View<E>>;

pub type CountTable<E> = Table<(), View<E>, u32, Counting, Global>;

pub type Counter<E> = Shared<(), View<E>, u32, Counting>;

/// `into` takes in `from`, and compares what both had seen.
pub fn take_in<E: Authored>(counter: &Counter<E>, into: &mut Place<E>, from: Place<E>)
    requires word { counter.now.table_id.words ≡ 1 }
    requires into { into.old.table_id ≡ counter.now.table_id }
    requires from { (from.table_id ≡ counter.now.table_id) × (from.me.1 ≡ []) }
    ensures table { into.new.table_id ≡ into.old.table_id }
    ensures slots { into.new.me.1 ≡ into.old.me.1 }
    ensures looked { (n : ℕ)
        × Looked E.author (joined into.old.me.0 from.me.0) n into.new.me.0 }
{
    counter.join_seat::<TakeIn>(into, from);
    counter.load::<Look>(into, 0);
}

/// Counts the last entry of the value's list, which a seat that may count has made.
pub fn count_one<T: Journaled, X: Grown<T::Entry>>(
    counter: &Counter<T::Entry>,
    place: &mut Place<T::Entry>,
    value: &T,
)
    requires list { X.list ≡ T.entries value.now }
    requires word { counter.now.table_id.words ≡ 1 }
    requires table { place.old.table_id ≡ counter.now.table_id }
    requires right { place.old.me ≡ (holder place.old.me.0.known, []) }
    requires grew { (e : T.Entry)
        × (T.entries value.now ≡ place.old.me.0.known.seen ++ e ∷ [])
        × (place.old.me.0.known.number ≡ Some (T.Entry.author e)) }
    ensures table { place.new.table_id ≡ place.old.table_id }
    ensures entry { (e : T.Entry)
        → T.entries value.now ≡ place.old.me.0.known.seen ++ e ∷ []
        → place.new.me
        ≡ (holder (with_entry T.Entry.author e place.old.me.0.known), []) }
{
    // the list has a length in 64 bits, so that the count does not wrap
    let _length = value.count();
    counter.fetch_add::<Count<X>>(place, 0, 1);
}

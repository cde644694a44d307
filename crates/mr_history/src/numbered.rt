//! Values under numbers that rise as they come.

ghost use Rattle.std.specs.Prelude.{◌≡◌, ◌<◌, ◌≤◌, [], ◌∷◌, length, IsSome, IfOk};
ghost use Rattle.std.specs.Prelude.{ℕ, None, reverse, slice_index_or, IfSome, IfNone};
ghost use Rattle.mr_history.specs.Numbers.{value_of, with_value, without_value, AreBelow};
ghost use Rattle.mr_history.specs.Numbers.{AreFalling};
ghost use Rattle.mr_history.specs.Rising.{AreRising};

use mr_base::Memory;
use std::alloc::Global;
use std::marker::Model;

/// Values under numbers, each found in logarithmic time. Contracts see the pairs, newest first,
/// and how many there is room for. All memory is taken when it is made.
#[derive(Debug, Drop)]
pub struct Numbered<T> {
    rising: Vec<(u32, T)>,
    room: usize,
}

impl<T> Model for Numbered<T> {
    ghost use Rattle.std.specs.Prelude.{reverse, ◌≤◌, length};
    ghost use Rattle.std.specs.Vec.{vec_capacity};
    ghost use Rattle.mr_history.specs.Numbers.{NumberedValue, numbered_code};
    ghost use Rattle.mr_history.specs.Rising.{AreRising};

    ghost Value = { NumberedValue T };

    ghost coded = { numbered_code T.code };

    ghost view = { λ a. record { items = reverse a.rising.items; room = a.room } };

    ghost invariant = { λ a. AreRising a.rising.items
        × (length a.rising.items ≤ a.room) × (a.room ≤ vec_capacity a.rising) };
}

impl<T: Copy> Numbered<T> {
    /// No value, and room for so many.
    ///
    /// # Errors
    ///
    /// [`Memory`] where memory runs out.
    pub fn with(alloc: Global, room: usize) -> Result<Self, Memory>
        ensures items { IfOk result (λ n. n.items ≡ []) }
        ensures room { IfOk result (λ n. n.room ≡ room) }
    {
        match Vec::with_capacity(alloc, room) {
            Ok(rising) => Ok(Numbered { rising, room }),
            Err(_) => Err(Memory),
        }
    }

    /// How many values there are.
    pub fn len(&self) -> usize
        ensures { result ≡ length self.now.items }
    {
        self.rising.as_slice().len()
    }

    /// What is true of every such list. It does nothing.
    pub fn facts(&self)
        ensures falling { AreFalling self.now.items }
        ensures within { length self.now.items ≤ self.now.room }
    {
        let _ = &self.room;
    }

    /// The value of a number, if it has one.
    pub fn get(&self, number: u32) -> Option<T>
        ensures { result ≡ value_of self.now.items number }
    {
        let place = place_of(self.rising.as_slice(), number)?;
        Some(self.rising[place].1)
    }

    /// Gives a number, which has to be above all there, a value. There has to be room.
    pub fn push(&mut self, number: u32, value: T)
        requires room { length self.old.items < self.old.room }
        requires above { AreBelow number self.old.items }
        ensures items { self.new.items ≡ (number, value) ∷ self.old.items }
        ensures room { self.new.room ≡ self.old.room }
    {
        self.rising.push_reserved((number, value));
    }

    /// Gives a number that has a value another one.
    pub fn set(&mut self, number: u32, value: T)
        requires { IsSome (value_of self.old.items number) }
        ensures items { self.new.items ≡ with_value self.old.items number value }
        ensures room { self.new.room ≡ self.old.room }
    {
        match place_of(self.rising.as_slice(), number) {
            Some(place) => self.rising[place] = (number, value),
            None => unreachable!(),
        }
    }

    /// Takes out a number that has a value.
    pub fn remove(&mut self, number: u32)
        requires { IsSome (value_of self.old.items number) }
        ensures items { self.new.items ≡ without_value self.old.items number }
        ensures room { self.new.room ≡ self.old.room }
    {
        match place_of(self.rising.as_slice(), number) {
            Some(place) => {
                let _ = self.rising.remove(place);
            }
            None => unreachable!(),
        }
    }
}

/// The place of a number, by a binary search.
fn place_of<T>(rising: &[(u32, T)], number: u32) -> Option<usize>
    requires { AreRising rising.now }
    ensures within { IfSome result (λ i. i < length rising.now) }
    ensures found { IfSome result (λ i. (d : ℕ × T) → (slice_index_or rising.now i d).0 ≡ number) }
    ensures none { IfNone result (value_of (reverse rising.now) number ≡ None) }
{
    let place = rising.partition_point(|p| p.0 < number);
    match rising.get(place) {
        Some(p) if p.0 == number => Some(place),
        _ => None,
    }
}

//! Entries at places in the order of their making, found by source and group in constant time.

ghost use Rattle.std.specs.Prelude.{◌≡◌, ℕ, ◌+◌, ◌<◌, ◌≤◌, ◌^◌, ◌++◌, ◌∷◌, ◌↔◌, [], length, take};
ghost use Rattle.std.specs.Prelude.{false, Some, None, slice_set, is_some, filter, nat_lt, IfOk};
ghost use Rattle.std.specs.Prelude.{IfSome, IfNone, IsSome, IsSomeAnd, IsTrue};
ghost use Rattle.std.specs.Option.{option_copied};
ghost use Rattle.std.specs.HashMap.{get, hash_map_len, spare};
ghost use Rattle.mr_unres.specs.Entries.{is_for, is_young, packet_count, with_packet};
ghost use Rattle.mr_unres.specs.Slots.{somes, same_key, Leads, AreApart, StandsAt, StandsFirst};
ghost use Rattle.mr_unres.specs.Slots.{AllFail, with_slots, entry_in};

use crate::unresolved::{MOST_PACKETS, Unresolved};
use mr_base::Addr;
use mr_model::Packet;
use std::alloc::{AllocError, Global};
use std::collections::HashMap;
use std::marker::Model;

type Index = HashMap<(u32, u32), usize>;

/// The index keeps the key of an entry that is gone until the gaps are closed.
#[derive(Debug, Drop)]
pub(crate) struct Slots {
    entries: Vec<Option<Unresolved>>,
    index: Index,
    capacity: usize,
}

impl Model for Slots {
    ghost use Rattle.std.specs.Vec.{vec_capacity};
    ghost use Rattle.mr_unres.specs.Slots.{SlotList, IsIndexed};

    ghost Value = { SlotList };

    ghost view = { λ a. record { items = a.entries.items; capacity = a.capacity } };

    ghost invariant = { λ a.
        IsIndexed a.entries.items a.index (vec_capacity a.entries) a.capacity };
}

impl Slots {
    /// No place is taken yet.
    pub(crate) fn with_capacity(alloc: Global, capacity: usize) -> Result<Slots, AllocError>
        ensures { IfOk result (λ s. s ≡ record { items = []; capacity = capacity }) }
    {
        Ok(Slots {
            entries: Vec::with_capacity(alloc, capacity)?,
            index: HashMap::with_capacity(alloc, capacity)?,
            capacity,
        })
    }

    /// How many places are taken, gaps included.
    pub(crate) fn len(&self) -> usize
        ensures { result ≡ length self.now.items }
    {
        self.entries.as_slice().len()
    }

    pub(crate) fn is_full(&self) -> bool
        ensures { IsTrue result ↔ (self.now.capacity ≤ length self.now.items) }
    {
        self.capacity <= self.entries.as_slice().len()
    }

    /// The place of the entry of a source and group, in constant time.
    pub(crate) fn place_of(&self, src: Addr, dst: Addr) -> Option<usize>
        ensures stands { IfSome result (StandsAt (is_for src dst) self.now.items) }
        ensures none { IfNone result (AllFail (is_for src dst) (somes self.now.items)) }
    {
        let place = *self.index.get(&(src.0, dst.0))?;
        let entry = self.entry_at(place)?;
        if entry.src == src && entry.dst == dst {
            return Some(place);
        }
        None
    }

    /// The entry at a place, if there is one.
    pub(crate) fn entry_at(&self, place: usize) -> Option<&Unresolved>
        ensures { option_copied result ≡ entry_in self.now.items place }
    {
        match self.entries.get(place) {
            Some(Some(entry)) => Some(entry),
            _ => None,
        }
    }

    /// Whether the entry at a place has fewer than four packets.
    pub(crate) fn has_room(&self, place: usize) -> bool
        ensures { IfSome (entry_in self.now.items place) (λ e.
            result ≡ nat_lt (length e.packets) MOST_PACKETS) }
    {
        match self.entry_at(place) {
            Some(entry) => entry.packets.0.len() < MOST_PACKETS,
            None => false,
        }
    }

    /// The place of the first entry, where only gaps are in front of `from`.
    pub(crate) fn first_from(&self, from: usize) -> Option<usize>
        requires { somes (take from self.now.items) ≡ [] }
        ensures first { IfSome result (StandsFirst self.now.items) }
        ensures none { IfNone result (somes self.now.items ≡ []) }
    {
        for place in from..self.len() {
            if self.entry_at(place).is_some() {
                return Some(place);
            }
        }
        None
    }

    /// How many packets there are.
    pub(crate) fn packet_count(&self) -> u32
        requires { packet_count (somes self.now.items) < 2 ^ 32 }
        ensures { result ≡ packet_count (somes self.now.items) }
    {
        packets_at(self.entries.as_slice())
    }

    /// Whether the entry at a place is younger than ten seconds at this moment.
    pub(crate) fn is_young_at(&self, place: usize, now: u64) -> bool
        ensures { IfSome (entry_in self.now.items place) (λ e. result ≡ is_young now e) }
    {
        match self.entry_at(place) {
            Some(entry) => entry.is_young(now),
            None => false,
        }
    }

    /// Gives a packet to the entry at a place, which has fewer than four.
    pub(crate) fn join(&mut self, place: usize, packet: Packet)
        requires { IsSomeAnd (entry_in self.old.items place) (λ e.
            length e.packets < MOST_PACKETS) }
        ensures { IfSome (entry_in self.old.items place) (λ e. self.new ≡ with_slots self.old
            (slice_set self.old.items place (Some (with_packet packet e)))) }
    {
        match &mut self.entries[place] {
            Some(entry) => entry.push(packet),
            None => unreachable!(),
        }
    }

    /// Takes the entry at a place out.
    pub(crate) fn take(&mut self, place: usize) -> Unresolved
        requires { IsSome (entry_in self.old.items place) }
        ensures value { entry_in self.old.items place ≡ Some result }
        ensures gap { self.new ≡ with_slots self.old (slice_set self.old.items place None) }
    {
        match self.entries[place].take() {
            Some(entry) => entry,
            None => unreachable!(),
        }
    }

    /// Puts an entry behind all others. Its source and group have none yet.
    pub(crate) fn push(&mut self, entry: Unresolved)
        requires room { length self.old.items < self.old.capacity }
        requires new { AllFail (is_for entry.src entry.dst) (somes self.old.items) }
        ensures { self.new ≡ with_slots self.old (self.old.items ++ Some entry ∷ []) }
    {
        let place = self.entries.as_slice().len();
        lead(&mut self.index, (entry.src.0, entry.dst.0), place);
        match self.entries.push(Some(entry)) {
            Ok(()) => {}
            Err(_) => unreachable!(),
        }
    }

    /// Takes every entry out.
    pub(crate) fn clear(&mut self)
        ensures { self.new ≡ with_slots self.old [] }
    {
        self.entries.clear();
        self.index.clear();
    }

    /// Moves the entries together. This is one pass over them.
    pub(crate) fn close_gaps(&mut self)
        ensures { self.new ≡ with_slots self.old (filter is_some self.old.items) }
    {
        self.entries.retain(|slot| slot.is_some());
        self.index.clear();
        lead_all(&mut self.index, self.entries.as_slice());
    }
}

/// Closes the gaps where no place is free, so that one more entry has a place. In front of `oldest`
/// are only gaps.
pub(crate) fn make_place(slots: &mut Slots, oldest: &mut usize)
    requires fewer { length (somes slots.old.items) < slots.old.capacity }
    requires inside { oldest.old ≤ length slots.old.items }
    requires gone { somes (take oldest.old slots.old.items) ≡ [] }
    ensures free { length slots.new.items < slots.new.capacity }
    ensures capacity { slots.new.capacity ≡ slots.old.capacity }
    ensures same { somes slots.new.items ≡ somes slots.old.items }
    ensures inside { oldest.new ≤ length slots.new.items }
    ensures gone { somes (take oldest.new slots.new.items) ≡ [] }
{
    if slots.is_full() {
        slots.close_gaps();
        *oldest = 0;
    }
}

/// How many packets these entries have.
fn packets_at(slots: &[Option<Unresolved>]) -> u32
    requires { packet_count (somes slots.now) < 2 ^ 32 }
    ensures { result ≡ packet_count (somes slots.now) }
{
    let mut count = 0;
    for slot in slots {
        if let Some(entry) = slot {
            count += entry.packet_count();
        }
    }
    count
}

/// Leads a key to a place. It takes no memory.
fn lead(index: &mut Index, key: (u32, u32), place: usize)
    requires { 0 < spare index.old }
    ensures leads { get same_key index.new key ≡ Some place }
    ensures others { (q : ℕ × ℕ) → same_key key q ≡ false
        → get same_key index.new q ≡ get same_key index.old q }
    ensures whole { hash_map_len index.old + spare index.old
        ≤ hash_map_len index.new + spare index.new }
    ensures spare { spare index.old ≤ spare index.new + 1 }
{
    if let Some(there) = index.get_mut(&key) {
        *there = place;
        return;
    }
    match index.insert(key, place) {
        Ok(_) => {}
        Err(_) => unreachable!(),
    }
}

/// Leads the key of each entry to its place.
fn lead_all(index: &mut Index, entries: &[Option<Unresolved>])
    requires apart { AreApart entries.now }
    requires room { length entries.now ≤ spare index.old }
    ensures leads { Leads (length entries.now) entries.now index.new }
    ensures whole { hash_map_len index.old + spare index.old
        ≤ hash_map_len index.new + spare index.new }
    ensures spare { spare index.old ≤ length entries.now + spare index.new }
{
    for i in 0..entries.len() {
        if let Some(entry) = &entries[i] {
            lead(index, (entry.src.0, entry.dst.0), i);
        }
    }
}

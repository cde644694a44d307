//! The waiting list.

ghost use Rattle.std.specs.Prelude.{◌≡◌, ◌+◌, ◌≤◌, ◌<◌, [], ◌∷◌, ◌++◌, ◌↔◌, true, false};
ghost use Rattle.std.specs.Prelude.{length, map, filter, not, Ok, None, IfOk, IfSome, IfNone};
ghost use Rattle.std.specs.Prelude.{OnErr, OnOk, OnSome, IsTrue};
ghost use Rattle.mr_model.specs.Answer.{packets_of};
ghost use Rattle.mr_model.specs.WaitingList.{awaiting_of, park, without_awaiting, unexpired};

use crate::room::{ParkError, Room};
use crate::slots::{Slots, make_place};
use crate::unresolved::{EXPIRY_MS, MOST_ENTRIES, MOST_PACKETS, Unresolved};
use arrayvec::ArrayVec;
use mr_base::{Addr, Few, Memory};
use mr_model::Packet;
use std::alloc::Global;
use std::marker::Model;

/// The packets that wait for an (S,G) entry, by source and group. Contracts see the entries in the
/// order of their making, each with its moment and its packets, and the limit.
///
/// An entry is found by its key in constant time. Each new entry has its place behind all others,
/// and one that is taken out leaves a gap. There are twice as many places as entries; once all are
/// taken, the gaps are closed, so that a new entry costs constant time on average.
#[derive(Debug, Drop)]
pub struct Waiting {
    /// How many entries there may be.
    limit: u32,
    /// How many there are.
    count: u32,
    /// Only gaps are in front of this place.
    oldest: usize,
    slots: Slots,
}

impl Model for Waiting {
    ghost use Rattle.mr_unres.specs.Entries.{WaitingEntries};
    ghost use Rattle.mr_unres.specs.Slots.{somes};
    ghost use Rattle.mr_unres.specs.Keeping.{IsKept};

    ghost Value = { WaitingEntries };

    ghost view = { λ w. record { entries = somes w.slots.items; limit = w.limit } };

    ghost invariant = { λ w. IsKept w.limit w.count w.oldest w.slots };
}

impl Waiting {
    ghost use Rattle.mr_unres.specs.Entries.{NoneAfter, awaiting, waiter_of, room_in};
    ghost use Rattle.mr_unres.specs.Entries.{entry_at, joined, packets_for, is_for, is_young};
    ghost use Rattle.mr_unres.specs.Entries.{packet_count, answer_by, with_entries};

    /// A list without packets, for `limit` entries, 1 to 64. All its memory is taken here.
    ///
    /// # Errors
    ///
    /// Where memory runs out.
    pub fn with(alloc: Global, limit: u32) -> Result<Waiting, Memory>
        requires low { 1 ≤ limit }
        requires high { limit ≤ MOST_ENTRIES }
        ensures { IfOk result (λ w. w ≡ record { entries = []; limit = limit }) }
    {
        match Slots::with_capacity(alloc, 2 * limit as usize) {
            Ok(slots) => Ok(Waiting {
                limit,
                count: 0,
                oldest: 0,
                slots,
            }),
            Err(_) => Err(Memory),
        }
    }

    /// How many entries there are.
    pub fn len(&self) -> u32
        ensures { result ≡ length self.now.entries }
    {
        self.count
    }

    /// Whether no packet waits.
    pub fn is_empty(&self) -> bool
        ensures { IsTrue result ↔ (self.now.entries ≡ []) }
    {
        self.count == 0
    }

    /// How many entries there may be.
    pub fn limit(&self) -> u32
        ensures { result ≡ self.now.limit }
    {
        self.limit
    }

    /// The room for one more packet of this source and group: first whether its entry has fewer
    /// than four packets, and where there is none, whether there may be one more.
    pub fn room(&self, src: Addr, dst: Addr) -> Room
        ensures { result ≡ room_in (awaiting self.now.entries) self.now.limit src dst }
    {
        match self.slots.place_of(src, dst) {
            Some(place) if self.slots.has_room(place) => Room::Join,
            Some(_) => Room::PacketsFull,
            None if self.count < self.limit => Room::New,
            None => Room::EntriesFull,
        }
    }

    /// Parks a packet that missed at this moment, in milliseconds, which is not before the moments
    /// of the entries. It joins the entry of its source and group, or makes one. The answer tells
    /// whether the entry is new.
    ///
    /// # Errors
    ///
    /// The packet comes back, and the list is as it was: with `PacketsFull` where its entry has
    /// four packets, with `EntriesFull` where it has none and they are at their limit.
    pub fn park(&mut self, packet: Packet, now: u64) -> Result<bool, (Packet, ParkError)>
        requires { NoneAfter now (awaiting self.old.entries) }
        ensures answer { result ≡ answer_by (room_in (awaiting self.old.entries) self.old.limit
            packet.head.src packet.head.dst) packet }
        ensures new { result ≡ Ok true →
            self.new ≡ with_entries self.old (self.old.entries ++ entry_at now packet ∷ []) }
        ensures join { result ≡ Ok false →
            self.new ≡ with_entries self.old (map (joined packet) self.old.entries) }
        ensures refused { OnErr result (self.new ≡ self.old) }
        ensures model { OnOk result (awaiting self.new.entries
            ≡ park (awaiting self.old.entries) now (waiter_of packet)) }
    {
        match self.slots.place_of(packet.head.src, packet.head.dst) {
            Some(place) if self.slots.has_room(place) => {
                self.slots.join(place, packet);
                Ok(false)
            }
            Some(_) => Err((packet, ParkError::PacketsFull)),
            None => self.make(packet, now),
        }
    }

    /// Takes the entry of a source and group out and gives its packets, oldest first. Where there
    /// is none it gives none.
    pub fn release(&mut self, src: Addr, dst: Addr) -> ArrayVec<Packet, MOST_PACKETS>
        ensures packets { result.items ≡ packets_for self.old.entries src dst }
        ensures waiters { map waiter_of result.items
            ≡ packets_of (awaiting_of (awaiting self.old.entries) src dst) }
        ensures left { self.new
            ≡ with_entries self.old (filter (λ e. not (is_for src dst e)) self.old.entries) }
        ensures model { awaiting self.new.entries
            ≡ without_awaiting (awaiting self.old.entries) src dst }
    {
        match self.slots.place_of(src, dst) {
            Some(place) => {
                let entry = self.slots.take(place);
                self.count -= 1;
                entry.into_packets()
            }
            None => ArrayVec::new(),
        }
    }

    /// Takes the oldest entry out, with its packets. Where there is none it gives none.
    pub fn pop(&mut self) -> Option<Unresolved>
        ensures some { IfSome result (λ e. self.old.entries ≡ e ∷ self.new.entries) }
        ensures none { IfNone result (self.old.entries ≡ []) }
        ensures stays { IfNone result (self.new ≡ self.old) }
        ensures limit { self.new.limit ≡ self.old.limit }
    {
        let place = self.slots.first_from(self.oldest)?;
        self.oldest = place;
        let entry = self.slots.take(place);
        self.count -= 1;
        Some(entry)
    }

    /// Takes the oldest entry out, with its packets, where it has waited for ten seconds or more at
    /// this moment, in milliseconds. Where it gives none, no entry has. No other entry is looked
    /// at.
    pub fn pop_expired(&mut self, now: u64) -> Option<Unresolved>
        ensures some { IfSome result (λ e. self.old.entries ≡ e ∷ self.new.entries) }
        ensures expired { IfSome result (λ e. is_young now e ≡ false) }
        ensures none { IfNone result (filter (is_young now) self.old.entries ≡ self.old.entries) }
        ensures all_young { IfNone result (unexpired now (awaiting self.old.entries)
            ≡ awaiting self.old.entries) }
        ensures stays { IfNone result (self.new ≡ self.old) }
        ensures limit { self.new.limit ≡ self.old.limit }
        ensures young { unexpired now (awaiting self.new.entries)
            ≡ unexpired now (awaiting self.old.entries) }
    {
        let place = self.slots.first_from(self.oldest)?;
        self.oldest = place;
        if self.slots.is_young_at(place, now) {
            return None;
        }
        let entry = self.slots.take(place);
        self.count -= 1;
        Some(entry)
    }

    /// Drops the packets of the entries that have waited for ten seconds or more at this moment, in
    /// milliseconds, and tells how many packets these were. No entry that stays is looked at but
    /// the oldest.
    pub fn expire(&mut self, now: u64) -> u32
        ensures left { self.new ≡ with_entries self.old (filter (is_young now) self.old.entries) }
        ensures model { awaiting self.new.entries ≡ unexpired now (awaiting self.old.entries) }
        ensures dropped { result + packet_count self.new.entries ≡ packet_count self.old.entries }
    {
        let mut dropped = 0;
        if self.count == 0 {
            return dropped;
        }
        while let Some(entry) = self.pop_expired(now) {
            dropped += entry.packet_count();
        }
        dropped
    }

    /// Drops all packets and tells how many these were.
    pub fn flush(&mut self) -> u32
        ensures left { self.new ≡ with_entries self.old [] }
        ensures dropped { result ≡ packet_count self.old.entries }
    {
        let dropped = self.slots.packet_count();
        self.slots.clear();
        self.oldest = 0;
        self.count = 0;
        dropped
    }
}

impl Waiting {
    ghost use Rattle.mr_unres.specs.Entries.{NoneAfter, awaiting, room_at, entry_at, is_for};
    ghost use Rattle.mr_unres.specs.Entries.{answer_by, with_entries};
    ghost use Rattle.mr_unres.specs.Slots.{AllFail};

    /// Parks a packet whose source and group have no entry.
    fn make(&mut self, packet: Packet, now: u64) -> Result<bool, (Packet, ParkError)>
        requires none { AllFail (is_for packet.head.src packet.head.dst) self.old.entries }
        requires later { NoneAfter now (awaiting self.old.entries) }
        ensures room { result
            ≡ answer_by (room_at (length self.old.entries) self.old.limit None) packet }
        ensures new { OnOk result (self.new
            ≡ with_entries self.old (self.old.entries ++ entry_at now packet ∷ [])) }
        ensures refused { OnErr result (self.new ≡ self.old) }
    {
        if self.count == self.limit {
            return Err((packet, ParkError::EntriesFull));
        }
        make_place(&mut self.slots, &mut self.oldest);
        self.slots.push(Unresolved::new(packet, now));
        self.count += 1;
        Ok(true)
    }
}

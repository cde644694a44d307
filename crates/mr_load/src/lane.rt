//! The packets of one lane, without a heap block for each.

ghost use Rattle.std.specs.Prelude.{◌≡◌, ◌+◌, ◌≤◌, length};
ghost use Rattle.mr_load.specs.HeldBytes.{due_held, IsWithin};

use mr_base::LaneNo;
use mr_ip::{accepted_body, accepted_head};
use mr_model::Packet;
use std::alloc::{AllocError, Global};
use std::marker::Model;

/// A packet of a lane, and where its bytes lie in the lane's list.
#[derive(Clone, Copy, Debug)]
pub(crate) struct Held {
    pub phase: u32,
    pub index: u32,
    pub dev: u32,
    pub from: usize,
    pub length: usize,
}

/// The packets of one lane in their order, each with its phase; all their bytes lie in one list.
///
/// Contracts see the lane's number and the packets that are due. Each begins with an accepted head;
/// their indexes rise from 1 or more, and no phase is less than the one before.
#[derive(Debug, Drop)]
pub struct LanePackets {
    lane: LaneNo,
    held: Vec<Held>,
    bytes: Vec<u8>,
}

impl Model for LanePackets {
    ghost use Rattle.mr_load.specs.Dues.{LaneValue};

    ghost Value = { LaneValue };

    ghost use Rattle.mr_load.specs.HeldBytes.{lane_value, IsLane};

    ghost view = { lane_value };

    ghost invariant = { IsLane };
}

/// The bytes of a packet among those of its lane.
fn bytes_of<'a>(all: &'a [u8], held: &Held) -> &'a [u8]
    requires { IsWithin all.now held.now }
    ensures { result.now ≡ (due_held all.now held.now).bytes }
{
    &all[held.from..held.from + held.length]
}

impl LanePackets {
    ghost use Rattle.std.specs.Prelude.{◌≡◌, ◌<◌, ◌≤◌, [], length, slice_get, None, IfOk, OnOk};
    ghost use Rattle.std.specs.Prelude.{OnErr, IfSome};
    ghost use Rattle.std.specs.List.{AllByRecursion};
    ghost use Rattle.mr_base.specs.Heads.{cause_of};
    ghost use Rattle.mr_ip.specs.Bodies.{body_of};
    ghost use Rattle.mr_load.specs.Dues.{AreDue, IsBefore, IsPacketOf, with_due};

    /// A lane without packets.
    pub(crate) fn new(alloc: Global, lane: LaneNo) -> LanePackets
        ensures { result ≡ record { lane = lane; packets = [] } }
    {
        LanePackets {
            lane,
            held: Vec::new(alloc),
            bytes: Vec::new(alloc),
        }
    }

    /// A lane without packets, with room for so many packets, which have so many bytes together.
    ///
    /// # Errors
    ///
    /// [`AllocError`] where memory runs out.
    pub fn with_room(
        alloc: Global,
        lane: LaneNo,
        packets: usize,
        bytes: usize,
    ) -> Result<LanePackets, AllocError>
        ensures { IfOk result (λ l. l ≡ record { lane = lane; packets = [] }) }
    {
        Ok(LanePackets {
            lane,
            held: Vec::with_capacity(alloc, packets)?,
            bytes: Vec::with_capacity(alloc, bytes)?,
        })
    }

    /// What is true of every lane's packets. It does nothing.
    pub fn facts(&self)
        ensures { AreDue self.now.packets }
    {
        let _ = &self.held;
    }

    /// The lane's number, from 1.
    pub fn lane(&self) -> LaneNo
        ensures { result ≡ self.now.lane }
    {
        self.lane
    }

    /// How many packets there are.
    pub fn len(&self) -> usize
        ensures { result ≡ length self.now.packets }
    {
        self.held.as_slice().len()
    }

    /// The phase of the packet at a place, counted from 0.
    pub fn phase(&self, place: usize) -> u32
        requires { place < length self.now.packets }
        ensures { IfSome (slice_get self.now.packets place) (λ d. result ≡ d.phase) }
    {
        self.held[place].phase
    }

    /// The whole packet at a place, its head made from its bytes.
    pub fn packet(&self, place: usize) -> Packet
        requires { place < length self.now.packets }
        ensures { IfSome (slice_get self.now.packets place) (IsPacketOf self.now.lane result) }
    {
        let held = &self.held[place];
        Packet {
            lane: self.lane,
            index: held.index,
            dev: held.dev,
            head: accepted_head(bytes_of(self.bytes.as_slice(), held)),
        }
    }

    /// What stands behind the head of the packet at a place, up to the packet's total length.
    pub fn body(&self, place: usize) -> &[u8]
        requires { place < length self.now.packets }
        ensures { IfSome (slice_get self.now.packets place) (λ d.
            result.now ≡ body_of d.bytes) }
    {
        let held = &self.held[place];
        accepted_body(bytes_of(self.bytes.as_slice(), held))
    }

    /// Puts a packet behind the others, whose bytes begin with an accepted head.
    ///
    /// # Errors
    ///
    /// [`AllocError`] where memory runs out; then nothing changes.
    pub fn push(&mut self, phase: u32, index: u32, dev: u32, bytes: &[u8]) -> Result<(), AllocError>
        requires accepted { cause_of bytes.now ≡ None }
        requires first { 1 ≤ index }
        requires behind { AllByRecursion (IsBefore index phase) self.old.packets }
        ensures added { OnOk result (self.new ≡ with_due self.old
            (record { phase = phase; index = index; dev = dev; bytes = bytes.now })) }
        ensures stays { OnErr result (self.new ≡ self.old) }
    {
        self.held.reserve(1)?;
        let from = self.bytes.as_slice().len();
        self.bytes.extend_from_slice(bytes)?;
        self.held.push_reserved(Held {
            phase,
            index,
            dev,
            from,
            length: bytes.len(),
        });
        Ok(())
    }
}

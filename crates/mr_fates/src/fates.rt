//! The lines of fates.

ghost use Rattle.std.specs.Prelude.{◌≡◌, ◌-◌, ◌<◌, ◌≤◌, [], ◌∷◌, ◌++◌, length, sum, slice_index};
ghost use Rattle.std.specs.Prelude.{IfOk, IfSome, IfNone};

use crate::lane::{LaneLines, Place};
use mr_base::{LaneNo, Memory};
use mr_model::{Fate, FateLine};
use std::alloc::{AllocError, Global};
use std::marker::Model;

/// The most lanes that there may be.
pub const MOST_LANES: usize = 16;

/// The most packets that all lanes may have together.
pub const MOST_PACKETS: u32 = 1_048_576;

/// The fate of each packet that was parked, in the order in which they were. Contracts see the
/// lines, and how many packets each lane has.
///
/// A line is found by its lane and index in logarithmic time: each lane has a list of the places of
/// its lines, by rising index. All memory is taken when the object is made.
#[derive(Debug, Drop)]
pub struct Fates {
    lines: Vec<FateLine>,
    /// Lane 1 stands first.
    lanes: Vec<LaneLines>,
}

impl Model for Fates {
    ghost use Rattle.std.specs.Prelude.{map};
    ghost use Rattle.std.specs.Vec.{vec_capacity};
    ghost use Rattle.mr_fates.specs.Lines.{FateList};
    ghost use Rattle.mr_fates.specs.Keeping.{IsKept};

    ghost Value = { FateList };

    ghost view = { λ f. record {
      lines = f.lines.items;
      packets = map (λ lane. lane.room) f.lanes.items;
    } };

    ghost invariant = { λ f. IsKept f.lines.items f.lanes.items (vec_capacity f.lines) };
}

impl Fates {
    ghost use Rattle.mr_fates.specs.Lines.{waiting_line, ended, fate_in_lines, lane_count, IsNext};

    /// No line, and room for as many packets of lane l as `packets[l - 1]` says: at most
    /// [`MOST_LANES`] lanes, and at most [`MOST_PACKETS`] packets of all lanes together.
    ///
    /// # Errors
    ///
    /// [`Memory`] where memory runs out.
    pub fn with(alloc: Global, packets: &[u32]) -> Result<Fates, Memory>
        requires lanes { length packets.now ≤ MOST_LANES }
        requires most { sum packets.now ≤ MOST_PACKETS }
        ensures { IfOk result (λ fates. fates ≡ record { lines = []; packets = packets.now }) }
    {
        match Fates::make(alloc, packets) {
            Ok(fates) => Ok(fates),
            Err(AllocError) => Err(Memory),
        }
    }

    /// The packet is parked: its line stands last, and it waits. Its index is above those of the
    /// lane's lines, of which there are fewer than the lane has packets.
    pub fn park(&mut self, lane: LaneNo, index: u32)
        requires first { 1 ≤ lane.0 }
        requires last { lane.0 ≤ length self.old.packets }
        requires next { IsNext lane index self.old.lines }
        requires room { lane_count lane self.old.lines
            < slice_index self.old.packets (lane.0 - 1) }
        ensures { self.new
            ≡ record self.old { lines = self.old.lines ++ waiting_line lane index ∷ [] } }
    {
        let line = self.lines.as_slice().len() as u32;
        self.lanes[lane.0 as usize - 1].push(Place { index, line });
        let waiting = FateLine {
            lane,
            index,
            fate: Fate::Waiting,
        };
        match self.lines.push(waiting) {
            Ok(()) => {}
            Err(_) => unreachable!(),
        }
    }

    /// Gives a packet its fate, in logarithmic time. Where it has no line nothing changes.
    pub fn end(&mut self, lane: LaneNo, index: u32, fate: Fate)
        ensures { self.new ≡ record self.old { lines = ended lane index fate self.old.lines } }
    {
        if let Some(line) = self.line_of(lane, index) {
            self.lines[line].fate = fate;
        }
    }

    /// The fate of a packet, if it was parked, in logarithmic time.
    pub fn fate_of(&self, lane: LaneNo, index: u32) -> Option<Fate>
        ensures { result ≡ fate_in_lines lane index self.now.lines }
    {
        let line = self.line_of(lane, index)?;
        Some(self.lines[line].fate)
    }

    /// All lines, in the order in which the packets were parked.
    pub fn lines(&self) -> &[FateLine]
        ensures { result.now ≡ self.now.lines }
    {
        self.lines.as_slice()
    }
}

impl Fates {
    ghost use Rattle.mr_fates.specs.Keeping.{StandsAlone, HasNone};

    /// Takes the memory for so many packets of each lane.
    fn make(alloc: Global, packets: &[u32]) -> Result<Fates, AllocError>
        requires most { sum packets.now ≤ MOST_PACKETS }
        ensures { IfOk result (λ fates. fates ≡ record { lines = []; packets = packets.now }) }
    {
        let mut lanes = Vec::with_capacity(alloc, packets.len())?;
        let mut total = 0;
        for &room in packets {
            lanes.push(LaneLines::with_room(alloc, room)?)?;
            total += room;
        }
        Ok(Fates {
            lines: Vec::with_capacity(alloc, total as usize)?,
            lanes,
        })
    }

    /// Where the line of a packet stands, if it has one.
    fn line_of(&self, lane: LaneNo, index: u32) -> Option<usize>
        ensures stands { IfSome result (StandsAlone lane index self.now.lines) }
        ensures none { IfNone result (HasNone lane index self.now.lines) }
    {
        let places = self.lanes.get((lane.0 as usize).checked_sub(1)?)?;
        Some(places.line_of(index)? as usize)
    }
}

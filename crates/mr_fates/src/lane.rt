//! Where the lines of one lane stand.

ghost use Rattle.std.specs.Prelude.{◌≡◌, ◌<◌, [], ◌∷◌, ◌++◌, length, IfOk};
ghost use Rattle.std.specs.List.{AllByRecursion};

use std::alloc::{AllocError, Global};
use std::marker::Model;

/// Where the line of a packet stands among all lines.
#[derive(Clone, Copy, Debug, Default, PartialEq, Eq)]
pub(crate) struct Place {
    /// The packet's index in its lane.
    pub(crate) index: u32,
    pub(crate) line: u32,
}

/// The places of a lane's lines, by rising index. All memory is taken when it is made.
#[derive(Debug, Drop)]
pub(crate) struct LaneLines {
    places: Vec<Place>,
    room: u32,
}

impl Model for LaneLines {
    ghost use Rattle.std.specs.Prelude.{◌≤◌};
    ghost use Rattle.std.specs.Vec.{vec_capacity};
    ghost use Rattle.mr_fates.specs.Lanes.{PlaceList, IsRising};

    ghost Value = { PlaceList };

    ghost view = { λ a. record { places = a.places.items; room = a.room } };

    ghost invariant = { λ a. IsRising a.places.items × (a.room ≤ vec_capacity a.places) };
}

impl LaneLines {
    ghost use Rattle.mr_fates.specs.Lanes.{line_in, IsRising};

    /// No place, and room for so many.
    pub(crate) fn with_room(alloc: Global, room: u32) -> Result<LaneLines, AllocError>
        ensures { IfOk result (λ lane. lane ≡ record { places = []; room = room }) }
    {
        Ok(LaneLines {
            places: Vec::with_capacity(alloc, room as usize)?,
            room,
        })
    }

    /// Adds the place of the line with the highest index.
    pub(crate) fn push(&mut self, place: Place)
        requires room { length self.old.places < self.old.room }
        requires above { AllByRecursion (λ p. p.index < place.index) self.old.places }
        ensures { self.new ≡ record self.old { places = self.old.places ++ place ∷ [] } }
    {
        match self.places.push(place) {
            Ok(()) => {}
            Err(_) => unreachable!(),
        }
    }

    /// Where the line with this index stands, in logarithmic time.
    pub(crate) fn line_of(&self, index: u32) -> Option<u32>
        ensures line { result ≡ line_in self.now.places index }
        ensures rising { IsRising self.now.places }
    {
        match self
            .places
            .binary_search_by_key(&index, |place| place.index)
        {
            Ok(at) => Some(self.places[at].line),
            Err(_) => None,
        }
    }
}

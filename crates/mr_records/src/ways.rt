//! The ways that are kept in mind.

ghost use Rattle.std.specs.Prelude.{◌<◌};

use crate::known::Known;
use crate::way::Way;

/// Ways of the last records, with their bytes. A writer finds them by their entries, a reader by
/// their first bytes; so each has ways of its own.
#[derive(Drop)]
pub struct Ways {
    known: [Known; 256],
}

/// The place of the way with which bytes begin. The number by which the first four are multiplied
/// was found by trial: no two of the entries 1 to 110 meet.
#[inline(always)]
fn place(bytes: &[u8]) -> usize
    ensures { result < 256 }
{
    match bytes {
        [a, b, c, d, ..] => {
            let word = u32::from_le_bytes([*a, *b, *c, *d]);
            (word.wrapping_mul(0x0049_F907) >> 24) as usize
        }
        _ => 0,
    }
}

impl Ways {
    /// No way but that of no entry.
    pub fn new() -> Ways {
        Ways {
            known: [Known::first(); 256],
        }
    }

    /// The last way that was kept at an entry's place.
    #[inline(always)]
    pub fn by_entry(&self, entry: u32) -> &Known {
        &self.known[(entry % 256) as usize]
    }

    /// The last way that was kept at the place of these bytes.
    #[inline(always)]
    pub fn by_bytes(&self, bytes: &[u8]) -> &Known {
        &self.known[place(bytes)]
    }

    /// Keeps a way at its entry's place, if it has at most 32 bytes.
    pub fn keep_by_entry(&mut self, way: Way) {
        if let Some(known) = Known::of(way) {
            self.known[(way.entry % 256) as usize] = known;
        }
    }

    /// Keeps a way at the place of its bytes, if these are at most 32.
    pub fn keep_by_bytes(&mut self, way: Way) {
        if let Some(known) = Known::of(way) {
            self.known[place(known.front.row.as_slice())] = known;
        }
    }
}

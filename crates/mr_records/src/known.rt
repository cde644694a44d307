//! Ways whose bytes are known.

ghost use Rattle.std.specs.Prelude.{◌≡◌, ◌<◌, ◌++◌, IfSome, MatchOption, length, take};
ghost use Rattle.mr_records.specs.Ways.{way_bytes};

use crate::front::Front;
use crate::rows::put_way;
use crate::way::Way;
use mr_base::Mask;

/// A way, and the bytes that say it in a record's line.
#[derive(Clone, Copy)]
pub struct Known {
    pub front: Front,
    pub way: Way,
    pub ghost spelled: { take front.count front.row ≡ way_bytes way },
}

impl Known {
    /// A way to begin with.
    pub fn first() -> Known {
        Known {
            front: Front {
                row: *b" 0 - -\n                         ",
                count: 7,
            },
            way: Way {
                entry: 0,
                input: None,
                outs: Mask(0),
            },
        }
    }

    /// A way and its bytes, if these are at most 32.
    pub fn of(way: Way) -> Option<Known>
        ensures { MatchOption result (32 < length (way_bytes way)) (λ k. k.way ≡ way) }
    {
        let mut text = [0u8; 144];
        let at = put_way(&mut text, way);
        let count = 144 - at;
        if count > 32 {
            return None;
        }
        let mut row = [0u8; 32];
        row[..count].copy_from_slice(&text[at..]);
        Some(Known {
            front: Front {
                row,
                count: count as u8,
            },
            way,
        })
    }

    /// What stands behind the way's bytes, if a text of 32 bytes or more begins with them.
    #[inline(always)]
    pub fn behind<'a>(&self, text: &'a [u8]) -> Option<&'a [u8]>
        ensures { IfSome result (λ rest. text.now ≡ way_bytes self.now.way ++ rest.now) }
    {
        self.front.behind(text)
    }
}

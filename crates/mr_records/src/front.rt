//! Bytes with which a text may begin.

ghost use Rattle.std.specs.Prelude.{◌≡◌, ◌≤◌, ◌++◌, IfSome, take};

use crate::same::same_bytes;
use mr_words::from_index;

/// The first bytes of a row.
#[derive(Clone, Copy)]
pub struct Front {
    pub row: [u8; 32],
    /// How many of them count.
    pub count: u8,
    pub ghost few: { count ≤ 32 },
}

impl Front {
    /// So many bytes in front of a text, if it has 32 or more, and they are no more than 32.
    #[inline(always)]
    pub fn of(text: &[u8], count: usize) -> Option<Front>
        ensures { IfSome result (λ f. take f.count f.row ≡ take count text.now) }
    {
        let row = text.first_chunk::<32>()?;
        if count > 32 {
            return None;
        }
        Some(Front {
            row: *row,
            count: count as u8,
        })
    }

    /// What stands behind these bytes, if a text of 32 bytes or more begins with them.
    #[inline(always)]
    pub fn behind<'a>(&self, text: &'a [u8]) -> Option<&'a [u8]>
        ensures { IfSome result (λ rest. text.now ≡ take self.now.count self.now.row ++ rest.now) }
    {
        let front = text.first_chunk::<32>()?;
        if self.count as usize <= same_bytes(front, &self.row) {
            Some(from_index(text, self.count as usize))
        } else {
            None
        }
    }
}

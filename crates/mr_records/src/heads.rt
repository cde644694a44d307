//! The head `- INDEX LOOK` of the last record. A lane's records come in the order of their indexes,
//! and most with the look of the one before, so the next head mostly differs in the last two digits
//! of its index alone.

ghost use Rattle.std.specs.Prelude.{◌≡◌, ◌<◌, ◌++◌, IfSome, take};
ghost use Rattle.mr_records.specs.Ways.{index_bytes, look_bytes};

use crate::front::Front;
use crate::numbers::digit;

/// All of `- INDEX` but the last two digits.
#[derive(Clone, Copy)]
struct Hundreds {
    front: Front,
    /// The index without its last two digits.
    number: u32,
    ghost spelled: { take front.count front.row ≡ index_bytes number },
    ghost some: { 0 < number },
    ghost short: { number < 10000000 },
}

/// ` LOOK`.
#[derive(Clone, Copy)]
struct Look {
    front: Front,
    number: u32,
    ghost spelled: { take front.count front.row ≡ look_bytes number },
}

/// The bytes of the last head.
#[derive(Clone, Copy)]
pub struct Heads {
    hundreds: Hundreds,
    look: Look,
}

impl Hundreds {
    /// To begin with, the hundreds of 100.
    fn first() -> Hundreds {
        Hundreds {
            front: Front {
                row: *b"- 1                             ",
                count: 3,
            },
            number: 1,
        }
    }

    /// The hundreds of an index, with which a text begins.
    fn of(index: u32, text: &[u8], behind: &[u8]) -> Option<Hundreds>
        requires { text.now ≡ index_bytes index ++ behind.now }
    {
        let number = index / 100;
        if number == 0 || number >= 10_000_000 {
            return None;
        }
        let front = Front::of(text, text.len() - behind.len() - 2)?;
        Some(Hundreds { front, number })
    }
}

impl Look {
    /// To begin with, look 0.
    fn first() -> Look {
        Look {
            front: Front {
                row: *b" 0                              ",
                count: 2,
            },
            number: 0,
        }
    }

    /// A look, with which a text begins.
    fn of(look: u32, text: &[u8], behind: &[u8]) -> Option<Look>
        requires { text.now ≡ look_bytes look ++ behind.now }
    {
        let front = Front::of(text, text.len() - behind.len())?;
        Some(Look {
            front,
            number: look,
        })
    }
}

impl Heads {
    pub fn new() -> Heads {
        Heads {
            hundreds: Hundreds::first(),
            look: Look::first(),
        }
    }

    /// An index with the hundreds of the last, if a text begins with one, and the bytes behind it.
    #[inline(always)]
    pub fn index<'a>(&self, text: &'a [u8]) -> Option<(u32, &'a [u8])>
        ensures { IfSome result (λ x. text.now ≡ index_bytes x.0 ++ x.1.now) }
    {
        let rest = self.hundreds.front.behind(text)?;
        let (tens, rest) = digit(rest)?;
        let (ones, rest) = digit(rest)?;
        let index = (self.hundreds.number * 10 + tens) * 10 + ones;
        Some((index, rest))
    }

    /// The last look, if a text begins with it, and the bytes behind it.
    #[inline(always)]
    pub fn look<'a>(&self, text: &'a [u8]) -> Option<(u32, &'a [u8])>
        ensures { IfSome result (λ x. text.now ≡ look_bytes x.0 ++ x.1.now) }
    {
        let rest = self.look.front.behind(text)?;
        Some((self.look.number, rest))
    }

    /// Keeps the hundreds of an index with which a text begins, if it has three to nine digits.
    pub fn keep_index(&mut self, index: u32, text: &[u8], behind: &[u8])
        requires { text.now ≡ index_bytes index ++ behind.now }
    {
        if let Some(hundreds) = Hundreds::of(index, text, behind) {
            self.hundreds = hundreds;
        }
    }

    /// Keeps a look with which a text begins.
    pub fn keep_look(&mut self, look: u32, text: &[u8], behind: &[u8])
        requires { text.now ≡ look_bytes look ++ behind.now }
    {
        if let Some(look) = Look::of(look, text, behind) {
            self.look = look;
        }
    }
}

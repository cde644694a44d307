//! Why a line or a scenario was not read.

ghost use Rattle.std.specs.Prelude.{◌≡◌};
ghost use Rattle.mr_scenario.specs.Kinds.{kind_number, names_word, in_line, in_word, bad, wants};
ghost use Rattle.mr_scenario.specs.declared.stop.Stop.TheVariants as stop;
ghost use Rattle.mr_scenario.specs.declared.stop.ScenarioError.TheVariants as error;

use mr_base::List;
use mr_words::is_clean;
use std::alloc::{AllocError, AllocFailed};

/// What is wrong with a line: the first of these that holds, word by word from the left.
#[derive(Clone, Copy, Debug, PartialEq, Eq)]
pub enum Kind {
    /// The first line with words is not `scenario 1`, or there is none.
    Header,
    /// A byte outside 0x20 to 0x7E and tab, an unknown word, a wrong number of words, a line in the
    /// wrong part, or a repeated limit or `lanes`.
    Word,
    /// A number is malformed or out of its range, which is this.
    Number { least: u32, most: u32 },
    /// An address is malformed.
    Address,
    /// A device's name is malformed, `pimreg` or taken.
    Name,
    /// A device is not declared.
    Device,
    /// A lane's number is malformed or not among the lanes.
    Lane,
    /// A daemon's number is malformed or not declared, or the line is for the other sort of daemon.
    Daemon,
    /// Hex digits are malformed, odd in number, or more than 131,070.
    Hex,
    /// A `V:T` is malformed, out of range or repeats V.
    Threshold,
    /// One device, daemon, phase or `pkt` item too many.
    Limit,
    /// A file's name is malformed, or a ninth configuration.
    File,
}

impl Kind {
    /// The kind's number, 1 to 12.
    pub fn number(self) -> u8
        ensures { result ≡ kind_number self }
    {
        match self {
            Kind::Header => 1,
            Kind::Word => 2,
            Kind::Number { .. } => 3,
            Kind::Address => 4,
            Kind::Name => 5,
            Kind::Device => 6,
            Kind::Lane => 7,
            Kind::Daemon => 8,
            Kind::Hex => 9,
            Kind::Threshold => 10,
            Kind::Limit => 11,
            Kind::File => 12,
        }
    }

    /// Whether one word is at fault, and not the line as such.
    pub fn names_word(self) -> bool
        ensures { result ≡ names_word self }
    {
        !matches!(self, Kind::Header | Kind::Word | Kind::Limit)
    }
}

/// What is wrong with a line, and where in it.
#[derive(Clone, Copy, Debug)]
pub struct Mistake {
    pub kind: Kind,
    /// How many words stand before the one at fault; 0 where the line as such is.
    pub place: u32,
}

/// The line as such is at fault.
pub fn in_line(kind: Kind) -> Mistake
    ensures { result ≡ in_line kind }
{
    Mistake { kind, place: 0 }
}

/// The word behind so many others is at fault.
pub fn in_word(place: u32, kind: Kind) -> Mistake
    ensures { result ≡ in_word place kind }
{
    Mistake { kind, place }
}

/// What is wrong with a refused word: a byte that may not stand in it comes before all else.
pub fn bad(place: u32, word: &[u8], kind: Kind) -> Mistake
    ensures { result ≡ bad place word.now kind }
{
    if is_clean(word) {
        in_word(place, kind)
    } else {
        in_line(Kind::Word)
    }
}

/// What is wrong unless the test holds.
pub fn wants(test: bool, mistake: Mistake) -> Result<(), Mistake>
    ensures { result ≡ wants test mistake }
{
    if test { Ok(()) } else { Err(mistake) }
}

/// Why a line was not read.
#[derive(Clone, Copy, Debug)]
pub enum Stop {
    Memory,
    Bad(Mistake),
}

impl From<AllocError> for Stop {
    ghost from_gives = { λ _ e. e ≡ stop.Memory };

    fn from(_e: AllocError) -> Stop {
        Stop::Memory
    }
}

impl<T: Drop> From<AllocFailed<T>> for Stop {
    ghost from_gives = { λ _ e. e ≡ stop.Memory };

    fn from(_e: AllocFailed<T>) -> Stop {
        Stop::Memory
    }
}

impl From<Mistake> for Stop {
    ghost from_gives = { λ m e. e ≡ stop.Bad m };

    fn from(mistake: Mistake) -> Stop {
        Stop::Bad(mistake)
    }
}

/// How many bytes of what is at fault an error carries, from its front.
pub const MOST_TEXT: usize = 4_096;

/// Why a scenario was not read.
#[derive(Debug, Drop)]
pub enum ScenarioError {
    /// The first bad line, from 1, what is wrong with it, and the first `MOST_TEXT` bytes of what
    /// was found: of kind `Header`, `Word` or `Limit` the line, without a carriage return at its
    /// end, and of every other kind the word at fault. Where no line has words it is line 1 of kind
    /// `Header`, with no bytes.
    Bad {
        line: u32,
        kind: Kind,
        text: List<u8>,
    },
    Memory,
}

impl From<AllocError> for ScenarioError {
    ghost from_gives = { λ _ e. e ≡ error.Memory };

    fn from(_e: AllocError) -> ScenarioError {
        ScenarioError::Memory
    }
}

impl<T: Drop> From<AllocFailed<T>> for ScenarioError {
    ghost from_gives = { λ _ e. e ≡ error.Memory };

    fn from(_e: AllocFailed<T>) -> ScenarioError {
        ScenarioError::Memory
    }
}

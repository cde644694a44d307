//! Why a line or a configuration was not read.

ghost use Rattle.std.specs.Prelude.{◌≡◌};
ghost use Rattle.smc_conf.specs.Kinds.{kind_number};
ghost use Rattle.smc_conf.specs.declared.stop.Stop.TheVariants as stop;

use mr_base::List;
use std::alloc::{AllocError, AllocFailed};

/// What is wrong with a line: the first of these that holds, word by word from the left.
#[derive(Clone, Copy, Debug, PartialEq, Eq)]
pub enum Kind {
    /// An unknown word, a missing one, one too many, or a byte outside 0x20 to 0x7E and tab.
    Word,
    /// An address is malformed, or a group is outside 224.0.0.0/4.
    Address,
    /// A name is malformed, an interface was named by an earlier `phyint`, or it is a 33rd enabled
    /// one.
    Interface,
    /// The length of a prefix is malformed or above 32.
    Prefix,
    /// A threshold is malformed or not 1 to 255.
    Threshold,
}

impl Kind {
    /// The kind's number, 1 to 5.
    pub fn number(self) -> u8
        ensures { result ≡ kind_number self }
    {
        match self {
            Kind::Word => 1,
            Kind::Address => 2,
            Kind::Interface => 3,
            Kind::Prefix => 4,
            Kind::Threshold => 5,
        }
    }
}

/// Why a line was not read.
#[derive(Clone, Copy, Debug)]
pub(crate) enum Stop {
    Memory,
    Bad(Kind),
}

impl From<AllocError> for Stop {
    ghost from_gives = { λ _ e. e ≡ stop.Memory };

    fn from(_e: AllocError) -> Stop {
        Stop::Memory
    }
}

impl<T: Drop> From<AllocFailed<T>> for Stop {
    ghost from_gives = { λ _ e. e ≡ stop.Memory };

    fn from(_e: AllocFailed<T>) -> Stop {
        Stop::Memory
    }
}

impl From<Kind> for Stop {
    ghost from_gives = { λ k e. e ≡ stop.Bad k };

    fn from(kind: Kind) -> Stop {
        Stop::Bad(kind)
    }
}

/// How many bytes of a bad line an error carries, from its front.
pub const MOST_TEXT: usize = 4_096;

/// Why a configuration was not read.
#[derive(Debug, Drop)]
pub enum ConfError {
    /// The first bad line, from 1, what is wrong with it, and its first `MOST_TEXT` bytes, without
    /// a carriage return at its end; 4,294,967,295 stands for that number and all above.
    Bad {
        line: u32,
        kind: Kind,
        text: List<u8>,
    },
    /// There was no memory.
    Memory,
}

//! A trace with its file.
ghost use Rattle.std.specs.Prelude.{◌≡◌, ◌<◌, ◌≤◌, ◌^◌, IsSome, length, drop, slice_get};
ghost use Rattle.std.specs.Prelude.{option_map};
ghost use Rattle.mr_pcap.specs.Places.{captured, captured_at};
ghost use Rattle.mr_pcap.specs.Traces.{whole_length};

use crate::link_type::LinkType;
use crate::numbers::number_at;
use crate::order::Order;
use crate::record::Record;
use std::marker::Model;

/// The length of a record's head, in bytes.
pub(crate) const RECORD_HEAD_LENGTH: usize = 16;

/// A trace: the bytes of its file, and at which indices its records begin. Contracts see what the
/// file says, a `Capture`.
#[derive(Debug, Drop)]
pub struct Trace {
    pub(crate) link: LinkType,
    pub(crate) nanos: bool,
    pub(crate) order: Order,
    pub(crate) file: Vec<u8>,
    pub(crate) starts: Vec<usize>,
}

impl Model for Trace {
    ghost use Rattle.std.specs.Prelude.{map};
    ghost use Rattle.mr_pcap.specs.Traces.{Capture};
    ghost use Rattle.mr_pcap.specs.Places.{AreWhole, captured_at};

    ghost Value = { Capture };

    ghost view = { λ t. record {
      link = t.link;
      nanos = t.nanos;
      records = map (captured_at t.order t.file.items) t.starts.items;
    } };

    ghost invariant = { λ t. AreWhole t.order t.file.items t.starts.items };
}

/// The record that lies at an index of a file.
pub(crate) fn record_at(order: Order, file: &[u8], start: usize) -> Record<'_>
    requires within { start ≤ length file.now }
    requires whole { IsSome (whole_length order (drop start file.now)) }
    ensures record { captured result ≡ captured_at order file.now start }
    ensures short { length result.bytes.now < 2 ^ 32 }
{
    let bytes = &file[start..];
    let length = number_at(order, bytes, 8) as usize;
    Record {
        sec: number_at(order, bytes, 0),
        frac: number_at(order, bytes, 4),
        orig: number_at(order, bytes, 12),
        bytes: &bytes[RECORD_HEAD_LENGTH..RECORD_HEAD_LENGTH + length],
    }
}

impl Trace {
    /// What the frames begin with.
    pub fn link(&self) -> LinkType
        ensures { result ≡ self.now.link }
    {
        self.link
    }

    /// Whether the fractions of seconds are nanoseconds, and not microseconds.
    pub fn nanos(&self) -> bool
        ensures { result ≡ self.now.nanos }
    {
        self.nanos
    }

    /// How many records the trace has.
    pub fn len(&self) -> usize
        ensures { result ≡ length self.now.records }
    {
        self.starts.as_slice().len()
    }

    /// The record of an index, from 0; none behind the last. Its bytes lie in the trace, and it
    /// takes no memory.
    pub fn record(&self, index: usize) -> Option<Record<'_>>
        ensures { option_map captured result ≡ slice_get self.now.records index }
    {
        if index < self.starts.as_slice().len() {
            let start = self.starts[index];
            Some(record_at(self.order, self.file.as_slice(), start))
        } else {
            None
        }
    }
}

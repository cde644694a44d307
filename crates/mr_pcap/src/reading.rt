//! A trace read from its file.
ghost use Rattle.std.specs.Prelude.{◌≡◌, ◌≤◌, ◌⊎◌, Ok, Err, IfOk, IfErr, length, map};
ghost use Rattle.mr_pcap.specs.declared.pcap_error.PcapError.TheVariants.{Memory};
ghost use Rattle.mr_pcap.specs.Places.{AreWhole, captured_at};
ghost use Rattle.mr_pcap.specs.Traces.{capture_of, header_of, records_behind, whole_length};

use crate::header::Header;
use crate::link_type::LinkType;
use crate::numbers::{from_index, magic_of, number_at};
use crate::order::Order;
use crate::pcap_error::PcapError;
use crate::trace::{RECORD_HEAD_LENGTH, Trace};
use std::alloc::Global;

/// The length of a file's header, in bytes.
const HEADER_LENGTH: usize = 24;

/// How long the record at the front of bytes is, in bytes: none where it is cut.
fn whole_length(order: Order, bytes: &[u8]) -> Option<usize>
    ensures { result ≡ whole_length order bytes.now }
{
    if bytes.len() < RECORD_HEAD_LENGTH {
        return None;
    }
    let length = RECORD_HEAD_LENGTH + number_at(order, bytes, 8) as usize;
    if length <= bytes.len() {
        Some(length)
    } else {
        None
    }
}

/// At which indices of a file its records begin.
fn starts_of(alloc: Global, order: Order, file: &[u8]) -> Result<Vec<usize>, PcapError>
    requires { 24 ≤ length file.now }
    ensures whole { IfOk result (λ starts. AreWhole order file.now starts.items) }
    ensures records { IfOk result (λ starts. records_behind order 1 24 file.now
        ≡ Ok (map (captured_at order file.now) starts.items)) }
    ensures refusal { IfErr result (λ e. (e ≡ Memory)
        ⊎ (records_behind order 1 24 file.now ≡ Err e)) }
{
    let mut starts = Vec::new(alloc);
    let mut number = 1_u32;
    let mut start = HEADER_LENGTH;
    while start < file.len() {
        let Some(length) = whole_length(order, from_index(file, start)) else {
            return Err(PcapError::CutRecord(number));
        };
        starts.push(start)?;
        start += length;
        number = number.saturating_add(1);
    }
    Ok(starts)
}

/// What a file's header says.
fn header_of(file: &[u8]) -> Result<Header, PcapError>
    ensures { result ≡ header_of file.now }
{
    if file.len() < HEADER_LENGTH {
        return Err(PcapError::CutHeader);
    }
    let Some((order, nanos)) = magic_of(file) else {
        return Err(PcapError::Magic);
    };
    let number = number_at(order, file, 20) % 0x1_0000;
    match LinkType::of(number as u16) {
        Some(link) => Ok(Header { order, nanos, link }),
        None => Err(PcapError::LinkType),
    }
}

/// The trace that a file says, which keeps the file's bytes. Numbers may stand in either order, and
/// fractions of seconds may be microseconds or nanoseconds. The high 16 bits beside the link type
/// are ignored, and so are the header's version, time zone and greatest length. Memory is taken
/// for the places of the records alone, 8 bytes for each.
///
/// # Errors
///
/// The first of `CutHeader`, `Magic`, `LinkType` and `CutRecord` that holds; `Memory` where there
/// is none for the places.
pub fn read(alloc: Global, file: Vec<u8>) -> Result<Trace, PcapError>
    ensures trace { IfOk result (λ trace. capture_of file.items ≡ Ok trace) }
    ensures refusal { IfErr result (λ e. (e ≡ Memory) ⊎ (capture_of file.items ≡ Err e)) }
{
    let Header { order, nanos, link } = header_of(file.as_slice())?;
    let starts = starts_of(alloc, order, file.as_slice())?;
    Ok(Trace {
        link,
        nanos,
        order,
        file,
        starts,
    })
}

//! A trace written, little-endian.
ghost use Rattle.std.specs.Prelude.{◌≡◌, ◌+◌, ◌<◌, ◌^◌, ◌++◌, All, OnOk, OnErr, IfOk, Ok, flat_map};
ghost use Rattle.std.specs.Prelude.{length, map};
ghost use Rattle.byteorder.specs.Endian.{little_bytes};
ghost use Rattle.mr_pcap.specs.Places.{AreWhole, Fits, captured, captured_at, followed_by};
ghost use Rattle.mr_pcap.specs.Traces.{capture_of, file_bytes, header_bytes, record_bytes};

use crate::link_type::LinkType;
use crate::numbers::magic;
use crate::order::Order;
use crate::record::Record;
use crate::trace::{RECORD_HEAD_LENGTH, Trace, record_at};
use byteorder::{ByteOrder, LittleEndian};
use mr_base::Memory;
use std::alloc::Global;

/// The greatest length of a record's bytes that a written header states.
const GREATEST_LENGTH: u32 = 65_535;

/// The header of a file, version 2.4.
fn header_bytes(link: LinkType, nanos: bool) -> [u8; 24]
    ensures { result ≡ header_bytes link nanos }
{
    let mut header = [0; 24];
    LittleEndian::write_u32(&mut header, magic(nanos));
    LittleEndian::write_u16(&mut header[4..], 2);
    LittleEndian::write_u16(&mut header[6..], 4);
    LittleEndian::write_u32(&mut header[16..], GREATEST_LENGTH);
    LittleEndian::write_u32(&mut header[20..], u32::from(link.number()));
    header
}

/// The head of a record with so many bytes.
fn record_head(packet: &Record<'_>, length: u32) -> [u8; RECORD_HEAD_LENGTH]
    ensures { result ≡ little_bytes 4 packet.now.sec ++ little_bytes 4 packet.now.frac
        ++ little_bytes 4 length ++ little_bytes 4 packet.now.orig }
{
    let mut head = [0; RECORD_HEAD_LENGTH];
    LittleEndian::write_u32(&mut head, packet.sec);
    LittleEndian::write_u32(&mut head[4..], packet.frac);
    LittleEndian::write_u32(&mut head[8..], length);
    LittleEndian::write_u32(&mut head[12..], packet.orig);
    head
}

/// Appends the header of a file.
///
/// # Errors
///
/// `Memory` where there is none for it; then `out` is as it was.
pub fn write_header(out: &mut Vec<u8>, link: LinkType, nanos: bool) -> Result<(), Memory>
    ensures written { OnOk result (out.new.items ≡ out.old.items ++ header_bytes link nanos) }
    ensures unchanged { OnErr result (out.new.items ≡ out.old.items) }
{
    match out.extend_from_slice(&header_bytes(link, nanos)) {
        Ok(()) => Ok(()),
        Err(_) => Err(Memory),
    }
}

/// Appends three parts, or nothing.
fn append_three(out: &mut Vec<u8>, a: &[u8], b: &[u8], c: &[u8]) -> Result<(), Memory>
    ensures written { OnOk result (out.new.items ≡ out.old.items ++ (a.now ++ (b.now ++ c.now))) }
    ensures unchanged { OnErr result (out.new.items ≡ out.old.items) }
{
    let before = out.as_slice().len();
    if out.extend_from_slice(a).is_ok()
        && out.extend_from_slice(b).is_ok()
        && out.extend_from_slice(c).is_ok()
    {
        return Ok(());
    }
    out.truncate(before);
    Err(Memory)
}

/// Appends a record: its numbers, and its bytes with `rest` behind them, together shorter than
/// 2^32 bytes. So a packet's new head and its old body need not be brought together first.
///
/// # Errors
///
/// `Memory` where there is none for it; then `out` is as it was.
pub fn write_record(out: &mut Vec<u8>, packet: &Record<'_>, rest: &[u8]) -> Result<(), Memory>
    requires { length packet.now.bytes.now + length rest.now < 2 ^ 32 }
    ensures written { OnOk result (out.new.items
        ≡ out.old.items ++ record_bytes (followed_by (captured packet.now) rest.now)) }
    ensures unchanged { OnErr result (out.new.items ≡ out.old.items) }
{
    let length = (packet.bytes.len() + rest.len()) as u32;
    let head = record_head(packet, length);
    append_three(out, &head, packet.bytes, rest)
}

/// Appends the records that begin at these indices of a file.
fn write_records(
    out: &mut Vec<u8>,
    order: Order,
    file: &[u8],
    starts: &[usize],
) -> Result<(), Memory>
    requires { AreWhole order file.now starts.now }
    ensures written { OnOk result (out.new.items
        ≡ out.old.items ++ flat_map record_bytes (map (captured_at order file.now) starts.now)) }
    ensures fit { All Fits (map (captured_at order file.now) starts.now) }
{
    for start in starts {
        write_record(out, &record_at(order, file, *start), &[])?;
    }
    Ok(())
}

/// The canonical bytes of a trace's file: little-endian, version 2.4. What is read of them is the
/// trace again.
///
/// # Errors
///
/// `Memory` where there is none for them.
pub fn write(alloc: Global, trace: &Trace) -> Result<Vec<u8>, Memory>
    ensures bytes { IfOk result (λ bytes. bytes.items ≡ file_bytes trace.now) }
    ensures again { IfOk result (λ bytes. capture_of bytes.items ≡ Ok trace.now) }
{
    let mut out = Vec::new(alloc);
    write_header(&mut out, trace.link, trace.nanos)?;
    write_records(
        &mut out,
        trace.order,
        trace.file.as_slice(),
        trace.starts.as_slice(),
    )?;
    Ok(out)
}

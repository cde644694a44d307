//! The copies of one packet, written as records of a trace.

ghost use Rattle.std.specs.Prelude.{◌≡◌, ◌+◌, ◌-◌, ◌<◌, ◌++◌, [], Some, IfSome, OnOk, flat_map};
ghost use Rattle.std.specs.Prelude.{if◌then◌else◌, length, slice_get};
ghost use Rattle.std.specs.List.{AllByRecursion};
ghost use Rattle.mr_egress.specs.Copies.{bytes_in, copies_of, sent_on};
ghost use Rattle.mr_egress.specs.Files.{each_way, record_with, records_of};
ghost use Rattle.mr_model.specs.Verdict.{is_in};

use crate::finding::place_of;
use crate::place::At;
use mr_base::{Head, LaneNo, Mask, Memory};
use mr_ip::sent_head;
use mr_load::LanePackets;
use mr_pcap::{Record, write_record};

/// All indexes that a vif may have.
pub(crate) const INDEXES: [u8; 32] = [
    0, 1, 2, 3, 4, 5, 6, 7, 8, 9, 10, 11, 12, 13, 14, 15, 16, 17, 18, 19, 20, 21, 22, 23, 24, 25,
    26, 27, 28, 29, 30, 31,
];

/// Whether a vif is in a mask.
fn is_in(mask: Mask, vif: u8) -> bool
    requires { vif < 32 }
    ensures { result ≡ is_in mask vif }
{
    (mask.0 >> vif) % 2 == 1
}

/// Writes a record, if a vif is an output: a head with its body, `total` bytes together.
fn write_if(
    out: &mut Vec<u8>,
    goes: bool,
    head: &[u8],
    body: &[u8],
    total: u16,
) -> Result<(), Memory>
    requires { length head.now + length body.now ≡ total }
    ensures { OnOk result (out.new.items ≡ out.old.items
        ++ (if goes then record_with total head.now body.now else [])) }
{
    if goes {
        let copy = Record {
            sec: 0,
            frac: 0,
            orig: u32::from(total),
            bytes: head,
        };
        write_record(out, &copy, body)?;
    }
    Ok(())
}

/// Writes a record once for each of these vifs that is in a mask.
fn write_each(
    out: &mut Vec<u8>,
    head: &[u8],
    body: &[u8],
    total: u16,
    mask: Mask,
    indexes: &[u8],
) -> Result<(), Memory>
    requires whole { length head.now + length body.now ≡ total }
    requires small { AllByRecursion (λ i. i < 32) indexes.now }
    ensures { OnOk result (out.new.items ≡ out.old.items ++ flat_map (λ i. if is_in mask i
        then record_with total head.now body.now else []) indexes.now) }
{
    for vif in indexes {
        write_if(out, is_in(mask, *vif), head, body, total)?;
    }
    Ok(())
}

/// Writes a record once for each vif in a mask.
fn write_all(
    out: &mut Vec<u8>,
    head: &[u8],
    body: &[u8],
    total: u16,
    mask: Mask,
) -> Result<(), Memory>
    requires { length head.now + length body.now ≡ total }
    ensures { OnOk result (out.new.items
        ≡ out.old.items ++ each_way mask (record_with total head.now body.now)) }
{
    write_each(out, head, body, total, mask, &INDEXES)?;
    Ok(())
}

/// The bytes of a head.
fn bytes_of(head: &Head) -> &[u8]
    ensures { result.now ≡ head.now.bytes }
{
    head.bytes.0.as_slice()
}

/// Writes the packet at a place of a lane, as it is sent on, once for each vif in a mask.
fn write_packet(
    out: &mut Vec<u8>,
    lane: &LanePackets,
    place: usize,
    mask: Mask,
) -> Result<(), Memory>
    requires { place < length lane.now.packets }
    ensures { OnOk result (IfSome (slice_get lane.now.packets place) (λ d.
        out.new.items ≡ out.old.items ++ each_way mask (records_of (sent_on (Some d.bytes))))) }
{
    lane.facts();
    let packet = lane.packet(place);
    if packet.head.ttl < 2 {
        return Ok(());
    }
    let head = sent_head(&packet.head);
    write_all(out, bytes_of(&head), lane.body(place), head.length, mask)?;
    Ok(())
}

/// Writes the packet of a lane with this index, as it is sent on, once for each vif in a mask.
fn write_found(out: &mut Vec<u8>, lane: &LanePackets, index: u32, mask: Mask) -> Result<(), Memory>
    ensures { OnOk result (out.new.items ≡ out.old.items
        ++ each_way mask (records_of (sent_on (bytes_in lane.now.packets index)))) }
{
    match place_of(lane, index) {
        None => Ok(()),
        Some(place) => {
            write_packet(out, lane, place, mask)?;
            Ok(())
        }
    }
}

/// The place of a lane among the lanes, which stand from lane 1 on.
fn lane_place(lane: LaneNo) -> usize
    ensures { result ≡ lane.0 - 1 }
{
    lane.0.saturating_sub(1) as usize
}

/// Writes the copies of a packet that leave by the device of a place.
pub(crate) fn write_copies(
    out: &mut Vec<u8>,
    lanes: &[LanePackets],
    at: &At,
    lane: LaneNo,
    index: u32,
    outs: Mask,
) -> Result<(), Memory>
    ensures { OnOk result (out.new.items ≡ out.old.items
        ++ records_of (copies_of lanes.now at.now.device at.now.vifs lane index outs)) }
{
    let ways = at.ways();
    let both = Mask(outs.0 & ways.0);
    if both.0 == 0 {
        return Ok(());
    }
    let stands = lane_place(lane);
    if stands >= lanes.len() {
        return Ok(());
    }
    write_found(out, &lanes[stands], index, both)?;
    Ok(())
}

//! The walk over a history that writes what leaves by one device.

ghost use Rattle.std.specs.Prelude.{◌≡◌, ◌+◌, ◌≤◌, ◌++◌, filter, flat_map, length, IfOk, OnOk};
ghost use Rattle.mr_egress.specs.Copies.{copies, copies_freed, copies_in, copies_of, outs_in};
ghost use Rattle.mr_egress.specs.FastOrder.{AreFastOf, AreFrom, AreSorted, IsFront, SameFrom, sees};
ghost use Rattle.mr_egress.specs.Files.{file, records_of};
ghost use Rattle.mr_history.specs.Seen.{entry_seen};
ghost use Rattle.mr_model.specs.Legal.{IsLegal};

use crate::copying::{INDEXES, write_copies};
use crate::fast::{FastPackets, FastSent};
use crate::place::{At, leads_to};
use mr_base::{Device, Mask, Memory};
use mr_history::{EntryView, Journal};
use mr_kernel::Kernel;
use mr_load::LanePackets;
use mr_model::{Limits, Outcome, ReleasedId, VifTotals};
use mr_pcap::{LinkType, write_header};
use std::alloc::Global;

/// The bytes of a file's header, and of a record's head.
const HEADER_BYTES: u64 = 24;

const RECORD_HEAD_BYTES: u64 = 16;

/// What a packet that was decided under the lock goes out on.
fn outs_of(outcome: &Outcome) -> Mask
    ensures { result ≡ outs_in outcome.now }
{
    match outcome {
        Outcome::Forward { outs, .. } | Outcome::Register { outs, .. } => *outs,
        _ => Mask(0),
    }
}

/// Writes the copies of packets that a call released.
fn write_released(
    out: &mut Vec<u8>,
    lanes: &[LanePackets],
    at: &At,
    released: &[ReleasedId],
) -> Result<(), Memory>
    ensures { OnOk result (out.new.items ≡ out.old.items ++ flat_map (λ r.
        records_of (copies_freed lanes.now at.now.device at.now.vifs r)) released.now) }
{
    for one in released {
        let outs = outs_of(&one.outcome);
        write_copies(out, lanes, at, one.lane, one.index, outs)?;
    }
    Ok(())
}

/// Writes the copies of an entry.
fn write_entry(
    out: &mut Vec<u8>,
    lanes: &[LanePackets],
    at: &At,
    entry: &EntryView<'_>,
) -> Result<(), Memory>
    ensures { OnOk result (out.new.items ≡ out.old.items
        ++ records_of (copies_in lanes.now at.now.device at.now.vifs (entry_seen entry.now))) }
{
    match entry {
        EntryView::Slow {
            lane,
            index,
            outcome,
            ..
        } => {
            write_copies(out, lanes, at, *lane, *index, outs_of(outcome))?;
            Ok(())
        }
        EntryView::Call { released, .. } => {
            write_released(out, lanes, at, released)?;
            Ok(())
        }
        _ => Ok(()),
    }
}

/// How many packets in front have this look; those behind them have greater ones.
fn count_seen(sorted: &[FastSent], look: u32) -> usize
    requires sorted { AreSorted sorted.now }
    requires from { AreFrom look sorted.now }
    ensures within { result ≤ length sorted.now }
    ensures front { IsFront look sorted.now result }
{
    let mut count = 0;
    for one in sorted {
        if one.look != look {
            return count;
        }
        count += 1;
    }
    count
}

/// Writes the copies of fast packets.
fn write_fast(
    out: &mut Vec<u8>,
    lanes: &[LanePackets],
    at: &At,
    packets: &[FastSent],
) -> Result<(), Memory>
    ensures { OnOk result (out.new.items ≡ out.old.items ++ flat_map (λ p. records_of
        (copies_of lanes.now at.now.device at.now.vifs p.lane p.index p.outs)) packets.now) }
{
    for one in packets {
        write_copies(out, lanes, at, one.lane, one.index, one.outs)?;
    }
    Ok(())
}

/// Writes the copies of the fast packets with this look, which stand in front, and gives the rest.
fn write_seen<'a>(
    out: &mut Vec<u8>,
    lanes: &[LanePackets],
    at: &At,
    look: u32,
    sorted: &'a [FastSent],
) -> Result<&'a [FastSent], Memory>
    requires sorted { AreSorted sorted.now }
    requires from { AreFrom look sorted.now }
    ensures copies { OnOk result (out.new.items ≡ out.old.items ++ flat_map (λ p. records_of
        (copies_of lanes.now at.now.device at.now.vifs p.lane p.index p.outs))
        (filter (sees look) sorted.now)) }
    ensures sorted { IfOk result (λ rest. AreSorted rest.now) }
    ensures from { IfOk result (λ rest. AreFrom (look + 1) rest.now) }
    ensures same { IfOk result (λ rest. SameFrom (look + 1) rest.now sorted.now) }
{
    let (front, rest) = sorted.split_at(count_seen(sorted, look));
    write_fast(out, lanes, at, front)?;
    Ok(rest)
}

/// The devices of limits.
fn devices_of(limits: &Limits) -> &[Device]
    ensures { result.now ≡ limits.now.devices }
{
    limits.devices.0.as_slice()
}

/// Writes the copies of all steps that leave by a device.
fn write_steps(
    out: &mut Vec<u8>,
    journal: &Journal,
    lanes: &[LanePackets],
    fast: &[FastSent],
    device: u32,
) -> Result<(), Memory>
    requires legal { IsLegal journal.now.limits journal.now.entries }
    requires fast { AreFastOf fast.now journal.now.entries }
    ensures { OnOk result (out.new.items ≡ out.old.items ++ records_of
        (copies journal.now.limits lanes.now journal.now.entries device)) }
{
    journal.facts();
    let devices = devices_of(journal.limits());
    let mut at = At::first(device);
    let mut rest = fast;
    for place in 0..journal.len() {
        rest = write_seen(out, lanes, &at, place, rest)?;
        let entry = journal.entry(place);
        write_entry(out, lanes, &at, &entry)?;
        at.pass(devices, &entry);
    }
    write_seen(out, lanes, &at, journal.len(), rest)?;
    Ok(())
}

/// About how many bytes the file of a device takes: what its vifs have sent.
fn room_for(kernel: &Kernel, device: u32) -> usize {
    let vifs = kernel.tables().vifs();
    let journal = kernel.journal();
    let mut room = HEADER_BYTES;
    for vif in &INDEXES {
        if leads_to(device, vifs.record(*vif)) {
            room = room.saturating_add(sent_bytes(journal.vif_totals(*vif)));
        }
    }
    room as usize
}

/// How many bytes the records take of what a vif has sent.
fn sent_bytes(totals: Option<VifTotals>) -> u64 {
    match totals {
        None => 0,
        Some(totals) => totals
            .packets_out
            .saturating_mul(RECORD_HEAD_BYTES)
            .saturating_add(totals.bytes_out),
    }
}

/// The egress trace of a device, by its number from 1, over a machine's history: a pcap file with a
/// record for each copy that leaves by the device, in the order of the unfolded history. `lanes`
/// has the packets' bytes, from lane 1 on, and `fast` the packets that were forwarded without the
/// lock. It is one pass over the history, and the file is the only copy of the packets; room for
/// what the vifs sent that are there at the end is reserved at once.
///
/// # Errors
///
/// [`Memory`] where memory runs out.
pub fn file(
    alloc: Global,
    kernel: &Kernel,
    lanes: &[LanePackets],
    fast: &FastPackets,
    device: u32,
) -> Result<Vec<u8>, Memory>
    requires { AreFastOf fast.now kernel.now.history }
    ensures { IfOk result (λ bytes. bytes.items
        ≡ file kernel.now.limits lanes.now kernel.now.history device) }
{
    kernel.facts();
    let Ok(mut out) = Vec::with_capacity(alloc, room_for(kernel, device)) else {
        return Err(Memory);
    };
    write_header(&mut out, LinkType::RawIpv4, false)?;
    write_steps(&mut out, kernel.journal(), lanes, fast.as_slice(), device)?;
    Ok(out)
}

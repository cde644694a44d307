//! The history of a run is written as text, entry by entry as they lie in the journal.

ghost use Rattle.std.specs.Prelude.{◌≡◌, ◌++◌, ◌∷◌, [], length, flat_map, map, OnOk, IfOk};
ghost use Rattle.mr_history.specs.Seen.{entry_seen};
ghost use Rattle.mr_lines.specs.declared.line.Line.TheVariants as line;
ghost use Rattle.mr_model.specs.Ending.{ending};
ghost use Rattle.mr_tail.specs.Text.{tail_of};
ghost use Rattle.mr_text.specs.Text.{line_text, entry_lines, entries_lines, text};

use mr_base::{LaneNo, Memory};
use mr_history::{EntryView, Journal, Records};
use mr_kernel::Kernel;
use mr_lines::{Skip, Tail};
use mr_print::{
    write_end, write_first, write_phase, write_recv, write_settle, write_slow, write_tick,
};
use mr_records::{Ways, write_record};
use mr_scenario::Named;
use mr_tail::tail_of;
use mr_text::{write_call_lines, write_skips, write_tail};
use std::alloc::{AllocError, Global};

/// About how many bytes the line of a skip, a history entry, a settled record and a line of the
/// tail take.
const SKIP_BYTES: usize = 24;

const ENTRY_BYTES: usize = 40;

const RECORD_BYTES: usize = 24;

const TAIL_BYTES: usize = 64;

/// The lines of a settle's records.
fn write_records(
    out: &mut Vec<u8>,
    ways: &mut Ways,
    records: &Records<'_>,
) -> Result<(), AllocError>
    ensures { OnOk result (out.new.items
        ≡ out.old.items ++ flat_map line_text (map line.Record records.now)) }
{
    for place in 0..records.len() {
        write_record(out, ways, &records.get(place))?;
    }
    Ok(())
}

/// The lines of a settle.
fn write_settle_lines(
    out: &mut Vec<u8>,
    ways: &mut Ways,
    number: u64,
    lane: LaneNo,
    records: &Records<'_>,
) -> Result<(), AllocError>
    ensures { OnOk result (out.new.items ≡ out.old.items
        ++ flat_map line_text (line.Settle number lane (length records.now)
        ∷ map line.Record records.now)) }
{
    write_settle(out, number, lane, records.len() as u64)?;
    write_records(out, ways, records)?;
    Ok(())
}

/// The lines of a history entry.
fn write_seen(
    out: &mut Vec<u8>,
    ways: &mut Ways,
    number: u64,
    seen: &EntryView<'_>,
) -> Result<(), AllocError>
    ensures { OnOk result (out.new.items
        ≡ out.old.items ++ flat_map line_text (entry_lines number (entry_seen seen.now))) }
{
    match seen {
        EntryView::Call {
            daemon,
            request,
            reply,
            released,
        } => write_call_lines(out, number, *daemon, request, reply, released),
        EntryView::Slow {
            lane,
            index,
            look,
            outcome,
            ..
        } => write_slow(out, number, *lane, *index, *look, outcome),
        EntryView::Settle { lane, records } => {
            write_settle_lines(out, ways, number, *lane, records)
        }
        EntryView::Tick { daemon, ms } => write_tick(out, number, *daemon, *ms),
        EntryView::Recv { daemon, message } => write_recv(out, number, *daemon, message),
        EntryView::EndPhase => write_phase(out, number),
    }
}

/// The lines of the entries of a journal.
fn write_journal(out: &mut Vec<u8>, journal: &Journal) -> Result<(), AllocError>
    ensures { OnOk result (out.new.items
        ≡ out.old.items ++ flat_map line_text (entries_lines 1 journal.now.entries)) }
{
    let mut ways = Ways::new();
    for place in 0..journal.len() {
        let number = u64::from(place) + 1;
        write_seen(out, &mut ways, number, &journal.entry(place))?;
    }
    Ok(())
}

/// About how many bytes the lines of a journal's entries take: each packet that has no entry of its
/// own is a record of a settle.
fn entries_room(journal: &Journal) -> usize {
    let entries = journal.len() as usize;
    let mut packets = 0usize;
    for count in journal.limits().packets.0.as_slice() {
        packets = packets.saturating_add(*count as usize);
    }
    let records = packets.saturating_sub(entries);
    entries
        .saturating_mul(ENTRY_BYTES)
        .saturating_add(records.saturating_mul(RECORD_BYTES))
}

/// About how many bytes the lines of a tail take.
fn tail_room(tail: &Tail) -> usize {
    let routes = tail.routes.0.len();
    let vifs = tail.vifs.0.len();
    let fates = tail.fates.0.len();
    routes
        .saturating_add(vifs)
        .saturating_add(fates)
        .saturating_mul(TAIL_BYTES)
}

/// An empty text with room for about what is to be written.
fn with_room(
    alloc: Global,
    skips: &[Skip],
    journal: &Journal,
    tail: &Tail,
) -> Result<Vec<u8>, AllocError>
    ensures { IfOk result (λ v. v.items ≡ []) }
{
    let room = skips
        .len()
        .saturating_mul(SKIP_BYTES)
        .saturating_add(entries_room(journal))
        .saturating_add(tail_room(tail))
        .saturating_add(TAIL_BYTES);
    Vec::with_capacity(alloc, room)
}

/// The text of these parts.
fn write_parts(
    alloc: Global,
    skips: &[Skip],
    journal: &Journal,
    tail: &Tail,
) -> Result<Vec<u8>, AllocError>
    ensures { IfOk result (λ v. v.items ≡ text skips.now journal.now.entries tail.now) }
{
    let mut out = with_room(alloc, skips, journal, tail)?;
    write_first(&mut out)?;
    write_skips(&mut out, skips)?;
    write_journal(&mut out, journal)?;
    write_tail(&mut out, tail)?;
    write_end(&mut out)?;
    Ok(out)
}

/// The tail of a machine's history.
fn tail_lines(alloc: Global, devices: &[Named], kernel: &Kernel) -> Result<Tail, Memory>
    ensures { IfOk result (λ t. t
        ≡ tail_of devices.now (ending kernel.now.limits kernel.now.history)) }
{
    let ending = kernel.ending(alloc)?;
    match tail_of(alloc, devices, ending) {
        Ok(tail) => Ok(tail),
        Err(AllocError) => Err(Memory),
    }
}

/// The text of a machine's history.
///
/// # Errors
///
/// [`Memory`] where memory runs out.
pub fn write_run(
    alloc: Global,
    skips: &[Skip],
    devices: &[Named],
    kernel: &Kernel,
) -> Result<Vec<u8>, Memory>
    ensures { IfOk result (λ v. v.items ≡ text skips.now kernel.now.history
        (tail_of devices.now (ending kernel.now.limits kernel.now.history))) }
{
    let tail = tail_lines(alloc, devices, kernel)?;
    match write_parts(alloc, skips, kernel.journal(), &tail) {
        Ok(text) => Ok(text),
        Err(AllocError) => Err(Memory),
    }
}

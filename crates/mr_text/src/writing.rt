//! A history is written as its text.

ghost use Rattle.std.specs.Prelude.{◌≡◌, ◌++◌, ◌∷◌, [], length, flat_map, map, OnOk, IfOk};
ghost use Rattle.mr_lines.specs.declared.line.Line.TheVariants as line;
ghost use Rattle.mr_text.specs.Text.{line_text, entry_lines, entries_lines, tail_lines, text};

use mr_base::{DaemonNo, LaneNo, Memory};
use mr_lines::{RouteLine, Skip, Tail, VifLine};
use mr_model::{Entry, FastRecord, FateLine, ReleasedId, Reply, Request};
use mr_print::{
    write_call, write_end, write_fate, write_first, write_phase, write_recv, write_released,
    write_route, write_settle, write_skip, write_slow, write_tick, write_vif,
};
use mr_records::{Ways, write_record};
use std::alloc::{AllocError, Global};

/// The lines of the items that are no packets.
///
/// # Errors
///
/// [`AllocError`] where memory runs out; a part of the lines may stand then.
pub fn write_skips(out: &mut Vec<u8>, skips: &[Skip]) -> Result<(), AllocError>
    ensures { OnOk result
        (out.new.items ≡ out.old.items ++ flat_map line_text (map line.Skip skips.now)) }
{
    for skip in skips {
        write_skip(out, skip)?;
    }
    Ok(())
}

/// The lines of the packets that a call released.
fn write_released_lines(out: &mut Vec<u8>, packets: &[ReleasedId]) -> Result<(), AllocError>
    ensures { OnOk result
        (out.new.items ≡ out.old.items ++ flat_map line_text (map line.Released packets.now)) }
{
    for packet in packets {
        write_released(out, packet)?;
    }
    Ok(())
}

/// The lines of a settle's records.
fn write_records(
    out: &mut Vec<u8>,
    ways: &mut Ways,
    packets: &[FastRecord],
) -> Result<(), AllocError>
    ensures { OnOk result
        (out.new.items ≡ out.old.items ++ flat_map line_text (map line.Record packets.now)) }
{
    for packet in packets {
        write_record(out, ways, packet)?;
    }
    Ok(())
}

/// The lines of a call.
///
/// # Errors
///
/// [`AllocError`] where memory runs out; a part of the lines may stand then.
pub fn write_call_lines(
    out: &mut Vec<u8>,
    number: u64,
    daemon: DaemonNo,
    request: &Request,
    reply: &Reply,
    packets: &[ReleasedId],
) -> Result<(), AllocError>
    ensures { OnOk result (out.new.items ≡ out.old.items ++ flat_map line_text
        (line.Call number daemon request.now reply.now ∷ map line.Released packets.now)) }
{
    write_call(out, number, daemon, request, reply)?;
    write_released_lines(out, packets)?;
    Ok(())
}

/// The lines of a settle.
fn write_settle_lines(
    out: &mut Vec<u8>,
    ways: &mut Ways,
    number: u64,
    lane: LaneNo,
    packets: &[FastRecord],
) -> Result<(), AllocError>
    ensures { OnOk result (out.new.items ≡ out.old.items ++ flat_map line_text
        (line.Settle number lane (length packets.now) ∷ map line.Record packets.now)) }
{
    write_settle(out, number, lane, packets.len() as u64)?;
    write_records(out, ways, packets)?;
    Ok(())
}

/// The lines of an entry. The ways of its records are found in those that were kept, or kept.
///
/// # Errors
///
/// [`AllocError`] where memory runs out; a part of the lines may stand then.
pub fn write_entry(
    out: &mut Vec<u8>,
    ways: &mut Ways,
    number: u64,
    entry: &Entry,
) -> Result<(), AllocError>
    ensures { OnOk result
        (out.new.items ≡ out.old.items ++ flat_map line_text (entry_lines number entry.now)) }
{
    match entry {
        Entry::Call {
            daemon,
            request,
            reply,
            released,
        } => write_call_lines(out, number, *daemon, request, reply, released.0.as_slice()),
        Entry::Slow {
            lane,
            index,
            look,
            outcome,
            ..
        } => write_slow(out, number, *lane, *index, *look, outcome),
        Entry::Settle { lane, records } => {
            write_settle_lines(out, ways, number, *lane, records.0.as_slice())
        }
        Entry::Tick { daemon, ms } => write_tick(out, number, *daemon, *ms),
        Entry::Recv { daemon, message } => write_recv(out, number, *daemon, message),
        Entry::EndPhase => write_phase(out, number),
    }
}

/// The lines of all entries.
fn write_entries(out: &mut Vec<u8>, entries: &[Entry]) -> Result<(), AllocError>
    ensures { OnOk result
        (out.new.items ≡ out.old.items ++ flat_map line_text (entries_lines 1 entries.now)) }
{
    let mut number = 1u64;
    let mut ways = Ways::new();
    for entry in entries {
        write_entry(out, &mut ways, number, entry)?;
        number = number.saturating_add(1);
    }
    Ok(())
}

/// The lines of the live entries.
fn write_routes(out: &mut Vec<u8>, routes: &[RouteLine]) -> Result<(), AllocError>
    ensures { OnOk result
        (out.new.items ≡ out.old.items ++ flat_map line_text (map line.Route routes.now)) }
{
    for route in routes {
        write_route(out, route)?;
    }
    Ok(())
}

/// The lines of the live vifs.
fn write_vifs(out: &mut Vec<u8>, vifs: &[VifLine]) -> Result<(), AllocError>
    ensures { OnOk result
        (out.new.items ≡ out.old.items ++ flat_map line_text (map line.Vif vifs.now)) }
{
    for vif in vifs {
        write_vif(out, vif)?;
    }
    Ok(())
}

/// The lines of the fates.
fn write_fates(out: &mut Vec<u8>, fates: &[FateLine]) -> Result<(), AllocError>
    ensures { OnOk result
        (out.new.items ≡ out.old.items ++ flat_map line_text (map line.Fate fates.now)) }
{
    for fate in fates {
        write_fate(out, fate)?;
    }
    Ok(())
}

/// The lines of the tail.
///
/// # Errors
///
/// [`AllocError`] where memory runs out; a part of the lines may stand then.
pub fn write_tail(out: &mut Vec<u8>, tail: &Tail) -> Result<(), AllocError>
    ensures { OnOk result
        (out.new.items ≡ out.old.items ++ flat_map line_text (tail_lines tail.now)) }
{
    write_routes(out, tail.routes.0.as_slice())?;
    write_vifs(out, tail.vifs.0.as_slice())?;
    write_fates(out, tail.fates.0.as_slice())?;
    Ok(())
}

/// About how many bytes the lines of entries take. It is a guess: a text may come out longer or
/// shorter.
fn entries_room(entries: &[Entry]) -> usize {
    let mut room = 0usize;
    for entry in entries {
        let records = match entry {
            Entry::Settle { records, .. } => records.0.len(),
            _ => 0,
        };
        room = room
            .saturating_add(48)
            .saturating_add(records.saturating_mul(24));
    }
    room
}

/// About how many bytes the lines of a tail take.
fn tail_room(tail: &Tail) -> usize {
    let routes = tail.routes.0.len().saturating_mul(64);
    let vifs = tail.vifs.0.len().saturating_mul(64);
    let fates = tail.fates.0.len().saturating_mul(32);
    routes.saturating_add(vifs).saturating_add(fates)
}

/// An empty text with room for about what is to be written.
fn with_room(
    alloc: Global,
    skips: &[Skip],
    entries: &[Entry],
    tail: &Tail,
) -> Result<Vec<u8>, AllocError>
    ensures { IfOk result (λ v. v.items ≡ []) }
{
    let room = skips
        .len()
        .saturating_mul(24)
        .saturating_add(entries_room(entries))
        .saturating_add(tail_room(tail))
        .saturating_add(64);
    Vec::with_capacity(alloc, room)
}

/// The text of a history.
fn history_bytes(
    alloc: Global,
    skips: &[Skip],
    entries: &[Entry],
    tail: &Tail,
) -> Result<Vec<u8>, AllocError>
    ensures { IfOk result (λ v. v.items ≡ text skips.now entries.now tail.now) }
{
    let mut out = with_room(alloc, skips, entries, tail)?;
    write_first(&mut out)?;
    write_skips(&mut out, skips)?;
    write_entries(&mut out, entries)?;
    write_tail(&mut out, tail)?;
    write_end(&mut out)?;
    Ok(out)
}

/// The text of a history: its first line, the skips, the entries with their numbers from 1, the
/// tail and its last line.
///
/// # Errors
///
/// [`Memory`] where there is none for the text.
pub fn write_history(
    alloc: Global,
    skips: &[Skip],
    entries: &[Entry],
    tail: &Tail,
) -> Result<Vec<u8>, Memory>
    ensures { IfOk result (λ v. v.items ≡ text skips.now entries.now tail.now) }
{
    match history_bytes(alloc, skips, entries, tail) {
        Ok(bytes) => Ok(bytes),
        Err(_) => Err(Memory),
    }
}

//! The lines of a history, each put behind a text.

ghost use Rattle.std.specs.Prelude.{◌≡◌, ◌++◌, ◌∷◌, codes, decimal, OnOk};
ghost use Rattle.mr_lines.specs.Lines.{request_words, reply_words, outcome_words, line_words};
ghost use Rattle.mr_lines.specs.Forms.{line_bytes};
ghost use Rattle.mr_print.specs.Written.{led};
ghost use Rattle.mr_lines.specs.declared.line.Line.TheVariants as line;

use crate::calls::{
    write_fate_words, write_message, write_outcome, write_reply, write_request, write_route_totals,
    write_vif_totals,
};
use crate::words::{write_address, write_number, write_spaced};
use mr_base::{DaemonNo, LaneNo};
use mr_lines::{RouteLine, Skip, VifLine};
use mr_model::{FateLine, MessageId, Outcome, ReleasedId, Reply, Request};
use std::alloc::AllocError;

/// Puts `history 1`, the first line.
///
/// # Errors
///
/// [`AllocError`] where memory runs out; a part of the line may stand then.
pub fn write_first(out: &mut Vec<u8>) -> Result<(), AllocError>
    ensures { OnOk result (out.new.items ≡ out.old.items ++ line_bytes (line_words line.History)) }
{
    out.extend_from_slice(b"history 1\n")?;
    Ok(())
}

/// Puts `end`, the last line.
///
/// # Errors
///
/// [`AllocError`] where memory runs out; a part of the line may stand then.
pub fn write_end(out: &mut Vec<u8>) -> Result<(), AllocError>
    ensures { OnOk result (out.new.items ≡ out.old.items ++ line_bytes (line_words line.End)) }
{
    out.extend_from_slice(b"end\n")?;
    Ok(())
}

/// Puts the line of an item that is no packet.
///
/// # Errors
///
/// [`AllocError`] where memory runs out; a part of the line may stand then.
pub fn write_skip(out: &mut Vec<u8>, skip: &Skip) -> Result<(), AllocError>
    ensures { OnOk result
        (out.new.items ≡ out.old.items ++ line_bytes (line_words (line.Skip skip.now))) }
{
    out.extend_from_slice(b"skip")?;
    write_spaced(out, u64::from(skip.lane.0))?;
    write_spaced(out, u64::from(skip.index))?;
    write_spaced(out, u64::from(skip.cause))?;
    out.extend_from_slice(b"\n")?;
    Ok(())
}

/// The words of a call, each behind a space.
fn write_call_words(
    out: &mut Vec<u8>,
    daemon: DaemonNo,
    request: &Request,
    reply: &Reply,
) -> Result<(), AllocError>
    ensures { OnOk result (out.new.items ≡ out.old.items ++ led (codes "call"
        ∷ decimal daemon.0 ∷ (request_words request.now ++ codes "=" ∷ reply_words reply.now))) }
{
    out.extend_from_slice(b" call")?;
    write_spaced(out, u64::from(daemon.0))?;
    write_request(out, request)?;
    out.extend_from_slice(b" =")?;
    write_reply(out, reply)?;
    Ok(())
}

/// Puts the first line of a call.
///
/// # Errors
///
/// [`AllocError`] where memory runs out; a part of the line may stand then.
pub fn write_call(
    out: &mut Vec<u8>,
    number: u64,
    daemon: DaemonNo,
    request: &Request,
    reply: &Reply,
) -> Result<(), AllocError>
    ensures { OnOk result (out.new.items ≡ out.old.items
        ++ line_bytes (line_words (line.Call number daemon request.now reply.now))) }
{
    write_number(out, number)?;
    write_call_words(out, daemon, request, reply)?;
    out.extend_from_slice(b"\n")?;
    Ok(())
}

/// Puts the line of a packet that a call released.
///
/// # Errors
///
/// [`AllocError`] where memory runs out; a part of the line may stand then.
pub fn write_released(out: &mut Vec<u8>, released: &ReleasedId) -> Result<(), AllocError>
    ensures { OnOk result
        (out.new.items ≡ out.old.items ++ line_bytes (line_words (line.Released released.now))) }
{
    out.extend_from_slice(b"-")?;
    write_spaced(out, u64::from(released.lane.0))?;
    write_spaced(out, u64::from(released.index))?;
    write_outcome(out, &released.outcome)?;
    out.extend_from_slice(b"\n")?;
    Ok(())
}

/// The words of a packet that was decided under the lock, each behind a space.
fn write_slow_words(
    out: &mut Vec<u8>,
    lane: LaneNo,
    index: u32,
    look: u32,
    outcome: &Outcome,
) -> Result<(), AllocError>
    ensures { OnOk result (out.new.items ≡ out.old.items ++ led (codes "slow"
        ∷ decimal lane.0 ∷ decimal index ∷ decimal look ∷ outcome_words outcome.now)) }
{
    out.extend_from_slice(b" slow")?;
    write_spaced(out, u64::from(lane.0))?;
    write_spaced(out, u64::from(index))?;
    write_spaced(out, u64::from(look))?;
    write_outcome(out, outcome)?;
    Ok(())
}

/// Puts the line of a packet that was decided under the lock.
///
/// # Errors
///
/// [`AllocError`] where memory runs out; a part of the line may stand then.
pub fn write_slow(
    out: &mut Vec<u8>,
    number: u64,
    lane: LaneNo,
    index: u32,
    look: u32,
    outcome: &Outcome,
) -> Result<(), AllocError>
    ensures { OnOk result (out.new.items
        ≡ out.old.items ++ line_bytes (line_words (line.Slow number lane index look outcome.now))) }
{
    write_number(out, number)?;
    write_slow_words(out, lane, index, look, outcome)?;
    out.extend_from_slice(b"\n")?;
    Ok(())
}

/// Puts the first line of a settle of `count` records.
///
/// # Errors
///
/// [`AllocError`] where memory runs out; a part of the line may stand then.
pub fn write_settle(
    out: &mut Vec<u8>,
    number: u64,
    lane: LaneNo,
    count: u64,
) -> Result<(), AllocError>
    ensures { OnOk result
        (out.new.items ≡ out.old.items ++ line_bytes (line_words (line.Settle number lane count))) }
{
    write_number(out, number)?;
    out.extend_from_slice(b" settle")?;
    write_spaced(out, u64::from(lane.0))?;
    write_spaced(out, count)?;
    out.extend_from_slice(b"\n")?;
    Ok(())
}

/// Puts the line of a tick.
///
/// # Errors
///
/// [`AllocError`] where memory runs out; a part of the line may stand then.
pub fn write_tick(
    out: &mut Vec<u8>,
    number: u64,
    daemon: DaemonNo,
    ms: u32,
) -> Result<(), AllocError>
    ensures { OnOk result
        (out.new.items ≡ out.old.items ++ line_bytes (line_words (line.Tick number daemon ms))) }
{
    write_number(out, number)?;
    out.extend_from_slice(b" tick")?;
    write_spaced(out, u64::from(daemon.0))?;
    write_spaced(out, u64::from(ms))?;
    out.extend_from_slice(b"\n")?;
    Ok(())
}

/// Puts the line of what a daemon received.
///
/// # Errors
///
/// [`AllocError`] where memory runs out; a part of the line may stand then.
pub fn write_recv(
    out: &mut Vec<u8>,
    number: u64,
    daemon: DaemonNo,
    message: &Option<MessageId>,
) -> Result<(), AllocError>
    ensures { OnOk result (out.new.items
        ≡ out.old.items ++ line_bytes (line_words (line.Recv number daemon message.now))) }
{
    write_number(out, number)?;
    out.extend_from_slice(b" recv")?;
    write_spaced(out, u64::from(daemon.0))?;
    write_message(out, message)?;
    out.extend_from_slice(b"\n")?;
    Ok(())
}

/// Puts the line at which a phase ends.
///
/// # Errors
///
/// [`AllocError`] where memory runs out; a part of the line may stand then.
pub fn write_phase(out: &mut Vec<u8>, number: u64) -> Result<(), AllocError>
    ensures { OnOk result
        (out.new.items ≡ out.old.items ++ line_bytes (line_words (line.Phase number))) }
{
    write_number(out, number)?;
    out.extend_from_slice(b" phase\n")?;
    Ok(())
}

/// Puts the line of a live entry.
///
/// # Errors
///
/// [`AllocError`] where memory runs out; a part of the line may stand then.
pub fn write_route(out: &mut Vec<u8>, route: &RouteLine) -> Result<(), AllocError>
    ensures { OnOk result
        (out.new.items ≡ out.old.items ++ line_bytes (line_words (line.Route route.now))) }
{
    out.extend_from_slice(b"route")?;
    write_spaced(out, u64::from(route.number))?;
    write_address(out, route.src)?;
    write_address(out, route.dst)?;
    write_spaced(out, u64::from(route.parent))?;
    write_route_totals(out, &route.totals)?;
    out.extend_from_slice(b"\n")?;
    Ok(())
}

/// Puts the line of a live vif.
///
/// # Errors
///
/// [`AllocError`] where memory runs out; a part of the line may stand then.
pub fn write_vif(out: &mut Vec<u8>, vif: &VifLine) -> Result<(), AllocError>
    ensures { OnOk result
        (out.new.items ≡ out.old.items ++ line_bytes (line_words (line.Vif vif.now))) }
{
    out.extend_from_slice(b"vif")?;
    write_spaced(out, u64::from(vif.vif))?;
    out.extend_from_slice(b" ")?;
    out.extend_from_slice(vif.name.as_str().as_bytes())?;
    write_vif_totals(out, &vif.totals)?;
    out.extend_from_slice(b"\n")?;
    Ok(())
}

/// Puts the line of the fate of a packet.
///
/// # Errors
///
/// [`AllocError`] where memory runs out; a part of the line may stand then.
pub fn write_fate(out: &mut Vec<u8>, fate: &FateLine) -> Result<(), AllocError>
    ensures { OnOk result
        (out.new.items ≡ out.old.items ++ line_bytes (line_words (line.Fate fate.now))) }
{
    out.extend_from_slice(b"fate")?;
    write_spaced(out, u64::from(fate.lane.0))?;
    write_spaced(out, u64::from(fate.index))?;
    write_fate_words(out, fate.fate)?;
    out.extend_from_slice(b"\n")?;
    Ok(())
}

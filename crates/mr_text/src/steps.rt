//! What one line does to what was read so far. Where it may not come its number is the answer.

ghost use Rattle.std.specs.Prelude.{◌≡◌, [], IfOk, option_and_then};
ghost use Rattle.mr_lines.specs.declared.line.Line.TheVariants as said;
ghost use Rattle.mr_text.specs.Answers.{Steps};
ghost use Rattle.mr_text.specs.Walk.{added, begun, closed, has_no_tail, is_inside, is_next, opened};
ghost use Rattle.mr_text.specs.Walk.{recorded, released, skipped, step, with_end, with_fate};
ghost use Rattle.mr_text.specs.Walk.{with_route, with_vif};

use crate::history_text::TextError;
use crate::orders::{route_follows, skip_follows, vif_follows};
use crate::reading_state::{Current, State};
use mr_base::{DaemonNo, Few, LaneNo, List};
use mr_lines::{Line, RouteLine, Skip, VifLine};
use mr_model::{Entry, FastRecord, FateLine, Flow, Outcome, ReleasedId, Reply, Request};
use std::alloc::{AllocError, Global};
use std::mem;

/// Whether the line stands between the first and the last.
fn is_inside(state: &State) -> bool
    ensures { result ≡ is_inside state.now }
{
    state.begun && !state.ended
}

/// Whether no line of the tail has come.
fn has_no_tail(state: &State) -> bool
    ensures { result ≡ has_no_tail state.now }
{
    state.routes.0.as_slice().is_empty()
        && state.vifs.0.as_slice().is_empty()
        && state.fates.0.as_slice().is_empty()
}

/// Whether this is the number of the next entry, and entries may come.
fn is_next(state: &State, number: u64) -> bool
    ensures { result ≡ is_next state.now number }
{
    is_inside(state) && has_no_tail(state) && number == state.entries.0.as_slice().len() as u64 + 1
}

/// Puts the entry whose lines were read behind the others. It may not miss lines.
fn close(line: u32, state: &mut State) -> Result<(), TextError>
    ensures { Steps result line state.new (closed state.old) }
{
    match mem::replace(&mut state.current, Current::Nothing) {
        Current::Nothing => Ok(()),
        Current::Call {
            daemon,
            request,
            reply,
            released,
        } => {
            state.entries.0.push(Entry::Call {
                daemon,
                request,
                reply,
                released,
            })?;
            Ok(())
        }
        Current::Settle {
            lane,
            records,
            left,
        } => {
            if left != 0 {
                return Err(TextError::Line(line));
            }
            state.entries.0.push(Entry::Settle { lane, records })?;
            Ok(())
        }
    }
}

/// The first line of an entry of several lines.
fn open(line: u32, state: &mut State, number: u64, current: Current) -> Result<(), TextError>
    ensures { Steps result line state.new (opened line number current state.old) }
{
    close(line, state)?;
    if !is_next(state, number) {
        return Err(TextError::Line(line));
    }
    state.lines.0.push(line)?;
    state.current = current;
    Ok(())
}

/// An entry of one line.
fn add(line: u32, state: &mut State, number: u64, entry: Entry) -> Result<(), TextError>
    ensures { Steps result line state.new (added line number entry state.old) }
{
    close(line, state)?;
    if !is_next(state, number) {
        return Err(TextError::Line(line));
    }
    state.lines.0.push(line)?;
    state.entries.0.push(entry)?;
    Ok(())
}

/// A packet that the current call released.
fn release(line: u32, state: &mut State, packet: ReleasedId) -> Result<(), TextError>
    ensures { Steps result line state.new (released state.old packet state.old.current) }
{
    match &mut state.current {
        Current::Call { released, .. } => {
            if released.0.as_slice().len() >= 4 {
                return Err(TextError::Line(line));
            }
            released.0.push(packet);
            Ok(())
        }
        _ => Err(TextError::Line(line)),
    }
}

/// A record of the current settle.
fn record(line: u32, state: &mut State, fast: FastRecord) -> Result<(), TextError>
    ensures { Steps result line state.new (recorded state.old fast state.old.current) }
{
    match &mut state.current {
        Current::Settle { records, left, .. } => {
            if *left == 0 {
                return Err(TextError::Line(line));
            }
            records.0.push(fast)?;
            *left -= 1;
            Ok(())
        }
        _ => Err(TextError::Line(line)),
    }
}

/// A skip, before the entries.
fn skip(line: u32, state: &mut State, skip: Skip) -> Result<(), TextError>
    ensures { Steps result line state.new (skipped state.old skip) }
{
    if !(is_inside(state)
        && state.lines.0.as_slice().is_empty()
        && has_no_tail(state)
        && skip_follows(state.skips.0.as_slice(), &skip))
    {
        return Err(TextError::Line(line));
    }
    state.skips.0.push(skip)?;
    Ok(())
}

/// A live entry, behind the last entry of the history.
fn route(line: u32, state: &mut State, route: RouteLine) -> Result<(), TextError>
    ensures { Steps result line state.new (option_and_then (with_route route) (closed state.old)) }
{
    close(line, state)?;
    if !(is_inside(state)
        && state.vifs.0.as_slice().is_empty()
        && state.fates.0.as_slice().is_empty()
        && route_follows(state.routes.0.as_slice(), &route))
    {
        return Err(TextError::Line(line));
    }
    state.routes.0.push(route)?;
    Ok(())
}

/// A live vif, behind the live entries.
fn vif(line: u32, state: &mut State, vif: VifLine) -> Result<(), TextError>
    ensures { Steps result line state.new (option_and_then (with_vif vif) (closed state.old)) }
{
    close(line, state)?;
    if !(is_inside(state)
        && state.fates.0.as_slice().is_empty()
        && vif_follows(state.vifs.0.as_slice(), &vif))
    {
        return Err(TextError::Line(line));
    }
    state.vifs.0.push(vif)?;
    Ok(())
}

/// The fate of a packet that waited, behind the live vifs.
fn fate(line: u32, state: &mut State, fate: FateLine) -> Result<(), TextError>
    ensures { Steps result line state.new (option_and_then (with_fate fate) (closed state.old)) }
{
    close(line, state)?;
    if !is_inside(state) {
        return Err(TextError::Line(line));
    }
    state.fates.0.push(fate)?;
    Ok(())
}

/// The last line.
fn end(line: u32, state: &mut State) -> Result<(), TextError>
    ensures { Steps result line state.new (option_and_then with_end (closed state.old)) }
{
    close(line, state)?;
    if !is_inside(state) {
        return Err(TextError::Line(line));
    }
    state.ended = true;
    Ok(())
}

/// The first line.
fn begin(line: u32, state: &mut State) -> Result<(), TextError>
    ensures { Steps result line state.new (begun state.old) }
{
    if state.begun {
        return Err(TextError::Line(line));
    }
    state.begun = true;
    Ok(())
}

/// An empty list with room for the records of a settle. It has 64 of them at most, unless the text
/// is no router's.
fn with_room(alloc: Global, count: u64) -> Result<List<FastRecord>, AllocError>
    ensures { IfOk result (λ l. l ≡ []) }
{
    let room = count.min(64);
    Ok(List(Vec::with_capacity(alloc, room as usize)?))
}

/// The first line of a call.
fn call(
    line: u32,
    state: &mut State,
    number: u64,
    daemon: DaemonNo,
    request: Request,
    reply: Reply,
) -> Result<(), TextError>
    ensures { Steps result line state.new
        (step line state.old (said.Call number daemon request reply)) }
{
    let current = Current::Call {
        daemon,
        request,
        reply,
        released: Few::default(),
    };
    open(line, state, number, current)
}

/// The line of a packet that was decided under the lock.
fn slow(
    line: u32,
    state: &mut State,
    number: u64,
    lane: LaneNo,
    index: u32,
    look: u32,
    outcome: Outcome,
) -> Result<(), TextError>
    ensures { Steps result line state.new
        (step line state.old (said.Slow number lane index look outcome)) }
{
    let entry = Entry::Slow {
        lane,
        index,
        look,
        flow: Flow::default(),
        outcome,
    };
    add(line, state, number, entry)
}

/// The first line of a settle.
pub fn settle(
    alloc: Global,
    line: u32,
    state: &mut State,
    number: u64,
    lane: LaneNo,
    count: u64,
) -> Result<(), TextError>
    ensures { Steps result line state.new (step line state.old (said.Settle number lane count)) }
{
    let records = with_room(alloc, count)?;
    let current = Current::Settle {
        lane,
        records,
        left: count,
    };
    open(line, state, number, current)
}

/// What a line does.
pub fn step(alloc: Global, line: u32, state: &mut State, read: Line) -> Result<(), TextError>
    ensures { Steps result line state.new (step line state.old read) }
{
    match read {
        Line::History => begin(line, state),
        Line::Skip(item) => skip(line, state, item),
        Line::Call {
            number,
            daemon,
            request,
            reply,
        } => call(line, state, number, daemon, request, reply),
        Line::Released(packet) => release(line, state, packet),
        Line::Slow {
            number,
            lane,
            index,
            look,
            outcome,
        } => slow(line, state, number, lane, index, look, outcome),
        Line::Settle {
            number,
            lane,
            count,
        } => settle(alloc, line, state, number, lane, count),
        Line::Record(fast) => record(line, state, fast),
        Line::Tick { number, daemon, ms } => add(line, state, number, Entry::Tick { daemon, ms }),
        Line::Recv {
            number,
            daemon,
            message,
        } => add(line, state, number, Entry::Recv { daemon, message }),
        Line::Phase { number } => add(line, state, number, Entry::EndPhase),
        Line::Route(item) => route(line, state, item),
        Line::Vif(item) => vif(line, state, item),
        Line::Fate(item) => fate(line, state, item),
        Line::End => end(line, state),
    }
}

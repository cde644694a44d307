//! A history is read from its text.

ghost use Rattle.std.specs.Prelude.{◌≡◌, IfOk};
ghost use Rattle.mr_base.specs.declared.numbers.LaneNo.{LaneNo};
ghost use Rattle.mr_text.specs.Answers.{Gives, GoesOn, Steps, settling};
ghost use Rattle.mr_text.specs.declared.reading_state.State.{State};
ghost use Rattle.mr_text.specs.Text.{text};
ghost use Rattle.mr_text.specs.Walk.{first_state, last_line, line_step, parts_result, walked};
ghost use Rattle.mr_text.specs.Whole.{PartsFit, first_lines};

use crate::history_text::{HistoryText, TextError};
use crate::reading_state::{Current, State};
use crate::settles::take_settle;
use crate::steps::step;
use mr_base::List;
use mr_lines::{Tail, read_line};
use mr_model::FastRecord;
use mr_records::{Kept, take_record};
use mr_words::split_part;
use std::alloc::{AllocError, Global};

/// Before the first line.
fn first_state(alloc: Global) -> State
    ensures { result ≡ first_state }
{
    State {
        begun: false,
        skips: List(Vec::new(alloc)),
        entries: List(Vec::new(alloc)),
        lines: List(Vec::new(alloc)),
        current: Current::Nothing,
        routes: List(Vec::new(alloc)),
        vifs: List(Vec::new(alloc)),
        fates: List(Vec::new(alloc)),
        ended: false,
    }
}

/// Reads records, as many as are due, as long as the next lines are some. They are the most of all
/// lines.
#[inline(never)]
fn take_records<'a>(
    kept: &mut Kept,
    line: &mut u32,
    records: &mut Vec<FastRecord>,
    left: &mut u64,
    text: &'a [u8],
) -> Result<&'a [u8], AllocError>
    ensures { IfOk result (λ rest. (s : State) (lane : LaneNo)
        → GoesOn line.old (settling s lane records.old.items left.old) text.now
        line.new (settling s lane records.new.items left.new) rest.now) }
{
    // a legal settle has at most 64
    records.reserve((*left).min(64) as usize)?;
    let mut rest = text;
    let mut due = *left;
    let mut next = *line;
    'records: while due > 0 {
        match take_record(kept, records, rest)? {
            None => {
                *left = due;
                *line = next;
                return Ok(rest);
            }
            Some(after) => {
                rest = after;
                due -= 1;
                next = next.saturating_add(1);
            }
        }
    }
    *left = due;
    *line = next;
    Ok(rest)
}

/// Reads the records of the current settle, if they are due, as long as the next lines are some.
fn take_due<'a>(
    kept: &mut Kept,
    line: &mut u32,
    state: &mut State,
    text: &'a [u8],
) -> Result<&'a [u8], AllocError>
    ensures { IfOk result (λ rest. GoesOn line.old state.old text.now line.new state.new rest.now) }
{
    match &mut state.current {
        Current::Settle { records, left, .. } => take_records(
            kept,
            line,
            &mut records.0,
            left,
            text,
        ),
        _ => Ok(text),
    }
}

/// What the bytes of any line do.
fn take_line(alloc: Global, line: u32, state: &mut State, bytes: &[u8]) -> Result<(), TextError>
    ensures { Steps result line state.new (line_step line state.old bytes.now) }
{
    match read_line(bytes) {
        None => Err(TextError::Line(line)),
        Some(read) => step(alloc, line, state, read),
    }
}

/// The parts, where `end` was the last line and no byte stands behind its line feed.
fn whole(line: u32, state: State, bytes: &[u8]) -> Result<HistoryText, TextError>
    ensures { Gives result (parts_result (last_line line state bytes.now)) }
{
    if state.ended && bytes.is_empty() {
        Ok(HistoryText {
            skips: state.skips,
            entries: state.entries,
            tail: Tail {
                routes: state.routes,
                vifs: state.vifs,
                fates: state.fates,
            },
            lines: state.lines,
        })
    } else {
        Err(TextError::Line(line))
    }
}

/// Reads the text of a history: its parts, whose text is just these bytes.
///
/// # Errors
///
/// `Line` with the first line outside the grammar, or one more than the number of whole lines where
/// the text ends before `end`, or where its last line has no line feed; `Memory` where memory runs
/// out.
pub fn read_history(alloc: Global, bytes: &[u8]) -> Result<HistoryText, TextError>
    ensures exact { Gives result (walked bytes.now) }
    ensures found { IfOk result (λ t. PartsFit t.skips t.entries t.tail
        × (bytes.now ≡ text t.skips t.entries t.tail) × (t.lines ≡ first_lines t.skips t.entries)) }
{
    let mut state = first_state(alloc);
    let mut line = 1u32;
    let mut rest = bytes;
    let mut kept = Kept::new();
    'lines: loop {
        rest = take_due(&mut kept, &mut line, &mut state, rest)?;
        match take_settle(alloc, &mut line, &mut state, rest)? {
            Some(after) => rest = after,
            None => match split_part(rest, b'\n') {
                (piece, None) => return whole(line, state, piece),
                (piece, Some(after)) => {
                    take_line(alloc, line, &mut state, piece)?;
                    line = line.saturating_add(1);
                    rest = after;
                }
            },
        }
    }
}

//! The first line of a settle. A history has one for each 64 records or less, so it is read with no
//! look at the other forms of lines.

ghost use Rattle.std.specs.Prelude.{◌≡◌, ◌++◌, ◌∷◌, IfSome, codes};
ghost use Rattle.mr_lines.specs.Fit.{LineFits};
ghost use Rattle.mr_lines.specs.declared.line.Line.TheVariants as said;
ghost use Rattle.mr_text.specs.Answers.{Turns};
ghost use Rattle.mr_text.specs.Text.{line_text};

use crate::history_text::TextError;
use crate::reading_state::State;
use crate::steps::settle;
use mr_base::LaneNo;
use mr_records::short_number;
use std::alloc::Global;

/// What is behind a byte, if that is first.
#[inline(always)]
fn past_byte(text: &[u8], byte: u8) -> Option<&[u8]>
    ensures { IfSome result (λ rest. text.now ≡ byte ∷ rest.now) }
{
    match text {
        [b, rest @ ..] if *b == byte => Some(rest),
        _ => None,
    }
}

/// What is behind the word `settle` and the spaces round it.
#[inline(always)]
fn past_word(text: &[u8]) -> Option<&[u8]>
    ensures { IfSome result (λ rest. text.now ≡ codes " settle " ++ rest.now) }
{
    match text {
        [b' ', b's', b'e', b't', b't', b'l', b'e', b' ', rest @ ..] => Some(rest),
        _ => None,
    }
}

/// A settle's line in front of a text: its number, its lane, how many records follow, and the bytes
/// behind it. `None` where no such line is first, or a number of it has more than nine digits.
#[inline(always)]
fn settle_line(text: &[u8]) -> Option<(u32, LaneNo, u32, &[u8])>
    ensures line { IfSome result (λ x. text.now ≡ line_text (said.Settle x.0 x.1 x.2) ++ x.3.now) }
    ensures fits { IfSome result (λ x. LineFits (said.Settle x.0 x.1 x.2)) }
{
    let (number, rest) = short_number(text)?;
    let rest = past_word(rest)?;
    let (lane, rest) = short_number(rest)?;
    let rest = past_byte(rest, b' ')?;
    let (count, rest) = short_number(rest)?;
    let rest = past_byte(rest, b'\n')?;
    Some((number, LaneNo(lane), count, rest))
}

/// Reads the line of a settle, if one is in front of a text, and answers the bytes behind it.
pub fn take_settle<'a>(
    alloc: Global,
    line: &mut u32,
    state: &mut State,
    text: &'a [u8],
) -> Result<Option<&'a [u8]>, TextError>
    ensures { Turns (λ r. r.now) result line.old state.old text.now line.new state.new }
{
    let Some((number, lane, count, rest)) = settle_line(text) else {
        return Ok(None);
    };
    match settle(alloc, *line, state, number as u64, lane, count as u64) {
        Err(error) => Err(error),
        Ok(()) => {
            *line = line.saturating_add(1);
            Ok(Some(rest))
        }
    }
}

//! Records taken off the front of a text.

ghost use Rattle.std.specs.Prelude.{◌≡◌, ◌++◌, IfOk, IfSome};
ghost use Rattle.mr_lines.specs.Fit.{RecordFits};
ghost use Rattle.mr_lines.specs.Forms.{line_bytes};
ghost use Rattle.mr_lines.specs.Lines.{record_words};
ghost use Rattle.mr_lines.specs.Reading.{record_of};
ghost use Rattle.mr_records.specs.Taking.{Takes, TakesOnto, first_record};
ghost use Rattle.mr_records.specs.Ways.{index_bytes, look_bytes};
ghost use Rattle.mr_words.specs.Parts.{parts_of};

use crate::heads::Heads;
use crate::numbers::short_number;
use crate::way::Way;
use crate::ways::Ways;
use crate::writing::way_of;
use mr_lines::read_record;
use mr_model::{FastRecord, Flow};
use mr_words::split_part;
use std::alloc::AllocError;

/// What a reader keeps in mind of the records that it took: their ways, and the last head.
#[derive(Drop)]
pub struct Kept {
    ways: Ways,
    heads: Heads,
}

impl Kept {
    /// Before the first record.
    pub fn new() -> Kept {
        Kept {
            ways: Ways::new(),
            heads: Heads::new(),
        }
    }
}

/// `- INDEX`, and the bytes behind it.
#[inline(always)]
fn index(text: &[u8]) -> Option<(u32, &[u8])>
    ensures { IfSome result (λ x. text.now ≡ index_bytes x.0 ++ x.1.now) }
{
    let [b'-', b' ', rest @ ..] = text else {
        return None;
    };
    let (number, rest) = short_number(rest)?;
    Some((number, rest))
}

/// ` LOOK`, and the bytes behind it.
#[inline(always)]
fn look(text: &[u8]) -> Option<(u32, &[u8])>
    ensures { IfSome result (λ x. text.now ≡ look_bytes x.0 ++ x.1.now) }
{
    let [b' ', rest @ ..] = text else {
        return None;
    };
    let (number, rest) = short_number(rest)?;
    Some((number, rest))
}

/// A record of the fields that its line says.
#[inline(always)]
fn record(index: u32, look: u32, way: Way) -> FastRecord
    ensures is { result ≡ record_of (index, look) (way.entry, (way.input, way.outs)) }
    ensures fits { RecordFits result }
{
    FastRecord {
        index,
        look,
        entry: way.entry,
        input: way.input,
        outs: way.outs,
        flow: Flow::default(),
    }
}

/// The record in front of a text, if it has the hundreds of the last index, the last look and a
/// known way, and the bytes behind its line.
#[inline(always)]
fn next_record<'a>(kept: &Kept, text: &'a [u8]) -> Option<(FastRecord, &'a [u8])>
    ensures line { IfSome result (λ x. text.now ≡ line_bytes (record_words x.0) ++ x.1.now) }
    ensures fits { IfSome result (λ x. RecordFits x.0) }
{
    let (index, rest) = kept.heads.index(text)?;
    let (look, rest) = kept.heads.look(rest)?;
    let known = kept.ways.by_bytes(rest);
    let left = known.behind(rest)?;
    Some((record(index, look, known.way), left))
}

/// The record in front of a text, if its way is known, and the bytes behind its line. Its head is
/// kept.
#[inline(always)]
fn known_record<'a>(kept: &mut Kept, text: &'a [u8]) -> Option<(FastRecord, &'a [u8])>
    ensures line { IfSome result (λ x. text.now ≡ line_bytes (record_words x.0) ++ x.1.now) }
    ensures fits { IfSome result (λ x. RecordFits x.0) }
{
    let (index, rest) = index(text)?;
    kept.heads.keep_index(index, text, rest);
    let (look, behind) = look(rest)?;
    kept.heads.keep_look(look, rest, behind);
    let known = kept.ways.by_bytes(behind);
    let left = known.behind(behind)?;
    Some((record(index, look, known.way), left))
}

/// The record in front of a text, if there is one, and the bytes behind its line. Its way is kept.
fn any_record<'a>(ways: &mut Ways, text: &'a [u8]) -> Option<(FastRecord, &'a [u8])>
    ensures { Takes (λ r. r.now) result (first_record (parts_of 10 text.now)) }
{
    let (line, rest) = split_part(text, b'\n');
    let rest = rest?;
    let record = read_record(line)?;
    ways.keep_by_bytes(way_of(&record));
    Some((record, rest))
}

/// The same as `take_record`, whatever is kept.
fn take_any<'a>(
    ways: &mut Ways,
    records: &mut Vec<FastRecord>,
    text: &'a [u8],
) -> Result<Option<&'a [u8]>, AllocError>
    ensures { IfOk result (λ rest. TakesOnto (λ r. r.now) records.old.items records.new.items rest
        (first_record (parts_of 10 text.now))) }
{
    let Some((record, rest)) = any_record(ways, text) else {
        return Ok(None);
    };
    records.push(record)?;
    Ok(Some(rest))
}

/// The same as `take_record`, whether or not the head is that of a next record.
#[inline(never)]
fn take_other<'a>(
    kept: &mut Kept,
    records: &mut Vec<FastRecord>,
    text: &'a [u8],
) -> Result<Option<&'a [u8]>, AllocError>
    ensures { IfOk result (λ rest. TakesOnto (λ r. r.now) records.old.items records.new.items rest
        (first_record (parts_of 10 text.now))) }
{
    match known_record(kept, text) {
        Some((record, rest)) => {
            records.push(record)?;
            Ok(Some(rest))
        }
        None => take_any(&mut kept.ways, records, text),
    }
}

/// Puts the record in front of a text behind others, and answers the bytes behind its line. Where
/// the first line is no record, or has no line feed, the answer is `None` and nothing is put.
///
/// # Errors
///
/// [`AllocError`] where memory runs out.
#[inline(always)]
pub fn take_record<'a>(
    kept: &mut Kept,
    records: &mut Vec<FastRecord>,
    text: &'a [u8],
) -> Result<Option<&'a [u8]>, AllocError>
    ensures { IfOk result (λ rest. TakesOnto (λ r. r.now) records.old.items records.new.items rest
        (first_record (parts_of 10 text.now))) }
{
    match next_record(kept, text) {
        Some((record, rest)) => {
            records.push(record)?;
            Ok(Some(rest))
        }
        None => take_other(kept, records, text),
    }
}

//! The line of a record is put together in an array, from its end, and behind the text at once.

ghost use Rattle.std.specs.Prelude.{◌≡◌, ◌+◌, ◌-◌, ◌≤◌, ◌++◌, ◌∷◌, [], drop, length, take, OnOk};
ghost use Rattle.mr_lines.specs.Forms.{line_bytes};
ghost use Rattle.mr_lines.specs.Lines.{record_words};
ghost use Rattle.mr_records.specs.Ways.{head_bytes, way_bytes, way_of};

use crate::known::Known;
use crate::rows::{put_part, put_way};
use crate::way::Way;
use crate::ways::Ways;
use mr_model::FastRecord;
use std::alloc::AllocError;

/// The way of a record's packet.
#[inline(always)]
pub fn way_of(packet: &FastRecord) -> Way
    ensures { result ≡ way_of packet.now }
{
    Way {
        entry: packet.entry,
        input: packet.input,
        outs: packet.outs,
    }
}

/// Puts `- INDEX LOOK`, and answers where it begins.
#[inline(always)]
fn put_head<const N: usize>(row: &mut [u8; N], end: usize, packet: &FastRecord) -> usize
    requires { (23 ≤ end) × (end ≤ N) }
    ensures text { drop result row.new
        ≡ head_bytes packet.now.index packet.now.look ++ drop end row.old }
    ensures start { result + length (head_bytes packet.now.index packet.now.look) ≡ end }
{
    let look = put_part(row, end, b' ', packet.look);
    let index = put_part(row, look, b' ', packet.index);
    row[index - 1] = b'-';
    index - 1
}

/// Puts a record's line at the end of a row, and answers where it begins.
#[inline(always)]
fn put_record(row: &mut [u8; 144], packet: &FastRecord) -> usize
    ensures text { drop result row.new ≡ line_bytes (record_words packet.now) }
    ensures within { result ≤ 144 }
{
    let at = put_way(row, way_of(packet));
    put_head(row, at, packet)
}

/// Puts the bytes of a row from one index to another behind a text. A fixed number of bytes is
/// copied, and what is too much is taken off again: this is quicker than to copy a number of bytes
/// that varies.
#[inline(always)]
fn write_part(out: &mut Vec<u8>, row: &[u8; 80], from: usize, to: usize) -> Result<(), AllocError>
    requires { (from ≤ 24) × (from ≤ to) × (to ≤ 56) }
    ensures { OnOk result (out.new.items ≡ out.old.items ++ take (to - from) (drop from row.now)) }
{
    let before = out.len();
    out.extend_from_slice(&row[from..from + 56])?;
    out.truncate(before + (to - from));
    Ok(())
}

/// Puts a way's bytes, from 24 on.
#[inline(always)]
fn put_known(row: &mut [u8; 80], known: &Known)
    ensures { take 32 (drop 24 row.new) ≡ known.now.front.row }
{
    row[24..56].copy_from_slice(&known.front.row);
}

/// Puts the line of a record whose way is known.
#[inline(always)]
fn write_known(out: &mut Vec<u8>, packet: &FastRecord, known: &Known) -> Result<(), AllocError>
    requires { known.now.way ≡ way_of packet.now }
    ensures { OnOk result (out.new.items ≡ out.old.items ++ line_bytes (record_words packet.now)) }
{
    let mut row = [0u8; 80];
    put_known(&mut row, known);
    let at = put_head(&mut row, 24, packet);
    write_part(out, &row, at, 24 + known.front.count as usize)
}

/// Puts the line of any record, and keeps its way.
#[inline(never)]
fn write_new(out: &mut Vec<u8>, ways: &mut Ways, packet: &FastRecord) -> Result<(), AllocError>
    ensures { OnOk result (out.new.items ≡ out.old.items ++ line_bytes (record_words packet.now)) }
{
    ways.keep_by_entry(way_of(packet));
    let mut row = [0u8; 144];
    let at = put_record(&mut row, packet);
    out.extend_from_slice(&row[at..])?;
    Ok(())
}

/// Puts the line of a packet that was forwarded without the lock.
///
/// # Errors
///
/// [`AllocError`] where memory runs out; a part of the line may stand then.
#[inline(always)]
pub fn write_record(
    out: &mut Vec<u8>,
    ways: &mut Ways,
    packet: &FastRecord,
) -> Result<(), AllocError>
    ensures { OnOk result (out.new.items ≡ out.old.items ++ line_bytes (record_words packet.now)) }
{
    let known = *ways.by_entry(packet.entry);
    if known.way == way_of(packet) {
        write_known(out, packet, &known)
    } else {
        write_new(out, ways, packet)
    }
}

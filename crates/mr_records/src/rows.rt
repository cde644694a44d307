//! Words that are put in front of what stands in an array, so that a line grows from its end. The
//! array has room for the longest line of a record, whose mask may name all 32 vifs.

ghost use Rattle.std.specs.Prelude.{◌≡◌, ◌+◌, ◌^◌, ◌<◌, ◌≤◌, ◌++◌, ◌∷◌, [], if◌then◌else◌, length};
ghost use Rattle.std.specs.Prelude.{drop, flat_map, filter, decimal};
ghost use Rattle.mr_model.specs.Ending.{indexes};
ghost use Rattle.mr_model.specs.Verdict.{is_in};
ghost use Rattle.mr_lines.specs.Forms.{mask, vif_or_none};
ghost use Rattle.mr_records.specs.Ways.{way_bytes};

use crate::way::Way;
use itoa::write_digits;
use mr_base::Mask;

/// Puts a byte and a number, so that they end at `end`, and answers where they begin.
#[inline(always)]
pub fn put_part<const N: usize>(row: &mut [u8; N], end: usize, byte: u8, number: u32) -> usize
    requires { (11 ≤ end) × (end ≤ N) }
    ensures text { drop result row.new ≡ byte ∷ decimal number ++ drop end row.old }
    ensures start { result + (1 + length (decimal number)) ≡ end }
    ensures within { end ≤ result + 11 }
{
    let at = write_digits(u64::from(number), row, end) - 1;
    row[at] = byte;
    at
}

/// Puts a space and `-`.
#[inline(always)]
fn put_none(row: &mut [u8; 144], end: usize) -> usize
    requires { (2 ≤ end) × (end ≤ 144) }
    ensures text { drop result row.new ≡ 32 ∷ 45 ∷ drop end row.old }
    ensures start { result + 2 ≡ end }
{
    row[end - 1] = b'-';
    row[end - 2] = b' ';
    end - 2
}

/// Puts a comma and a vif, if it is in a mask.
#[inline(always)]
fn put_if_in(row: &mut [u8; 144], end: usize, outs: Mask, vif: u32) -> usize
    requires { (vif < 32) × (11 ≤ end) × (end ≤ 144) }
    ensures text { drop result row.new
        ≡ (if is_in outs vif then 44 ∷ decimal vif else []) ++ drop end row.old }
    ensures within { (result ≤ end) × (end ≤ result + 3) }
{
    if (outs.0 >> vif) % 2 == 1 {
        put_part(row, end, b',', vif)
    } else {
        end
    }
}

/// How many binary digits a number has.
#[inline(always)]
fn digits_of(bits: u32) -> u32
    ensures above { bits < 2 ^ result }
    ensures within { result ≤ 32 }
{
    32 - bits.leading_zeros()
}

/// Puts the vifs of a mask, each behind a comma. All of them are below `top`.
#[inline(always)]
fn put_items(row: &mut [u8; 144], end: usize, outs: Mask, top: u32) -> usize
    requires room { (110 ≤ end) × (end ≤ 144) }
    requires top { (outs.0 < 2 ^ top) × (top ≤ 32) }
    ensures text { drop result row.new
        ≡ flat_map (λ v. 44 ∷ decimal v) (filter (is_in outs) indexes) ++ drop end row.old }
    ensures within { (result ≤ end) × (end ≤ result + 96) }
{
    let mut at = end;
    let mut vif = top;
    while vif > 0 {
        vif -= 1;
        at = put_if_in(row, at, outs, vif);
    }
    at
}

/// Puts a space, and the vifs of a mask or `-`.
#[inline(always)]
#[tactic(auto, unfolding(mr_lines::specs::Forms::mask))]
pub fn put_mask(row: &mut [u8; 144], end: usize, outs: Mask) -> usize
    requires { (110 ≤ end) × (end ≤ 144) }
    ensures text { drop result row.new ≡ 32 ∷ mask outs ++ drop end row.old }
    ensures within { (result ≤ end) × (end ≤ result + 96) }
{
    if outs.0 == 0 {
        return put_none(row, end);
    }
    let top = digits_of(outs.0);
    let at = put_items(row, end, outs, top);
    row[at] = b' ';
    at
}

/// Puts a space, and a vif or `-`.
#[inline(always)]
#[tactic(auto, unfolding(mr_lines::specs::Forms::vif_or_none))]
pub fn put_vif_or_none(row: &mut [u8; 144], end: usize, vif: Option<u8>) -> usize
    requires { (11 ≤ end) × (end ≤ 144) }
    ensures text { drop result row.new ≡ 32 ∷ vif_or_none vif ++ drop end row.old }
    ensures within { (result ≤ end) × (end ≤ result + 11) }
{
    match vif {
        Some(vif) => put_part(row, end, b' ', u32::from(vif)),
        None => put_none(row, end),
    }
}

/// Puts the line feed.
#[inline(always)]
fn put_end(row: &mut [u8; 144])
    ensures { drop 143 row.new ≡ 10 ∷ [] }
{
    row[143] = b'\n';
}

/// Puts a way at the end of a row, and answers where it begins.
#[inline(always)]
pub fn put_way(row: &mut [u8; 144], way: Way) -> usize
    ensures text { drop result row.new ≡ way_bytes way }
    ensures within { (23 ≤ result) × (result ≤ 144) }
{
    put_end(row);
    let outs = put_mask(row, 143, way.outs);
    let input = put_vif_or_none(row, outs, way.input);
    put_part(row, input, b' ', way.entry)
}

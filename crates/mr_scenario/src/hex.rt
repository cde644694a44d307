//! Bytes that hex digits spell.

ghost use Rattle.std.specs.Prelude.{◌≡◌, ◌+◌, ◌*◌, option_and_then, option_map, unwrap_or};
ghost use Rattle.mr_scenario.specs.Answers.{Reads};
ghost use Rattle.mr_scenario.specs.Kinds.{bad};
ghost use Rattle.mr_scenario.specs.Forms.{hex_digit, hex_word, raw_word};
ghost use Rattle.mr_scenario.specs.declared.stop.Kind.TheVariants as kind;
ghost use Rattle.mr_scenario.specs.declared.stop.Stop.TheVariants as stop;

use crate::stop::{Kind, Stop, bad};
use mr_base::List;
use std::alloc::Global;

/// The value of each byte as a hex digit; 256 for one that is none.
#[rattlefmt::skip]
const DIGITS: [u16; 256] = [
    256, 256, 256, 256, 256, 256, 256, 256, 256, 256, 256, 256, 256, 256, 256, 256,
    256, 256, 256, 256, 256, 256, 256, 256, 256, 256, 256, 256, 256, 256, 256, 256,
    256, 256, 256, 256, 256, 256, 256, 256, 256, 256, 256, 256, 256, 256, 256, 256,
    0, 1, 2, 3, 4, 5, 6, 7, 8, 9, 256, 256, 256, 256, 256, 256,
    256, 10, 11, 12, 13, 14, 15, 256, 256, 256, 256, 256, 256, 256, 256, 256,
    256, 256, 256, 256, 256, 256, 256, 256, 256, 256, 256, 256, 256, 256, 256, 256,
    256, 10, 11, 12, 13, 14, 15, 256, 256, 256, 256, 256, 256, 256, 256, 256,
    256, 256, 256, 256, 256, 256, 256, 256, 256, 256, 256, 256, 256, 256, 256, 256,
    256, 256, 256, 256, 256, 256, 256, 256, 256, 256, 256, 256, 256, 256, 256, 256,
    256, 256, 256, 256, 256, 256, 256, 256, 256, 256, 256, 256, 256, 256, 256, 256,
    256, 256, 256, 256, 256, 256, 256, 256, 256, 256, 256, 256, 256, 256, 256, 256,
    256, 256, 256, 256, 256, 256, 256, 256, 256, 256, 256, 256, 256, 256, 256, 256,
    256, 256, 256, 256, 256, 256, 256, 256, 256, 256, 256, 256, 256, 256, 256, 256,
    256, 256, 256, 256, 256, 256, 256, 256, 256, 256, 256, 256, 256, 256, 256, 256,
    256, 256, 256, 256, 256, 256, 256, 256, 256, 256, 256, 256, 256, 256, 256, 256,
    256, 256, 256, 256, 256, 256, 256, 256, 256, 256, 256, 256, 256, 256, 256, 256,
];

/// The value of a hex digit; 256 for a byte that is none.
fn digit(b: u8) -> u16
    ensures { result ≡ unwrap_or (hex_digit b) 256 }
{
    DIGITS[usize::from(b)]
}

/// The byte that two hex digits spell.
fn byte_of(high: u8, low: u8) -> Option<u8>
    ensures { result
        ≡ option_and_then (λ h. option_map (λ l. h * 16 + l) (hex_digit low)) (hex_digit high) }
{
    let value = digit(high) * 16 + digit(low);
    if value < 256 { Some(value as u8) } else { None }
}

/// What is wrong with a word that is refused as hex digits.
fn bad_hex(place: u32, word: &[u8]) -> Stop
    ensures { result ≡ stop.Bad (bad place word.now kind.Hex) }
{
    Stop::Bad(bad(place, word, Kind::Hex))
}

/// The bytes that the word of hex digits at a place spells, two digits each.
#[inline(never)]
pub fn hex_word(alloc: Global, place: u32, word: &[u8]) -> Result<List<u8>, Stop>
    ensures { Reads (λ l. l) result (hex_word place word.now) }
{
    if word.len() > 131_070 {
        return Err(bad_hex(place, word));
    }
    if word.len() % 2 != 0 {
        return Err(bad_hex(place, word));
    }
    let (pairs, _) = word.as_chunks::<2>();
    let mut bytes = Vec::with_capacity(alloc, pairs.len())?;
    for pair in pairs {
        let Some(byte) = byte_of(pair[0], pair[1]) else {
            return Err(bad_hex(place, word));
        };
        bytes.push_reserved(byte);
    }
    Ok(List(bytes))
}

/// The bytes of a raw option: hex digits, or `-` for none.
pub fn raw_word(alloc: Global, place: u32, word: &[u8]) -> Result<List<u8>, Stop>
    ensures { Reads (λ l. l) result (raw_word place word.now) }
{
    if word == b"-".as_slice() {
        return Ok(List(Vec::new(alloc)));
    }
    hex_word(alloc, place, word)
}

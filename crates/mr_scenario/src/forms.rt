//! The forms of single words: numbers, addresses, names of devices, local fields, thresholds.

ghost use Rattle.std.specs.Prelude.{◌≡◌, ◌≤◌, false, length, replicate, IfOk};
ghost use Rattle.mr_scenario.specs.Forms.{number_in, number_word, positive_word, address_word};
ghost use Rattle.mr_scenario.specs.Forms.{is_taken, device_of, local_word, thresholds_from};
ghost use Rattle.mr_words.specs.Words.{words_of};

use crate::scenario::Named;
use crate::stop::{Kind, Mistake, bad, in_word};
use mr_words::{address_of, item_of, next_word, number_of};

/// The number that a word spells, if it is at least and at most so much.
pub fn number_in(least: u32, most: u32, word: &[u8]) -> Option<u32>
    ensures { result ≡ number_in least most word.now }
{
    let number = number_of(word, most)?;
    if least <= number { Some(number) } else { None }
}

/// The number that the word at a place spells, at most `most`.
pub fn number_word(place: u32, most: u32, word: &[u8]) -> Result<u32, Mistake>
    ensures value { result ≡ number_word place most word.now }
    ensures within { IfOk result (λ n. n ≤ most) }
{
    match number_of(word, most) {
        Some(number) => Ok(number),
        None => Err(bad(place, word, Kind::Number { least: 0, most })),
    }
}

/// The number that the word at a place spells, 1 to `most`.
pub fn positive_word(place: u32, most: u32, word: &[u8]) -> Result<u32, Mistake>
    ensures { result ≡ positive_word place most word.now }
{
    match number_in(1, most, word) {
        Some(number) => Ok(number),
        None => Err(bad(place, word, Kind::Number { least: 1, most })),
    }
}

/// The address that the word at a place spells.
pub fn address_word(place: u32, word: &[u8]) -> Result<u32, Mistake>
    ensures { result ≡ address_word place word.now }
{
    match address_of(word) {
        Some(addr) => Ok(addr),
        None => Err(bad(place, word, Kind::Address)),
    }
}

/// Whether a device has this name already.
pub fn is_taken(devices: &[Named], word: &[u8]) -> bool
    ensures { result ≡ is_taken devices.now word.now }
{
    devices.iter().any(|d| d.name.as_str().as_bytes() == word)
}

/// The number of the device with this name, from 1.
pub fn device_of(word: &[u8], devices: &[Named]) -> Option<u32>
    requires { length devices.now ≤ 64 }
    ensures { result ≡ device_of word.now devices.now }
{
    let mut number = 1u32;
    let mut rest = devices;
    'devices: while let [device, after @ ..] = rest {
        if device.name.as_str().as_bytes() == word {
            return Some(number);
        }
        number += 1;
        rest = after;
    }
    None
}

/// A local field: `@N`, else an address as a number.
pub fn local_word(place: u32, word: &[u8]) -> Result<u32, Mistake>
    ensures { result ≡ local_word place word.now }
{
    match word {
        [b'@', number @ ..] => number_word(place, 4_294_967_295, number),
        _ => address_word(place, word),
    }
}

/// The thresholds that words `V:T` give, each vif once; 0 for a vif that is not given. The first
/// stands at place 6.
pub fn thresholds(words: &[u8]) -> Result<[u8; 32], Mistake>
    ensures { result
        ≡ thresholds_from 6 (replicate 32 0) (replicate 32 false) (words_of words.now) }
{
    let mut place = 6u32;
    let mut ttls = [0u8; 32];
    let mut seen = [false; 32];
    let mut rest = words;
    'words: while let Some((word, after)) = next_word(rest) {
        let Some((vif, ttl)) = item_of(word) else {
            return Err(bad(place, word, Kind::Threshold));
        };
        let i = usize::from(vif);
        if seen[i] {
            return Err(in_word(place, Kind::Threshold));
        }
        ttls[i] = ttl;
        seen[i] = true;
        place += 1;
        rest = after;
    }
    Ok(ttls)
}

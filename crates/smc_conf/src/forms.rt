//! The forms of single words.

ghost use Rattle.std.specs.Prelude.{◌≡◌, ◌≤◌, true, IfOk, IfSome, length, option_copied};
ghost use Rattle.mr_words.specs.Names.{is_clean};
ghost use Rattle.mr_words.specs.Parts.{parts_left};
ghost use Rattle.mr_words.specs.Words.{words_of};
ghost use Rattle.smc_conf.specs.Answers.{Gives};
ghost use Rattle.smc_conf.specs.Forms.{first_of, keyword, interface_word, prefix_of, length_in};
ghost use Rattle.smc_conf.specs.Forms.{source_word, group_address, group_word, threshold_word};
ghost use Rattle.smc_conf.specs.Kinds.{bad};

use crate::conf::Prefix;
use crate::stop::Kind;
use mr_base::Addr;
use mr_words::{address_of, is_clean, is_device_name, next_word, number_of, split_part};

/// The greatest length of a prefix, in bits.
const MOST_BITS: u32 = 32;

/// What is wrong with a refused word: a byte that may not stand in it comes before all else.
pub fn bad(word: &[u8], kind: Kind) -> Kind
    ensures { result ≡ bad word.now kind }
{
    if is_clean(word) { kind } else { Kind::Word }
}

/// The first word, and what stands behind it.
pub fn first_of(words: &[u8]) -> Result<(&[u8], &[u8]), Kind>
    ensures { Gives (λ x. (x.0.now, words_of x.1.now)) result (first_of (words_of words.now)) }
{
    next_word(words).ok_or(Kind::Word)
}

/// What stands behind a first word that has to be this one.
pub fn keyword<'a>(name: &[u8], words: &'a [u8]) -> Result<&'a [u8], Kind>
    ensures { Gives (λ x. words_of x.now) result (keyword name.now (words_of words.now)) }
{
    let (word, rest) = first_of(words)?;
    if word != name {
        return Err(Kind::Word);
    }
    Ok(rest)
}

/// The name of an interface as the first word, and what stands behind it.
pub fn interface_word(words: &[u8]) -> Result<(&[u8], &[u8]), Kind>
    ensures name { Gives (λ x. (x.0.now, words_of x.1.now)) result
        (interface_word (words_of words.now)) }
    ensures clean { IfOk result (λ x. is_clean x.0.now ≡ true) }
    ensures short { IfOk result (λ x. length x.0.now ≤ 255) }
{
    let (name, rest) = first_of(words)?;
    if !is_device_name(name) {
        return Err(bad(name, Kind::Interface));
    }
    Ok((name, rest))
}

/// The prefix of an address: its bits behind the first `len` are zeros.
fn prefix_of(addr: u32, len: u8) -> Prefix
    requires { len ≤ 32 }
    ensures { result ≡ prefix_of addr len }
{
    let size = 1_u64 << (MOST_BITS - u32::from(len));
    Prefix {
        addr: Addr((u64::from(addr) / size * size) as u32),
        len,
    }
}

/// The length of a prefix: what stands behind a slash, else all 32 bits.
fn length_in(rest: Option<&[u8]>) -> Option<u8>
    ensures value { result ≡ length_in (parts_left 47 (option_copied rest.entry)) }
    ensures within { IfSome result (λ n. n ≤ 32) }
{
    let Some(rest) = rest else {
        return Some(32);
    };
    let (length, more) = split_part(rest, b'/');
    if more.is_some() {
        return None;
    }
    let length = number_of(length, MOST_BITS)?;
    Some(length as u8)
}

/// The prefix that a word `A` or `A/LEN` spells.
///
/// # Errors
///
/// [`Kind::Word`] where a byte may not stand in a word; else [`Kind::Address`] where the front is
/// no address, and [`Kind::Prefix`] where the length is none of 0 to 32.
pub fn source_word(word: &[u8]) -> Result<Prefix, Kind>
    ensures { result ≡ source_word word.now }
{
    let (front, rest) = split_part(word, b'/');
    let Some(addr) = address_of(front) else {
        return Err(bad(word, Kind::Address));
    };
    match length_in(rest) {
        Some(len) => Ok(prefix_of(addr, len)),
        None => Err(bad(word, Kind::Prefix)),
    }
}

/// The address of a group, in 224.0.0.0/4.
fn group_address(word: &[u8]) -> Option<u32>
    ensures { result ≡ group_address word.now }
{
    let addr = address_of(word)?;
    if addr / 0x1000_0000 == 0xE {
        Some(addr)
    } else {
        None
    }
}

/// The prefix of groups that a word `G` or `G/LEN` spells.
///
/// # Errors
///
/// [`Kind::Word`] where a byte may not stand in a word; else [`Kind::Address`] where the front is
/// no address of a group, and [`Kind::Prefix`] where the length is none of 0 to 32.
pub fn group_word(word: &[u8]) -> Result<Prefix, Kind>
    ensures { result ≡ group_word word.now }
{
    let (front, rest) = split_part(word, b'/');
    let Some(addr) = group_address(front) else {
        return Err(bad(word, Kind::Address));
    };
    match length_in(rest) {
        Some(len) => Ok(prefix_of(addr, len)),
        None => Err(bad(word, Kind::Prefix)),
    }
}

/// The threshold that a word spells, 1 to 255.
pub fn threshold_word(word: &[u8]) -> Result<u8, Kind>
    ensures { result ≡ threshold_word word.now }
{
    match number_of(word, 255) {
        Some(number) if number >= 1 => Ok(number as u8),
        _ => Err(bad(word, Kind::Threshold)),
    }
}

//! All operations of daemons: each by the words behind its own. The number of words is tested
//! first, then who asks.

ghost use Rattle.std.specs.Prelude.{◌≡◌};
ghost use Rattle.mr_scenario.specs.Answers.{Reads};
ghost use Rattle.mr_scenario.specs.Requests.{raw_script, tick_script, recv_script, start_script};
ghost use Rattle.mr_scenario.specs.Requests.{poll_script, joined_from, words_script};
ghost use Rattle.mr_scenario.specs.Requests.{smcroute_script, script_of};
ghost use Rattle.mr_words.specs.Words.{words_of};

use crate::counting::{no_words, one_word, some_words, two_words};
use crate::forms::{number_word, positive_word};
use crate::hex::raw_word;
use crate::requests::{by_hand, by_smcroute, request_of, value};
use crate::scenario::Script;
use crate::stop::{Kind, Mistake, Stop, in_line};
use mr_base::{List, MOST_UNREAD};
use mr_words::{is_clean, next_word};
use std::alloc::Global;

/// `raw OPT HEX`
fn raw_script(alloc: Global, who: Result<bool, Mistake>, words: &[u8]) -> Result<Script, Stop>
    ensures { Reads (λ s. s) result (raw_script who (words_of words.now)) }
{
    let (opt, digits) = two_words(words).ok_or(in_line(Kind::Word))?;
    by_hand(who)?;
    let opt = number_word(3, 65_535, opt)?;
    let bytes = raw_word(alloc, 4, digits)?;
    Ok(Script::Raw {
        opt: opt as u16,
        bytes,
    })
}

/// `tick MS`, for every sort of daemon
fn tick_script(who: Result<bool, Mistake>, words: &[u8]) -> Result<Script, Mistake>
    ensures { result ≡ tick_script who (words_of words.now) }
{
    let ms = one_word(words).ok_or(in_line(Kind::Word))?;
    who?;
    let ms = number_word(3, 4_294_967_295, ms)?;
    Ok(Script::Tick(ms))
}

/// `recv`
fn recv_script(who: Result<bool, Mistake>, words: &[u8]) -> Result<Script, Mistake>
    ensures { result ≡ recv_script who (words_of words.now) }
{
    no_words(words).ok_or(in_line(Kind::Word))?;
    by_hand(who)?;
    Ok(Script::Recv)
}

/// `start`
fn start_script(who: Result<bool, Mistake>, words: &[u8]) -> Result<Script, Mistake>
    ensures { result ≡ start_script who (words_of words.now) }
{
    no_words(words).ok_or(in_line(Kind::Word))?;
    by_smcroute(who)?;
    Ok(Script::Start)
}

/// `poll N`, 1 to 64
fn poll_script(who: Result<bool, Mistake>, words: &[u8]) -> Result<Script, Mistake>
    ensures { result ≡ poll_script who (words_of words.now) }
{
    let number = one_word(words).ok_or(in_line(Kind::Word))?;
    by_smcroute(who)?;
    Ok(Script::Poll(positive_word(3, MOST_UNREAD as u32, number)?))
}

/// A first word and further ones, parted by one space.
fn joined(alloc: Global, first: &[u8], words: &[u8]) -> Result<List<u8>, Stop>
    ensures { Reads (λ l. l) result (joined_from first.now (words_of words.now)) }
{
    let mut text = Vec::from_slice(alloc, first)?;
    let mut rest = words;
    'words: while let Some((word, after)) = next_word(rest) {
        if !is_clean(word) {
            return Err(Stop::Bad(in_line(Kind::Word)));
        }
        text.push(b' ')?;
        text.extend_from_slice(word)?;
        rest = after;
    }
    Ok(List(text))
}

/// `smc WORDS`: one word or more
fn words_script(alloc: Global, who: Result<bool, Mistake>, words: &[u8]) -> Result<Script, Stop>
    ensures { Reads (λ s. s) result (words_script who (words_of words.now)) }
{
    let (first, rest) = some_words(words).ok_or(in_line(Kind::Word))?;
    by_smcroute(who)?;
    if !is_clean(first) {
        return Err(Stop::Bad(in_line(Kind::Word)));
    }
    let text = joined(alloc, first, rest)?;
    Ok(Script::Words(text))
}

/// The operations of smcroute daemons alone, and all requests.
fn smcroute_script(
    alloc: Global,
    op: &[u8],
    who: Result<bool, Mistake>,
    words: &[u8],
) -> Result<Script, Stop>
    ensures { Reads (λ s. s) result (smcroute_script op.now who (words_of words.now)) }
{
    if op == b"smc".as_slice() {
        words_script(alloc, who, words)
    } else if op == b"start".as_slice() {
        Ok(start_script(who, words)?)
    } else if op == b"poll".as_slice() {
        Ok(poll_script(who, words)?)
    } else {
        Ok(Script::Ask(request_of(op, who, words)?))
    }
}

/// All operations.
pub fn script_of(
    alloc: Global,
    op: &[u8],
    who: Result<bool, Mistake>,
    words: &[u8],
) -> Result<Script, Stop>
    ensures { Reads (λ s. s) result (script_of op.now who (words_of words.now)) }
{
    if op == b"raw".as_slice() {
        raw_script(alloc, who, words)
    } else if op == b"table".as_slice() {
        Ok(Script::Table(value(4_294_967_295, who, words)?))
    } else if op == b"tick".as_slice() {
        Ok(tick_script(who, words)?)
    } else if op == b"recv".as_slice() {
        Ok(recv_script(who, words)?)
    } else {
        smcroute_script(alloc, op, who, words)
    }
}

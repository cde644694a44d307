//! The items `V:T` of a request.

ghost use Rattle.std.specs.Prelude.{◌≡◌, ◌==◌, if◌then◌else◌, drop};
ghost use Rattle.mr_lines.specs.Bytes.{behind};
ghost use Rattle.mr_lines.specs.Words.{asked_for, first_for, ttls_from};
ghost use Rattle.mr_words.specs.Items.{item_of};

use crate::cursor::next_word;
use mr_words::item_of;

/// The threshold that a word asks for vif i, or 0.
fn asked_for(i: u32, word: &[u8]) -> u8
    ensures { result ≡ asked_for i (item_of word.now) }
{
    match item_of(word) {
        Some((vif, ttl)) => { if u32::from(vif) == i { ttl } else { 0 } }
        None => 0,
    }
}

/// The threshold that the next word asks for vif i, or 0, and what is left behind its item.
fn item_for(rest: &[u8], i: u32) -> (u8, &[u8])
    ensures ttl { result.0 ≡ first_for i (behind rest.now) }
    ensures left { behind result.1.now ≡ (if first_for i (behind rest.now) == 0
        then behind rest.now else drop 1 (behind rest.now)) }
{
    match next_word(rest) {
        None => (0, rest),
        Some((word, after)) => {
            let ttl = asked_for(i, word);
            if ttl == 0 { (0, rest) } else { (ttl, after) }
        }
    }
}

/// The thresholds that items give, and what is left behind them.
pub fn ttls_at(rest: &[u8]) -> ([u8; 32], &[u8])
    ensures { (result.0, behind result.1.now) ≡ ttls_from 32 0 (behind rest.now) }
{
    let mut ttls = [0u8; 32];
    let mut left = rest;
    for i in 0..32 {
        let (ttl, after) = item_for(left, i);
        ttls[i as usize] = ttl;
        left = after;
    }
    (ttls, left)
}

//! Items `V:T`: a vif and its threshold.

ghost use Rattle.std.specs.Prelude.{◌≡◌, ◌≤◌, IfSome};
ghost use Rattle.mr_words.specs.Items.{item_of};

use crate::numbers::number_of;
use crate::parts::split_part;

/// The vif, 0 to 31, and the threshold, 0 to 255, that a word `V:T` spells.
pub fn item_of(word: &[u8]) -> Option<(u8, u8)>
    ensures value { result ≡ item_of word.now }
    ensures within { IfSome result (λ i. i.0 ≤ 31) }
{
    let (vif, rest) = split_part(word, b':');
    let (ttl, rest) = split_part(rest?, b':');
    if rest.is_some() {
        return None;
    }
    let vif = number_of(vif, 31)?;
    let ttl = number_of(ttl, 255)?;
    Some((vif as u8, ttl as u8))
}

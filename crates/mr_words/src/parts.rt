//! A text cut at a separator.

ghost use Rattle.std.specs.Prelude.{◌≡◌, ◌≢◌, ◌<◌, ◌≤◌, ℕ, ◌∷◌, length, option_copied, slice_index};
ghost use Rattle.mr_words.specs.Parts.{parts_left, parts_of};

use crate::cursor::past;
use memchr::memchr;

/// The index of the first separator, or the length where there is none.
fn part_end(word: &[u8], sep: u8) -> usize
    ensures bound { result ≤ length word.now }
    ensures clean { (k : ℕ) → k < result → slice_index word.now k ≢ sep }
    ensures stops { result < length word.now → slice_index word.now result ≡ sep }
{
    memchr(sep, word).unwrap_or(word.len())
}

/// The bytes before the first separator, and those behind it, if there is one.
pub fn split_part(word: &[u8], sep: u8) -> (&[u8], Option<&[u8]>)
    ensures { parts_of sep word.now ≡ result.0.now ∷ parts_left sep (option_copied result.1) }
{
    let end = part_end(word, sep);
    if end < word.len() {
        (&word[..end], Some(past(word, end)))
    } else {
        (word, None)
    }
}

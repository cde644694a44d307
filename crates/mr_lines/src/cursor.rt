//! Words cut from the front of a line.

ghost use Rattle.std.specs.Prelude.{◌≡◌, ◌≢◌, ◌<◌, ◌≤◌, ℕ, [], ◌∷◌, length, slice_index};
ghost use Rattle.std.specs.Prelude.{MatchOption};
ghost use Rattle.mr_lines.specs.Bytes.{behind, ends};
ghost use Rattle.mr_words.specs.Parts.{parts_of};

use memchr::memchr;
use mr_words::from_index;

/// The index of the first space, or the length where there is none.
fn word_end(bytes: &[u8]) -> usize
    ensures bound { result ≤ length bytes.now }
    ensures clean { (k : ℕ) → k < result → slice_index bytes.now k ≢ 32 }
    ensures stops { result < length bytes.now → slice_index bytes.now result ≡ 32 }
{
    memchr(b' ', bytes).unwrap_or(bytes.len())
}

/// The first word, and what is left behind it.
pub fn first_word(bytes: &[u8]) -> (&[u8], &[u8])
    ensures { parts_of 32 bytes.now ≡ result.0.now ∷ behind result.1.now }
{
    let end = word_end(bytes);
    (&bytes[..end], from_index(bytes, end))
}

/// The next word of what is left, and what is left behind it.
pub fn next_word(rest: &[u8]) -> Option<(&[u8], &[u8])>
    ensures { MatchOption result (behind rest.now ≡ []) (λ x.
        behind rest.now ≡ x.0.now ∷ behind x.1.now) }
{
    match rest {
        [] => None,
        [_, bytes @ ..] => Some(first_word(bytes)),
    }
}

/// Whether no word goes on here.
#[inline(always)]
pub fn ends(bytes: &[u8]) -> bool
    ensures { result ≡ ends bytes.now }
{
    bytes.is_empty() || bytes[0] == b' '
}

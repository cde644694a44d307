//! The words of a command. Blanks (spaces and tabs) part them, and there are no comments.

ghost use Rattle.std.specs.Prelude.{◌≡◌, ℕ, ◌<◌, ◌≤◌, true, false, [], ◌∷◌};
ghost use Rattle.std.specs.Prelude.{length, slice_index, MatchOption};
ghost use Rattle.mr_words.specs.Words.{is_blank};
ghost use Rattle.smc_words.specs.Words.{command_words};

use memchr::memchr2;
use mr_words::from_index;

/// The index of the first blank, or the length where there is none.
fn word_end(bytes: &[u8]) -> usize
    ensures bound { result ≤ length bytes.now }
    ensures clean { (k : ℕ) → k < result → is_blank (slice_index bytes.now k) ≡ false }
    ensures stops { result < length bytes.now → is_blank (slice_index bytes.now result) ≡ true }
{
    memchr2(b' ', b'\t', bytes).unwrap_or(bytes.len())
}

/// The bytes from the first that is no blank on.
fn skip_blanks(bytes: &[u8]) -> &[u8]
    ensures same { command_words result.now ≡ command_words bytes.now }
    ensures stops { 0 < length result.now → is_blank (slice_index result.now 0) ≡ false }
{
    let mut rest = bytes;
    'blanks: while let [b' ' | b'\t', after @ ..] = rest {
        rest = after;
    }
    rest
}

/// The word with which bytes begin that do not begin with a blank.
fn first_word(bytes: &[u8]) -> Option<(&[u8], &[u8])>
    requires { 0 < length bytes.now → is_blank (slice_index bytes.now 0) ≡ false }
    ensures { MatchOption result (command_words bytes.now ≡ [])
        (λ x. command_words bytes.now ≡ x.0.now ∷ command_words x.1.now) }
{
    let end = word_end(bytes);
    if end == 0 {
        return None;
    }
    Some((&bytes[..end], from_index(bytes, end)))
}

/// The first word, and the bytes behind it; none where no word is left.
pub fn next_word(bytes: &[u8]) -> Option<(&[u8], &[u8])>
    ensures { MatchOption result (command_words bytes.now ≡ [])
        (λ x. command_words bytes.now ≡ x.0.now ∷ command_words x.1.now) }
{
    first_word(skip_blanks(bytes))
}

//! Lines and words, cut from the front of a slice.

ghost use Rattle.std.specs.Prelude.{◌≡◌, ◌≢◌, ◌+◌, ◌<◌, ◌≤◌, ℕ, true, false, [], ◌∷◌, length, drop};
ghost use Rattle.std.specs.Prelude.{slice_index, MatchOption};
ghost use Rattle.mr_words.specs.Words.{is_blank, lines_of, without_return, words_of};

use memchr::{memchr, memchr2};

/// The index of the first line feed, or the length where there is none.
fn line_end(bytes: &[u8]) -> usize
    ensures bound { result ≤ length bytes.now }
    ensures clean { (k : ℕ) → k < result → slice_index bytes.now k ≢ 10 }
    ensures stops { result < length bytes.now → slice_index bytes.now result ≡ 10 }
{
    memchr(b'\n', bytes).unwrap_or(bytes.len())
}

/// The bytes behind an index.
pub fn past(bytes: &[u8], index: usize) -> &[u8]
    ensures { result.now ≡ drop (index + 1) bytes.now }
{
    if index < bytes.len() {
        &bytes[index + 1..]
    } else {
        &[]
    }
}

/// The bytes from an index on.
#[inline(always)]
pub fn from_index(bytes: &[u8], index: usize) -> &[u8]
    requires { index ≤ length bytes.now }
    ensures { result.now ≡ drop index bytes.now }
{
    &bytes[index..]
}

/// The bytes behind the first.
#[inline(always)]
pub fn behind_first(bytes: &[u8]) -> &[u8]
    requires { 0 < length bytes.now }
    ensures { bytes.now ≡ slice_index bytes.now 0 ∷ result.now }
{
    &bytes[1..]
}

/// The first line, and the bytes behind its line feed.
pub fn split_line(bytes: &[u8]) -> (&[u8], &[u8])
    requires { 0 < length bytes.now }
    ensures { lines_of bytes.now ≡ result.0.now ∷ lines_of result.1.now }
{
    let end = line_end(bytes);
    (&bytes[..end], past(bytes, end))
}

/// A line without the carriage return at its end.
pub fn trimmed(line: &[u8]) -> &[u8]
    ensures { result.now ≡ without_return line.now }
{
    match line {
        [front @ .., b'\r'] => front,
        _ => line,
    }
}

/// The index of the first blank, or the length where there is none.
fn word_end(bytes: &[u8]) -> usize
    ensures bound { result ≤ length bytes.now }
    ensures clean { (k : ℕ) → k < result → is_blank (slice_index bytes.now k) ≡ false }
    ensures stops { result < length bytes.now → is_blank (slice_index bytes.now result) ≡ true }
{
    memchr2(b' ', b'\t', bytes).unwrap_or(bytes.len())
}

/// The bytes from the first that is no blank on.
fn skip_blanks(bytes: &[u8]) -> &[u8]
    ensures same { words_of result.now ≡ words_of bytes.now }
    ensures stops { 0 < length result.now → is_blank (slice_index result.now 0) ≡ false }
{
    let mut rest = bytes;
    'blanks: while let [b' ' | b'\t', after @ ..] = rest {
        rest = after;
    }
    rest
}

/// The first word of a line, and the bytes behind it; none where no word is left before a comment.
pub fn next_word(bytes: &[u8]) -> Option<(&[u8], &[u8])>
    ensures { MatchOption result (words_of bytes.now ≡ []) (λ x.
        words_of bytes.now ≡ x.0.now ∷ words_of x.1.now) }
{
    first_word(skip_blanks(bytes))
}

/// The word with which bytes begin that do not begin with a blank.
fn first_word(bytes: &[u8]) -> Option<(&[u8], &[u8])>
    requires { 0 < length bytes.now → is_blank (slice_index bytes.now 0) ≡ false }
    ensures { MatchOption result (words_of bytes.now ≡ []) (λ x.
        words_of bytes.now ≡ x.0.now ∷ words_of x.1.now) }
{
    let end = word_end(bytes);
    if end == 0 || bytes[0] == b'#' {
        return None;
    }
    Some((&bytes[..end], from_index(bytes, end)))
}

//! Just so many words of a line.

ghost use Rattle.std.specs.Prelude.{◌≡◌, None, [], ◌∷◌, MatchOption};
ghost use Rattle.mr_scenario.specs.Counts.{none_of, one_of, two_of, three_of, four_of, some_of};
ghost use Rattle.mr_scenario.specs.Counts.{two_led, three_led};
ghost use Rattle.mr_words.specs.Words.{words_of};

use mr_words::next_word;

/// No word.
pub fn no_words(words: &[u8]) -> Option<()>
    ensures { result ≡ none_of (words_of words.now) }
{
    match next_word(words) {
        None => Some(()),
        Some(_) => None,
    }
}

/// One word alone.
pub fn one_word(words: &[u8]) -> Option<&[u8]>
    ensures { MatchOption result (one_of (words_of words.now) ≡ None) (λ x.
        words_of words.now ≡ x.now ∷ []) }
{
    let (a, rest) = next_word(words)?;
    match next_word(rest) {
        None => Some(a),
        Some(_) => None,
    }
}

/// Just two words.
pub fn two_words(words: &[u8]) -> Option<(&[u8], &[u8])>
    ensures { MatchOption result (two_of (words_of words.now) ≡ None) (λ x.
        words_of words.now ≡ x.0.now ∷ x.1.now ∷ []) }
{
    let (a, rest) = next_word(words)?;
    let (b, rest) = next_word(rest)?;
    match next_word(rest) {
        None => Some((a, b)),
        Some(_) => None,
    }
}

/// Just three words.
pub fn three_words(words: &[u8]) -> Option<(&[u8], &[u8], &[u8])>
    ensures { MatchOption result (three_of (words_of words.now) ≡ None) (λ x.
        words_of words.now ≡ x.0.now ∷ x.1.now ∷ x.2.now ∷ []) }
{
    let (a, rest) = next_word(words)?;
    let (b, rest) = next_word(rest)?;
    let (c, rest) = next_word(rest)?;
    match next_word(rest) {
        None => Some((a, b, c)),
        Some(_) => None,
    }
}

/// Just four words.
pub fn four_words(words: &[u8]) -> Option<(&[u8], &[u8], &[u8], &[u8])>
    ensures { MatchOption result (four_of (words_of words.now) ≡ None) (λ x.
        words_of words.now ≡ x.0.now ∷ x.1.now ∷ x.2.now ∷ x.3.now ∷ []) }
{
    let (a, rest) = next_word(words)?;
    let (b, rest) = next_word(rest)?;
    let (c, rest) = next_word(rest)?;
    let (d, rest) = next_word(rest)?;
    match next_word(rest) {
        None => Some((a, b, c, d)),
        Some(_) => None,
    }
}

/// The first of one word or more, and the others.
pub fn some_words(words: &[u8]) -> Option<(&[u8], &[u8])>
    ensures { MatchOption result (some_of (words_of words.now) ≡ None) (λ x.
        words_of words.now ≡ x.0.now ∷ words_of x.1.now) }
{
    let (a, rest) = next_word(words)?;
    Some((a, rest))
}

/// The first ones of two words or more, and the others.
pub fn led_by_two(words: &[u8]) -> Option<(&[u8], &[u8], &[u8])>
    ensures { MatchOption result (two_led (words_of words.now) ≡ None) (λ x.
        words_of words.now ≡ x.0.now ∷ x.1.now ∷ words_of x.2.now) }
{
    let (a, rest) = next_word(words)?;
    let (b, rest) = next_word(rest)?;
    Some((a, b, rest))
}

/// The first ones of three words or more, and the others.
pub fn led_by_three(words: &[u8]) -> Option<(&[u8], &[u8], &[u8], &[u8])>
    ensures { MatchOption result (three_led (words_of words.now) ≡ None) (λ x.
        words_of words.now ≡ x.0.now ∷ x.1.now ∷ x.2.now ∷ words_of x.3.now) }
{
    let (a, rest) = next_word(words)?;
    let (b, rest) = next_word(rest)?;
    let (c, rest) = next_word(rest)?;
    Some((a, b, c, rest))
}

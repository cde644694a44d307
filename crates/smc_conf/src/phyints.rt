//! Lines `phyint IF enable` and `phyint IF disable`, perhaps with a threshold.

ghost use Rattle.std.specs.Prelude.{◌≡◌};
ghost use Rattle.mr_words.specs.Words.{words_of};
ghost use Rattle.smc_conf.specs.Answers.{Gives, Steps};
ghost use Rattle.smc_conf.specs.Lines.{is_named, enabled_word, nothing_behind, threshold_in};
ghost use Rattle.smc_conf.specs.Lines.{phyint_line};

use crate::conf::Phyint;
use crate::draft::Draft;
use crate::forms::{bad, first_of, interface_word, keyword, threshold_word};
use crate::stop::{Kind, Stop};
use mr_words::{name_of, next_word};

/// How many interfaces may be enabled: one for each vif.
const MOST_ENABLED: u32 = 32;

/// Whether an interface has this name already.
fn is_named(phyints: &[Phyint], word: &[u8]) -> bool
    ensures { result ≡ is_named phyints.now word.now }
{
    phyints.iter().any(|p| p.name.as_str().as_bytes() == word)
}

/// Whether a word enables an interface, where so many are enabled.
fn enabled_word(enabled: u32, word: &[u8]) -> Result<bool, Kind>
    ensures { result ≡ enabled_word enabled word.now }
{
    if word == b"enable".as_slice() {
        if enabled >= MOST_ENABLED {
            return Err(Kind::Interface);
        }
        Ok(true)
    } else if word == b"disable".as_slice() {
        Ok(false)
    } else {
        Err(Kind::Word)
    }
}

/// Refuses a word too many.
pub fn nothing_behind(words: &[u8]) -> Result<(), Kind>
    ensures { result ≡ nothing_behind (words_of words.now) }
{
    match next_word(words) {
        None => Ok(()),
        Some(_) => Err(Kind::Word),
    }
}

/// The threshold at a line's end: 1 where none is given.
fn threshold_in(words: &[u8]) -> Result<u8, Kind>
    ensures { result ≡ threshold_in (words_of words.now) }
{
    if next_word(words).is_none() {
        return Ok(1);
    }
    let rest = keyword(b"ttl-threshold", words)?;
    let (number, rest) = first_of(rest)?;
    let threshold = threshold_word(number)?;
    nothing_behind(rest)?;
    Ok(threshold)
}

/// An interface that no line named before: at most 32 are enabled.
pub fn phyint_line(draft: &mut Draft, words: &[u8]) -> Result<(), Stop>
    ensures { Steps result draft.new (phyint_line draft.old (words_of words.now)) }
{
    let (name, rest) = interface_word(words)?;
    if is_named(draft.phyints.0.as_slice(), name) {
        return Err(Stop::Bad(Kind::Interface));
    }
    let (word, rest) = first_of(rest)?;
    let enabled = enabled_word(draft.enabled, word)?;
    let threshold = threshold_in(rest)?;
    draft.phyints.0.push(Phyint {
        name: name_of(name),
        enabled,
        threshold,
    })?;
    if enabled {
        draft.enabled += 1;
    }
    Ok(())
}

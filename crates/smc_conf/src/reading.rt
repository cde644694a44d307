//! A configuration is read from its bytes.

ghost use Rattle.std.specs.Prelude.{◌≡◌, IfOk, take};
ghost use Rattle.mr_words.specs.Words.{lines_of, words_of};
ghost use Rattle.smc_conf.specs.Answers.{Gets, Steps, Tells};
ghost use Rattle.smc_conf.specs.Fits.{Fits};
ghost use Rattle.smc_conf.specs.Spelled.{draft_from, empty_draft, line_by_word, line_of, spelled};
ghost use Rattle.smc_conf.specs.declared.stop.TheConstants.{MOST_TEXT};

use crate::conf::Conf;
use crate::draft::Draft;
use crate::lines::{group_line, rule_line};
use crate::phyints::phyint_line;
use crate::stop::{ConfError, Kind, MOST_TEXT, Stop};
use mr_base::List;
use mr_words::{next_word, split_line, trimmed};
use std::alloc::Global;

/// A line by its first word; the other words stand behind it.
fn line_by_word(alloc: Global, draft: &mut Draft, word: &[u8], words: &[u8]) -> Result<(), Stop>
    ensures { Steps result draft.new (line_by_word draft.old word.now (words_of words.now)) }
{
    if word == b"phyint".as_slice() {
        phyint_line(draft, words)
    } else if word == b"mgroup".as_slice() {
        group_line(draft, words)
    } else if word == b"mroute".as_slice() {
        rule_line(alloc, draft, words)
    } else {
        Err(Stop::Bad(Kind::Word))
    }
}

/// A line of a configuration. A line without words is passed over.
fn line_of(alloc: Global, draft: &mut Draft, words: &[u8]) -> Result<(), Stop>
    ensures { Steps result draft.new (line_of draft.old (words_of words.now)) }
{
    match next_word(words) {
        None => Ok(()),
        Some((word, rest)) => line_by_word(alloc, draft, word, rest),
    }
}

/// The first bytes, as many as an error carries.
fn front_of(bytes: &[u8]) -> &[u8]
    ensures { result.now ≡ take MOST_TEXT bytes.now }
{
    if bytes.len() > MOST_TEXT {
        &bytes[..MOST_TEXT]
    } else {
        bytes
    }
}

/// What is wrong with a line, which is this.
fn bad_line(alloc: Global, line: u32, kind: Kind, text: &[u8]) -> ConfError
    ensures { Tells result line kind text.now }
{
    match Vec::from_slice(alloc, front_of(text)) {
        Ok(text) => ConfError::Bad {
            line,
            kind,
            text: List(text),
        },
        Err(_) => ConfError::Memory,
    }
}

/// The configuration that a text spells. Lines are parted by line feeds, a carriage return at a
/// line's end is taken off, words are parted by spaces and tabs, and a word that begins with `#`
/// begins a comment.
///
/// # Errors
///
/// `Bad` with the first bad line, the first thing that is wrong with it, word by word from the
/// left, and the line itself; `Memory` where there is none.
pub fn read(alloc: Global, bytes: &[u8]) -> Result<Conf, ConfError>
    ensures spelled { Gets result (spelled bytes.now) }
    ensures fits { IfOk result Fits }
{
    let mut draft = Draft {
        phyints: List(Vec::new(alloc)),
        enabled: 0,
        groups: List(Vec::new(alloc)),
        rules: List(Vec::new(alloc)),
    };
    let mut line = 1u32;
    let mut rest = bytes;
    'lines: while !rest.is_empty() {
        let (text, after) = split_line(rest);
        let text = trimmed(text);
        match line_of(alloc, &mut draft, text) {
            Ok(()) => {}
            Err(Stop::Bad(kind)) => return Err(bad_line(alloc, line, kind, text)),
            Err(Stop::Memory) => return Err(ConfError::Memory),
        }
        line = line.saturating_add(1);
        rest = after;
    }
    Ok(Conf {
        phyints: draft.phyints,
        groups: draft.groups,
        rules: draft.rules,
    })
}

//! The lines before the phases: each by the words behind its first one.

ghost use Rattle.std.specs.Prelude.{◌≡◌, ◌≤◌, [], length, is_none, Option, OnOk};
ghost use Rattle.mr_scenario.specs.Answers.{Reads, Steps};
ghost use Rattle.mr_scenario.specs.HeadLines.{header_line, limit, entries_limit, unresolved_limit};
ghost use Rattle.mr_scenario.specs.HeadLines.{control_limit, limit_by_name, limit_line, lanes_line};
ghost use Rattle.mr_scenario.specs.HeadLines.{device_line, with_daemon, daemon_by_word};
ghost use Rattle.mr_scenario.specs.HeadLines.{daemon_line, files_from, smc_line};
ghost use Rattle.mr_words.specs.Words.{words_of};

use crate::counting::{one_word, two_words};
use crate::draft::Draft;
use crate::forms::{address_word, is_taken, number_word, positive_word};
use crate::scenario::{DaemonKind, Named};
use crate::stop::{Kind, Mistake, Stop, bad, in_line};
use mr_base::{
    Addr, FileName, List, MOST_CONFIGURATIONS, MOST_CONTROLS, MOST_DAEMONS, MOST_DEVICES,
    MOST_ENTRIES, MOST_LANES, MOST_UNRESOLVED,
};
use mr_words::{is_device_name, is_file, name_of, next_word};
use std::alloc::Global;

/// `scenario 1`, the first line with words.
pub fn header_line(draft: &mut Draft, words: &[u8]) -> Result<(), Stop>
    ensures { Steps result draft.new (header_line draft.old (words_of words.now)) }
{
    let (name, version) = two_words(words).ok_or(in_line(Kind::Header))?;
    if name != b"scenario".as_slice() || version != b"1".as_slice() {
        return Err(Stop::Bad(in_line(Kind::Header)));
    }
    draft.begun = true;
    Ok(())
}

/// A limit, which stands at most once.
fn limit(before: Option<u32>, most: u32, word: &[u8]) -> Result<u32, Mistake>
    ensures { result ≡ limit before most word.now }
{
    if before.is_some() {
        return Err(in_line(Kind::Word));
    }
    positive_word(2, most, word)
}

/// `limit entries N`
fn entries_limit(draft: &mut Draft, word: &[u8]) -> Result<(), Stop>
    ensures { Steps result draft.new (entries_limit draft.old word.now) }
{
    draft.entries = Some(limit(draft.entries, MOST_ENTRIES, word)?);
    Ok(())
}

/// `limit unresolved N`
fn unresolved_limit(draft: &mut Draft, word: &[u8]) -> Result<(), Stop>
    ensures { Steps result draft.new (unresolved_limit draft.old word.now) }
{
    draft.unresolved = Some(limit(draft.unresolved, MOST_UNRESOLVED, word)?);
    Ok(())
}

/// `limit control N`
fn control_limit(draft: &mut Draft, word: &[u8]) -> Result<(), Stop>
    ensures { Steps result draft.new (control_limit draft.old word.now) }
{
    draft.controls = Some(limit(draft.controls, MOST_CONTROLS, word)?);
    Ok(())
}

/// A limit by its name.
fn limit_by_name(draft: &mut Draft, name: &[u8], word: &[u8]) -> Result<(), Stop>
    ensures { Steps result draft.new (limit_by_name draft.old name.now word.now) }
{
    if name == b"entries".as_slice() {
        entries_limit(draft, word)
    } else if name == b"unresolved".as_slice() {
        unresolved_limit(draft, word)
    } else if name == b"control".as_slice() {
        control_limit(draft, word)
    } else {
        Err(Stop::Bad(in_line(Kind::Word)))
    }
}

/// `limit NAME N`
pub fn limit_line(draft: &mut Draft, words: &[u8]) -> Result<(), Stop>
    ensures { Steps result draft.new (limit_line draft.old (words_of words.now)) }
{
    let (name, number) = two_words(words).ok_or(in_line(Kind::Word))?;
    limit_by_name(draft, name, number)
}

/// `lanes N`, at most once.
pub fn lanes_line(draft: &mut Draft, words: &[u8]) -> Result<(), Stop>
    ensures { Steps result draft.new (lanes_line draft.old (words_of words.now)) }
{
    let number = one_word(words).ok_or(in_line(Kind::Word))?;
    if draft.lanes.is_some() {
        return Err(Stop::Bad(in_line(Kind::Word)));
    }
    draft.lanes = Some(number_word(1, MOST_LANES, number)?);
    Ok(())
}

/// `device NAME ADDRESS`, at most 64, no name twice.
pub fn device_line(draft: &mut Draft, words: &[u8]) -> Result<(), Stop>
    ensures { Steps result draft.new (device_line draft.old (words_of words.now)) }
{
    let (name, addr) = two_words(words).ok_or(in_line(Kind::Word))?;
    if !is_device_name(name) || is_taken(draft.devices.0.as_slice(), name) {
        return Err(Stop::Bad(bad(1, name, Kind::Name)));
    }
    let addr = address_word(2, addr)?;
    if draft.devices.0.as_slice().len() >= MOST_DEVICES {
        return Err(Stop::Bad(in_line(Kind::Limit)));
    }
    draft.devices.0.push(Named {
        name: name_of(name),
        addr: Addr(addr),
    })?;
    Ok(())
}

/// One daemon more, at most 8.
fn push_daemon(draft: &mut Draft, kind: DaemonKind) -> Result<(), Stop>
    ensures { Steps result draft.new (with_daemon draft.old kind) }
{
    if draft.daemons.0.as_slice().len() >= MOST_DAEMONS {
        return Err(Stop::Bad(in_line(Kind::Limit)));
    }
    draft.daemons.0.push(kind)?;
    Ok(())
}

/// A daemon by its sort.
fn daemon_by_word(draft: &mut Draft, word: &[u8]) -> Result<(), Stop>
    ensures { Steps result draft.new (daemon_by_word draft.old word.now) }
{
    if word == b"admin".as_slice() {
        push_daemon(draft, DaemonKind::Admin)
    } else if word == b"plain".as_slice() {
        push_daemon(draft, DaemonKind::Plain)
    } else {
        Err(Stop::Bad(in_line(Kind::Word)))
    }
}

/// `daemon admin` or `daemon plain`
pub fn daemon_line(draft: &mut Draft, words: &[u8]) -> Result<(), Stop>
    ensures { Steps result draft.new (daemon_line draft.old (words_of words.now)) }
{
    let sort = one_word(words).ok_or(in_line(Kind::Word))?;
    daemon_by_word(draft, sort)
}

/// The files that words name, at most 8.
fn files_of(alloc: Global, words: &[u8]) -> Result<List<FileName>, Stop>
    ensures { Reads (λ l. l) result (files_from [] (words_of words.now)) }
{
    let mut files = Vec::new(alloc);
    let mut rest = words;
    'words: while let Some((word, after)) = next_word(rest) {
        if !is_file(word) || files.len() >= MOST_CONFIGURATIONS {
            return Err(Stop::Bad(bad(files.len() as u32 + 1, word, Kind::File)));
        }
        files.push(name_of(word))?;
        rest = after;
    }
    Ok(List(files))
}

/// `smc FILE ..`, one file or more.
pub fn smc_line(alloc: Global, draft: &mut Draft, words: &[u8]) -> Result<(), Stop>
    ensures { Steps result draft.new (smc_line draft.old (words_of words.now)) }
{
    if next_word(words).is_none() {
        return Err(Stop::Bad(in_line(Kind::Word)));
    }
    let files = files_of(alloc, words)?;
    push_daemon(draft, DaemonKind::Smc(files))
}

//! The line `phase`, and the lines of a phase: each by the words behind its first one.

ghost use Rattle.std.specs.Prelude.{◌≡◌, ◌<◌, ◌≤◌, ◌-◌, None, true, is_some, length, OnOk};
ghost use Rattle.mr_scenario.specs.Answers.{Steps};
ghost use Rattle.mr_scenario.specs.PhaseLines.{lanes_of, phases_so_far, phase_line, phase_of};
ghost use Rattle.mr_scenario.specs.PhaseLines.{with_item, with_packet, device_word, packet_item};
ghost use Rattle.mr_scenario.specs.PhaseLines.{trace_item, item_by_word, lane_line, is_smc};
ghost use Rattle.mr_scenario.specs.PhaseLines.{is_smc_at, daemon_word, who_of, with_script};
ghost use Rattle.mr_scenario.specs.PhaseLines.{script_line};
ghost use Rattle.mr_scenario.specs.Forms.{number_in};
ghost use Rattle.mr_scenario.specs.Kinds.{word_as};
ghost use Rattle.mr_scenario.specs.declared.stop.Kind.TheVariants as kind;
ghost use Rattle.mr_words.specs.Words.{words_of};

use crate::boxed_name::BoxedName;
use crate::counting::{four_words, led_by_two, no_words};
use crate::draft::Draft;
use crate::forms::{device_of, number_in};
use crate::hex::hex_word;
use crate::operations::script_of;
use crate::scenario::{DaemonKind, Given, Item, Phase, ScriptLine};
use crate::stop::{Kind, Mistake, Stop, bad, in_line};
use mr_base::{DaemonNo, LaneNo, List, MOST_ITEMS, MOST_PHASES};
use mr_words::{is_file, name_of};
use std::alloc::{AllocError, Global};

/// Ends the phase whose lines were read.
pub fn close_phase(draft: &mut Draft) -> Result<(), AllocError>
    ensures { OnOk result
        (draft.new ≡ record draft.old { phases = phases_so_far draft.old; current = None }) }
{
    if let Some(phase) = draft.current.take() {
        draft.phases.0.push(phase)?;
    }
    Ok(())
}

/// `phase`, at most 1,000
pub fn phase_line(alloc: Global, line: u32, draft: &mut Draft, words: &[u8]) -> Result<(), Stop>
    ensures { Steps result draft.new (phase_line line draft.old (words_of words.now)) }
{
    no_words(words).ok_or(in_line(Kind::Word))?;
    close_phase(draft)?;
    if draft.phases.0.as_slice().len() >= MOST_PHASES {
        return Err(Stop::Bad(in_line(Kind::Limit)));
    }
    draft.current = Some(Phase {
        line,
        items: List(Vec::new(alloc)),
        script: List(Vec::new(alloc)),
    });
    Ok(())
}

/// The number of lanes: 1 where no line says it.
pub fn lanes_of(draft: &Draft) -> u32
    ensures { result ≡ lanes_of draft.now }
{
    draft.lanes.unwrap_or(1)
}

/// The number of a device that is declared.
fn device_word(draft: &Draft, word: &[u8]) -> Result<u32, Mistake>
    requires { length draft.now.devices ≤ 64 }
    ensures { result ≡ device_word draft.now word.now }
{
    match device_of(word, draft.devices.0.as_slice()) {
        Some(number) => Ok(number),
        None => Err(bad(3, word, Kind::Device)),
    }
}

/// One more packet of a phase, which is the one whose lines are read.
fn push_packet(draft: &mut Draft, item: Item) -> Result<(), AllocError>
    requires room { draft.old.sent < 1048576 }
    requires phase { is_some draft.old.current ≡ true }
    ensures { OnOk result (draft.new ≡ with_packet draft.old (phase_of draft.old) item) }
{
    if let Some(phase) = &mut draft.current {
        phase.items.0.push(item)?;
        draft.sent += 1;
    }
    Ok(())
}

/// One more item of a phase, which is the one whose lines are read.
fn push_item(draft: &mut Draft, item: Item) -> Result<(), AllocError>
    requires { is_some draft.old.current ≡ true }
    ensures { OnOk result (draft.new ≡ with_item draft.old (phase_of draft.old) item) }
{
    if let Some(phase) = &mut draft.current {
        phase.items.0.push(item)?;
    }
    Ok(())
}

/// `DEV HEX`: at most 1,048,576 in all phases
fn packet_item(
    alloc: Global,
    line: u32,
    draft: &mut Draft,
    lane: u32,
    dev: &[u8],
    digits: &[u8],
) -> Result<(), Stop>
    requires devices { length draft.old.devices ≤ 64 }
    requires phase { is_some draft.old.current ≡ true }
    ensures { Steps result draft.new
        (packet_item line draft.old (phase_of draft.old) lane dev.now digits.now) }
{
    let dev = device_word(draft, dev)?;
    let bytes = hex_word(alloc, 4, digits)?;
    if draft.sent >= MOST_ITEMS {
        return Err(Stop::Bad(in_line(Kind::Limit)));
    }
    let item = Item {
        line,
        lane: LaneNo(lane),
        dev,
        given: Given::Bytes(bytes),
    };
    push_packet(draft, item)?;
    Ok(())
}

/// `DEV FILE`
fn trace_item(
    alloc: Global,
    line: u32,
    draft: &mut Draft,
    lane: u32,
    dev: &[u8],
    file: &[u8],
) -> Result<(), Stop>
    requires devices { length draft.old.devices ≤ 64 }
    requires phase { is_some draft.old.current ≡ true }
    ensures { Steps result draft.new
        (trace_item line draft.old (phase_of draft.old) lane dev.now file.now) }
{
    let dev = device_word(draft, dev)?;
    if !is_file(file) {
        return Err(Stop::Bad(bad(4, file, Kind::File)));
    }
    let name = BoxedName::new(alloc, name_of(file))?;
    let item = Item {
        line,
        lane: LaneNo(lane),
        dev,
        given: Given::Trace(name),
    };
    push_item(draft, item)?;
    Ok(())
}

/// An item by the word that says what is given.
fn item_by_word(
    alloc: Global,
    line: u32,
    draft: &mut Draft,
    lane: u32,
    what: &[u8],
    dev: &[u8],
    given: &[u8],
) -> Result<(), Stop>
    requires devices { length draft.old.devices ≤ 64 }
    requires phase { is_some draft.old.current ≡ true }
    ensures { Steps result draft.new
        (item_by_word line draft.old (phase_of draft.old) lane what.now dev.now given.now) }
{
    if what == b"pkt".as_slice() {
        packet_item(alloc, line, draft, lane, dev, given)
    } else if what == b"trace".as_slice() {
        trace_item(alloc, line, draft, lane, dev, given)
    } else {
        Err(Stop::Bad(in_line(Kind::Word)))
    }
}

/// The number of a lane.
fn lane_word(draft: &Draft, word: &[u8]) -> Result<u32, Mistake>
    ensures { result ≡ word_as (number_in 1 (lanes_of draft.now) word.now) 1 word.now kind.Lane }
{
    match number_in(1, lanes_of(draft), word) {
        Some(lane) => Ok(lane),
        None => Err(bad(1, word, Kind::Lane)),
    }
}

/// `lane L pkt DEV HEX` or `lane L trace DEV FILE`
#[inline(never)]
pub fn lane_line(alloc: Global, line: u32, draft: &mut Draft, words: &[u8]) -> Result<(), Stop>
    requires devices { length draft.old.devices ≤ 64 }
    requires phase { is_some draft.old.current ≡ true }
    ensures { Steps result draft.new
        (lane_line line draft.old (phase_of draft.old) (words_of words.now)) }
{
    let (lane, what, dev, given) = four_words(words).ok_or(in_line(Kind::Word))?;
    let lane = lane_word(draft, lane)?;
    item_by_word(alloc, line, draft, lane, what, dev, given)
}

fn is_smc(kind: &DaemonKind) -> bool
    ensures { result ≡ is_smc kind.now }
{
    matches!(kind, DaemonKind::Smc(_))
}

/// Whether a daemon, numbered from 1, is driven by smcroute.
fn is_smc_at(daemons: &[DaemonKind], number: u32) -> bool
    ensures { result ≡ is_smc_at daemons.now number }
{
    let mut left = number;
    let mut rest = daemons;
    'daemons: while let [kind, after @ ..] = rest {
        if left <= 1 {
            return is_smc(kind);
        }
        left -= 1;
        rest = after;
    }
    false
}

/// The number of a daemon that is declared.
fn daemon_word(draft: &Draft, word: &[u8]) -> Result<u32, Mistake>
    requires { length draft.now.daemons ≤ 8 }
    ensures { result ≡ daemon_word draft.now word.now }
{
    match number_in(1, draft.daemons.0.as_slice().len() as u32, word) {
        Some(number) => Ok(number),
        None => Err(bad(1, word, Kind::Daemon)),
    }
}

/// Whether the daemon that a word names is driven by smcroute.
fn who_of(draft: &Draft, word: &[u8]) -> Result<bool, Mistake>
    requires { length draft.now.daemons ≤ 8 }
    ensures { result ≡ who_of draft.now word.now }
{
    let number = daemon_word(draft, word)?;
    Ok(is_smc_at(draft.daemons.0.as_slice(), number))
}

/// One more script line of a phase, which is the one whose lines are read.
fn push_script(draft: &mut Draft, entry: ScriptLine) -> Result<(), AllocError>
    requires { is_some draft.old.current ≡ true }
    ensures { OnOk result (draft.new ≡ with_script draft.old (phase_of draft.old) entry) }
{
    if let Some(phase) = &mut draft.current {
        phase.script.0.push(entry)?;
    }
    Ok(())
}

/// `daemon D OP ..`
pub fn script_line(alloc: Global, line: u32, draft: &mut Draft, words: &[u8]) -> Result<(), Stop>
    requires daemons { length draft.old.daemons ≤ 8 }
    requires phase { is_some draft.old.current ≡ true }
    ensures { Steps result draft.new
        (script_line line draft.old (phase_of draft.old) (words_of words.now)) }
{
    let (number, op, rest) = led_by_two(words).ok_or(in_line(Kind::Word))?;
    let who = who_of(draft, number);
    let script = script_of(alloc, op, who, rest)?;
    let daemon = DaemonNo(daemon_word(draft, number)?);
    let entry = ScriptLine {
        line,
        daemon,
        script,
    };
    push_script(draft, entry)?;
    Ok(())
}

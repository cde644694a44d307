//! A scenario is read from its bytes.

ghost use Rattle.std.specs.Prelude.{◌≡◌, ◌≤◌, None, true, is_some, length, map, replicate};
ghost use Rattle.std.specs.Prelude.{slice_index_or, take, IfOk, []};
ghost use Rattle.mr_scenario.specs.Answers.{Steps, Gives};
ghost use Rattle.mr_scenario.specs.Fits.{Fits};
ghost use Rattle.mr_scenario.specs.Kinds.{found};
ghost use Rattle.mr_scenario.specs.PhaseLines.{phases_so_far, phase_of};
ghost use Rattle.mr_scenario.specs.Spelled.{head_line, phase_part, line_in, line_of, draft_from};
ghost use Rattle.mr_scenario.specs.Spelled.{empty_draft, is_admin_kind, address_only, limits_of};
ghost use Rattle.mr_scenario.specs.Spelled.{whole, spelled};
ghost use Rattle.mr_scenario.specs.declared.stop.TheConstants.{MOST_TEXT};
ghost use Rattle.mr_words.specs.Words.{lines_of, words_of};

use crate::draft::Draft;
use crate::head_lines::{daemon_line, device_line, header_line, lanes_line, limit_line, smc_line};
use crate::phase_lines::{close_phase, lane_line, lanes_of, phase_line, script_line};
use crate::scenario::{DaemonKind, Named, Scenario};
use crate::stop::{Kind, MOST_TEXT, Mistake, ScenarioError, Stop, in_line};
use mr_base::{DEFAULT_CONTROLS, DEFAULT_ENTRIES, DEFAULT_UNRESOLVED, Device, List};
use mr_model::Limits;
use mr_words::{next_word, split_line, trimmed};
use std::alloc::{AllocError, Global};

/// A line before the phases, or the first `phase`; the other words stand behind its first one.
fn head_line(
    alloc: Global,
    line: u32,
    draft: &mut Draft,
    word: &[u8],
    words: &[u8],
) -> Result<(), Stop>
    ensures { Steps result draft.new (head_line line draft.old word.now (words_of words.now)) }
{
    if word == b"limit".as_slice() {
        limit_line(draft, words)
    } else if word == b"lanes".as_slice() {
        lanes_line(draft, words)
    } else if word == b"device".as_slice() {
        device_line(draft, words)
    } else if word == b"daemon".as_slice() {
        daemon_line(draft, words)
    } else if word == b"smc".as_slice() {
        smc_line(alloc, draft, words)
    } else if word == b"phase".as_slice() {
        phase_line(alloc, line, draft, words)
    } else {
        Err(Stop::Bad(in_line(Kind::Word)))
    }
}

/// A line of a phase, or a further `phase`; the other words stand behind its first one.
fn phase_part(
    alloc: Global,
    line: u32,
    draft: &mut Draft,
    word: &[u8],
    words: &[u8],
) -> Result<(), Stop>
    requires devices { length draft.old.devices ≤ 64 }
    requires daemons { length draft.old.daemons ≤ 8 }
    requires phase { is_some draft.old.current ≡ true }
    ensures { Steps result draft.new
        (phase_part line draft.old (phase_of draft.old) word.now (words_of words.now)) }
{
    if word == b"lane".as_slice() {
        lane_line(alloc, line, draft, words)
    } else if word == b"daemon".as_slice() {
        script_line(alloc, line, draft, words)
    } else if word == b"phase".as_slice() {
        phase_line(alloc, line, draft, words)
    } else {
        Err(Stop::Bad(in_line(Kind::Word)))
    }
}

/// A line behind `scenario 1`.
fn line_in(
    alloc: Global,
    line: u32,
    draft: &mut Draft,
    word: &[u8],
    words: &[u8],
) -> Result<(), Stop>
    requires devices { length draft.old.devices ≤ 64 }
    requires daemons { length draft.old.daemons ≤ 8 }
    ensures { Steps result draft.new
        (line_in line draft.old draft.old.current word.now (words_of words.now)) }
{
    if draft.current.is_some() {
        phase_part(alloc, line, draft, word, words)
    } else {
        head_line(alloc, line, draft, word, words)
    }
}

/// A line of a scenario. A line without words is passed over.
fn line_of(alloc: Global, line: u32, draft: &mut Draft, words: &[u8]) -> Result<(), Stop>
    requires devices { length draft.old.devices ≤ 64 }
    requires daemons { length draft.old.daemons ≤ 8 }
    ensures { Steps result draft.new (line_of line draft.old (words_of words.now)) }
{
    match next_word(words) {
        None => Ok(()),
        Some((word, rest)) => {
            if draft.begun {
                line_in(alloc, line, draft, word, rest)
            } else {
                header_line(draft, words)
            }
        }
    }
}

/// The word behind so many others, or an empty one.
fn word_at(line: &[u8], place: u32) -> &[u8]
    ensures { result.now ≡ slice_index_or (words_of line.now) place [] }
{
    let mut left = place;
    let mut rest = line;
    'words: while let Some((word, after)) = next_word(rest) {
        if left == 0 {
            return word;
        }
        left -= 1;
        rest = after;
    }
    &[]
}

/// What is at fault in a line.
fn found(mistake: Mistake, line: &[u8]) -> &[u8]
    ensures { result.now ≡ found mistake line.now }
{
    if mistake.kind.names_word() {
        word_at(line, mistake.place)
    } else {
        line
    }
}

/// The first bytes, as many as an error carries.
fn front_of(bytes: &[u8]) -> &[u8]
    ensures { result.now ≡ take MOST_TEXT bytes.now }
{
    if bytes.len() > MOST_TEXT {
        &bytes[..MOST_TEXT]
    } else {
        bytes
    }
}

/// The draft of a scenario's lines.
fn draft_of(alloc: Global, bytes: &[u8]) -> Result<Draft, ScenarioError>
    ensures { Gives (λ d. d) result (draft_from 1 empty_draft (lines_of bytes.now)) }
{
    let mut draft = Draft {
        begun: false,
        entries: None,
        unresolved: None,
        controls: None,
        lanes: None,
        devices: List(Vec::new(alloc)),
        daemons: List(Vec::new(alloc)),
        sent: 0,
        phases: List(Vec::new(alloc)),
        current: None,
    };
    let mut line = 1u32;
    let mut rest = bytes;
    'lines: while !rest.is_empty() {
        let (text, after) = split_line(rest);
        let text = trimmed(text);
        match line_of(alloc, line, &mut draft, text) {
            Ok(()) => {}
            Err(Stop::Bad(mistake)) => {
                let text = List(Vec::from_slice(alloc, front_of(found(mistake, text)))?);
                let kind = mistake.kind;
                return Err(ScenarioError::Bad { line, kind, text });
            }
            Err(Stop::Memory) => return Err(ScenarioError::Memory),
        }
        line = line.saturating_add(1);
        rest = after;
    }
    Ok(draft)
}

fn is_admin(kind: &DaemonKind) -> bool
    ensures { result ≡ is_admin_kind kind.now }
{
    match kind {
        DaemonKind::Plain => false,
        DaemonKind::Admin | DaemonKind::Smc(_) => true,
    }
}

/// For each daemon whether it is an admin.
fn admins_of(alloc: Global, daemons: &[DaemonKind]) -> Result<Vec<bool>, AllocError>
    ensures { IfOk result (λ v. v.items ≡ map is_admin_kind daemons.now) }
{
    let mut admins = Vec::with_capacity(alloc, daemons.len())?;
    for kind in daemons {
        admins.push(is_admin(kind))?;
    }
    Ok(admins)
}

/// The addresses of the devices.
fn devices_of(alloc: Global, devices: &[Named]) -> Result<Vec<Device>, AllocError>
    ensures { IfOk result (λ v. v.items ≡ map address_only devices.now) }
{
    let mut list = Vec::with_capacity(alloc, devices.len())?;
    for device in devices {
        list.push(Device { addr: device.addr })?;
    }
    Ok(list)
}

/// One zero for each lane: no item is read yet.
fn no_packets(alloc: Global, lanes: u32) -> Result<Vec<u32>, AllocError>
    ensures { IfOk result (λ v. v.items ≡ replicate lanes 0) }
{
    let mut packets = Vec::new(alloc);
    packets.resize(lanes as usize, 0)?;
    Ok(packets)
}

/// The limits that lines give, else the defaults.
fn limits_of(alloc: Global, draft: &Draft) -> Result<Limits, AllocError>
    requires phases { length draft.now.phases ≤ 1000 }
    requires closed { draft.now.current ≡ None }
    ensures { IfOk result (λ l. l ≡ limits_of draft.now) }
{
    Ok(Limits {
        entries: draft.entries.unwrap_or(DEFAULT_ENTRIES),
        unresolved: draft.unresolved.unwrap_or(DEFAULT_UNRESOLVED),
        controls: draft.controls.unwrap_or(DEFAULT_CONTROLS),
        phases: draft.phases.0.as_slice().len() as u32,
        packets: List(no_packets(alloc, lanes_of(draft))?),
        admins: List(admins_of(alloc, draft.daemons.0.as_slice())?),
        devices: List(devices_of(alloc, draft.devices.0.as_slice())?),
    })
}

/// The scenario of a draft, if `scenario 1` was read.
fn whole(alloc: Global, draft: Draft) -> Result<Scenario, ScenarioError>
    requires { length (phases_so_far draft) ≤ 1000 }
    ensures { Gives (λ s. s) result (whole draft) }
{
    if !draft.begun {
        return Err(ScenarioError::Bad {
            line: 1,
            kind: Kind::Header,
            text: List(Vec::new(alloc)),
        });
    }
    let mut draft = draft;
    close_phase(&mut draft)?;
    let limits = limits_of(alloc, &draft)?;
    Ok(Scenario {
        limits,
        lanes: lanes_of(&draft),
        devices: draft.devices,
        daemons: draft.daemons,
        phases: draft.phases,
    })
}

/// The scenario that bytes spell.
///
/// # Errors
///
/// `Bad` with the first bad line, what is wrong with it and what was found there; `Memory` where it
/// runs out.
pub fn read(alloc: Global, bytes: &[u8]) -> Result<Scenario, ScenarioError>
    ensures spelled { Gives (λ s. s) result (spelled bytes.now) }
    ensures fits { IfOk result Fits }
{
    let draft = draft_of(alloc, bytes)?;
    whole(alloc, draft)
}

//! What a status that is not Good means, as one line on standard error.

use crate::bad_conf::explain_conf;
use crate::form::{form, limit};
use crate::shown::shown;
use mr_base::{DEFAULT_CONTROLS, LONGEST_FILE, MOST_ITEMS, MOST_LANES};
use mr_command::MOST_SEED;
use mr_replay::{MOST_TRACE_BYTES, Status, TraceCause};
use mr_scenario::Kind;
use std::alloc::{AllocError, Global};
use std::fs::File;
use std::rt::Files;
use std::{fs, io};

/// What is bad in a line with a mistake of this kind.
fn subject(kind: Kind) -> &'static str {
    match kind {
        Kind::Header => "first line",
        Kind::Word => "word or number of words in",
        Kind::Number { .. } => "number",
        Kind::Address => "address",
        Kind::Name => "device name",
        Kind::Device => "device",
        Kind::Lane => "lane",
        Kind::Daemon => "daemon",
        Kind::Hex => "hex",
        Kind::Threshold => "threshold",
        Kind::Limit => "line, one too many:",
        Kind::File => "file",
    }
}

/// What was expected in place of what was found, where that is always the same or, for a bad line,
/// goes by the line's form.
fn form_of(found: &[u8], kind: Kind) -> &'static str {
    match kind {
        Kind::Header => "'scenario 1', in front of all others",
        Kind::Word => form(found),
        Kind::Address => "four numbers of 0 to 255 parted by dots",
        Kind::Name => {
            "1 to 15 letters, digits, '.', '_', '-' or ':', a letter first, not pimreg, each name once"
        }
        Kind::Device => "a name of a line 'device NAME ADDRESS'",
        Kind::Lane => "a number from 1 to that of the lanes",
        Kind::Daemon => "the number, from 1, of a daemon of the sort that has this operation",
        Kind::Hex => "an even number of hex digits, at most 131070",
        Kind::Threshold => "V:T, V 0 to 31 each once, T 0 to 255",
        Kind::File => {
            "a name of 1 to 255 bytes without '/', not '.' or '..', which does not begin with 'out-', at most 8"
        }
        Kind::Number { .. } | Kind::Limit => "",
    }
}

/// What was expected in place of what was found.
fn expected(alloc: Global, found: &[u8], kind: Kind) -> Result<String, AllocError> {
    match kind {
        Kind::Number { least, most } => format!(in alloc; "{least} to {most}"),
        Kind::Limit => limit(alloc, found),
        _ => String::from_str(alloc, form_of(found, kind)),
    }
}

/// What is wrong with a line: what was found, as the reader gave it, and what was expected.
pub fn mistake(alloc: Global, found: &[u8], kind: Kind) -> Result<String, AllocError> {
    let what = subject(kind);
    let word = shown(alloc, found)?;
    let wanted = expected(alloc, found, kind)?;
    format!(in alloc; "bad {what} '{word}' ({wanted})")
}

/// Shows a bad line of a scenario, in which the reader found these bytes.
fn explain_bad<R: AllocGlobal + Eprint>(
    rt: &R,
    file: &str,
    line: u32,
    kind: Kind,
    text: &[u8],
) -> io::Result<()> {
    let message = mistake(rt.alloc(), text, kind)?;
    eprintln!(rt; "{file}:{line}: {message}")
}

/// Why a file could not be read, as far as it can be seen now.
fn reason<R: Files>(rt: &R, file: &str) -> &'static str {
    match fs::metadata(rt, file) {
        Err(e) => match e.kind() {
            io::ErrorKind::NotFound => "it is not there",
            io::ErrorKind::PermissionDenied => "there is no permission",
            _ => "it cannot be looked at",
        },
        Ok(data) => {
            if data.is_dir() {
                "it is a folder"
            } else if data.len() > LONGEST_FILE {
                "it is too long"
            } else if File::open(rt, file).is_err() {
                "there is no permission"
            } else {
                "reading failed"
            }
        }
    }
}

/// Why an egress file could not be written, as far as it can be seen now.
fn write_reason<R: Files>(rt: &R, file: &str) -> &'static str {
    match fs::metadata(rt, file) {
        Err(_) => "it cannot be made in this folder",
        Ok(data) => {
            if data.is_dir() {
                "it is a folder"
            } else {
                "there is no permission or no space"
            }
        }
    }
}

/// Shows a file whose read or write failed. Only egress files are written, and no file that is read
/// has a name like theirs.
fn explain_fault<R: Files + Eprint>(rt: &R, name: &str) -> io::Result<()> {
    if name.as_bytes().starts_with(b"out-") {
        let why = write_reason(rt, name);
        return eprintln!(rt;
            "{name}: cannot be written: {why} (the history is written whole, and the egress files before this one)"
        );
    }
    let why = reason(rt, name);
    eprintln!(rt;
        "{name}: cannot be read: {why} (a file of at most {LONGEST_FILE} bytes was expected)"
    )
}

/// Why a file is refused as a trace, with what was expected.
fn explain_trace<R: Eprint>(rt: &R, name: &str, cause: TraceCause) -> io::Result<()> {
    match cause {
        TraceCause::CutHeader => {
            eprintln!(rt;
                "{name}: the file ends in its header (24 bytes of a pcap file were expected)"
            )
        }
        TraceCause::Magic => {
            eprintln!(rt;
                "{name}: the first four bytes are no magic number (a classic pcap file was expected, with microseconds or nanoseconds)"
            )
        }
        TraceCause::LinkType => {
            eprintln!(rt;
                "{name}: the link type is not known (1, 101, 113, 228 or 276 was expected)"
            )
        }
        TraceCause::CutRecord(number) => {
            eprintln!(rt;
                "{name}: record {number} is cut (a head of 16 bytes and as many bytes as it says were expected)"
            )
        }
        TraceCause::TooMany => {
            eprintln!(rt;
                "{name}: with this file there is too much (at most {MOST_ITEMS} items of all lanes and {MOST_TRACE_BYTES} bytes of all traces were expected)"
            )
        }
    }
}

/// Tells the forms of the commands.
fn explain_usage<R: Eprint>(rt: &R) -> io::Result<()> {
    eprintln!(rt;
        "usage: replay SCENARIO (a file of the folder, by a name of 1 to 255 bytes that does not begin with 'out-') or gen SEED LANES PACKETS (SEED 0 to {MOST_SEED}, LANES 1 to {MOST_LANES}, PACKETS of each lane 1 or more, together at most {MOST_ITEMS})"
    )
}

/// The scenario's file among the words.
fn file_of(words: &[String]) -> &str {
    match words {
        [_, file, ..] => file.as_str(),
        _ => "",
    }
}

/// Tells a person what a status that is not Good means, as one line on standard error.
pub fn explain<R: Files + AllocGlobal + Eprint>(
    rt: &R,
    words: &[String],
    status: &Status,
) -> io::Result<()> {
    let file = file_of(words);
    match status {
        Status::Good => Ok(()),
        Status::Usage => explain_usage(rt),
        Status::Scenario { line, kind, text } => {
            explain_bad(rt, file, *line, *kind, text.0.as_slice())
        }
        Status::Conf {
            file,
            line,
            kind,
            text,
        } => explain_conf(rt, file.as_str(), *line, *kind, text.0.as_slice()),
        Status::Trace { file, cause } => explain_trace(rt, file.as_str(), *cause),
        Status::StoreFault { file } => explain_fault(rt, file.as_str()),
        Status::SinkFault => eprintln!(rt; "standard output did not take the whole text"),
        Status::Memory => eprintln!(rt;
            "memory ran out: nothing was written, or the history and the first egress files"
        ),
        Status::ControlFull => {
            eprintln!(rt;
                "{file}: the daemons do more than the history may hold ('limit control N' with a greater N was expected, or fewer lines; {DEFAULT_CONTROLS} where it is not given)"
            )
        }
    }
}

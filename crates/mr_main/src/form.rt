//! What a line of a scenario looks like.

use mr_base::{MOST_DAEMONS, MOST_DEVICES, MOST_ITEMS, MOST_PHASES};
use mr_words::next_word;
use std::alloc::{AllocError, Global};
use std::str;

/// The word behind `index` others, or an empty one; one that is no text is taken as '..'.
fn word_at(line: &[u8], index: usize) -> &str {
    let mut rest = line;
    for _ in 0..index {
        match next_word(rest) {
            Some((_, after)) => rest = after,
            None => return "",
        }
    }
    match next_word(rest) {
        Some((word, _)) => str::from_utf8(word).unwrap_or(".."),
        None => "",
    }
}

/// The form of a daemon's operation, with `daemon D` in front.
fn operation(op: &str) -> &'static str {
    match op {
        "init" => "daemon D init",
        "done" => "daemon D done",
        "addvif" => "daemon D addvif I F LOCAL",
        "delvif" => "daemon D delvif I",
        "addmfc" => "daemon D addmfc S G P V:T ..",
        "addproxy" => "daemon D addproxy S G P V:T ..",
        "delmfc" => "daemon D delmfc S G P",
        "delproxy" => "daemon D delproxy S G P",
        "pim" => "daemon D pim N",
        "assert" => "daemon D assert N",
        "flush" => "daemon D flush N",
        "table" => "daemon D table N",
        "version" => "daemon D version",
        "getpim" => "daemon D getpim",
        "getassert" => "daemon D getassert",
        "vifcnt" => "daemon D vifcnt I",
        "sgcnt" => "daemon D sgcnt S G",
        "raw" => "daemon D raw OPT HEX",
        "tick" => "daemon D tick MS",
        "recv" => "daemon D recv",
        "smc" => "daemon D smc WORDS",
        "start" => "daemon D start",
        "poll" => "daemon D poll N",
        _ =>
            "before the phases 'daemon admin' or 'daemon plain', in a phase 'daemon D OP ..' with a known operation",
    }
}

/// The form of a line by its first word and, of a daemon's line, by its operation.
pub fn form(line: &[u8]) -> &'static str {
    match word_at(line, 0) {
        "limit" =>
            "before the phases 'limit entries N', 'limit unresolved N' or 'limit control N', each once",
        "lanes" => "before the phases 'lanes N', once",
        "device" => "before the phases 'device NAME ADDRESS'",
        "smc" => "before the phases 'smc FILE ..'",
        "phase" => "'phase' alone",
        "lane" => "in a phase 'lane L pkt DEV HEX' or 'lane L trace DEV FILE'",
        "daemon" => operation(word_at(line, 2)),
        _ => "a line that begins with limit, lanes, device, daemon, smc, phase or lane",
    }
}

/// How many there may be of what a line gives.
pub fn limit(alloc: Global, line: &[u8]) -> Result<String, AllocError> {
    match word_at(line, 0) {
        "device" => format!(in alloc; "at most {MOST_DEVICES} devices"),
        "daemon" | "smc" => format!(in alloc; "at most {MOST_DAEMONS} daemons"),
        "phase" => format!(in alloc; "at most {MOST_PHASES} phases"),
        _ => format!(in alloc; "at most {MOST_ITEMS} packets"),
    }
}

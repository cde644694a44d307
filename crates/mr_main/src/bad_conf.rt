//! What is wrong with a line of a configuration, as one line on standard error.

use crate::shown::shown;
use smc_conf::Kind;
use std::alloc::{AllocError, Global};
use std::io;

/// What is bad in a line with a mistake of this kind.
fn subject(kind: Kind) -> &'static str {
    match kind {
        Kind::Word => "word or number of words",
        Kind::Address => "address",
        Kind::Interface => "interface",
        Kind::Prefix => "length of a prefix",
        Kind::Threshold => "threshold",
    }
}

/// What was expected in its place.
fn expected(kind: Kind) -> &'static str {
    match kind {
        Kind::Word => {
            "'phyint IF enable' or 'disable', perhaps 'ttl-threshold N', 'mgroup from IF [source A] group G' or 'mroute from IF [source A] group G to IF ..'"
        }
        Kind::Address =>
            "four numbers of 0 to 255 parted by dots, a group 224.0.0.0 to 239.255.255.255",
        Kind::Interface =>
            "1 to 15 letters, digits, '.', '_', '-' or ':', a letter first, not pimreg, in one 'phyint' each, at most 32 enabled",
        Kind::Prefix => "0 to 32",
        Kind::Threshold => "1 to 255",
    }
}

/// What is wrong with a line, what stands there, and what was expected.
pub fn conf_mistake(alloc: Global, found: &[u8], kind: Kind) -> Result<String, AllocError> {
    let what = subject(kind);
    let wanted = expected(kind);
    let line = shown(alloc, found)?;
    format!(in alloc; "bad {what} in '{line}' ({wanted})")
}

/// Shows a bad line of a configuration.
pub fn explain_conf<R: AllocGlobal + Eprint>(
    rt: &R,
    file: &str,
    line: u32,
    kind: Kind,
    found: &[u8],
) -> io::Result<()> {
    let message = conf_mistake(rt.alloc(), found, kind)?;
    eprintln!(rt; "{file}:{line}: {message}")
}

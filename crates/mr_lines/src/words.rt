//! What single words say.

ghost use Rattle.std.specs.Prelude.{◌≡◌};
ghost use Rattle.mr_lines.specs.Fit.{is_vif_name};
ghost use Rattle.mr_lines.specs.Words.{addr_of, name_of, errno_of, report_of, told_of, cause_of};
ghost use Rattle.mr_lines.specs.Words.{kind_of};

use mr_base::{Addr, Errno, FileName};
use mr_model::{Cause, Kind, Report};
use mr_words::{address_of, is_device_name};

/// The error of a refused call, by its number.
pub fn errno_of(word: &[u8]) -> Option<Errno>
    ensures { result ≡ errno_of word.now }
{
    if word == b"2".as_slice() {
        Some(Errno::NoEntry)
    } else if word == b"13".as_slice() {
        Some(Errno::Access)
    } else if word == b"22".as_slice() {
        Some(Errno::Invalid)
    } else if word == b"23".as_slice() {
        Some(Errno::TooManyVifs)
    } else if word == b"92".as_slice() {
        Some(Errno::NoOption)
    } else if word == b"98".as_slice() {
        Some(Errno::InUse)
    } else if word == b"99".as_slice() {
        Some(Errno::NotAvailable)
    } else if word == b"105".as_slice() {
        Some(Errno::NoBuffers)
    } else {
        None
    }
}

/// Whether a wrong-interface packet was reported.
pub fn report_of(word: &[u8]) -> Option<Report>
    ensures { result ≡ report_of word.now }
{
    if word == b"quiet".as_slice() {
        Some(Report::Quiet)
    } else if word == b"told".as_slice() {
        Some(Report::Told)
    } else if word == b"lost".as_slice() {
        Some(Report::Lost)
    } else {
        None
    }
}

/// Whether a report stands among the unread ones.
pub fn told_of(word: &[u8]) -> Option<bool>
    ensures { result ≡ told_of word.now }
{
    if word == b"told".as_slice() {
        Some(true)
    } else if word == b"lost".as_slice() {
        Some(false)
    } else {
        None
    }
}

/// Why a packet that missed was dropped.
pub fn cause_of(word: &[u8]) -> Option<Cause>
    ensures { result ≡ cause_of word.now }
{
    if word == b"novif".as_slice() {
        Some(Cause::NoVif)
    } else if word == b"nodaemon".as_slice() {
        Some(Cause::NoDaemon)
    } else if word == b"entries".as_slice() {
        Some(Cause::Entries)
    } else if word == b"packets".as_slice() {
        Some(Cause::Packets)
    } else if word == b"upcall".as_slice() {
        Some(Cause::Upcall)
    } else {
        None
    }
}

/// The kind of a report.
pub fn kind_of(word: &[u8]) -> Option<Kind>
    ensures { result ≡ kind_of word.now }
{
    if word == b"nocache".as_slice() {
        Some(Kind::NoCache)
    } else if word == b"wrongvif".as_slice() {
        Some(Kind::WrongVif)
    } else if word == b"wholepkt".as_slice() {
        Some(Kind::WholePkt)
    } else {
        None
    }
}

/// The address that a word spells.
pub fn addr_of(word: &[u8]) -> Option<Addr>
    ensures { result ≡ addr_of word.now }
{
    let address = address_of(word)?;
    Some(Addr(address))
}

/// Whether a word is the name of a vif: a device's, or `pimreg`.
pub fn is_vif_name(word: &[u8]) -> bool
    ensures { result ≡ is_vif_name word.now }
{
    is_device_name(word) || word == b"pimreg".as_slice()
}

/// The name of a vif, if a word is one.
pub fn name_of(word: &[u8]) -> Option<FileName>
    ensures { result ≡ name_of word.now }
{
    if is_vif_name(word) {
        Some(mr_words::name_of(word))
    } else {
        None
    }
}

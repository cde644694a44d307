//! Requests and replies.

ghost use Rattle.std.specs.Prelude.{◌≡◌, ◌<◌, ◌≤◌, None, Some, MatchOption, length};
ghost use Rattle.mr_lines.specs.Bytes.{behind, Gives};
ghost use Rattle.mr_lines.specs.Fields.{by_word, mapped, one, both};
ghost use Rattle.mr_lines.specs.Reading.{addr, vif_ctl, route_ctl, to_count, request_at, asked};
ghost use Rattle.mr_lines.specs.Reading.{good, reply_at, replied};
ghost use Rattle.mr_lines.specs.Words.{at_number, local_of, ttls_from, errno_of};
ghost use Rattle.mr_model.specs.declared.reply.Reply.TheVariants as reply;

use crate::cursor::next_word;
use crate::fields::{addr_at, key_at, route_totals_at, vif_totals_at};
use crate::items::ttls_at;
use crate::numbers::{u8_at, u16_at, u32_at};
use crate::words::errno_of;
use mr_model::{MfcCtl, Reply, Request, VifCtl};
use mr_words::{address_of, number_of};

/// `@N`, a device's number.
fn at_number(word: &[u8]) -> Option<u32>
    ensures { result ≡ at_number word.now }
{
    match word {
        [b'@', number @ ..] => number_of(number, 4_294_967_295),
        _ => None,
    }
}

/// The local field: `@N` with flags 8, else an address.
fn local_of(flags: u8, word: &[u8]) -> Option<u32>
    ensures { result ≡ local_of flags word.now }
{
    if flags == 8 {
        at_number(word)
    } else {
        address_of(word)
    }
}

fn vif_ctl_at(rest: &[u8]) -> Option<(VifCtl, &[u8])>
    ensures { Gives (λ r. r.now) result (vif_ctl (behind rest.now)) }
{
    let (vif, rest) = u16_at(rest)?;
    let (flags, rest) = u8_at(rest)?;
    let (word, rest) = next_word(rest)?;
    let local = local_of(flags, word)?;
    Some((VifCtl { vif, flags, local }, rest))
}

fn route_at(rest: &[u8]) -> Option<(MfcCtl, &[u8])>
    ensures { Gives (λ r. r.now) result (route_ctl (behind rest.now)) }
{
    let (key, rest) = key_at(rest)?;
    let (ttls, rest) = ttls_at(rest);
    Some((
        MfcCtl {
            src: key.src,
            dst: key.dst,
            parent: key.parent,
            ttls,
        },
        rest,
    ))
}

fn count_at(rest: &[u8]) -> Option<(Request, &[u8])>
    ensures { Gives (λ r. r.now) result (mapped to_count (both addr addr) (behind rest.now)) }
{
    let (src, rest) = addr_at(rest)?;
    let (dst, rest) = addr_at(rest)?;
    Some((Request::SgCount { src, dst }, rest))
}

/// A request by its first word; the other words stand behind it.
fn request_by_word<'a>(word: &[u8], rest: &'a [u8]) -> Option<(Request, &'a [u8])>
    ensures { Gives (λ r. r.now) result (request_at word.now (behind rest.now)) }
{
    if word == b"init".as_slice() {
        Some((Request::Init, rest))
    } else if word == b"done".as_slice() {
        Some((Request::Finish, rest))
    } else if word == b"addvif".as_slice() {
        let (ctl, rest) = vif_ctl_at(rest)?;
        Some((Request::AddVif(ctl), rest))
    } else if word == b"delvif".as_slice() {
        let (number, rest) = u16_at(rest)?;
        Some((Request::DelVif(number), rest))
    } else if word == b"addmfc".as_slice() {
        let (ctl, rest) = route_at(rest)?;
        Some((Request::AddMfc(ctl), rest))
    } else if word == b"delmfc".as_slice() {
        let (key, rest) = key_at(rest)?;
        Some((Request::DelMfc(key), rest))
    } else if word == b"addproxy".as_slice() {
        let (ctl, rest) = route_at(rest)?;
        Some((Request::AddProxy(ctl), rest))
    } else if word == b"delproxy".as_slice() {
        let (key, rest) = key_at(rest)?;
        Some((Request::DelProxy(key), rest))
    } else if word == b"pim".as_slice() {
        let (number, rest) = u32_at(rest)?;
        Some((Request::Pim(number), rest))
    } else if word == b"assert".as_slice() {
        let (number, rest) = u32_at(rest)?;
        Some((Request::Assert(number), rest))
    } else if word == b"flush".as_slice() {
        let (number, rest) = u32_at(rest)?;
        Some((Request::Flush(number), rest))
    } else if word == b"unknown".as_slice() {
        let (number, rest) = u16_at(rest)?;
        Some((Request::Unknown(number), rest))
    } else if word == b"badlength".as_slice() {
        let (number, rest) = u16_at(rest)?;
        Some((Request::BadLength(number), rest))
    } else if word == b"version".as_slice() {
        Some((Request::GetVersion, rest))
    } else if word == b"getpim".as_slice() {
        Some((Request::GetPim, rest))
    } else if word == b"getassert".as_slice() {
        Some((Request::GetAssert, rest))
    } else if word == b"vifcnt".as_slice() {
        let (number, rest) = u16_at(rest)?;
        Some((Request::VifCount(number), rest))
    } else if word == b"sgcnt".as_slice() {
        count_at(rest)
    } else {
        None
    }
}

/// A request, and the word `=` behind it.
pub fn asked_at(rest: &[u8]) -> Option<(Request, &[u8])>
    ensures { Gives (λ r. r.now) result (asked (behind rest.now)) }
{
    let (word, rest) = next_word(rest)?;
    let (request, rest) = request_by_word(word, rest)?;
    let (sign, rest) = next_word(rest)?;
    if sign == b"=".as_slice() {
        Some((request, rest))
    } else {
        None
    }
}

/// `ok` alone, or with a value behind it.
fn good_at(rest: &[u8]) -> Option<(Reply, &[u8])>
    ensures { Gives (λ r. r.now) result (good (behind rest.now)) }
{
    match rest {
        [] => Some((Reply::Good, rest)),
        [_, ..] => {
            let (value, rest) = u32_at(rest)?;
            Some((Reply::Value(value), rest))
        }
    }
}

/// A reply by its first word; the other words stand behind it.
fn reply_by_word<'a>(word: &[u8], rest: &'a [u8]) -> Option<(Reply, &'a [u8])>
    ensures { Gives (λ r. r.now) result (reply_at word.now (behind rest.now)) }
{
    if word == b"ok".as_slice() {
        good_at(rest)
    } else if word == b"sg".as_slice() {
        let (totals, rest) = route_totals_at(rest)?;
        Some((Reply::Sg(totals), rest))
    } else if word == b"vif".as_slice() {
        let (totals, rest) = vif_totals_at(rest)?;
        Some((Reply::Vif(totals), rest))
    } else if word == b"err".as_slice() {
        let (word, rest) = next_word(rest)?;
        let errno = errno_of(word)?;
        Some((Reply::Refused(errno), rest))
    } else {
        None
    }
}

/// A reply.
pub fn reply_at(rest: &[u8]) -> Option<(Reply, &[u8])>
    ensures { Gives (λ r. r.now) result (replied (behind rest.now)) }
{
    let (word, rest) = next_word(rest)?;
    reply_by_word(word, rest)
}

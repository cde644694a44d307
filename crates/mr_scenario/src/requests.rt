//! Requests of daemons: each by the words behind its own. The number of words is tested first, then
//! who asks.

ghost use Rattle.std.specs.Prelude.{◌≡◌, ◌≤◌, IfOk};
ghost use Rattle.mr_scenario.specs.Requests.{by_hand, by_smcroute, plain_request, vif_ctl, mfc_ctl};
ghost use Rattle.mr_scenario.specs.Requests.{mfc_key, value, count_request, unknown, question};
ghost use Rattle.mr_scenario.specs.Requests.{switch_request, entry_request, request_of};
ghost use Rattle.mr_words.specs.Words.{words_of};

use crate::counting::{led_by_three, no_words, one_word, three_words, two_words};
use crate::forms::{address_word, local_word, number_word, thresholds};
use crate::stop::{Kind, Mistake, in_line, in_word, wants};
use mr_base::Addr;
use mr_model::{MfcCtl, MfcKey, Request, VifCtl};

/// A plain or admin daemon alone.
pub fn by_hand(who: Result<bool, Mistake>) -> Result<(), Mistake>
    ensures { result ≡ by_hand who }
{
    wants(!who?, in_word(1, Kind::Daemon))
}

/// An smcroute daemon alone.
pub fn by_smcroute(who: Result<bool, Mistake>) -> Result<(), Mistake>
    ensures { result ≡ by_smcroute who }
{
    wants(who?, in_word(1, Kind::Daemon))
}

/// A request without operands.
fn plain_request(
    request: Request,
    who: Result<bool, Mistake>,
    words: &[u8],
) -> Result<Request, Mistake>
    ensures { result ≡ plain_request request who (words_of words.now) }
{
    no_words(words).ok_or(in_line(Kind::Word))?;
    by_hand(who)?;
    Ok(request)
}

/// `I F LOCAL`
fn vif_ctl(who: Result<bool, Mistake>, words: &[u8]) -> Result<VifCtl, Mistake>
    ensures { result ≡ vif_ctl who (words_of words.now) }
{
    let (vif, flags, local) = three_words(words).ok_or(in_line(Kind::Word))?;
    by_hand(who)?;
    let vif = number_word(3, 65_535, vif)?;
    let flags = number_word(4, 255, flags)?;
    let local = local_word(5, local)?;
    Ok(VifCtl {
        vif: vif as u16,
        flags: flags as u8,
        local,
    })
}

/// `S G P V:T ..`
fn mfc_ctl(who: Result<bool, Mistake>, words: &[u8]) -> Result<MfcCtl, Mistake>
    ensures { result ≡ mfc_ctl who (words_of words.now) }
{
    let (src, dst, parent, items) = led_by_three(words).ok_or(in_line(Kind::Word))?;
    by_hand(who)?;
    let src = address_word(3, src)?;
    let dst = address_word(4, dst)?;
    let parent = number_word(5, 65_535, parent)?;
    let ttls = thresholds(items)?;
    Ok(MfcCtl {
        src: Addr(src),
        dst: Addr(dst),
        parent: parent as u16,
        ttls,
    })
}

/// `S G P`
fn mfc_key(who: Result<bool, Mistake>, words: &[u8]) -> Result<MfcKey, Mistake>
    ensures { result ≡ mfc_key who (words_of words.now) }
{
    let (src, dst, parent) = three_words(words).ok_or(in_line(Kind::Word))?;
    by_hand(who)?;
    let src = address_word(3, src)?;
    let dst = address_word(4, dst)?;
    let parent = number_word(5, 65_535, parent)?;
    Ok(MfcKey {
        src: Addr(src),
        dst: Addr(dst),
        parent: parent as u16,
    })
}

/// `N`, at most `most`.
pub fn value(most: u32, who: Result<bool, Mistake>, words: &[u8]) -> Result<u32, Mistake>
    ensures value { result ≡ value most who (words_of words.now) }
    ensures within { IfOk result (λ n. n ≤ most) }
{
    let number = one_word(words).ok_or(in_line(Kind::Word))?;
    by_hand(who)?;
    number_word(3, most, number)
}

/// `S G`
fn count_request(who: Result<bool, Mistake>, words: &[u8]) -> Result<Request, Mistake>
    ensures { result ≡ count_request who (words_of words.now) }
{
    let (src, dst) = two_words(words).ok_or(in_line(Kind::Word))?;
    by_hand(who)?;
    let src = address_word(3, src)?;
    let dst = address_word(4, dst)?;
    Ok(Request::SgCount {
        src: Addr(src),
        dst: Addr(dst),
    })
}

/// An operation that is none: its daemon is tested first.
fn unknown(who: Result<bool, Mistake>) -> Result<Request, Mistake>
    ensures { result ≡ unknown who }
{
    who?;
    Err(in_line(Kind::Word))
}

/// The requests that read: `version`, `getpim`, `getassert`, `vifcnt I`, `sgcnt S G`
fn question(op: &[u8], who: Result<bool, Mistake>, words: &[u8]) -> Result<Request, Mistake>
    ensures { result ≡ question op.now who (words_of words.now) }
{
    if op == b"version".as_slice() {
        plain_request(Request::GetVersion, who, words)
    } else if op == b"getpim".as_slice() {
        plain_request(Request::GetPim, who, words)
    } else if op == b"getassert".as_slice() {
        plain_request(Request::GetAssert, who, words)
    } else if op == b"vifcnt".as_slice() {
        Ok(Request::VifCount(value(65_535, who, words)? as u16))
    } else if op == b"sgcnt".as_slice() {
        count_request(who, words)
    } else {
        unknown(who)
    }
}

/// The requests on switches: `pim N`, `assert N`, `flush N`
fn switch_request(op: &[u8], who: Result<bool, Mistake>, words: &[u8]) -> Result<Request, Mistake>
    ensures { result ≡ switch_request op.now who (words_of words.now) }
{
    if op == b"pim".as_slice() {
        Ok(Request::Pim(value(4_294_967_295, who, words)?))
    } else if op == b"assert".as_slice() {
        Ok(Request::Assert(value(4_294_967_295, who, words)?))
    } else if op == b"flush".as_slice() {
        Ok(Request::Flush(value(4_294_967_295, who, words)?))
    } else {
        question(op, who, words)
    }
}

/// The requests on entries: `addmfc S G P V:T ..`, `delmfc S G P`, and both for a proxy
fn entry_request(op: &[u8], who: Result<bool, Mistake>, words: &[u8]) -> Result<Request, Mistake>
    ensures { result ≡ entry_request op.now who (words_of words.now) }
{
    if op == b"addmfc".as_slice() {
        Ok(Request::AddMfc(mfc_ctl(who, words)?))
    } else if op == b"delmfc".as_slice() {
        Ok(Request::DelMfc(mfc_key(who, words)?))
    } else if op == b"addproxy".as_slice() {
        Ok(Request::AddProxy(mfc_ctl(who, words)?))
    } else if op == b"delproxy".as_slice() {
        Ok(Request::DelProxy(mfc_key(who, words)?))
    } else {
        switch_request(op, who, words)
    }
}

/// All requests; the other ones are `init`, `done`, `addvif I F LOCAL`, `delvif I`
pub fn request_of(op: &[u8], who: Result<bool, Mistake>, words: &[u8]) -> Result<Request, Mistake>
    ensures { result ≡ request_of op.now who (words_of words.now) }
{
    if op == b"init".as_slice() {
        plain_request(Request::Init, who, words)
    } else if op == b"done".as_slice() {
        plain_request(Request::Finish, who, words)
    } else if op == b"addvif".as_slice() {
        Ok(Request::AddVif(vif_ctl(who, words)?))
    } else if op == b"delvif".as_slice() {
        Ok(Request::DelVif(value(65_535, who, words)? as u16))
    } else {
        entry_request(op, who, words)
    }
}

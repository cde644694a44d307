//! Requests, replies, outcomes and fates, each as words behind a space.

ghost use Rattle.std.specs.Prelude.{◌≡◌, ◌++◌, ◌∷◌, [], codes, decimal, OnOk};
ghost use Rattle.mr_base.specs.Errnos.{number_of};
ghost use Rattle.mr_lines.specs.Forms.{address, mask, vif_or_none, local_word, route_words};
ghost use Rattle.mr_lines.specs.Forms.{key_words};
ghost use Rattle.mr_lines.specs.Lines.{request_words, reply_words, route_total_words};
ghost use Rattle.mr_lines.specs.Lines.{vif_total_words, report_word, cause_word, told_word};
ghost use Rattle.mr_lines.specs.Lines.{outcome_words, kind_word, message_words, fate_words};
ghost use Rattle.mr_print.specs.Written.{led};

use crate::words::{
    write_address, write_local, write_mask, write_spaced, write_thresholds, write_vif_or_none,
};
use mr_base::{Addr, Mask};
use mr_model::{
    Cause, Fate, Kind, MessageId, MfcCtl, MfcKey, Outcome, Reply, Report, Request, RouteTotals,
    VifCtl, VifTotals,
};
use std::alloc::AllocError;

/// Bytes that stand so in the text.
fn write_plain(out: &mut Vec<u8>, bytes: &[u8]) -> Result<(), AllocError>
    ensures { OnOk result (out.new.items ≡ out.old.items ++ bytes.now) }
{
    out.extend_from_slice(bytes)?;
    Ok(())
}

/// A keyword and a number.
fn write_with(out: &mut Vec<u8>, word: &[u8], number: u32) -> Result<(), AllocError>
    ensures { OnOk result
        (out.new.items ≡ out.old.items ++ (word.now ++ led (decimal number ∷ []))) }
{
    write_plain(out, word)?;
    write_spaced(out, u64::from(number))?;
    Ok(())
}

/// The fields of a vif that is added.
fn write_add_vif(out: &mut Vec<u8>, ctl: &VifCtl) -> Result<(), AllocError>
    ensures { OnOk result (out.new.items ≡ out.old.items ++ led (codes "addvif"
        ∷ decimal ctl.now.vif ∷ decimal ctl.now.flags ∷ local_word ctl.now ∷ [])) }
{
    write_plain(out, b" addvif")?;
    write_spaced(out, u64::from(ctl.vif))?;
    write_spaced(out, u64::from(ctl.flags))?;
    write_local(out, ctl)?;
    Ok(())
}

/// The fields of an entry.
fn write_route_fields(out: &mut Vec<u8>, ctl: &MfcCtl) -> Result<(), AllocError>
    ensures { OnOk result (out.new.items ≡ out.old.items ++ led (route_words ctl.now)) }
{
    write_address(out, ctl.src)?;
    write_address(out, ctl.dst)?;
    write_spaced(out, u64::from(ctl.parent))?;
    write_thresholds(out, &ctl.ttls)?;
    Ok(())
}

/// The fields that name an entry.
fn write_key_fields(out: &mut Vec<u8>, key: &MfcKey) -> Result<(), AllocError>
    ensures { OnOk result (out.new.items ≡ out.old.items ++ led (key_words key.now)) }
{
    write_address(out, key.src)?;
    write_address(out, key.dst)?;
    write_spaced(out, u64::from(key.parent))?;
    Ok(())
}

/// A keyword and the fields of an entry.
fn write_route_call(out: &mut Vec<u8>, word: &[u8], ctl: &MfcCtl) -> Result<(), AllocError>
    ensures { OnOk result
        (out.new.items ≡ out.old.items ++ (word.now ++ led (route_words ctl.now))) }
{
    write_plain(out, word)?;
    write_route_fields(out, ctl)?;
    Ok(())
}

/// A keyword and the fields that name an entry.
fn write_key_call(out: &mut Vec<u8>, word: &[u8], key: &MfcKey) -> Result<(), AllocError>
    ensures { OnOk result (out.new.items ≡ out.old.items ++ (word.now ++ led (key_words key.now))) }
{
    write_plain(out, word)?;
    write_key_fields(out, key)?;
    Ok(())
}

/// The words of a request for the counts of a pair.
fn write_sg_count(out: &mut Vec<u8>, src: Addr, dst: Addr) -> Result<(), AllocError>
    ensures { OnOk result
        (out.new.items ≡ out.old.items ++ led (codes "sgcnt" ∷ address src ∷ address dst ∷ [])) }
{
    write_plain(out, b" sgcnt")?;
    write_address(out, src)?;
    write_address(out, dst)?;
    Ok(())
}

/// The words of a request.
pub fn write_request(out: &mut Vec<u8>, request: &Request) -> Result<(), AllocError>
    ensures { OnOk result (out.new.items ≡ out.old.items ++ led (request_words request.now)) }
{
    match request {
        Request::Init => write_plain(out, b" init"),
        Request::Finish => write_plain(out, b" done"),
        Request::AddVif(ctl) => write_add_vif(out, ctl),
        Request::DelVif(vif) => write_with(out, b" delvif", u32::from(*vif)),
        Request::AddMfc(ctl) => write_route_call(out, b" addmfc", ctl),
        Request::DelMfc(key) => write_key_call(out, b" delmfc", key),
        Request::AddProxy(ctl) => write_route_call(out, b" addproxy", ctl),
        Request::DelProxy(key) => write_key_call(out, b" delproxy", key),
        Request::Pim(value) => write_with(out, b" pim", *value),
        Request::Assert(value) => write_with(out, b" assert", *value),
        Request::Flush(bits) => write_with(out, b" flush", *bits),
        Request::Unknown(option) => write_with(out, b" unknown", u32::from(*option)),
        Request::BadLength(option) => write_with(out, b" badlength", u32::from(*option)),
        Request::GetVersion => write_plain(out, b" version"),
        Request::GetPim => write_plain(out, b" getpim"),
        Request::GetAssert => write_plain(out, b" getassert"),
        Request::VifCount(vif) => write_with(out, b" vifcnt", u32::from(*vif)),
        Request::SgCount { src, dst } => write_sg_count(out, *src, *dst),
    }
}

/// What an entry counted.
pub fn write_route_totals(out: &mut Vec<u8>, totals: &RouteTotals) -> Result<(), AllocError>
    ensures { OnOk result (out.new.items ≡ out.old.items ++ led (route_total_words totals.now)) }
{
    write_spaced(out, totals.packets)?;
    write_spaced(out, totals.bytes)?;
    write_spaced(out, totals.wrong)?;
    Ok(())
}

/// What a vif counted.
pub fn write_vif_totals(out: &mut Vec<u8>, totals: &VifTotals) -> Result<(), AllocError>
    ensures { OnOk result (out.new.items ≡ out.old.items ++ led (vif_total_words totals.now)) }
{
    write_spaced(out, totals.packets_in)?;
    write_spaced(out, totals.packets_out)?;
    write_spaced(out, totals.bytes_in)?;
    write_spaced(out, totals.bytes_out)?;
    Ok(())
}

/// The words of a reply with an entry's counts.
fn write_sg_reply(out: &mut Vec<u8>, totals: &RouteTotals) -> Result<(), AllocError>
    ensures { OnOk result
        (out.new.items ≡ out.old.items ++ led (codes "sg" ∷ route_total_words totals.now)) }
{
    write_plain(out, b" sg")?;
    write_route_totals(out, totals)?;
    Ok(())
}

/// The words of a reply with a vif's counts.
fn write_vif_reply(out: &mut Vec<u8>, totals: &VifTotals) -> Result<(), AllocError>
    ensures { OnOk result
        (out.new.items ≡ out.old.items ++ led (codes "vif" ∷ vif_total_words totals.now)) }
{
    write_plain(out, b" vif")?;
    write_vif_totals(out, totals)?;
    Ok(())
}

/// The words of a reply.
pub fn write_reply(out: &mut Vec<u8>, reply: &Reply) -> Result<(), AllocError>
    ensures { OnOk result (out.new.items ≡ out.old.items ++ led (reply_words reply.now)) }
{
    match reply {
        Reply::Good => write_plain(out, b" ok"),
        Reply::Value(value) => write_with(out, b" ok", *value),
        Reply::Sg(totals) => write_sg_reply(out, totals),
        Reply::Vif(totals) => write_vif_reply(out, totals),
        Reply::Refused(errno) => write_with(out, b" err", errno.number()),
    }
}

/// An entry's number, the vif of its packet and another word.
fn write_forward(
    out: &mut Vec<u8>,
    word: &[u8],
    entry: u32,
    input: Option<u8>,
    outs: Mask,
) -> Result<(), AllocError>
    ensures { OnOk result (out.new.items
        ≡ out.old.items ++ (word.now ++ led (decimal entry ∷ vif_or_none input ∷ mask outs ∷ []))) }
{
    write_plain(out, word)?;
    write_spaced(out, u64::from(entry))?;
    write_vif_or_none(out, input)?;
    write_mask(out, outs)?;
    Ok(())
}

/// The bytes of a report, behind a space.
fn report_text(report: Report) -> &'static [u8]
    ensures { result.now ≡ led (report_word report ∷ []) }
{
    match report {
        Report::Quiet => b" quiet",
        Report::Told => b" told",
        Report::Lost => b" lost",
    }
}

/// The bytes of a cause, behind a space.
fn cause_text(cause: Cause) -> &'static [u8]
    ensures { result.now ≡ led (cause_word cause ∷ []) }
{
    match cause {
        Cause::NoVif => b" novif",
        Cause::NoDaemon => b" nodaemon",
        Cause::Entries => b" entries",
        Cause::Packets => b" packets",
        Cause::Upcall => b" upcall",
    }
}

/// The bytes of a kind of report, behind a space.
fn kind_text(kind: Kind) -> &'static [u8]
    ensures { result.now ≡ led (kind_word kind ∷ []) }
{
    match kind {
        Kind::NoCache => b" nocache",
        Kind::WrongVif => b" wrongvif",
        Kind::WholePkt => b" wholepkt",
    }
}

/// Whether a report was told.
fn told_text(told: bool) -> &'static [u8]
    ensures { result.now ≡ led (told_word told ∷ []) }
{
    if told { b" told" } else { b" lost" }
}

/// The words of a packet that went to the register vif.
fn write_register(
    out: &mut Vec<u8>,
    entry: u32,
    input: Option<u8>,
    outs: Mask,
    told: bool,
) -> Result<(), AllocError>
    ensures { OnOk result (out.new.items ≡ out.old.items ++ led (codes "reg"
        ∷ decimal entry ∷ vif_or_none input ∷ mask outs ∷ told_word told ∷ [])) }
{
    write_forward(out, b" reg", entry, input, outs)?;
    write_plain(out, told_text(told))?;
    Ok(())
}

/// The words of a packet that came in on a wrong interface.
fn write_wrong(
    out: &mut Vec<u8>,
    entry: u32,
    vif: Option<u8>,
    report: Report,
) -> Result<(), AllocError>
    ensures { OnOk result (out.new.items ≡ out.old.items
        ++ led (codes "wrong" ∷ decimal entry ∷ vif_or_none vif ∷ report_word report ∷ [])) }
{
    write_plain(out, b" wrong")?;
    write_spaced(out, u64::from(entry))?;
    write_vif_or_none(out, vif)?;
    write_plain(out, report_text(report))?;
    Ok(())
}

/// The words of a packet that was dropped.
fn write_dropped(out: &mut Vec<u8>, cause: Cause) -> Result<(), AllocError>
    ensures { OnOk result
        (out.new.items ≡ out.old.items ++ led (codes "drop" ∷ cause_word cause ∷ [])) }
{
    write_plain(out, b" drop")?;
    write_plain(out, cause_text(cause))?;
    Ok(())
}

/// The words of an outcome.
pub fn write_outcome(out: &mut Vec<u8>, outcome: &Outcome) -> Result<(), AllocError>
    ensures { OnOk result (out.new.items ≡ out.old.items ++ led (outcome_words outcome.now)) }
{
    match outcome {
        Outcome::Forward { entry, input, outs } => {
            write_forward(out, b" fwd", *entry, *input, *outs)
        }
        Outcome::Register {
            entry,
            input,
            outs,
            told,
        } => write_register(out, *entry, *input, *outs, *told),
        Outcome::Wrong { entry, vif, report } => write_wrong(out, *entry, *vif, *report),
        Outcome::Parked => write_plain(out, b" parked"),
        Outcome::Dropped(cause) => write_dropped(out, *cause),
    }
}

/// The words of a report to a daemon.
fn write_told(out: &mut Vec<u8>, message: &MessageId) -> Result<(), AllocError>
    ensures { OnOk result (out.new.items ≡ out.old.items ++ led (kind_word message.now.kind
        ∷ decimal message.now.vif ∷ decimal message.now.lane.0 ∷ decimal message.now.index ∷ [])) }
{
    write_plain(out, kind_text(message.kind))?;
    write_spaced(out, u64::from(message.vif))?;
    write_spaced(out, u64::from(message.lane.0))?;
    write_spaced(out, u64::from(message.index))?;
    Ok(())
}

/// The words of what a daemon received.
pub fn write_message(out: &mut Vec<u8>, message: &Option<MessageId>) -> Result<(), AllocError>
    ensures { OnOk result (out.new.items ≡ out.old.items ++ led (message_words message.now)) }
{
    match message {
        None => write_plain(out, b" none"),
        Some(message) => write_told(out, message),
    }
}

/// The words of a fate.
pub fn write_fate_words(out: &mut Vec<u8>, fate: Fate) -> Result<(), AllocError>
    ensures { OnOk result (out.new.items ≡ out.old.items ++ led (fate_words fate)) }
{
    match fate {
        Fate::Released(entry) => write_with(out, b" released", entry),
        Fate::Expired(entry) => write_with(out, b" expired", entry),
        Fate::Flushed(entry) => write_with(out, b" flushed", entry),
        Fate::Waiting => write_plain(out, b" waiting"),
    }
}

//! The reply to a control call.

ghost use Rattle.std.specs.Prelude.{◌≡◌, ◌^◌, ◌<◌, ◌≤◌, List, length, map};
ghost use Rattle.mr_base.specs.declared.limits.TheConstants.{MOST_DEVICES};
ghost use Rattle.mr_model.specs.declared.entry.Entry.{Entry};
ghost use Rattle.mr_model.specs.Answer.{switch_value, value_of, reply_in};
ghost use Rattle.mr_model.specs.Counts.{met};
ghost use Rattle.mr_plain_lists.specs.Knowing.{met_of, state_of};

use crate::counting::{route_sums, vif_sums};
use crate::entries::exact;
use crate::known::{Known, Meeting};
use crate::refusing::error_of;
use crate::vifs::vif_at;
use mr_base::DaemonNo;
use mr_model::{Limits, Reply, Request};

/// What MRT_VERSION reads.
const VERSION: u32 = 0x0305;

/// 1 for on, 0 for off.
fn switch_value(on: bool) -> u32
    ensures { result ≡ switch_value on }
{
    if on { 1 } else { 0 }
}

/// What a request that is not refused answers.
fn value_of(known: &Known, mets: &[Meeting], request: &Request) -> Reply
    requires { length mets.now < 2 ^ 32 }
    ensures { (g : List Entry) → met g ≡ map met_of mets.now →
        result ≡ value_of g (state_of known.now) request.now }
{
    match *request {
        Request::GetVersion => Reply::Value(VERSION),
        Request::GetPim => Reply::Value(switch_value(known.pim)),
        Request::GetAssert => Reply::Value(switch_value(known.asserts)),
        Request::VifCount(index) => match vif_at(known.vifs.as_slice(), index) {
            Some(v) => Reply::Vif(vif_sums(mets, &v)),
            None => Reply::Good,
        },
        Request::SgCount { src, dst } => match exact(&known.routes, src, dst) {
            Some(route) => Reply::Sg(route_sums(mets, route.number)),
            None => Reply::Good,
        },
        _ => Reply::Good,
    }
}

/// The reply to a call.
pub fn reply(
    known: &Known,
    mets: &[Meeting],
    limits: &Limits,
    daemon: DaemonNo,
    request: &Request,
) -> Reply
    requires few { length mets.now < 2 ^ 32 }
    requires devices { length limits.now.devices ≤ MOST_DEVICES }
    ensures { (g : List Entry) → met g ≡ map met_of mets.now →
        result ≡ reply_in limits.now g (state_of known.now) daemon request.now }
{
    match error_of(known, limits, daemon, request) {
        Some(errno) => Reply::Refused(errno),
        None => value_of(known, mets, request),
    }
}

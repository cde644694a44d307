//! What the machine answers to a call.

ghost use Rattle.std.specs.Prelude.{◌≡◌, ◌^◌, ◌<◌, ◌≤◌, List, length, map, IfOk};
ghost use Rattle.std.specs.List.{AllByRecursion};
ghost use Rattle.mr_base.specs.declared.limits.TheConstants.{MOST_DEVICES};
ghost use Rattle.mr_model.specs.declared.entry.Entry.{Entry};
ghost use Rattle.mr_model.specs.Answer.{answer};
ghost use Rattle.mr_model.specs.Counts.{met};
ghost use Rattle.mr_model.specs.State.{state};
ghost use Rattle.mr_plain_lists.specs.Knowing.{AreGroups, met_of, state_of};

use crate::releasing::released_by;
use mr_base::{DaemonNo, List};
use mr_model::{Limits, ReleasedId, Reply, Request};
use mr_plain_lists::{Known, Meeting, error_of, reply};
use std::alloc::{AllocError, Global};

/// What the machine answers to a call: the reply, and the packets that it releases.
#[derive(Debug, Drop)]
pub struct CallAnswer {
    pub reply: Reply,
    pub released: List<ReleasedId>,
}

/// The answer to a call.
///
/// # Errors
///
/// Where memory runs out.
pub(crate) fn answer_of(
    alloc: Global,
    known: &Known,
    mets: &[Meeting],
    limits: &Limits,
    daemon: DaemonNo,
    request: &Request,
) -> Result<CallAnswer, AllocError>
    requires few { length mets.now < 2 ^ 32 }
    requires devices { length limits.now.devices ≤ MOST_DEVICES }
    requires vifs { AllByRecursion (λ v. v.vif < 32) known.now.vifs.items }
    requires groups { AreGroups known.now.waiting.items }
    requires room { known.now.count < 4294967295 }
    ensures reply { (g : List Entry) → met g ≡ map met_of mets.now →
        state limits.now g ≡ state_of known.now →
        IfOk result (λ a. a.reply ≡ (answer limits.now g daemon request.now).reply) }
    ensures released { (g : List Entry) → state limits.now g ≡ state_of known.now →
        IfOk result (λ a. a.released ≡ (answer limits.now g daemon request.now).released) }
{
    let reply = reply(known, mets, limits, daemon, request);
    let released = match error_of(known, limits, daemon, request) {
        Some(_) => Vec::new(alloc),
        None => released_by(alloc, known, daemon, request)?,
    };
    Ok(CallAnswer {
        reply,
        released: List(released),
    })
}

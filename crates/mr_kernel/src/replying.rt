//! A control call that changes no tables.

ghost use Rattle.std.specs.Prelude.{◌≡◌, ◌<◌, ◌∷◌, []};
ghost use Rattle.mr_model.specs.declared.entry.Entry.TheVariants.{Call};
ghost use Rattle.mr_model.specs.Legal.{CallAgrees, IsDaemon};
ghost use Rattle.mr_model.specs.Past.{controls};
ghost use Rattle.mr_fates.specs.Lines.{FateList};
ghost use Rattle.mr_history.specs.Journals.{with_entry};
ghost use Rattle.mr_kernel.specs.declared.plan.Plan.TheVariants.{Answer};
ghost use Rattle.mr_kernel.specs.Holding.{Holds};
ghost use Rattle.mr_kernel.specs.Plans.{plan};

use crate::granting::set_owner;
use crate::live::Live;
use mr_base::DaemonNo;
use mr_history::Journal;
use mr_model::{Reply, Request};

/// A call that changes no tables, with its answer.
pub fn answer(
    live: &mut Live,
    journal: &mut Journal,
    daemon: DaemonNo,
    request: &Request,
    reply: Reply,
)
    requires daemon { IsDaemon journal.old.limits daemon }
    requires room { controls journal.old.entries < journal.old.limits.controls }
    requires plan { plan (record { limits = journal.old.limits; history = journal.old.entries })
        daemon request.now ≡ Answer reply }
    ensures entry { journal.new ≡ with_entry journal.old (Call daemon request.now reply []) }
    ensures agrees { CallAgrees journal.old.limits journal.old.entries daemon request.now reply
        [] }
    ensures holds { (f : FateList) → Holds journal.old live.old f → Holds journal.new live.new f }
{
    journal.push_call(daemon, request, &reply, &[], &[]);
    match reply {
        Reply::Good => set_owner(live, daemon, request),
        _ => {}
    }
}

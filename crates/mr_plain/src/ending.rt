//! What the history ends with: the entries and the vifs that are there, with their totals, and the
//! fates.

ghost use Rattle.std.specs.Prelude.{◌≡◌, ◌^◌, ◌<◌, List, length, IfOk};
ghost use Rattle.mr_model.specs.declared.entry.Entry.{Entry};
ghost use Rattle.mr_model.specs.declared.limits.Limits.{Limits};
ghost use Rattle.mr_model.specs.Ending.{ending};
ghost use Rattle.mr_plain.specs.declared.past.Past.{Past};
ghost use Rattle.mr_plain.specs.Holding.{Holds};

use mr_base::List;
use mr_model::{Ending, FateLine};
use mr_plain_lists::{Known, Meeting, route_lines, vif_lines};
use std::alloc::{AllocError, Global};

/// What a history ends with for which these lists stand.
///
/// # Errors
///
/// [`AllocError`] where memory runs out.
pub fn gather(
    alloc: Global,
    known: &Known,
    mets: &[Meeting],
    lines: &[FateLine],
) -> Result<Ending, AllocError>
    requires { length mets.now < 2 ^ 32 }
    ensures { (limits : Limits) (h : List Entry) (past : Past) →
        Holds limits h known.now mets.now past lines.now → IfOk result (λ e. e ≡ ending limits h) }
{
    let routes = route_lines(alloc, &known.routes, mets)?;
    let vifs = vif_lines(alloc, known.vifs.as_slice(), mets)?;
    let fates = Vec::from_slice(alloc, lines)?;
    Ok(Ending {
        routes: List(routes),
        vifs: List(vifs),
        fates: List(fates),
    })
}

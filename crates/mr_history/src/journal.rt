//! The journal as an object.

ghost use Rattle.std.specs.Prelude.{◌≡◌, ◌<◌, ◌≤◌, ◌+◌, [], ◌∷◌, length, map, None, Some, is_some};
ghost use Rattle.std.specs.Prelude.{slice_set, false, sum, ◌^◌, IsTrue, IfOk};
ghost use Rattle.std.specs.Prelude.{replicate};
ghost use Rattle.mr_model.specs.Past.{controls, packets, phases};
ghost use Rattle.mr_model.specs.Legal.{IsLane, packets_given};
ghost use Rattle.mr_history.specs.Fits.{FitsLimits};
ghost use Rattle.mr_history.specs.Journals.{has_number, remove_number, number_at, route_totals};
ghost use Rattle.mr_history.specs.Journals.{vif_totals};
ghost use Rattle.mr_history.specs.Totals.{vif_at};
ghost use Rattle.mr_history.specs.declared.most.TheConstants.{VIFS};

use crate::most::{MOST_RELEASED, VIFS};
use crate::numbered::Numbered;
use crate::store::{Spare, Store};
use crate::totals::{Totals, VifKept};
use mr_base::{LaneNo, Memory};
use mr_model::{Limits, RouteTotals, VifTotals};
use std::alloc::Global;
use std::marker::Model;

/// The history of the one-thread machine, and the totals of its (S,G) entries and vifs.
///
/// Contracts see the entries, the limits, the numbers of the (S,G) entries whose totals are kept,
/// newest first, and for each of the [`VIFS`](crate::VIFS) vif indexes the number of the vif that
/// is kept. All memory is taken when the journal is made: for as many entries as the limits allow.
#[derive(Debug, Drop)]
pub struct Journal {
    pub(crate) store: Store,
    pub(crate) totals: Totals,
    pub(crate) limits: Limits,
    pub(crate) controls_left: u32,
    pub(crate) phases_left: u32,
    pub(crate) packets_left: Vec<u32>,
}

impl Model for Journal {
    ghost use Rattle.mr_history.specs.Journals.{JournalValue};

    ghost Value = { JournalValue };

    ghost use Rattle.mr_history.specs.Keeping.{journal_value, IsJournal};

    ghost view = { journal_value };

    ghost invariant = { IsJournal };
}

impl Journal {
    /// The empty history; nothing is kept.
    ///
    /// # Errors
    ///
    /// [`Memory`] where memory runs out.
    pub fn with(alloc: Global, limits: &Limits) -> Result<Journal, Memory>
        requires { FitsLimits limits.now }
        ensures entries { IfOk result (λ j. j.entries ≡ []) }
        ensures limits { IfOk result (λ j. j.limits ≡ limits.now) }
        ensures routes { IfOk result (λ j. j.routes ≡ []) }
        ensures vifs { IfOk result (λ j. j.vifs ≡ replicate VIFS None) }
    {
        let packets = sum_of(limits.packets.0.as_slice());
        let controls = limits.controls as usize;
        let room = Spare {
            entries: controls + limits.phases as usize + packets,
            packets,
            calls: controls,
            released: MOST_RELEASED * controls,
        };
        let Ok(packets_left) = Vec::from_slice(alloc, limits.packets.0.as_slice()) else {
            return Err(Memory);
        };
        let Ok(kept) = limits.clone() else {
            return Err(Memory);
        };
        Ok(Journal {
            store: Store::with(alloc, room)?,
            totals: Totals {
                routes: Numbered::with(alloc, limits.entries as usize)?,
                vifs: [None; VIFS],
            },
            controls_left: kept.controls,
            phases_left: kept.phases,
            packets_left,
            limits: kept,
        })
    }

    /// How many entries there are.
    pub fn len(&self) -> u32
        ensures { result ≡ length self.now.entries }
    {
        self.store.len()
    }

    /// The limits with which it was made.
    pub fn limits(&self) -> &Limits
        ensures { result.now ≡ self.now.limits }
    {
        &self.limits
    }

    /// How many more calls, ticks and receives the history may hold.
    pub fn controls_left(&self) -> u32
        ensures { controls self.now.entries + result ≡ self.now.limits.controls }
    {
        self.controls_left
    }

    /// How many more ends of phases it may hold.
    pub fn phases_left(&self) -> u32
        ensures { phases self.now.entries + result ≡ self.now.limits.phases }
    {
        self.phases_left
    }

    /// How many more packets of a lane it may hold.
    pub fn packets_left(&self, lane: LaneNo) -> u32
        requires { IsLane self.now.limits lane }
        ensures { packets lane self.now.entries + result ≡ packets_given self.now.limits lane }
    {
        self.packets_left[lane.0 as usize - 1]
    }

    /// What is true of every journal. It does nothing.
    pub fn facts(&self)
        ensures vifs { length self.now.vifs ≡ VIFS }
        ensures limits { FitsLimits self.now.limits }
        ensures few { length self.now.entries ≤ 2 ^ 24 }
    {
        let _ = &self.limits;
    }

    /// An (S,G) entry is made, by the call that is pushed next: its totals are kept from now on.
    pub fn born_route(&mut self, number: u32)
        requires next { number ≡ length self.old.entries + 1 }
        requires new { has_number self.old.routes number ≡ false }
        requires room { length self.old.routes < self.old.limits.entries }
        ensures { self.new ≡ record self.old { routes = number ∷ self.old.routes } }
    {
        self.totals.routes.push(number, RouteTotals::default());
    }

    /// An (S,G) entry whose totals are kept is removed.
    pub fn gone_route(&mut self, number: u32)
        requires { IsTrue (has_number self.old.routes number) }
        ensures { self.new ≡ record self.old { routes = remove_number self.old.routes number } }
    {
        self.totals.routes.remove(number);
    }

    /// A vif is made, by the call that is pushed next: its totals are kept from now on.
    pub fn born_vif(&mut self, vif: u8, number: u32)
        requires index { vif < VIFS }
        requires next { number ≡ length self.old.entries + 1 }
        requires new { number_at self.old.vifs vif ≡ None }
        ensures { self.new ≡ record self.old { vifs = slice_set self.old.vifs vif (Some number) } }
    {
        self.totals.vifs[usize::from(vif)] = Some(VifKept {
            number,
            totals: VifTotals::default(),
        });
    }

    /// A vif whose totals are kept is removed.
    pub fn gone_vif(&mut self, vif: u8)
        requires { IsTrue (is_some (number_at self.old.vifs vif)) }
        ensures { self.new ≡ record self.old { vifs = slice_set self.old.vifs vif None } }
    {
        self.totals.vifs[usize::from(vif)] = None;
    }

    /// What the (S,G) entry of a number has counted; `None` exactly where it is not kept.
    pub fn route_totals(&self, number: u32) -> Option<RouteTotals>
        ensures { result ≡ route_totals self.now number }
    {
        self.totals.routes.get(number)
    }

    /// What the vif at an index has counted; `None` exactly where none is kept there.
    pub fn vif_totals(&self, vif: u8) -> Option<VifTotals>
        ensures { result ≡ vif_totals self.now vif }
    {
        match kept_at(&self.totals.vifs, vif) {
            Some(kept) => Some(kept.totals),
            None => None,
        }
    }
}

/// How many packets all lanes have together.
fn sum_of(packets: &[u32]) -> usize
    requires { sum packets.now < 2 ^ 32 }
    ensures { result ≡ sum packets.now }
{
    packets.iter().map(|n| *n as usize).sum()
}

/// The vif that is kept at an index.
fn kept_at(vifs: &[Option<VifKept>; VIFS], vif: u8) -> Option<VifKept>
    ensures { result ≡ vif_at vifs.now vif }
{
    match vifs.get(usize::from(vif)) {
        Some(kept) => *kept,
        None => None,
    }
}

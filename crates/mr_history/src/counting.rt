//! One packet more that met an entry, in the totals that are kept.

ghost use Rattle.std.specs.Prelude.{◌≡◌, ℕ, ◌<◌, ◌&&◌, nat_lt, if◌then◌else◌, ◌++◌, ◌∷◌, [], List};
ghost use Rattle.mr_model.specs.Counts.{Met};
ghost use Rattle.mr_model.specs.Verdict.{is_in, is_vif};
ghost use Rattle.mr_history.specs.Numbers.{numbers_of};
ghost use Rattle.mr_history.specs.Totals.{met_of, vif_at, vif_numbers, route_with, with_in};
ghost use Rattle.mr_history.specs.Totals.{with_out};
ghost use Rattle.mr_history.specs.Totals.{AreRoutes, AreFew, AreTotals, SameKept};

use crate::meeting::Meeting;
use crate::most::VIFS;
use crate::numbered::Numbered;
use crate::totals::{Totals, VifKept};
use mr_base::Mask;
use mr_model::{RouteTotals, VifTotals};

/// An entry's totals with one packet more.
fn route_with(met: &Meeting, totals: RouteTotals) -> RouteTotals
    ensures { result ≡ route_with (met_of met.now) totals }
{
    RouteTotals {
        packets: totals.packets.saturating_add(1),
        bytes: totals.bytes.saturating_add(u64::from(met.length)),
        wrong: totals.wrong.saturating_add(u64::from(met.wrong)),
    }
}

/// A vif with one packet more that came in, where it was made by then.
fn with_in(met: &Meeting, kept: Option<VifKept>) -> Option<VifKept>
    ensures { result ≡ with_in (met_of met.now) kept }
{
    let VifKept { number, totals } = kept?;
    if met.place < number {
        return kept;
    }
    Some(VifKept {
        number,
        totals: VifTotals {
            packets_in: totals.packets_in.saturating_add(1),
            bytes_in: totals.bytes_in.saturating_add(u64::from(met.length)),
            ..totals
        },
    })
}

/// A vif with one packet more that went out, where it was made by then.
fn with_out(met: &Meeting, kept: Option<VifKept>) -> Option<VifKept>
    ensures { result ≡ with_out (met_of met.now) kept }
{
    let VifKept { number, totals } = kept?;
    if met.place < number {
        return kept;
    }
    Some(VifKept {
        number,
        totals: VifTotals {
            packets_out: totals.packets_out.saturating_add(1),
            bytes_out: totals.bytes_out.saturating_add(u64::from(met.length)),
            ..totals
        },
    })
}

/// Whether a vif is in a mask.
fn is_in(outs: Mask, vif: u8) -> bool
    requires { vif < 32 }
    ensures { result ≡ is_in outs vif }
{
    (outs.0 >> vif) % 2 == 1
}

/// Counts a packet for its entry, where that is kept.
fn count_route(routes: &mut Numbered<RouteTotals>, met: &Meeting)
    ensures sums { (ms : List Met) → AreFew (ms ++ met_of met.now ∷ [])
        → AreRoutes routes.old.items ms
        → AreRoutes routes.new.items (ms ++ met_of met.now ∷ []) }
    ensures numbers { numbers_of routes.new.items ≡ numbers_of routes.old.items }
    ensures room { routes.new.room ≡ routes.old.room }
{
    routes.facts();
    if let Some(totals) = routes.get(met.entry) {
        routes.set(met.entry, route_with(met, totals));
    }
}

/// Counts a packet for the vif on which it came in, where that is kept.
fn count_in(vifs: &mut [Option<VifKept>; VIFS], met: &Meeting)
    ensures at { (i : ℕ) → vif_at vifs.new i ≡ (if is_vif met.now.input i then
        with_in (met_of met.now) (vif_at vifs.old i) else vif_at vifs.old i) }
    ensures numbers { vif_numbers vifs.new ≡ vif_numbers vifs.old }
{
    if let Some(vif) = met.input {
        let vif = usize::from(vif);
        if vif < VIFS {
            vifs[vif] = with_in(met, vifs[vif]);
        }
    }
}

/// Counts a packet for the vifs on which it went out, where they are kept.
fn count_outs(vifs: &mut [Option<VifKept>; VIFS], met: &Meeting)
    ensures at { (i : ℕ) → vif_at vifs.new i ≡ (if is_in met.now.outs i then
        with_out (met_of met.now) (vif_at vifs.old i) else vif_at vifs.old i) }
    ensures numbers { vif_numbers vifs.new ≡ vif_numbers vifs.old }
{
    for vif in 0..32u8 {
        if is_in(met.outs, vif) {
            let at = usize::from(vif);
            vifs[at] = with_out(met, vifs[at]);
        }
    }
}

/// Counts a packet that met an entry, in all totals that are kept.
pub(crate) fn count(totals: &mut Totals, met: &Meeting)
    ensures sums { (ms : List Met) → AreFew (ms ++ met_of met.now ∷ []) → AreTotals totals.old ms
        → AreTotals totals.new (ms ++ met_of met.now ∷ []) }
    ensures same { SameKept totals.old totals.new }
{
    count_route(&mut totals.routes, met);
    count_in(&mut totals.vifs, met);
    count_outs(&mut totals.vifs, met);
}

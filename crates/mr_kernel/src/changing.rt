//! A change of the tables, with what is counted for their entries and vifs (ipmr.c,
//! `ip_mroute_setsockopt`).

ghost use Rattle.std.specs.Prelude.{◌≡◌, ◌+◌, ◌<◌, ◌==◌, ◌∷◌, ℕ, false, if◌then◌else◌, List, None};
ghost use Rattle.std.specs.Prelude.{Some, length, map, option_map, IsTrue};
ghost use Rattle.mr_mfc.specs.Caches.{is_above};
ghost use Rattle.mr_model.specs.Messages.{Attempt, last_attempt};
ghost use Rattle.mr_model.specs.RouteList.{routes_left};
ghost use Rattle.mr_model.specs.Tables.{routes_after, vifs_after};
ghost use Rattle.mr_model.specs.VifList.{has_vif, vif_at, vifs_left};
ghost use Rattle.mr_tables.specs.Fitting.{fits, vif_fits, entry_fits};
ghost use Rattle.mr_tables.specs.Values.{applied};
ghost use Rattle.mr_history.specs.Journals.{has_number, number_at, remove_number};
ghost use Rattle.mr_history.specs.Numbers.{numbers_of, without_value};
ghost use Rattle.mr_kernel.specs.Holding.{CountsFor, CountsVifs, numbers, flushes};
ghost use Rattle.mr_kernel.specs.Standing.{moments};

use crate::live::Live;
use mr_base::Route;
use mr_history::{Journal, Numbered};
use mr_mfc::Cache;
use mr_model::{Change, What};
use mr_tables::{
    MRT_FLUSH_MFC, MRT_FLUSH_MFC_STATIC, MRT_FLUSH_VIFS, MRT_FLUSH_VIFS_STATIC, has_flag,
};
use mr_vif::Vifs;

/// How many vif indexes there are (ipmr.c, MAXVIFS).
const MAXVIFS: u8 = mr_base::MAXVIFS as u8;

/// For each (S,G) entry by its number the moment of the last attempt to report a wrong interface.
type Attempts = Numbered<Option<u64>>;

/// Whether a flush removes what is static, or is not.
fn flushes(loose: bool, fixed: bool, is_static: bool) -> bool
    ensures { result ≡ flushes loose fixed is_static }
{
    if is_static { fixed } else { loose }
}

/// The journal keeps the totals of a new vif.
fn count_vif(vifs: &Vifs, journal: &mut Journal, vif: u8, number: u32)
    requires small { vif < 32 }
    requires free { has_vif vifs.now vif ≡ false }
    requires next { number ≡ length journal.old.entries + 1 }
    requires counts { CountsVifs vifs.now journal.old.vifs }
    ensures here { number_at journal.new.vifs vif ≡ Some number }
    ensures elsewhere { (i : ℕ) → (vif == i) ≡ false →
        number_at journal.new.vifs i ≡ number_at journal.old.vifs i }
    ensures others { journal.new ≡ record journal.old { vifs = journal.new.vifs } }
{
    journal.facts();
    vifs.rules();
    journal.born_vif(vif, number);
}

/// The journal no longer keeps the totals of a vif that is there.
#[tactic(auto, using(crate::proofs::ChangesVifs::there_small, crate::proofs::ChangesVifs::number_kept))]
fn forget_vif(vifs: &Vifs, journal: &mut Journal, vif: u8)
    requires there { IsTrue (has_vif vifs.now vif) }
    requires counts { vif < 32 → number_at journal.old.vifs vif
        ≡ option_map (λ v. v.number) (vif_at vifs.now vif) }
    ensures here { number_at journal.new.vifs vif ≡ None }
    ensures elsewhere { (i : ℕ) → (vif == i) ≡ false →
        number_at journal.new.vifs i ≡ number_at journal.old.vifs i }
    ensures others { journal.new ≡ record journal.old { vifs = journal.new.vifs } }
{
    journal.facts();
    vifs.rules();
    journal.gone_vif(vif);
}

/// The journal no longer keeps the totals of a vif that a flush removes.
fn flush_vif(vifs: &Vifs, journal: &mut Journal, vif: u8, loose: bool, fixed: bool)
    requires counts { vif < 32 → number_at journal.old.vifs vif
        ≡ option_map (λ v. v.number) (vif_at vifs.now vif) }
    ensures here { vif < 32 → number_at journal.new.vifs vif
        ≡ option_map (λ v. v.number) (vif_at (vifs_left loose fixed vifs.now) vif) }
    ensures elsewhere { (i : ℕ) → (vif == i) ≡ false →
        number_at journal.new.vifs i ≡ number_at journal.old.vifs i }
    ensures others { journal.new ≡ record journal.old { vifs = journal.new.vifs } }
{
    vifs.rules();
    if let Some(record) = vifs.record(vif) {
        if flushes(loose, fixed, record.fixed) {
            forget_vif(vifs, journal, vif);
        }
    }
}

/// The journal no longer keeps the totals of the vifs that a flush removes.
fn flush_vifs(vifs: &Vifs, journal: &mut Journal, loose: bool, fixed: bool)
    requires counts { CountsVifs vifs.now journal.old.vifs }
    ensures counts { CountsVifs (vifs_left loose fixed vifs.now) journal.new.vifs }
    ensures others { journal.new ≡ record journal.old { vifs = journal.new.vifs } }
{
    for vif in 0..MAXVIFS {
        flush_vif(vifs, journal, vif, loose, fixed);
    }
}

/// The journal keeps the totals of just the vifs that are there behind a change.
fn count_vifs(vifs: &Vifs, journal: &mut Journal, change: &Change)
    requires fits { IsTrue (vif_fits vifs.now change.now.what) }
    requires next { change.now.number ≡ length journal.old.entries + 1 }
    requires counts { CountsVifs vifs.now journal.old.vifs }
    ensures counts { CountsVifs (vifs_after vifs.now change.now.number change.now.what)
        journal.new.vifs }
    ensures others { journal.new ≡ record journal.old { vifs = journal.new.vifs } }
{
    match change.what {
        What::AddVif { vif, .. } => count_vif(vifs, journal, vif, change.number),
        What::DelVif(vif) => forget_vif(vifs, journal, vif),
        What::Flush(flags) => flush_vifs(
            vifs,
            journal,
            has_flag(flags, MRT_FLUSH_VIFS),
            has_flag(flags, MRT_FLUSH_VIFS_STATIC),
        ),
        What::NewRoute { .. }
        | What::OldRoute { .. }
        | What::DropRoute(_)
        | What::Pim(_)
        | What::Assert(_) => {}
    }
}

/// The journal keeps the totals of a new entry, which has no moment.
fn count_route(cache: &Cache, journal: &mut Journal, attempts: &mut Attempts, number: u32)
    requires next { number ≡ length journal.old.entries + 1 }
    requires above { IsTrue (is_above number cache.now.routes) }
    requires free { length cache.now.routes < journal.old.limits.entries }
    requires room { attempts.old.room ≡ journal.old.limits.entries }
    requires routes { journal.old.routes ≡ numbers cache.now.routes }
    requires attempts { numbers_of attempts.old.items ≡ numbers cache.now.routes }
    ensures journal { journal.new
        ≡ record journal.old { routes = number ∷ journal.old.routes } }
    ensures attempts { attempts.new.items ≡ (number, None) ∷ attempts.old.items }
    ensures room { attempts.new.room ≡ attempts.old.room }
{
    journal.born_route(number);
    attempts.push(number, None);
}

/// The journal no longer keeps the totals of an entry, which no longer has a moment.
#[tactic(auto, using(crate::proofs::ChangesRoutes::value_there))]
fn forget_route(journal: &mut Journal, attempts: &mut Attempts, number: u32)
    requires one { IsTrue (has_number journal.old.routes number) }
    requires attempts { numbers_of attempts.old.items ≡ journal.old.routes }
    ensures journal { journal.new
        ≡ record journal.old { routes = remove_number journal.old.routes number } }
    ensures attempts { attempts.new.items ≡ without_value attempts.old.items number }
    ensures room { attempts.new.room ≡ attempts.old.room }
{
    journal.gone_route(number);
    attempts.remove(number);
}

/// So it is of an entry that a flush removes.
fn flush_route(
    route: &Route,
    journal: &mut Journal,
    attempts: &mut Attempts,
    loose: bool,
    fixed: bool,
)
    requires one { IsTrue (has_number journal.old.routes route.now.number) }
    requires attempts { numbers_of attempts.old.items ≡ journal.old.routes }
    ensures journal { journal.new ≡ record journal.old {
      routes =
          if flushes loose fixed route.now.fixed
          then remove_number journal.old.routes route.now.number else journal.old.routes;
    } }
    ensures attempts { attempts.new.items ≡ (if flushes loose fixed route.now.fixed
        then without_value attempts.old.items route.now.number else attempts.old.items) }
    ensures room { attempts.new.room ≡ attempts.old.room }
{
    if flushes(loose, fixed, route.fixed) {
        forget_route(journal, attempts, route.number);
    }
}

/// So it is of all entries that a flush removes; `above` is above their numbers.
fn flush_routes(
    cache: &Cache,
    journal: &mut Journal,
    attempts: &mut Attempts,
    above: u32,
    loose: bool,
    fixed: bool,
)
    requires above { IsTrue (is_above above cache.now.routes) }
    requires routes { journal.old.routes ≡ numbers cache.now.routes }
    requires attempts { numbers_of attempts.old.items ≡ numbers cache.now.routes }
    ensures journal { journal.new ≡ record journal.old {
      routes =
          numbers (routes_left loose fixed cache.now.routes);
    } }
    ensures attempts { (made : List Attempt) →
        attempts.old.items ≡ moments made cache.now.routes →
        attempts.new.items ≡ moments made (routes_left loose fixed cache.now.routes) }
    ensures room { attempts.new.room ≡ attempts.old.room }
{
    cache.facts();
    let mut below = above;
    while let Some(route) = cache.below(below) {
        flush_route(&route, journal, attempts, loose, fixed);
        below = route.number;
    }
}

/// The journal keeps the totals of just the entries that are there behind a change, and each has
/// its moment: a new one has none.
fn count_routes(cache: &Cache, journal: &mut Journal, attempts: &mut Attempts, change: &Change)
    requires fits { IsTrue
        (entry_fits cache.now.slots cache.now.routes change.now.number change.now.what) }
    requires next { change.now.number ≡ length journal.old.entries + 1 }
    requires above { IsTrue (is_above change.now.number cache.now.routes) }
    requires slots { cache.now.slots ≡ journal.old.limits.entries }
    requires room { attempts.old.room ≡ cache.now.slots }
    requires routes { journal.old.routes ≡ numbers cache.now.routes }
    requires attempts { numbers_of attempts.old.items ≡ numbers cache.now.routes }
    ensures journal { journal.new ≡ record journal.old {
      routes =
          numbers (routes_after cache.now.routes change.now.number change.now.what);
    } }
    ensures attempts { (made : List Attempt) →
        attempts.old.items ≡ moments made cache.now.routes →
        last_attempt made change.now.number ≡ None →
        attempts.new.items
        ≡ moments made (routes_after cache.now.routes change.now.number change.now.what) }
    ensures room { attempts.new.room ≡ attempts.old.room }
{
    match change.what {
        What::NewRoute { .. } => count_route(cache, journal, attempts, change.number),
        What::DropRoute(target) => forget_route(journal, attempts, target),
        What::Flush(flags) => flush_routes(
            cache,
            journal,
            attempts,
            change.number,
            has_flag(flags, MRT_FLUSH_MFC),
            has_flag(flags, MRT_FLUSH_MFC_STATIC),
        ),
        // it keeps its number
        What::OldRoute { .. } => {}
        What::AddVif { .. } | What::DelVif(_) | What::Pim(_) | What::Assert(_) => {}
    }
}

/// Makes a change that fits, numbered as the journal's next entry. The journal keeps the totals of
/// just the entries and vifs that are there, and each entry has its moment: a new one has none.
pub fn apply(live: &mut Live, journal: &mut Journal, change: &Change)
    requires fits { IsTrue (fits live.old.tables change.now) }
    requires next { change.now.number ≡ length journal.old.entries + 1 }
    requires above { IsTrue (is_above change.now.number live.old.tables.tables.routes) }
    requires slots { live.old.tables.slots ≡ journal.old.limits.entries }
    requires counts { CountsFor live.old.tables.tables journal.old }
    requires moments { numbers_of live.old.attempts.items
        ≡ map (λ r. r.number) live.old.tables.tables.routes }
    requires room { live.old.attempts.room ≡ live.old.tables.slots }
    ensures tables { live.new.tables ≡ applied live.old.tables change.now }
    ensures attempts { (attempts : List Attempt) →
        live.old.attempts.items ≡ moments attempts live.old.tables.tables.routes →
        last_attempt attempts change.now.number ≡ None →
        live.new.attempts.items ≡ moments attempts live.new.tables.tables.routes }
    ensures room { live.new.attempts.room ≡ live.old.attempts.room }
    ensures owner { live.new.owner ≡ live.old.owner }
    ensures moment { live.new.moment ≡ live.old.moment }
    ensures waiting { live.new.waiting ≡ live.old.waiting }
    ensures unread { live.new.unread ≡ live.old.unread }
    ensures entries { journal.new.entries ≡ journal.old.entries }
    ensures limits { journal.new.limits ≡ journal.old.limits }
    ensures counts { CountsFor live.new.tables.tables journal.new }
{
    count_vifs(live.tables.vifs(), journal, change);
    count_routes(live.tables.cache(), journal, &mut live.attempts, change);
    live.tables.apply(change);
}

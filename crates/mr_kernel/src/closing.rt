//! What the history ends with: the entries and the vifs that are there, with their totals.

ghost use Rattle.std.specs.Prelude.{◌≡◌, ◌<◌, ℕ, true, List, map, reverse, flat_map, option_map};
ghost use Rattle.std.specs.Prelude.{option_to_list, IfOk};
ghost use Rattle.std.specs.List.{AllByRecursion};
ghost use Rattle.mr_model.specs.VifList.{vif_at};
ghost use Rattle.mr_history.specs.Journals.{has_number};
ghost use Rattle.mr_kernel.specs.Endings.{route_pair, vif_pair};
ghost use Rattle.mr_kernel.specs.Holding.{CountsVifs, numbers};

use mr_base::{Route, VifRecord};
use mr_history::Journal;
use mr_mfc::Cache;
use mr_model::{RouteTotals, VifTotals};
use mr_vif::Vifs;
use std::alloc::{AllocError, Global};

/// All indexes that a vif may have.
pub const INDEXES: [u8; 32] = [
    0, 1, 2, 3, 4, 5, 6, 7, 8, 9, 10, 11, 12, 13, 14, 15, 16, 17, 18, 19, 20, 21, 22, 23, 24, 25,
    26, 27, 28, 29, 30, 31,
];

/// An entry with its totals, which are kept.
fn route_pair(journal: &Journal, route: &Route) -> (Route, RouteTotals)
    requires { has_number journal.now.routes route.now.number ≡ true }
    ensures { result ≡ route_pair journal.now.entries route.now }
{
    match journal.route_totals(route.number) {
        Some(totals) => (*route, totals),
        None => unreachable!(),
    }
}

/// Some entries with their totals, which are kept.
fn route_pairs(
    alloc: Global,
    journal: &Journal,
    routes: &[Route],
) -> Result<Vec<(Route, RouteTotals)>, AllocError>
    requires { AllByRecursion (λ r. has_number journal.now.routes r.number ≡ true) routes.now }
    ensures { IfOk result (λ v. v.items ≡ map (route_pair journal.now.entries) routes.now) }
{
    let mut pairs = Vec::with_capacity(alloc, routes.len())?;
    for route in routes {
        pairs.push(route_pair(journal, route))?;
    }
    Ok(pairs)
}

/// The entries, oldest first.
fn oldest_first(alloc: Global, cache: &Cache) -> Result<Vec<Route>, AllocError>
    ensures { IfOk result (λ v. v.items ≡ reverse cache.now.routes) }
{
    let Ok(mut routes) = cache.routes(alloc) else {
        return Err(AllocError);
    };
    routes.as_mut_slice().reverse();
    Ok(routes)
}

/// The entries, oldest first, with their totals.
///
/// # Errors
///
/// [`AllocError`] where memory runs out.
pub fn route_lines(
    alloc: Global,
    cache: &Cache,
    journal: &Journal,
) -> Result<Vec<(Route, RouteTotals)>, AllocError>
    requires { journal.now.routes ≡ numbers cache.now.routes }
    ensures { IfOk result (λ v. v.items
        ≡ map (route_pair journal.now.entries) (reverse cache.now.routes)) }
{
    let routes = oldest_first(alloc, cache)?;
    route_pairs(alloc, journal, routes.as_slice())
}

/// The vif with this index, with its totals, which are kept.
fn vif_pair(vifs: &Vifs, journal: &Journal, i: u8) -> Option<(VifRecord, VifTotals)>
    requires small { i < 32 }
    requires kept { CountsVifs vifs.now journal.now.vifs }
    ensures { result ≡ option_map (vif_pair journal.now.entries) (vif_at vifs.now i) }
{
    let record = vifs.record(i)?;
    match journal.vif_totals(i) {
        Some(totals) => Some((record, totals)),
        None => None,
    }
}

/// The vifs with these indexes, with their totals.
///
/// # Errors
///
/// [`AllocError`] where memory runs out.
pub fn vif_lines(
    alloc: Global,
    vifs: &Vifs,
    journal: &Journal,
    indexes: &[u8],
) -> Result<Vec<(VifRecord, VifTotals)>, AllocError>
    requires small { AllByRecursion (λ i. i < 32) indexes.now }
    requires kept { CountsVifs vifs.now journal.now.vifs }
    ensures { IfOk result (λ v. v.items ≡ flat_map (λ i. option_to_list
        (option_map (vif_pair journal.now.entries) (vif_at vifs.now i))) indexes.now) }
{
    let mut pairs = Vec::new(alloc);
    for i in indexes {
        if let Some(pair) = vif_pair(vifs, journal, *i) {
            pairs.push(pair)?;
        }
    }
    Ok(pairs)
}

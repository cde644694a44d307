//! The entries and the vifs that are there, each with its totals, as a history ends with them.

ghost use Rattle.std.specs.Prelude.{◌≡◌, ◌^◌, ◌<◌, length, map, reverse, IfOk};
ghost use Rattle.mr_model.specs.Ending.{by_index};
ghost use Rattle.mr_plain_lists.specs.Endings.{route_pair, vif_pair, vifs_among};
ghost use Rattle.mr_plain_lists.specs.Knowing.{met_of};

use crate::counting::{route_sums, vif_sums};
use crate::known::Meeting;
use crate::routes::Routes;
use crate::vifs::vif_at;
use mr_base::{Route, VifRecord};
use mr_model::{RouteTotals, VifTotals};
use std::alloc::{AllocError, Global};

/// All indexes that a vif may have.
const INDEXES: [u8; 32] = [
    0, 1, 2, 3, 4, 5, 6, 7, 8, 9, 10, 11, 12, 13, 14, 15, 16, 17, 18, 19, 20, 21, 22, 23, 24, 25,
    26, 27, 28, 29, 30, 31,
];

/// Entries with their totals.
fn route_pairs(
    alloc: Global,
    routes: &[Route],
    mets: &[Meeting],
) -> Result<Vec<(Route, RouteTotals)>, AllocError>
    requires { length mets.now < 2 ^ 32 }
    ensures { IfOk result (λ v. v.items ≡ map (route_pair (map met_of mets.now)) routes.now) }
{
    let mut lines = Vec::with_capacity(alloc, routes.len())?;
    for route in routes {
        lines.push((*route, route_sums(mets, route.number)))?;
    }
    Ok(lines)
}

/// The entries by rising number, with their totals.
///
/// # Errors
///
/// [`AllocError`] where memory runs out.
pub fn route_lines(
    alloc: Global,
    routes: &Routes,
    mets: &[Meeting],
) -> Result<Vec<(Route, RouteTotals)>, AllocError>
    requires { length mets.now < 2 ^ 32 }
    ensures { IfOk result (λ v. v.items
        ≡ map (route_pair (map met_of mets.now)) (reverse routes.now.items)) }
{
    let oldest = routes.oldest_first(alloc)?;
    route_pairs(alloc, oldest.as_slice(), mets)
}

/// The vifs with these indexes, with their totals.
fn vif_pairs(
    alloc: Global,
    vifs: &[VifRecord],
    mets: &[Meeting],
    indexes: &[u8],
) -> Result<Vec<(VifRecord, VifTotals)>, AllocError>
    requires { length mets.now < 2 ^ 32 }
    ensures { IfOk result (λ v. v.items
        ≡ map (vif_pair (map met_of mets.now)) (vifs_among vifs.now indexes.now)) }
{
    let mut lines = Vec::new(alloc);
    for index in indexes {
        if let Some(v) = vif_at(vifs, u16::from(*index)) {
            lines.push((v, vif_sums(mets, &v)))?;
        }
    }
    Ok(lines)
}

/// The vifs by rising index, with their totals.
///
/// # Errors
///
/// [`AllocError`] where memory runs out.
pub fn vif_lines(
    alloc: Global,
    vifs: &[VifRecord],
    mets: &[Meeting],
) -> Result<Vec<(VifRecord, VifTotals)>, AllocError>
    requires { length mets.now < 2 ^ 32 }
    ensures { IfOk result (λ v. v.items
        ≡ map (vif_pair (map met_of mets.now)) (by_index vifs.now)) }
{
    vif_pairs(alloc, vifs, mets, &INDEXES)
}

//! What a history ends with, as lines.

ghost use Rattle.std.specs.Prelude.{◌≡◌, map, IfOk};
ghost use Rattle.mr_tail.specs.Text.{name_at, device_word, route_line, vif_line, tail_of};

use mr_base::{FileName, List, Route, VifRecord};
use mr_lines::{RouteLine, Tail, VifLine};
use mr_model::{Ending, RouteTotals, VifTotals};
use mr_scenario::Named;
use std::alloc::{AllocError, Global};

/// The name of the device of a number, from 1.
fn name_at(devices: &[Named], dev: u32) -> FileName
    ensures { result ≡ name_at devices.now dev }
{
    match devices.get(dev.saturating_sub(1) as usize) {
        Some(device) => FileName::new(device.name.as_str()),
        None => FileName::new(""),
    }
}

/// The name of a vif's device.
fn device_word(devices: &[Named], vif: &VifRecord) -> FileName
    ensures { result ≡ device_word devices.now vif.now }
{
    if vif.register {
        FileName::new("pimreg")
    } else {
        name_at(devices, vif.dev)
    }
}

/// The line of a live (S,G) entry.
fn route_line(route: &Route, totals: &RouteTotals) -> RouteLine
    ensures { result ≡ route_line (route.now, totals.now) }
{
    RouteLine {
        number: route.number,
        src: route.src,
        dst: route.dst,
        parent: route.parent,
        totals: *totals,
    }
}

/// The line of a live vif.
fn vif_line(devices: &[Named], vif: &VifRecord, totals: &VifTotals) -> VifLine
    ensures { result ≡ vif_line devices.now (vif.now, totals.now) }
{
    VifLine {
        vif: vif.vif,
        name: device_word(devices, vif),
        totals: *totals,
    }
}

/// The lines of the live (S,G) entries.
fn route_lines(alloc: Global, routes: &[(Route, RouteTotals)]) -> Result<Vec<RouteLine>, AllocError>
    ensures { IfOk result (λ v. v.items ≡ map route_line routes.now) }
{
    let mut lines = Vec::with_capacity(alloc, routes.len())?;
    for (route, totals) in routes {
        lines.push(route_line(route, totals))?;
    }
    Ok(lines)
}

/// The lines of the live vifs.
fn vif_lines(
    alloc: Global,
    devices: &[Named],
    vifs: &[(VifRecord, VifTotals)],
) -> Result<Vec<VifLine>, AllocError>
    ensures { IfOk result (λ v. v.items ≡ map (vif_line devices.now) vifs.now) }
{
    let mut lines = Vec::with_capacity(alloc, vifs.len())?;
    for (vif, totals) in vifs {
        lines.push(vif_line(devices, vif, totals))?;
    }
    Ok(lines)
}

/// The lines of what a history ends with.
///
/// # Errors
///
/// [`AllocError`] where memory runs out.
pub fn tail_of(alloc: Global, devices: &[Named], ending: Ending) -> Result<Tail, AllocError>
    ensures { IfOk result (λ t. t ≡ tail_of devices.now ending) }
{
    Ok(Tail {
        routes: List(route_lines(alloc, ending.routes.0.as_slice())?),
        vifs: List(vif_lines(alloc, devices, ending.vifs.0.as_slice())?),
        fates: ending.fates,
    })
}

//! Which (S,G) entry is found (ipmr.c, `ipmr_cache_find` and its like).

ghost use Rattle.std.specs.Prelude.{◌≡◌, find};
ghost use Rattle.std.specs.List.{list_any};
ghost use Rattle.mr_model.specs.Found.{reaches, proxy_in, is_proxied, serves, star_in, found_in};
ghost use Rattle.mr_model.specs.Found.{wildcard_in};
ghost use Rattle.mr_model.specs.RouteList.{ttl_of, is_entry, has_parent, is_named};
ghost use Rattle.mr_model.specs.RouteList.{threshold, thresholds_from, is_group};

use crate::routes::Routes;
use crate::vifs::{has_vif, vif_on};
use mr_base::{Addr, MAXVIFS, Route, VifRecord};

/// The threshold that no TTL exceeds.
pub const NO_THRESHOLD: u8 = 255;

/// An entry's threshold of a vif; that of a vif of 32 or more is [`NO_THRESHOLD`].
pub fn ttl_of(route: &Route, vif: u8) -> u8
    ensures { result ≡ ttl_of route.now vif }
{
    if u16::from(vif) < MAXVIFS {
        route.ttls[usize::from(vif)]
    } else {
        NO_THRESHOLD
    }
}

/// Whether an entry's threshold of a vif is below 255.
pub fn reaches(route: &Route, vif: u8) -> bool
    ensures { result ≡ reaches route.now vif }
{
    ttl_of(route, vif) < NO_THRESHOLD
}

/// Whether an entry has this origin and this group.
pub fn is_entry(route: &Route, src: Addr, dst: Addr) -> bool
    ensures { result ≡ is_entry src dst route.now }
{
    route.src.0 == src.0 && route.dst.0 == dst.0
}

/// Whether an entry has this parent, where one is given.
fn has_parent(route: &Route, parent: Option<u16>) -> bool
    ensures { result ≡ has_parent parent route.now }
{
    match parent {
        None => true,
        Some(parent) => u16::from(route.parent) == parent,
    }
}

/// The first entry of this name.
pub fn named(routes: &Routes, src: Addr, dst: Addr, parent: Option<u16>) -> Option<Route>
    ensures { result ≡ find (is_named src dst parent) routes.now.items }
{
    routes.first(src, dst, |r| has_parent(r, parent))
}

/// The first entry of this origin and group.
pub fn exact(routes: &Routes, src: Addr, dst: Addr) -> Option<Route>
    ensures { result ≡ find (is_entry src dst) routes.now.items }
{
    named(routes, src, dst, None)
}

/// Whether there is an entry of this name.
pub fn has_named(routes: &Routes, src: Addr, dst: Addr, parent: Option<u16>) -> bool
    ensures { result ≡ list_any (is_named src dst parent) routes.now.items }
{
    named(routes, src, dst, parent).is_some()
}

/// Whether there is an entry of this origin and group.
pub fn has_entry(routes: &Routes, src: Addr, dst: Addr) -> bool
    ensures { result ≡ list_any (is_entry src dst) routes.now.items }
{
    exact(routes, src, dst).is_some()
}

/// The first (0.0.0.0, 0.0.0.0) entry that reaches a vif.
pub fn proxy_in(routes: &Routes, vif: u8) -> Option<Route>
    ensures { result ≡ proxy_in routes.now.items vif }
{
    routes.first(Addr(0), Addr(0), |r| reaches(r, vif))
}

/// Whether the proxy entry of an entry's parent reaches a vif.
pub fn is_proxied(routes: &Routes, route: &Route, vif: u8) -> bool
    ensures { result ≡ is_proxied routes.now.items route.now vif }
{
    match proxy_in(routes, route.parent) {
        None => false,
        Some(proxy) => reaches(&proxy, vif),
    }
}

/// Whether an entry, or the proxy entry of its parent, reaches a vif.
fn serves(routes: &Routes, route: &Route, vif: u8) -> bool
    ensures { result ≡ serves routes.now.items route.now vif }
{
    reaches(route, vif) || is_proxied(routes, route, vif)
}

/// The first (0.0.0.0, G) entry that serves a vif.
fn star_in(routes: &Routes, dst: Addr, vif: u8) -> Option<Route>
    ensures { result ≡ star_in routes.now.items dst vif }
{
    routes.first(Addr(0), dst, |r| serves(routes, r, vif))
}

/// The entry for any origin that a packet meets, where its device has a vif.
fn wildcard(routes: &Routes, vif: Option<u8>, dst: Addr) -> Option<Route>
    ensures { result ≡ wildcard_in routes.now.items vif dst }
{
    let vif = vif?;
    match star_in(routes, dst, vif) {
        Some(route) => Some(route),
        None => proxy_in(routes, vif),
    }
}

/// The entry that a packet meets.
pub fn found(vifs: &[VifRecord], routes: &Routes, dev: u32, src: Addr, dst: Addr) -> Option<Route>
    ensures { result ≡ found_in vifs.now routes.now.items dev src dst }
{
    match exact(routes, src, dst) {
        Some(route) => Some(route),
        None => wildcard(routes, vif_on(vifs, dev), dst),
    }
}

/// The threshold of a vif that is kept of what is asked.
fn threshold(vifs: &[VifRecord], vif: u16, asked: u8) -> u8
    ensures { result ≡ threshold vifs.now vif asked }
{
    if has_vif(vifs, vif) && 0 < asked && asked < NO_THRESHOLD {
        asked
    } else {
        NO_THRESHOLD
    }
}

/// The thresholds that are kept of what is asked.
pub fn thresholds(vifs: &[VifRecord], asked: &[u8; 32]) -> [u8; 32]
    ensures { result ≡ thresholds_from vifs.now 0 asked.now }
{
    let mut kept = [NO_THRESHOLD; 32];
    for i in 0..MAXVIFS {
        kept[usize::from(i)] = threshold(vifs, i, asked[usize::from(i)]);
    }
    kept
}

/// Whether an address is 0.0.0.0 or in 224.0.0.0/4.
pub fn is_group(address: u32) -> bool
    ensures { result ≡ is_group address }
{
    address == 0 || address / 0x1000_0000 == 14
}

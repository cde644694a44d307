//! What one entry is to a packet or to a call, and what a call makes of it.

ghost use Rattle.std.specs.Prelude.{◌≡◌};
ghost use Rattle.mr_model.specs.RouteList.{ttl_of, is_entry, has_parent, is_named, changed_to};
ghost use Rattle.mr_model.specs.Found.{reaches};

use mr_base::{Addr, Route};

/// An entry's threshold of a vif; 255, which no TTL exceeds, for one of 32 or more.
#[inline(always)]
pub fn ttl_of(route: &Route, vif: u8) -> u8
    ensures { result ≡ ttl_of route.now vif }
{
    if vif < 32 {
        route.ttls[usize::from(vif)]
    } else {
        255
    }
}

/// Whether an entry's threshold of a vif is below 255.
#[inline(always)]
pub fn reaches(route: &Route, vif: u8) -> bool
    ensures { result ≡ reaches route.now vif }
{
    ttl_of(route, vif) < 255
}

/// Whether an entry has this origin and this group.
#[inline(always)]
pub fn is_entry(route: &Route, src: Addr, dst: Addr) -> bool
    ensures { result ≡ is_entry src dst route.now }
{
    route.src.0 == src.0 && route.dst.0 == dst.0
}

/// Whether an entry has this parent; every entry has none.
#[inline(always)]
fn has_parent(route: &Route, parent: Option<u8>) -> bool
    ensures { result ≡ has_parent parent route.now }
{
    match parent {
        None => true,
        Some(parent) => route.parent == parent,
    }
}

/// Whether an entry has this origin, this group and, where one is given, this parent.
#[inline(always)]
pub fn is_named(route: &Route, src: Addr, dst: Addr, parent: Option<u8>) -> bool
    ensures { result ≡ is_named src dst parent route.now }
{
    is_entry(route, src, dst) && has_parent(route, parent)
}

/// An entry with another parent, other thresholds, static or not.
pub fn changed_to(route: &Route, parent: u8, ttls: [u8; 32], fixed: bool) -> Route
    ensures { result ≡ changed_to parent ttls fixed route.now }
{
    Route {
        parent,
        ttls,
        fixed,
        ..*route
    }
}

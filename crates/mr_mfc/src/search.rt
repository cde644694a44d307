//! Entries found in a list, newest first.

ghost use Rattle.std.specs.Prelude.{◌≡◌, ◌<◌, length, nat_lt, find, IsTrue};
ghost use Rattle.std.specs.List.{list_any, position, position_or_len};
ghost use Rattle.mr_model.specs.RouteList.{is_named, has_number};
ghost use Rattle.mr_model.specs.Found.{proxy_in, is_proxied, serves, star_in};
ghost use Rattle.mr_mfc.specs.Caches.{is_above, IsFalling};

use crate::matching::{is_entry, is_named, reaches};
use mr_base::{Addr, Route};

/// The first entry of this origin and this group and, where one is given, of this parent.
#[inline(always)]
pub fn first_named(routes: &[Route], src: Addr, dst: Addr, parent: Option<u8>) -> Option<Route>
    ensures { result ≡ find (is_named src dst parent) routes.now }
{
    for r in routes {
        if is_named(r, src, dst, parent) {
            return Some(*r);
        }
    }
    None
}

/// The first (0.0.0.0, 0.0.0.0) entry that reaches a vif.
pub fn proxy_in(routes: &[Route], vif: u8) -> Option<Route>
    ensures { result ≡ proxy_in routes.now vif }
{
    for r in routes {
        if is_entry(r, Addr(0), Addr(0)) && reaches(r, vif) {
            return Some(*r);
        }
    }
    None
}

/// Whether the proxy entry of an entry's parent reaches a vif.
pub fn is_proxied(routes: &[Route], route: &Route, vif: u8) -> bool
    ensures { result ≡ is_proxied routes.now route.now vif }
{
    match proxy_in(routes, route.parent) {
        None => false,
        Some(proxy) => reaches(&proxy, vif),
    }
}

/// Whether an entry, or the proxy entry of its parent, reaches a vif.
fn serves(routes: &[Route], route: &Route, vif: u8) -> bool
    ensures { result ≡ serves routes.now route.now vif }
{
    reaches(route, vif) || is_proxied(routes, route, vif)
}

/// The first (0.0.0.0, G) entry that serves a vif.
pub fn star_in(routes: &[Route], dst: Addr, vif: u8) -> Option<Route>
    ensures { result ≡ star_in routes.now dst vif }
{
    for r in routes {
        if is_entry(r, Addr(0), dst) && serves(routes, r, vif) {
            return Some(*r);
        }
    }
    None
}

/// The first entry whose number is less than this one.
pub fn first_below(routes: &[Route], number: u32) -> Option<Route>
    ensures { result ≡ find (λ r. nat_lt r.number number) routes.now }
{
    for r in routes {
        if r.number < number {
            return Some(*r);
        }
    }
    None
}

/// The first place at which an entry of this number stands.
fn position_of(routes: &[Route], number: u32) -> Option<usize>
    ensures { result ≡ position (has_number number) routes.now }
{
    routes.iter().position(|r| r.number == number)
}

/// The place of the entry of this number.
pub fn place_of(routes: &[Route], number: u32) -> usize
    requires { IsTrue (list_any (has_number number) routes.now) }
    ensures first { result ≡ position_or_len (has_number number) routes.now }
    ensures within { result < length routes.now }
{
    match position_of(routes, number) {
        Some(at) => at,
        None => unreachable!(),
    }
}

/// Whether a number is above those of all entries: the first has the highest.
pub fn is_above(routes: &[Route], number: u32) -> bool
    requires { IsFalling routes.now }
    ensures { result ≡ is_above number routes.now }
{
    match routes {
        [] => true,
        [newest, ..] => newest.number < number,
    }
}

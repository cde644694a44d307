//! What the vifs and the entries say of a packet (ipmr.c, `ip_mr_input` and `ip_mr_forward`).

ghost use Rattle.std.specs.Prelude.{◌≡◌, ◌≢◌, ℕ, ◌<◌, ◌==◌, ◌||◌, List, not, nat_lt, if◌then◌else◌};
ghost use Rattle.std.specs.Prelude.{slice_index_or};
ghost use Rattle.mr_base.specs.declared.route.Route.{Route};
ghost use Rattle.mr_model.specs.Found.{any_address, or_else, star_in, proxy_in, wildcard_in};
ghost use Rattle.mr_model.specs.RouteList.{ttl_of, is_entry};
ghost use Rattle.mr_model.specs.VifList.{vif_on};
ghost use Rattle.mr_model.specs.Verdict.{is_in, comes_by_parent, passes_proxied, sends_on};
ghost use Rattle.mr_model.specs.Verdict.{input_of, has_register, judge_in, judge_or_miss};
ghost use Rattle.mr_model.specs.Verdict.{verdict_in};
ghost use Rattle.mr_model.specs.declared.verdict.Verdict.TheVariants.{Forward, Register, Wrong};

use crate::entries::NO_THRESHOLD;
use mr_base::{Addr, Mask, Route};
use mr_mfc::{Cache, is_entry};
use mr_model::Verdict;
use mr_vif::Vifs;

/// Whether an entry's parent is there and on this device.
#[inline(always)]
fn comes_by_parent(vifs: &Vifs, route: &Route, dev: u32) -> bool
    ensures { result ≡ comes_by_parent vifs.now route.now dev }
{
    match vifs.record(route.parent) {
        None => false,
        Some(parent) => parent.dev == dev,
    }
}

/// The vif on which an entry's packets count in: its parent, where it is there.
#[inline(always)]
fn input_of(vifs: &Vifs, route: &Route) -> Option<u8>
    ensures { result ≡ input_of vifs.now route.now }
{
    if vifs.exists(u16::from(route.parent)) {
        Some(route.parent)
    } else {
        None
    }
}

/// Whether a vif is in a mask.
#[inline(always)]
fn is_in(outs: Mask, vif: u8) -> bool
    requires { vif < 32 }
    ensures { result ≡ is_in outs vif }
{
    (outs.0 >> vif) % 2 == 1
}

/// Whether the register vif is in a mask.
#[inline(always)]
fn has_register(vifs: &Vifs, outs: Mask) -> bool
    ensures { result ≡ has_register vifs.now outs }
{
    match vifs.register() {
        None => false,
        Some(vif) => is_in(outs, vif),
    }
}

/// The verdict on a packet that an entry sends on these vifs.
#[inline(always)]
fn forward(vifs: &Vifs, route: &Route, outs: Mask) -> Verdict
    ensures { result ≡ (if has_register vifs.now outs
        then Register route.now.number (input_of vifs.now route.now) outs
        else Forward route.now.number (input_of vifs.now route.now) outs) }
{
    let entry = route.number;
    let input = input_of(vifs, route);
    if has_register(vifs, outs) {
        return Verdict::Register { entry, input, outs };
    }
    Verdict::Forward { entry, input, outs }
}

/// The verdict on a packet that came in on a wrong interface.
#[inline(never)]
fn wrong(vifs: &Vifs, route: &Route, dev: u32) -> Verdict
    ensures { result ≡ Wrong route.now.number (vif_on vifs.now dev) }
{
    Verdict::Wrong {
        entry: route.number,
        vif: vifs.of_device(dev),
    }
}

/// The verdict of an entry with an origin.
#[tactic(auto, using(mr_vif::proofs::MaskLemmas::origin))]
#[inline(always)]
fn judge_origin(vifs: &Vifs, route: &Route, dev: u32, ttl: u8) -> Verdict
    requires { route.now.src.0 ≢ 0 }
    ensures { (routes : List Route) → result ≡ judge_in vifs.now routes route.now dev ttl }
{
    if !comes_by_parent(vifs, route, dev) {
        return wrong(vifs, route, dev);
    }
    forward(vifs, route, vifs.outs(&route.ttls, ttl))
}

/// No threshold but that of one vif.
fn alone(ttls: &[u8; 32], vif: u8) -> [u8; 32]
    ensures { (i : ℕ) → slice_index_or result i 255
        ≡ (if vif == i then slice_index_or ttls.now i 255 else 255) }
{
    let mut kept = [NO_THRESHOLD; 32];
    let place = usize::from(vif);
    if place < kept.len() {
        kept[place] = ttls[place];
    }
    kept
}

/// No threshold of one vif.
fn without(ttls: [u8; 32], vif: u8) -> [u8; 32]
    ensures { (i : ℕ) → slice_index_or result i 255
        ≡ (if vif == i then 255 else slice_index_or ttls i 255) }
{
    let mut kept = ttls;
    let place = usize::from(vif);
    if place < kept.len() {
        kept[place] = NO_THRESHOLD;
    }
    kept
}

/// The thresholds of an entry; of a (0.0.0.0, 0.0.0.0) entry its parent's alone.
fn own_ttls(route: &Route) -> [u8; 32]
    ensures { (i : ℕ) → slice_index_or result i 255
        ≡ (if not (is_entry any_address any_address route.now) || route.now.parent == i
        then ttl_of route.now i else 255) }
{
    if is_entry(route, Addr(0), Addr(0)) {
        return alone(&route.ttls, route.parent);
    }
    route.ttls
}

/// The thresholds by which an entry for any origin sends what came in on a vif: never back on that
/// vif.
fn any_ttls(route: &Route, vif: Option<u8>) -> [u8; 32]
    requires { route.now.src.0 ≡ 0 }
    ensures { (ttl i : ℕ) → ttl < 256 →
        nat_lt (slice_index_or result i 255) ttl ≡ sends_on route.now vif ttl i }
{
    let ttls = own_ttls(route);
    match vif {
        None => ttls,
        Some(vif) => without(ttls, vif),
    }
}

/// Whether a packet that came in on this vif passes by the proxy entry of an entry's parent.
fn passes_proxied(cache: &Cache, route: &Route, vif: Option<u8>) -> bool
    requires { route.now.src.0 ≡ 0 }
    ensures { result ≡ passes_proxied cache.now.routes route.now vif }
{
    match vif {
        None => false,
        Some(vif) => cache.is_proxied(route, vif),
    }
}

/// Whether a packet that came in on this vif of this device passes by an entry for any origin.
fn passes(vifs: &Vifs, cache: &Cache, route: &Route, vif: Option<u8>, dev: u32) -> bool
    requires { route.now.src.0 ≡ 0 }
    ensures { result ≡ (passes_proxied cache.now.routes route.now vif
        || comes_by_parent vifs.now route.now dev) }
{
    passes_proxied(cache, route, vif) || comes_by_parent(vifs, route, dev)
}

/// The verdict of an entry for any origin.
#[inline(never)]
fn judge_any(vifs: &Vifs, cache: &Cache, route: &Route, dev: u32, ttl: u8) -> Verdict
    requires { route.now.src.0 ≡ 0 }
    ensures { result ≡ judge_in vifs.now cache.now.routes route.now dev ttl }
{
    let vif = vifs.of_device(dev);
    if !passes(vifs, cache, route, vif, dev) {
        return wrong(vifs, route, dev);
    }
    forward(vifs, route, vifs.outs(&any_ttls(route, vif), ttl))
}

/// The verdict of one entry on a packet that came in on a device.
#[inline(always)]
pub fn judge(vifs: &Vifs, cache: &Cache, route: &Route, dev: u32, ttl: u8) -> Verdict
    ensures { result ≡ judge_in vifs.now cache.now.routes route.now dev ttl }
{
    if route.src.0 == 0 {
        return judge_any(vifs, cache, route, dev, ttl);
    }
    judge_origin(vifs, route, dev, ttl)
}

/// The entry for any origin that a packet meets, which came in on this vif.
fn wildcard(cache: &Cache, dst: Addr, vif: u8) -> Option<Route>
    ensures { result ≡ or_else (star_in cache.now.routes dst vif) (proxy_in cache.now.routes vif) }
{
    match cache.star(dst, vif) {
        None => cache.proxy(vif),
        Some(route) => Some(route),
    }
}

/// The verdict on a packet that meets no entry of its origin and group.
#[inline(never)]
fn decide_any(vifs: &Vifs, cache: &Cache, dev: u32, dst: Addr, ttl: u8) -> Verdict
    ensures { result ≡ judge_or_miss vifs.now cache.now.routes
        (wildcard_in cache.now.routes (vif_on vifs.now dev) dst) dev ttl }
{
    match vifs.of_device(dev) {
        None => Verdict::NoVif,
        Some(vif) => match wildcard(cache, dst, vif) {
            None => Verdict::Miss { vif },
            Some(route) => judge(vifs, cache, &route, dev, ttl),
        },
    }
}

/// The verdict on a packet that came in on a device.
#[tactic(auto, using(crate::proofs::Found::named_entry))]
#[inline(always)]
pub fn decide(vifs: &Vifs, cache: &Cache, dev: u32, src: Addr, dst: Addr, ttl: u8) -> Verdict
    ensures { result ≡ verdict_in vifs.now cache.now.routes dev src dst ttl }
{
    match cache.find(src, dst, None) {
        Some(route) => judge(vifs, cache, &route, dev, ttl),
        None => decide_any(vifs, cache, dev, dst, ttl),
    }
}

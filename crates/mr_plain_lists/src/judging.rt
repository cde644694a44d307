//! What the vifs and the entries say of a packet (ipmr.c, `ip_mr_forward`).

ghost use Rattle.std.specs.Prelude.{◌≡◌, ◌<◌, ◌||◌, List};
ghost use Rattle.std.specs.List.{AllByRecursion};
ghost use Rattle.mr_base.specs.declared.route.Route.{Route};
ghost use Rattle.mr_model.specs.VifList.{vif_on};
ghost use Rattle.mr_model.specs.Verdict.{is_in, is_vif, comes_by_parent, passes_proxied, sends_on};
ghost use Rattle.mr_model.specs.Verdict.{outs_of, input_of, has_register, judge_in, verdict_in};

use crate::entries::{found, is_entry, is_proxied, ttl_of};
use crate::routes::Routes;
use crate::vifs::{has_vif, register_vif, vif_at, vif_on};
use mr_base::{Addr, Mask, Route, VifRecord};
use mr_model::{Flow, Verdict};

/// Whether a vif is in a mask.
pub fn is_in(outs: Mask, vif: u8) -> bool
    ensures { result ≡ is_in outs vif }
{
    vif < 32 && (outs.0 >> vif) % 2 == 1
}

/// Whether a vif is this one.
pub fn is_vif(vif: Option<u8>, index: u8) -> bool
    ensures { result ≡ is_vif vif index }
{
    match vif {
        None => false,
        Some(vif) => vif == index,
    }
}

/// Whether an entry's parent is there and on this device.
fn comes_by_parent(vifs: &[VifRecord], route: &Route, dev: u32) -> bool
    ensures { result ≡ comes_by_parent vifs.now route.now dev }
{
    match vif_at(vifs, u16::from(route.parent)) {
        None => false,
        Some(parent) => parent.dev == dev,
    }
}

/// Whether a packet that came in on this vif passes by the proxy entry of an entry's parent.
pub fn passes_proxied(routes: &Routes, route: &Route, vif: Option<u8>) -> bool
    ensures { result ≡ passes_proxied routes.now.items route.now vif }
{
    match vif {
        None => false,
        Some(vif) => route.src.0 == 0 && is_proxied(routes, route, vif),
    }
}

/// Whether an entry sends on a vif what came in on another.
fn sends_on(route: &Route, from: Option<u8>, ttl: u8, vif: u8) -> bool
    ensures { result ≡ sends_on route.now from ttl vif }
{
    ttl_of(route, vif) < ttl
        && !(route.src.0 == 0 && is_vif(from, vif))
        && (!is_entry(route, Addr(0), Addr(0)) || route.parent == vif)
}

/// The vifs that are there and on which an entry sends.
fn outs_of(vifs: &[VifRecord], route: &Route, dev: u32, ttl: u8) -> Mask
    requires { AllByRecursion (λ v. v.vif < 32) vifs.now }
    ensures { result ≡ outs_of vifs.now route.now dev ttl }
{
    let from = vif_on(vifs, dev);
    let mut outs = 0u32;
    for v in vifs {
        if sends_on(route, from, ttl, v.vif) {
            outs |= 1u32 << v.vif;
        }
    }
    Mask(outs)
}

/// The vif on which an entry's packets count in: its parent, where it is there.
fn input_of(vifs: &[VifRecord], route: &Route) -> Option<u8>
    ensures { result ≡ input_of vifs.now route.now }
{
    if has_vif(vifs, u16::from(route.parent)) {
        Some(route.parent)
    } else {
        None
    }
}

/// Whether the register vif is in a mask.
fn has_register(vifs: &[VifRecord], outs: Mask) -> bool
    ensures { result ≡ has_register vifs.now outs }
{
    match register_vif(vifs) {
        None => false,
        Some(vif) => is_in(outs, vif),
    }
}

/// The verdict of one entry; `proxied`: the packet passes by the proxy entry of its parent.
pub fn judge(vifs: &[VifRecord], proxied: bool, route: &Route, dev: u32, ttl: u8) -> Verdict
    requires { AllByRecursion (λ v. v.vif < 32) vifs.now }
    ensures { (routes : List Route) →
        proxied ≡ passes_proxied routes route.now (vif_on vifs.now dev) →
        result ≡ judge_in vifs.now routes route.now dev ttl }
{
    let entry = route.number;
    if !(proxied || comes_by_parent(vifs, route, dev)) {
        let vif = vif_on(vifs, dev);
        return Verdict::Wrong { entry, vif };
    }
    let input = input_of(vifs, route);
    let outs = outs_of(vifs, route, dev, ttl);
    if has_register(vifs, outs) {
        Verdict::Register { entry, input, outs }
    } else {
        Verdict::Forward { entry, input, outs }
    }
}

/// The verdict on a packet.
pub fn verdict(vifs: &[VifRecord], routes: &Routes, flow: &Flow) -> Verdict
    requires { AllByRecursion (λ v. v.vif < 32) vifs.now }
    ensures { result ≡ verdict_in vifs.now routes.now.items flow.now.dev flow.now.src flow.now.dst
        flow.now.ttl }
{
    match found(vifs, routes, flow.dev, flow.src, flow.dst) {
        Some(route) => {
            let vif = vif_on(vifs, flow.dev);
            let proxied = passes_proxied(routes, &route, vif);
            judge(vifs, proxied, &route, flow.dev, flow.ttl)
        }
        None => match vif_on(vifs, flow.dev) {
            None => Verdict::NoVif,
            Some(vif) => Verdict::Miss { vif },
        },
    }
}

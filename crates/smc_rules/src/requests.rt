//! The requests for vifs, rules and learned routes.

ghost use Rattle.std.specs.Prelude.{◌≡◌, ◌<◌, ◌≤◌, ◌++◌, ◌^◌, length, flat_map, map, OnOk};
ghost use Rattle.smc_rules.specs.Interfaces.{vif_of};
ghost use Rattle.smc_rules.specs.Keys.{is_exact};
ghost use Rattle.smc_rules.specs.Requests.{add_route, del_route, del_learned};
ghost use Rattle.smc_rules.specs.Requests.{outputs, with_output, route_request};
ghost use Rattle.smc_rules.specs.Requests.{rule_requests, vif_request, vif_requests};

use crate::aim::Aim;
use crate::interface::Interface;
use crate::interfaces::{MOST_VIFS, vif_of};
use crate::key::Key;
use crate::learned::Learned;
use crate::rules::Rules;
use mr_base::{Addr, FileName};
use mr_model::{MfcCtl, MfcKey, Request, VifCtl};
use std::alloc::AllocError;

/// A vif is made by its device's number (VIFF_USE_IFINDEX of mroute.h).
const BY_NUMBER: u8 = 8;

/// The length of a prefix that is a single address.
const WHOLE: u8 = 32;

/// Whether both prefixes are single addresses.
pub fn is_exact(key: &Key) -> bool
    ensures { result ≡ is_exact key.now }
{
    key.source.len == WHOLE && key.group.len == WHOLE
}

/// The vif of an interface: it is made, or goes.
fn vif_request(aim: Aim, vif: u16, interface: &Interface) -> Request
    ensures { result ≡ vif_request aim vif interface.now }
{
    match aim {
        Aim::Add => Request::AddVif(VifCtl {
            vif,
            flags: BY_NUMBER,
            local: interface.device,
        }),
        Aim::Delete => Request::DelVif(vif),
    }
}

/// One for each interface, rising from 0.
pub(crate) fn push_vifs(
    aim: Aim,
    interfaces: &[Interface],
    requests: &mut Vec<Request>,
) -> Result<(), AllocError>
    requires { length interfaces.now ≤ 32 }
    ensures { OnOk result (requests.new.items
        ≡ requests.old.items ++ vif_requests aim 0 interfaces.now) }
{
    let mut vif = 0u16;
    for interface in interfaces {
        requests.push(vif_request(aim, vif, interface))?;
        vif += 1;
    }
    Ok(())
}

/// The threshold of an output's interface; the input and what isn't active are passed over.
fn set_output(interfaces: &[Interface], input: usize, out: &FileName, ttls: &mut [u8; MOST_VIFS])
    requires { length interfaces.now ≤ 32 }
    ensures { ttls.new
        ≡ with_output interfaces.now input ttls.old (vif_of interfaces.now out.now) }
{
    if let Some(vif) = vif_of(interfaces, out.as_str().as_bytes()) {
        if vif != input {
            ttls[vif] = interfaces[vif].threshold;
        }
    }
}

/// The threshold that is asked for each vif.
fn outputs(interfaces: &[Interface], input: usize, outs: &[FileName]) -> [u8; MOST_VIFS]
    requires { length interfaces.now ≤ 32 }
    ensures { result ≡ outputs interfaces.now input outs.now }
{
    let mut ttls = [0u8; MOST_VIFS];
    for out in outs {
        set_output(interfaces, input, out, &mut ttls);
    }
    ttls
}

/// The route of a source and a group by a rule's outputs.
pub(crate) fn add_route(
    interfaces: &[Interface],
    input: usize,
    src: Addr,
    dst: Addr,
    outs: &[FileName],
) -> Request
    requires vifs { length interfaces.now ≤ 32 }
    requires vif { input < 2 ^ 16 }
    ensures { result ≡ add_route interfaces.now input src dst outs.now }
{
    Request::AddMfc(MfcCtl {
        src,
        dst,
        parent: input as u16,
        ttls: outputs(interfaces, input, outs),
    })
}

/// The removal of the route of a source and a group, whose input has this vif.
pub fn del_route(input: usize, src: Addr, dst: Addr) -> Request
    requires { input < 2 ^ 16 }
    ensures { result ≡ del_route input src dst }
{
    Request::DelMfc(MfcKey {
        src,
        dst,
        parent: input as u16,
    })
}

/// The removal of a learned route.
pub fn del_learned(learned: &Learned) -> Request
    ensures { result ≡ del_learned learned.now }
{
    del_route(usize::from(learned.vif), learned.src, learned.dst)
}

/// The removal of learned routes, oldest first, behind these requests.
///
/// # Errors
///
/// Where memory runs out.
pub fn push_del_learned(learned: &[Learned], requests: &mut Vec<Request>) -> Result<(), AllocError>
    ensures { OnOk result (requests.new.items
        ≡ requests.old.items ++ map del_learned learned.now) }
{
    for entry in learned {
        requests.push(del_learned(entry))?;
    }
    Ok(())
}

/// The route of an exact rule whose input has this vif: it is made, or goes.
fn route_request(
    aim: Aim,
    interfaces: &[Interface],
    key: &Key,
    outs: &[FileName],
    vif: usize,
) -> Request
    requires vifs { length interfaces.now ≤ 32 }
    requires vif { vif < 2 ^ 16 }
    ensures { result ≡ route_request aim interfaces.now (key.now, outs.now) vif }
{
    let (src, dst) = (key.source.addr, key.group.addr);
    match aim {
        Aim::Add => add_route(interfaces, vif, src, dst, outs),
        Aim::Delete => del_route(vif, src, dst),
    }
}

/// The route of a rule, if it is exact and its input is active.
pub(crate) fn push_rule(
    aim: Aim,
    interfaces: &[Interface],
    key: &Key,
    outs: &[FileName],
    requests: &mut Vec<Request>,
) -> Result<(), AllocError>
    requires { length interfaces.now ≤ 32 }
    ensures { OnOk result (requests.new.items
        ≡ requests.old.items ++ rule_requests aim interfaces.now (key.now, outs.now)) }
{
    if !is_exact(key) {
        return Ok(());
    }
    if let Some(vif) = vif_of(interfaces, key.input.as_str().as_bytes()) {
        requests.push(route_request(aim, interfaces, key, outs, vif))?;
    }
    Ok(())
}

/// The routes of all rules, in order.
pub(crate) fn push_rules(
    aim: Aim,
    interfaces: &[Interface],
    rules: &Rules,
    requests: &mut Vec<Request>,
) -> Result<(), AllocError>
    requires { length interfaces.now ≤ 32 }
    ensures { OnOk result (requests.new.items
        ≡ requests.old.items ++ flat_map (rule_requests aim interfaces.now) rules.now.entries) }
{
    let mut rest = rules.as_slice();
    'rules: while let Some(((key, outs), after)) = rest.split_first() {
        push_rule(aim, interfaces, key, outs.0.as_slice(), requests)?;
        rest = after;
    }
    Ok(())
}

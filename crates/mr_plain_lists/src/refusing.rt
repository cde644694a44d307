//! Why a control call is refused (ipmr.c, `ip_mroute_setsockopt`, `ip_mroute_getsockopt` and
//! `ipmr_ioctl`).

ghost use Rattle.std.specs.Prelude.{◌≡◌, ◌≤◌, Some, None, length, not, nat_le, if◌then◌else◌};
ghost use Rattle.mr_base.specs.declared.errno.Errno.TheVariants.{Invalid, NotAvailable};
ghost use Rattle.mr_base.specs.declared.limits.TheConstants.{MOST_DEVICES};
ghost use Rattle.mr_model.specs.Answer.{is_admin, permitted, refused_by_tables, error_of};
ghost use Rattle.mr_model.specs.RouteList.{add_route_error, del_route_error};
ghost use Rattle.mr_model.specs.VifList.{has_vif, max_vif, add_vif_error, del_vif_error};
ghost use Rattle.mr_plain_lists.specs.Knowing.{state_of};

use crate::entries::{has_entry, has_named, is_group};
use crate::known::Known;
use crate::outcomes::is_owner;
use crate::routes::Routes;
use crate::vifs::{REGISTER, USE_IFINDEX, device_meant, has_vif, max_vif, register_vif};
use mr_base::{Addr, DaemonNo, Device, Errno, MAXVIFS, VifRecord};
use mr_model::{Limits, MfcCtl, Request, VifCtl};

/// The option MRT_INIT, whose record has no check of access.
const MRT_INIT: u16 = 200;

/// Whether a daemon is an admin.
fn is_admin(limits: &Limits, daemon: DaemonNo) -> bool
    ensures { result ≡ is_admin limits.now daemon }
{
    if daemon.0 == 0 {
        return false;
    }
    let place = daemon.0 as usize - 1;
    let admins = limits.admins.0.as_slice();
    place < admins.len() && admins[place]
}

/// Why MRT_ADD_VIF is refused by the vifs that are there.
fn add_vif_error(devices: &[Device], vifs: &[VifRecord], c: &VifCtl) -> Option<Errno>
    requires { length devices.now ≤ MOST_DEVICES }
    ensures { result ≡ add_vif_error devices.now vifs.now c.now }
{
    if MAXVIFS <= c.vif {
        return Some(Errno::TooManyVifs);
    }
    if has_vif(vifs, c.vif) {
        return Some(Errno::InUse);
    }
    if c.flags == REGISTER && register_vif(vifs).is_some() {
        return Some(Errno::InUse);
    }
    if (c.flags == 0 || c.flags == USE_IFINDEX) && device_meant(devices, c).is_none() {
        return Some(Errno::NotAvailable);
    }
    if !(c.flags == 0 || c.flags == REGISTER || c.flags == USE_IFINDEX) {
        return Some(Errno::Invalid);
    }
    None
}

/// Why MRT_DEL_VIF is refused by the vifs that are there.
fn del_vif_error(vifs: &[VifRecord], vif: u16) -> Option<Errno>
    ensures { result ≡ del_vif_error vifs.now vif }
{
    if MAXVIFS <= vif {
        return Some(Errno::TooManyVifs);
    }
    if !has_vif(vifs, vif) {
        return Some(Errno::NotAvailable);
    }
    None
}

/// Why MRT_ADD_MFC is refused by the entries that are there, of which there may be `most`;
/// `parent`: where it too names the entry.
fn add_route_error(most: u32, routes: &Routes, c: &MfcCtl, parent: Option<u16>) -> Option<Errno>
    ensures { result ≡ add_route_error most routes.now.items c.now parent }
{
    if MAXVIFS <= c.parent {
        return Some(Errno::TooManyVifs);
    }
    if has_named(routes, c.src, c.dst, parent) {
        return None;
    }
    if !is_group(c.dst.0) {
        return Some(Errno::Invalid);
    }
    if most as usize <= routes.len() {
        return Some(Errno::NoBuffers);
    }
    None
}

/// Why MRT_DEL_MFC is refused by the entries that are there.
fn del_route_error(routes: &Routes, src: Addr, dst: Addr, parent: Option<u16>) -> Option<Errno>
    ensures { result ≡ del_route_error routes.now.items src dst parent }
{
    if has_named(routes, src, dst, parent) {
        None
    } else {
        Some(Errno::NoEntry)
    }
}

/// Why the tables refuse a request that sets them.
fn refused_by_tables(known: &Known, limits: &Limits, request: &Request) -> Option<Errno>
    requires { length limits.now.devices ≤ MOST_DEVICES }
    ensures { result ≡ refused_by_tables limits.now (state_of known.now) request.now }
{
    let (vifs, routes) = (known.vifs.as_slice(), &known.routes);
    match request {
        Request::AddVif(c) => add_vif_error(limits.devices.0.as_slice(), vifs, c),
        Request::DelVif(vif) => del_vif_error(vifs, *vif),
        Request::AddMfc(c) => add_route_error(limits.entries, routes, c, None),
        Request::AddProxy(c) => add_route_error(limits.entries, routes, c, Some(c.parent)),
        Request::DelMfc(k) => del_route_error(routes, k.src, k.dst, None),
        Request::DelProxy(k) => del_route_error(routes, k.src, k.dst, Some(k.parent)),
        _ => None,
    }
}

/// A request that sets something is for the owner and for admins alone; then come its further
/// checks.
fn permitted(
    known: &Known,
    limits: &Limits,
    daemon: DaemonNo,
    further: Option<Errno>,
) -> Option<Errno>
    ensures { result ≡ permitted limits.now (state_of known.now) daemon further }
{
    if is_owner(known, daemon) || is_admin(limits, daemon) {
        further
    } else {
        Some(Errno::Access)
    }
}

/// Why a vif's counts are not read.
fn vif_count_error(vifs: &[VifRecord], vif: u16) -> Option<Errno>
    ensures { result ≡ (if nat_le (max_vif vifs.now) vif then Some Invalid
        else (if not (has_vif vifs.now vif) then Some NotAvailable else None)) }
{
    if max_vif(vifs) <= vif {
        Some(Errno::Invalid)
    } else if has_vif(vifs, vif) {
        None
    } else {
        Some(Errno::NotAvailable)
    }
}

/// Why a request is refused, the checks in their order.
pub fn error_of(
    known: &Known,
    limits: &Limits,
    daemon: DaemonNo,
    request: &Request,
) -> Option<Errno>
    requires { length limits.now.devices ≤ MOST_DEVICES }
    ensures { result ≡ error_of limits.now (state_of known.now) daemon request.now }
{
    match *request {
        Request::Init if known.owner.is_some() => Some(Errno::InUse),
        Request::Init => None,
        Request::Finish if is_owner(known, daemon) => None,
        Request::Finish => Some(Errno::Access),
        Request::Unknown(_) => permitted(known, limits, daemon, Some(Errno::NoOption)),
        Request::BadLength(MRT_INIT) => Some(Errno::Invalid),
        Request::BadLength(_) => permitted(known, limits, daemon, Some(Errno::Invalid)),
        Request::GetVersion | Request::GetPim | Request::GetAssert => None,
        Request::VifCount(vif) => vif_count_error(known.vifs.as_slice(), vif),
        Request::SgCount { src, dst } if has_entry(&known.routes, src, dst) => None,
        Request::SgCount { .. } => Some(Errno::NotAvailable),
        Request::AddVif(_)
        | Request::DelVif(_)
        | Request::AddMfc(_)
        | Request::DelMfc(_)
        | Request::AddProxy(_)
        | Request::DelProxy(_)
        | Request::Pim(_)
        | Request::Assert(_)
        | Request::Flush(_) => {
            let further = refused_by_tables(known, limits, request);
            permitted(known, limits, daemon, further)
        }
    }
}

//! What a good call changes in the tables (ipmr.c, `ip_mroute_setsockopt`).

ghost use Rattle.std.specs.Prelude.{◌≡◌, ◌<◌, ◌≤◌, find, length};
ghost use Rattle.std.specs.Vec.{vec_len, vec_capacity};
ghost use Rattle.mr_base.specs.declared.limits.TheConstants.{MOST_DEVICES};
ghost use Rattle.mr_model.specs.Granting.{route_change, number_found, what_of, numbered};
ghost use Rattle.mr_model.specs.RouteList.{is_named, routes_kept};
ghost use Rattle.mr_model.specs.Tables.{vifs_after, routes_after, pim_after, asserts_after};
ghost use Rattle.mr_model.specs.Tables.{changed_by};
ghost use Rattle.mr_model.specs.VifList.{without_vif, vifs_kept, has_flag};
ghost use Rattle.mr_plain_lists.specs.Finding.{HasPlace};
ghost use Rattle.mr_plain_lists.specs.Knowing.{state_of};
ghost use Rattle.mr_plain_lists.specs.SmallRequests.{IsSmall};

use crate::entries::{named, thresholds};
use crate::known::Known;
use crate::routes::Routes;
use crate::vifs::{REGISTER, vif_device};
use mr_base::{Addr, Device, Route, VifRecord};
use mr_model::{MfcCtl, Request, What};

/// MRT_FLUSH removes the entries that are not static, and drops all packets that wait.
pub const MRT_FLUSH_MFC: u32 = 1;
/// It removes the static entries.
const MRT_FLUSH_MFC_STATIC: u32 = 2;
/// It removes the vifs that are not static.
const MRT_FLUSH_VIFS: u32 = 4;
/// It removes the static vifs.
const MRT_FLUSH_VIFS_STATIC: u32 = 8;

/// Whether one of the flags in `bits` is set.
pub fn has_flag(flags: u32, bits: u32) -> bool
    ensures { result ≡ has_flag flags bits }
{
    flags & bits != 0
}

/// What a call that sets an entry changes; `fixed`: who asks is not the owner.
fn route_change(vifs: &[VifRecord], fixed: bool, c: &MfcCtl, old: Option<Route>) -> What
    requires { c.now.parent < 32 }
    ensures { result ≡ route_change vifs.now fixed c.now old }
{
    let parent = c.parent as u8;
    let ttls = thresholds(vifs, &c.ttls);
    match old {
        None => What::NewRoute {
            src: c.src,
            dst: c.dst,
            parent,
            ttls,
            fixed,
        },
        Some(old) => What::OldRoute {
            target: old.number,
            parent,
            ttls,
            fixed: old.fixed || fixed,
        },
    }
}

/// The number of an entry; 0 where there is none.
fn number_found(routes: &Routes, src: Addr, dst: Addr, parent: Option<u16>) -> u32
    ensures { result ≡ number_found (find (is_named src dst parent)
        routes.now.items) }
{
    match named(routes, src, dst, parent) {
        None => 0,
        Some(route) => route.number,
    }
}

/// What a good call changes; `fixed`: who asks is not the owner.
pub fn what_of(known: &Known, devices: &[Device], fixed: bool, request: &Request) -> Option<What>
    requires small { IsSmall request.now }
    requires devices { length devices.now ≤ MOST_DEVICES }
    ensures { result ≡ what_of devices.now (state_of known.now).tables fixed request.now }
{
    let (vifs, routes) = (known.vifs.as_slice(), &known.routes);
    Some(match request {
        Request::Finish => What::Flush(MRT_FLUSH_MFC | MRT_FLUSH_VIFS),
        Request::AddVif(c) => What::AddVif {
            vif: c.vif as u8,
            dev: vif_device(devices, c),
            register: c.flags == REGISTER,
            fixed,
        },
        Request::DelVif(vif) => What::DelVif(*vif as u8),
        Request::AddMfc(c) => {
            let old = named(routes, c.src, c.dst, None);
            route_change(vifs, fixed, c, old)
        }
        Request::AddProxy(c) => {
            let old = named(routes, c.src, c.dst, Some(c.parent));
            route_change(vifs, fixed, c, old)
        }
        Request::DelMfc(k) => What::DropRoute(number_found(routes, k.src, k.dst, None)),
        Request::DelProxy(k) => {
            What::DropRoute(number_found(routes, k.src, k.dst, Some(k.parent)))
        }
        Request::Pim(n) => What::Pim(*n != 0),
        Request::Assert(n) => What::Assert(*n != 0),
        Request::Flush(flags) => What::Flush(*flags),
        _ => return None,
    })
}

/// Takes out the vif with this index.
fn remove_vif(vifs: &mut Vec<VifRecord>, vif: u8)
    ensures { vifs.new.items ≡ without_vif vifs.old.items vif }
{
    vifs.retain(|v| v.vif != vif);
}

/// Takes out the vifs that a flush removes.
fn flush_vifs(vifs: &mut Vec<VifRecord>, flags: u32)
    ensures { vifs.new.items ≡ vifs_kept flags vifs.old.items }
{
    let loose = has_flag(flags, MRT_FLUSH_VIFS);
    let fixed = has_flag(flags, MRT_FLUSH_VIFS_STATIC);
    vifs.retain(|v| !(if v.fixed { fixed } else { loose }));
}

/// The vifs behind change `number`.
fn change_vifs(vifs: &mut Vec<VifRecord>, number: u32, what: &What)
    requires { vec_len vifs.old < vec_capacity vifs.old }
    ensures { vifs.new.items ≡ vifs_after vifs.old.items number what.now }
{
    match *what {
        What::AddVif {
            vif,
            dev,
            register,
            fixed,
        } => vifs.push_reserved(VifRecord {
            vif,
            dev,
            register,
            fixed,
            number,
        }),
        What::DelVif(vif) => remove_vif(vifs, vif),
        What::Flush(flags) => flush_vifs(vifs, flags),
        _ => {}
    }
}

/// Takes out the entries that a flush removes.
fn flush_routes(routes: &mut Routes, flags: u32)
    ensures { routes.new.items ≡ routes_kept flags routes.old.items }
{
    let loose = has_flag(flags, MRT_FLUSH_MFC);
    let fixed = has_flag(flags, MRT_FLUSH_MFC_STATIC);
    routes.flush(loose, fixed);
}

/// The entries behind change `number`.
fn change_routes(routes: &mut Routes, number: u32, what: &What)
    requires { HasPlace routes.old }
    ensures { routes.new.items ≡ routes_after routes.old.items number what.now }
{
    match *what {
        What::NewRoute {
            src,
            dst,
            parent,
            ttls,
            fixed,
        } => routes.add(Route {
            number,
            src,
            dst,
            parent,
            ttls,
            fixed,
        }),
        What::OldRoute {
            target,
            parent,
            ttls,
            fixed,
        } => routes.change(target, parent, ttls, fixed),
        What::DropRoute(target) => routes.remove(target),
        What::Flush(flags) => flush_routes(routes, flags),
        _ => {}
    }
}

/// pim behind a change.
fn pim_after(pim: bool, what: &What) -> bool
    ensures { result ≡ pim_after pim what.now }
{
    match *what {
        What::Pim(on) => on,
        _ => pim,
    }
}

/// assert behind a change: MRT_PIM sets it too, where it changes pim.
fn asserts_after(pim: bool, asserts: bool, what: &What) -> bool
    ensures { result ≡ asserts_after pim asserts what.now }
{
    match *what {
        What::Pim(on) if on != pim => on,
        What::Assert(on) => on,
        _ => asserts,
    }
}

/// Makes change `number`.
pub fn change(known: &mut Known, number: u32, what: &What)
    requires vifs { vec_len known.old.vifs < vec_capacity known.old.vifs }
    requires routes { HasPlace known.old.routes }
    ensures state { state_of known.new ≡ record (state_of known.old) {
      tables = changed_by (state_of known.old).tables (numbered number what.now);
    } }
    ensures unread { known.new.unread ≡ known.old.unread }
    ensures waiting { known.new.waiting ≡ known.old.waiting }
    ensures attempts { known.new.attempts ≡ known.old.attempts }
    ensures moment { known.new.moment ≡ known.old.moment }
{
    change_vifs(&mut known.vifs, number, what);
    change_routes(&mut known.routes, number, what);
    known.asserts = asserts_after(known.pim, known.asserts, what);
    known.pim = pim_after(known.pim, what);
}

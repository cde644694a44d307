//! What calls on entries change, or why they are refused (ipmr.c, `ipmr_mfc_add` and
//! `ipmr_mfc_delete`).

ghost use Rattle.std.specs.Prelude.{◌≡◌, ◌<◌, not, nat_le, length, find, IfOk, IfErr};
ghost use Rattle.std.specs.List.{AllByRecursion};
ghost use Rattle.mr_base.specs.declared.errno.Errno.TheVariants.{Invalid, NoBuffers};
ghost use Rattle.mr_model.specs.Refusing.{refuse};
ghost use Rattle.mr_model.specs.RouteList.{is_named, threshold, thresholds_from, is_group};
ghost use Rattle.mr_model.specs.RouteList.{add_route_error, del_route_error};
ghost use Rattle.mr_model.specs.Granting.{route_change, number_found};
ghost use Rattle.mr_model.specs.declared.change.What.TheVariants as what;

use crate::interfaces::MAXVIFS;
use mr_base::Errno;
use mr_mfc::Cache;
use mr_model::{MfcCtl, MfcKey, What};
use mr_vif::Vifs;

/// The threshold that no TTL exceeds.
pub const NO_THRESHOLD: u8 = 255;

/// The threshold of a vif that is kept of what is asked.
fn threshold(vifs: &Vifs, vif: u16, asked: u8) -> u8
    ensures { result ≡ threshold vifs.now vif asked }
{
    if vifs.exists(vif) && 0 < asked && asked < NO_THRESHOLD {
        asked
    } else {
        NO_THRESHOLD
    }
}

/// The thresholds that are kept of what is asked.
fn thresholds(vifs: &Vifs, asked: &[u8; 32]) -> [u8; 32]
    ensures { result ≡ thresholds_from vifs.now 0 asked.now }
{
    let mut kept = [NO_THRESHOLD; 32];
    for i in 0..MAXVIFS {
        kept[usize::from(i)] = threshold(vifs, i, asked[usize::from(i)]);
    }
    kept
}

/// Whether an address is 0.0.0.0 or in 224.0.0.0/4.
fn is_group(address: u32) -> bool
    ensures { result ≡ is_group address }
{
    address == 0 || address / 0x1000_0000 == 14
}

/// Why no new entry is made, if it is not.
fn new_entry_error(cache: &Cache, c: &MfcCtl) -> Option<Errno>
    ensures { result ≡ refuse (not (is_group c.now.dst.0)) Invalid
        (refuse (nat_le cache.now.slots (length cache.now.routes)) NoBuffers None) }
{
    if !is_group(c.dst.0) {
        return Some(Errno::Invalid);
    }
    if cache.is_full() {
        return Some(Errno::NoBuffers);
    }
    None
}

/// What a call that sets an entry changes; `named`: the parent, where it too names the entry;
/// `fixed`: the entry is static.
#[tactic(auto, using(crate::proofs::Found::any_found))]
fn entry_to_set(
    vifs: &Vifs,
    cache: &Cache,
    c: &MfcCtl,
    named: Option<u8>,
    fixed: bool,
) -> Result<What, Errno>
    requires { c.now.parent < 32 }
    ensures refused { IfErr result (λ e.
        add_route_error cache.now.slots cache.now.routes c.now named ≡ Some e) }
    ensures granted { IfOk result (λ _.
        add_route_error cache.now.slots cache.now.routes c.now named ≡ None) }
    ensures change { IfOk result (λ w. w ≡ route_change vifs.now fixed c.now
        (find (is_named c.now.src c.now.dst named) cache.now.routes)) }
{
    let parent = c.parent as u8;
    let ttls = thresholds(vifs, &c.ttls);
    match cache.find(c.src, c.dst, named) {
        Some(old) => Ok(What::OldRoute {
            target: old.number,
            parent,
            ttls,
            fixed: old.fixed || fixed,
        }),
        None => match new_entry_error(cache, c) {
            Some(errno) => Err(errno),
            None => Ok(What::NewRoute {
                src: c.src,
                dst: c.dst,
                parent,
                ttls,
                fixed,
            }),
        },
    }
}

/// What MRT_ADD_MFC changes; `fixed`: the entry is static.
///
/// # Errors
///
/// `TooManyVifs` for a parent of 32 or more; of an entry that is not there yet `Invalid` where its
/// group is none, and `NoBuffers` where no slot is free.
pub fn mfc_to_add(vifs: &Vifs, cache: &Cache, c: &MfcCtl, fixed: bool) -> Result<What, Errno>
    ensures refused { IfErr result (λ e.
        add_route_error cache.now.slots cache.now.routes c.now None ≡ Some e) }
    ensures granted { IfOk result (λ _.
        add_route_error cache.now.slots cache.now.routes c.now None ≡ None) }
    ensures change { IfOk result (λ w. w ≡ route_change vifs.now fixed c.now
        (find (is_named c.now.src c.now.dst None) cache.now.routes)) }
{
    if MAXVIFS <= c.parent {
        return Err(Errno::TooManyVifs);
    }
    entry_to_set(vifs, cache, c, None, fixed)
}

/// What MRT_ADD_MFC_PROXY changes, by which the parent too names the entry; `fixed`: the entry is
/// static.
///
/// # Errors
///
/// Those of [`mfc_to_add`].
pub fn proxy_to_add(vifs: &Vifs, cache: &Cache, c: &MfcCtl, fixed: bool) -> Result<What, Errno>
    ensures refused { IfErr result (λ e.
        add_route_error cache.now.slots cache.now.routes c.now (Some c.now.parent) ≡ Some e) }
    ensures granted { IfOk result (λ _.
        add_route_error cache.now.slots cache.now.routes c.now (Some c.now.parent) ≡ None) }
    ensures change { IfOk result (λ w. w ≡ route_change vifs.now fixed c.now
        (find (is_named c.now.src c.now.dst (Some c.now.parent)) cache.now.routes)) }
{
    if MAXVIFS <= c.parent {
        return Err(Errno::TooManyVifs);
    }
    entry_to_set(vifs, cache, c, Some(c.parent as u8), fixed)
}

/// What MRT_DEL_MFC changes; `named`: the parent, where it too names the entry.
///
/// # Errors
///
/// `NoEntry` where there is no such entry.
#[tactic(auto, using(crate::proofs::Found::any_found))]
pub fn entry_to_delete(cache: &Cache, key: &MfcKey, named: Option<u8>) -> Result<What, Errno>
    ensures refused { IfErr result (λ e.
        del_route_error cache.now.routes key.now.src key.now.dst named ≡ Some e) }
    ensures granted { IfOk result (λ _.
        del_route_error cache.now.routes key.now.src key.now.dst named ≡ None) }
    ensures change { IfOk result (λ w. w ≡ what.DropRoute (number_found
        (find (is_named key.now.src key.now.dst named) cache.now.routes))) }
{
    match cache.find(key.src, key.dst, named) {
        Some(old) => Ok(What::DropRoute(old.number)),
        None => Err(Errno::NoEntry),
    }
}

/// What MRT_DEL_MFC_PROXY changes, by which the parent too names the entry.
///
/// # Errors
///
/// `NoEntry` where there is no such entry.
#[tactic(auto, using(crate::proofs::Found::no_great_parent))]
pub fn proxy_to_delete(cache: &Cache, key: &MfcKey) -> Result<What, Errno>
    requires { AllByRecursion (λ r. r.parent < 256) cache.now.routes }
    ensures refused { IfErr result (λ e.
        del_route_error cache.now.routes key.now.src key.now.dst (Some key.now.parent) ≡ Some e) }
    ensures granted { IfOk result (λ _.
        del_route_error cache.now.routes key.now.src key.now.dst (Some key.now.parent) ≡ None) }
    ensures change { IfOk result (λ w. w ≡ what.DropRoute (number_found
        (find (is_named key.now.src key.now.dst (Some key.now.parent)) cache.now.routes))) }
{
    if u16::from(u8::MAX) < key.parent {
        return Err(Errno::NoEntry);
    }
    entry_to_delete(cache, key, Some(key.parent as u8))
}

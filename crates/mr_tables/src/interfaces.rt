//! What calls on vifs change, or why they are refused (ipmr.c, `vif_add` and `vif_delete`).

ghost use Rattle.std.specs.Prelude.{◌≡◌, ◌<◌, ◌≤◌, ◌==◌, length, IfNone, IfOk, IfErr};
ghost use Rattle.mr_model.specs.VifList.{add_vif_error, del_vif_error, vif_device};
ghost use Rattle.mr_tables.specs.declared.tables.TheConstants.{MOST_DEVICES};
ghost use Rattle.mr_model.specs.declared.change.What.TheVariants as what;

use crate::devices::{REGISTER, USE_IFINDEX, device_meant, vif_device};
use mr_base::{Device, Errno};
use mr_model::{VifCtl, What};
use mr_vif::Vifs;

/// How many vifs there can be (mroute.h, MAXVIFS).
pub const MAXVIFS: u16 = mr_base::MAXVIFS;

/// Why a vif is not added, if it is not.
fn add_vif_error(devices: &[Device], vifs: &Vifs, c: &VifCtl) -> Option<Errno>
    requires { length devices.now ≤ MOST_DEVICES }
    ensures error { result ≡ add_vif_error devices.now vifs.now c.now }
    ensures index { IfNone result (c.now.vif < 32) }
{
    if MAXVIFS <= c.vif {
        return Some(Errno::TooManyVifs);
    }
    if vifs.exists(c.vif) {
        return Some(Errno::InUse);
    }
    if c.flags == REGISTER && vifs.register().is_some() {
        return Some(Errno::InUse);
    }
    if (c.flags == 0 || c.flags == USE_IFINDEX) && device_meant(devices, c).is_none() {
        return Some(Errno::NotAvailable);
    }
    if !(c.flags == 0 || c.flags == REGISTER || c.flags == USE_IFINDEX) {
        return Some(Errno::Invalid);
    }
    None
}

/// What MRT_ADD_VIF changes; `fixed`: the vif is static.
///
/// # Errors
///
/// Those of [`add_vif_error`].
pub fn vif_to_add(devices: &[Device], vifs: &Vifs, c: &VifCtl, fixed: bool) -> Result<What, Errno>
    requires { length devices.now ≤ MOST_DEVICES }
    ensures refused { IfErr result (λ e. add_vif_error devices.now vifs.now c.now ≡ Some e) }
    ensures granted { IfOk result (λ _. add_vif_error devices.now vifs.now c.now ≡ None) }
    ensures change { IfOk result (λ w. w ≡
        what.AddVif c.now.vif (vif_device devices.now c.now) (c.now.flags == 4) fixed) }
{
    if let Some(errno) = add_vif_error(devices, vifs, c) {
        return Err(errno);
    }
    Ok(What::AddVif {
        vif: c.vif as u8,
        dev: vif_device(devices, c),
        register: c.flags == REGISTER,
        fixed,
    })
}

/// What MRT_DEL_VIF changes.
///
/// # Errors
///
/// `TooManyVifs` for an index of 32 or more, `NotAvailable` where there is no such vif.
pub fn vif_to_delete(vifs: &Vifs, vif: u16) -> Result<What, Errno>
    ensures refused { IfErr result (λ e. del_vif_error vifs.now vif ≡ Some e) }
    ensures granted { IfOk result (λ _. del_vif_error vifs.now vif ≡ None) }
    ensures change { IfOk result (λ w. w ≡ what.DelVif vif) }
{
    if MAXVIFS <= vif {
        return Err(Errno::TooManyVifs);
    }
    if !vifs.exists(vif) {
        return Err(Errno::NotAvailable);
    }
    Ok(What::DelVif(vif as u8))
}

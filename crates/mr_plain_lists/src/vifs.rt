//! The vifs as a list of records, in the order in which they were added (ipmr.c, `vif_table`).

ghost use Rattle.std.specs.Prelude.{◌≡◌, ◌≤◌, length};
ghost use Rattle.mr_model.specs.VifList.{vif_at, has_vif, register_vif, higher, vif_on, max_vif};
ghost use Rattle.mr_model.specs.VifList.{device_from, device_meant, vif_device};
ghost use Rattle.mr_base.specs.declared.limits.TheConstants.{MOST_DEVICES};

use mr_base::{Device, VifRecord};
use mr_model::VifCtl;

/// The flags of a register vif (mroute.h, VIFF_REGISTER).
pub const REGISTER: u8 = 4;

/// The flags of a vif whose device is given by its number (mroute.h, VIFF_USE_IFINDEX).
pub const USE_IFINDEX: u8 = 8;

/// The vif with this index.
pub fn vif_at(vifs: &[VifRecord], index: u16) -> Option<VifRecord>
    ensures { result ≡ vif_at vifs.now index }
{
    for v in vifs {
        if u16::from(v.vif) == index {
            return Some(*v);
        }
    }
    None
}

/// Whether a vif has this index.
pub fn has_vif(vifs: &[VifRecord], index: u16) -> bool
    ensures { result ≡ has_vif vifs.now index }
{
    vifs.iter().any(|v| u16::from(v.vif) == index)
}

/// The register vif's index.
pub fn register_vif(vifs: &[VifRecord]) -> Option<u8>
    ensures { result ≡ register_vif vifs.now }
{
    for v in vifs {
        if v.register {
            return Some(v.vif);
        }
    }
    None
}

/// The greater of an index and another, where there is another.
fn higher(index: u8, other: Option<u8>) -> Option<u8>
    ensures { result ≡ higher index other }
{
    match other {
        None => Some(index),
        Some(other) => Some(index.max(other)),
    }
}

/// The highest vif on a device.
pub fn vif_on(vifs: &[VifRecord], dev: u32) -> Option<u8>
    ensures { result ≡ vif_on vifs.now dev }
{
    let mut highest = None;
    for v in vifs {
        if v.dev == dev {
            highest = higher(v.vif, highest);
        }
    }
    highest
}

/// One more than the highest vif, or 0.
pub fn max_vif(vifs: &[VifRecord]) -> u16
    ensures { result ≡ max_vif vifs.now }
{
    let mut end = 0u16;
    for v in vifs {
        end = end.max(u16::from(v.vif) + 1);
    }
    end
}

/// The number of the first device with this address.
fn device_from(devices: &[Device], address: u32) -> Option<u32>
    requires { length devices.now ≤ MOST_DEVICES }
    ensures { result ≡ device_from 1 devices.now address }
{
    let mut number = 1u32;
    for d in devices {
        if d.addr.0 == address {
            return Some(number);
        }
        number += 1;
    }
    None
}

/// The device that a call means, by its number or its address.
pub fn device_meant(devices: &[Device], c: &VifCtl) -> Option<u32>
    requires { length devices.now ≤ MOST_DEVICES }
    ensures { result ≡ device_meant devices.now c.now }
{
    if c.flags != USE_IFINDEX {
        return device_from(devices, c.local);
    }
    if 0 < c.local && c.local as usize <= devices.len() {
        Some(c.local)
    } else {
        None
    }
}

/// The device of the vif that a call makes; 0 for the register vif.
pub fn vif_device(devices: &[Device], c: &VifCtl) -> u32
    requires { length devices.now ≤ MOST_DEVICES }
    ensures { result ≡ vif_device devices.now c.now }
{
    if c.flags == REGISTER {
        return 0;
    }
    match device_meant(devices, c) {
        None => 0,
        Some(dev) => dev,
    }
}

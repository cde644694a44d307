//! The device that a call means.

ghost use Rattle.std.specs.Prelude.{◌≡◌, ◌≤◌, length};
ghost use Rattle.mr_model.specs.VifList.{device_from, device_meant, vif_device};
ghost use Rattle.mr_tables.specs.declared.tables.TheConstants.{MOST_DEVICES};

use mr_base::Device;
use mr_model::VifCtl;

/// The flags of a register vif (mroute.h, VIFF_REGISTER).
pub const REGISTER: u8 = 4;

/// The flags of a vif whose device is given by its number (mroute.h, VIFF_USE_IFINDEX).
pub const USE_IFINDEX: u8 = 8;

/// The number of the first device with this address.
fn device_from(devices: &[Device], addr: u32) -> Option<u32>
    requires { length devices.now ≤ MOST_DEVICES }
    ensures { result ≡ device_from 1 devices.now addr }
{
    let mut number = 1u32;
    let mut rest = devices;
    'devices: while let [d, after @ ..] = rest {
        if d.addr.0 == addr {
            return Some(number);
        }
        number += 1;
        rest = after;
    }
    None
}

/// The device that a call means, by its number or its address.
pub fn device_meant(devices: &[Device], c: &VifCtl) -> Option<u32>
    requires { length devices.now ≤ MOST_DEVICES }
    ensures { result ≡ device_meant devices.now c.now }
{
    if c.flags != USE_IFINDEX {
        return device_from(devices, c.local);
    }
    if 0 < c.local && c.local as usize <= devices.len() {
        Some(c.local)
    } else {
        None
    }
}

/// The device of a vif that a call adds; 0 for the register vif.
pub fn vif_device(devices: &[Device], c: &VifCtl) -> u32
    requires { length devices.now ≤ MOST_DEVICES }
    ensures { result ≡ vif_device devices.now c.now }
{
    if c.flags == REGISTER {
        0
    } else {
        device_meant(devices, c).unwrap_or(0)
    }
}

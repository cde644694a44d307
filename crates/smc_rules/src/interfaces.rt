//! The active interfaces, and where their names stand.

ghost use Rattle.std.specs.Prelude.{◌≡◌, ◌<◌, ◌≤◌, [], length, IfOk, IfSome, OnOk};
ghost use Rattle.smc_rules.specs.Interfaces.{device_from, with_phyint, interfaces_from};
ghost use Rattle.smc_rules.specs.Interfaces.{vif_of, name_of};

use crate::interface::Interface;
use mr_base::FileName;
use smc_conf::Phyint;
use std::alloc::{AllocError, Global};

/// The vifs of a kernel (MAXVIFS of mroute.h).
pub(crate) const MOST_VIFS: usize = 32;

/// The number of the device with this name.
fn device_of(names: &[FileName], name: &FileName) -> Option<u32>
    ensures { result ≡ device_from 1 name.now names.now }
{
    let mut number = 1u32;
    for device in names {
        if device.as_str() == name.as_str() {
            return Some(number);
        }
        number = number.saturating_add(1);
    }
    None
}

/// An enabled interface that is a device goes last, if there are fewer than 32.
fn push_interface(
    names: &[FileName],
    phyint: &Phyint,
    interfaces: &mut Vec<Interface>,
) -> Result<(), AllocError>
    requires { length interfaces.old.items ≤ 32 }
    ensures value { OnOk result (interfaces.new.items
        ≡ with_phyint names.now interfaces.old.items phyint.now) }
    ensures within { OnOk result (length interfaces.new.items ≤ 32) }
{
    if !phyint.enabled {
        return Ok(());
    }
    let Some(device) = device_of(names, &phyint.name) else {
        return Ok(());
    };
    if interfaces.len() < MOST_VIFS {
        interfaces.push(Interface {
            name: FileName::new(phyint.name.as_str()),
            device,
            threshold: phyint.threshold,
        })?;
    }
    Ok(())
}

/// The active interfaces of a configuration's lines.
pub(crate) fn interfaces_of(
    alloc: Global,
    names: &[FileName],
    phyints: &[Phyint],
) -> Result<Vec<Interface>, AllocError>
    ensures value { IfOk result (λ v. v.items ≡ interfaces_from names.now [] phyints.now) }
    ensures within { IfOk result (λ v. length v.items ≤ 32) }
{
    let mut interfaces = Vec::new(alloc);
    for phyint in phyints {
        push_interface(names, phyint, &mut interfaces)?;
    }
    Ok(interfaces)
}

/// The place of the first interface with this name.
fn place_of(interfaces: &[Interface], name: &[u8]) -> Option<usize>
    ensures value { result ≡ vif_of interfaces.now name.now }
    ensures within { IfSome result (λ v. v < length interfaces.now) }
{
    let mut vif = 0usize;
    for interface in interfaces {
        if interface.name.as_str().as_bytes() == name {
            return Some(vif);
        }
        vif += 1;
    }
    None
}

/// The vif of the active interface with this name, if there is one.
#[tactic(auto, using(crate::proofs::Named::vif_named))]
pub fn vif_of(interfaces: &[Interface], name: &[u8]) -> Option<usize>
    ensures value { result ≡ vif_of interfaces.now name.now }
    ensures within { IfSome result (λ v. v < length interfaces.now) }
    ensures named { IfSome result (λ v. name_of interfaces.now v ≡ name.now) }
{
    match place_of(interfaces, name) {
        Some(vif) => Some(vif),
        None => None,
    }
}

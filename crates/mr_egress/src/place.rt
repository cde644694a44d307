//! The vifs at a place of a history.

ghost use Rattle.std.specs.Prelude.{◌≡◌, ℕ, ◌+◌, ◌<◌, ◌≤◌, ◌^◌, ◌++◌, ◌∷◌, not, [], None, length};
ghost use Rattle.std.specs.Prelude.{unwrap_or, bit_or, if◌then◌else◌};
ghost use Rattle.mr_model.specs.VifList.{add_vif_error, device_from, new_vif, vif_at, vif_device};
ghost use Rattle.mr_egress.specs.Copies.{leads_to};
ghost use Rattle.mr_egress.specs.Places.{Allows, AreWays, MayStand, behind, called, owns, vifs_by};
ghost use Rattle.mr_model.specs.State.{owner_by};
ghost use Rattle.mr_history.specs.Seen.{entry_seen};

use mr_base::{DaemonNo, Device, MAXVIFS, Mask, VifRecord};
use mr_history::EntryView;
use mr_model::{Reply, Request, VifCtl};
use mr_tables::{MRT_FLUSH_VIFS, MRT_FLUSH_VIFS_STATIC, has_flag};
use mr_vif::Vifs;
use std::marker::Model;

/// The flags of a register vif (mroute.h, VIFF_REGISTER).
const REGISTER: u8 = 4;

/// The flags of a vif whose device is given by its number (mroute.h, VIFF_USE_IFINDEX).
const USE_IFINDEX: u8 = 8;

/// A place of a history for one device, reached by passing the entries before it: contracts see the
/// device, the vifs that are there, the owner, and how many entries were passed.
#[derive(Debug, Drop)]
pub(crate) struct At {
    device: u32,
    vifs: Vifs,
    /// The vifs by which packets leave by the device.
    ways: Mask,
    owner: Option<DaemonNo>,
    count: u32,
}

impl Model for At {
    ghost use Rattle.mr_egress.specs.Places.{Place};

    ghost Value = { Place };

    ghost use Rattle.mr_egress.specs.Places.{AreWays};

    ghost view = { λ a. record {
      device = a.device;
      vifs = a.vifs;
      owner = a.owner;
      count = a.count;
    } };

    ghost invariant = { λ a. AreWays a.device a.vifs a.ways };
}

/// The number of the first device with this address, or 0.
fn device_at(devices: &[Device], addr: u32) -> u32
    requires { length devices.now ≤ 64 }
    ensures { result ≡ unwrap_or (device_from 1 devices.now addr) 0 }
{
    let mut number = 1u32;
    let mut rest = devices;
    'devices: while let [d, after @ ..] = rest {
        if d.addr.0 == addr {
            return number;
        }
        number += 1;
        rest = after;
    }
    0
}

/// The device of a vif that a good call adds; 0 for the register vif.
fn vif_device(devices: &[Device], c: &VifCtl) -> u32
    requires { length devices.now ≤ 64 }
    ensures { result ≡ vif_device devices.now c.now }
{
    if c.flags == REGISTER {
        return 0;
    }
    if c.flags != USE_IFINDEX {
        return device_at(devices, c.local);
    }
    if c.local as usize <= devices.len() {
        c.local
    } else {
        0
    }
}

/// Whether a daemon is the owner.
fn owns(owner: Option<DaemonNo>, daemon: DaemonNo) -> bool
    ensures { result ≡ owns owner daemon }
{
    match owner {
        None => false,
        Some(one) => one.0 == daemon.0,
    }
}

/// Whether packets leave by a device on a vif.
pub(crate) fn leads_to(device: u32, vif: Option<VifRecord>) -> bool
    ensures { result ≡ leads_to device vif }
{
    match vif {
        None => false,
        Some(record) => record.dev == device && !record.register,
    }
}

/// Adds the vif that a good call asks for, which is entry `number`.
fn add_vif(vifs: &mut Vifs, devices: &[Device], c: &VifCtl, fixed: bool, number: u32)
    requires few { length devices.now ≤ 64 }
    requires good { add_vif_error devices.now vifs.old c.now ≡ None }
    ensures { vifs.new ≡ vifs.old ++ new_vif devices.now c.now fixed number ∷ [] }
{
    vifs.add(VifRecord {
        vif: c.vif as u8,
        dev: vif_device(devices, c),
        register: c.flags == REGISTER,
        fixed,
        number,
    });
}

/// The vifs after a good request, which is entry `number`.
fn change_vifs(vifs: &mut Vifs, devices: &[Device], request: &Request, fixed: bool, number: u32)
    requires few { length devices.now ≤ 64 }
    requires good { Allows devices.now vifs.old request.now }
    ensures { vifs.new ≡ vifs_by devices.now vifs.old fixed number request.now }
{
    match request {
        Request::AddVif(c) => add_vif(vifs, devices, c, fixed, number),
        Request::DelVif(vif) => vifs.remove(*vif as u8),
        Request::Finish => vifs.flush(true, false),
        Request::Flush(bits) => {
            let loose = has_flag(*bits, MRT_FLUSH_VIFS);
            let fixed = has_flag(*bits, MRT_FLUSH_VIFS_STATIC);
            vifs.flush(loose, fixed)
        }
        _ => {}
    }
}

/// The owner after a good request.
fn owner_after(owner: Option<DaemonNo>, daemon: DaemonNo, request: &Request) -> Option<DaemonNo>
    ensures { result ≡ owner_by owner daemon request.now }
{
    match request {
        Request::Init => Some(daemon),
        Request::Finish => None,
        _ => owner,
    }
}

impl At {
    /// The place before all entries.
    pub(crate) fn first(device: u32) -> At
        ensures { result ≡ record { device = device; vifs = []; owner = None; count = 0 } }
    {
        let vifs = Vifs::new();
        let ways = ways_of(&vifs, device);
        At {
            device,
            vifs,
            ways,
            owner: None,
            count: 0,
        }
    }

    /// The vifs by which packets leave by the device.
    pub(crate) fn ways(&self) -> Mask
        ensures { AreWays self.now.device self.now.vifs result }
    {
        self.ways
    }

    /// A good call is passed.
    fn call(&mut self, devices: &[Device], daemon: DaemonNo, request: &Request)
        requires few { length devices.now ≤ 64 }
        requires good { Allows devices.now self.old.vifs request.now }
        requires count { self.old.count < 2 ^ 24 }
        ensures { self.new ≡ called devices.now self.old daemon request.now }
    {
        let fixed = !owns(self.owner, daemon);
        self.count += 1;
        change_vifs(&mut self.vifs, devices, request, fixed, self.count);
        self.ways = ways_of(&self.vifs, self.device);
        self.owner = owner_after(self.owner, daemon, request);
    }

    /// An entry is passed.
    pub(crate) fn pass(&mut self, devices: &[Device], entry: &EntryView<'_>)
        requires few { length devices.now ≤ 64 }
        requires good { MayStand devices.now self.old.vifs (entry_seen entry.now) }
        requires count { self.old.count < 2 ^ 24 }
        ensures { self.new ≡ behind devices.now self.old (entry_seen entry.now) }
    {
        match entry {
            EntryView::Call {
                daemon,
                request,
                reply: Reply::Good,
                ..
            } => self.call(devices, *daemon, request),
            _ => self.count += 1,
        }
    }
}

/// The bits of a mask with that of a vif, if packets leave on it.
fn with_vif(ways: u32, vif: u8, leads: bool) -> u32
    requires { vif < 32 }
    ensures { result ≡ (if leads then bit_or ways (2 ^ vif) else ways) }
{
    if leads { ways | 1 << vif } else { ways }
}

/// The vifs by which packets leave by a device.
fn ways_of(vifs: &Vifs, device: u32) -> Mask
    ensures { AreWays device vifs.now result }
{
    let mut ways = 0u32;
    for vif in 0..MAXVIFS as u8 {
        let leads = leads_to(device, vifs.record(vif));
        ways = with_vif(ways, vif, leads);
    }
    Mask(ways)
}

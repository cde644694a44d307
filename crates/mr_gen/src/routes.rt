//! What the daemon of a generated scenario asks, and a packet for each (S,G) entry.

ghost use Rattle.std.specs.Prelude.{◌≡◌, ◌+◌, ◌<◌, ◌≤◌, ◌++◌, ◌∷◌, [], length, map, IfOk, OnOk};
ghost use Rattle.mr_gen.specs.Entries.{add_entry, add_vif, asks, device, devices};
ghost use Rattle.mr_gen.specs.Entries.{group_of, packet_of, script_lines, source_of, thresholds_of};
ghost use Rattle.mr_load.specs.Callers.{from_on};

use mr_base::{Addr, DaemonNo, FileName, Head};
use mr_ip::make_head;
use mr_model::{MfcCtl, Request, VifCtl};
use mr_scenario::{Named, Script, ScriptLine};
use std::alloc::{AllocError, Global};

/// The vifs, and the devices to which they lead.
pub const VIFS: u32 = 4;

/// The (S,G) entries.
pub const ENTRIES: u32 = 64;

/// The TTL of a packet.
const TTL: u8 = 64;

/// The total length of a packet, in bytes.
const LENGTH: u16 = 28;

/// The bytes behind its head.
const BODY: usize = 8;

/// The bytes of a packet.
pub(crate) const PACKET_BYTES: usize = 28;

/// What a call has as its flags where it names a device by its number (VIFF_USE_IFINDEX of
/// mroute.h).
const BY_NUMBER: u8 = 8;

/// The device of a name and a network.
fn device(name: &str, network: u32) -> Named
    requires short { length name.now ≤ 255 }
    requires network { network < 4 }
    ensures { result ≡ device name.now network }
{
    Named {
        name: FileName::new(name),
        addr: Addr(0x0A09_0001 + 256 * network),
    }
}

/// The devices.
pub(crate) fn devices(alloc: Global) -> Result<Vec<Named>, AllocError>
    ensures { IfOk result (λ d. d.items ≡ devices) }
{
    let mut all = Vec::with_capacity(alloc, VIFS as usize)?;
    all.push(device("g0", 0))?;
    all.push(device("g1", 1))?;
    all.push(device("g2", 2))?;
    all.push(device("g3", 3))?;
    Ok(all)
}

/// The source of an entry.
fn source_of(entry: u32) -> Addr
    requires { entry < 64 }
    ensures { result ≡ source_of entry }
{
    Addr(0x0A08_0001 + entry)
}

/// The group of an entry.
fn group_of(entry: u32) -> Addr
    requires { entry < 64 }
    ensures { result ≡ group_of entry }
{
    Addr(0xEF08_0000 + entry)
}

/// The thresholds of an entry.
fn thresholds_of(entry: u32) -> [u8; 32]
    ensures { result ≡ thresholds_of entry }
{
    let mut ttls = [
        1, 1, 1, 1, 0, 0, 0, 0, 0, 0, 0, 0, 0, 0, 0, 0, 0, 0, 0, 0, 0, 0, 0, 0, 0, 0, 0, 0, 0, 0,
        0, 0,
    ];
    ttls[(entry % VIFS) as usize] = 0;
    ttls
}

/// A line of the daemon.
fn asks(request: Request) -> ScriptLine
    ensures { result ≡ asks request }
{
    ScriptLine {
        line: 0,
        daemon: DaemonNo(1),
        script: Script::Ask(request),
    }
}

/// The call that adds a vif.
fn add_vif(vif: u32) -> Request
    requires { vif < 4 }
    ensures { result ≡ add_vif vif }
{
    Request::AddVif(VifCtl {
        vif: vif as u16,
        flags: BY_NUMBER,
        local: vif + 1,
    })
}

/// The call that adds an (S,G) entry.
fn add_entry(entry: u32) -> Request
    requires { entry < 64 }
    ensures { result ≡ add_entry entry }
{
    Request::AddMfc(MfcCtl {
        src: source_of(entry),
        dst: group_of(entry),
        parent: (entry % VIFS) as u16,
        ttls: thresholds_of(entry),
    })
}

/// The lines that add vifs, behind those before.
fn push_vifs(lines: &mut Vec<ScriptLine>) -> Result<(), AllocError>
    ensures { OnOk result (lines.new.items
        ≡ lines.old.items ++ map (λ i. asks (add_vif i)) (from_on 0 4)) }
{
    for i in 0..VIFS {
        lines.push(asks(add_vif(i)))?;
    }
    Ok(())
}

/// The lines that add (S,G) entries, behind those before.
fn push_entries(lines: &mut Vec<ScriptLine>) -> Result<(), AllocError>
    ensures { OnOk result (lines.new.items
        ≡ lines.old.items ++ map (λ k. asks (add_entry k)) (from_on 0 64)) }
{
    for entry in 0..ENTRIES {
        lines.push(asks(add_entry(entry)))?;
    }
    Ok(())
}

/// All lines of the daemon.
pub(crate) fn script_lines(alloc: Global) -> Result<Vec<ScriptLine>, AllocError>
    ensures { IfOk result (λ l. l.items ≡ script_lines) }
{
    let mut lines = Vec::with_capacity(alloc, (1 + VIFS + ENTRIES) as usize)?;
    lines.push(asks(Request::Init))?;
    push_vifs(&mut lines)?;
    push_entries(&mut lines)?;
    Ok(lines)
}

/// The bytes of a head.
fn bytes_of(head: &Head) -> &[u8]
    ensures { result.now ≡ head.now.bytes }
{
    head.bytes.0.as_slice()
}

/// The packet of an entry.
fn packet_of(entry: u32) -> [u8; PACKET_BYTES]
    requires { entry < 64 }
    ensures { result ≡ packet_of entry }
{
    let head = make_head(0, TTL, source_of(entry), group_of(entry), LENGTH);
    let mut bytes = [0; PACKET_BYTES];
    bytes[..20].copy_from_slice(bytes_of(&head));
    bytes
}

/// The packets of all entries.
pub(crate) fn packets_of_all(alloc: Global) -> Result<Vec<[u8; PACKET_BYTES]>, AllocError>
    ensures { IfOk result (λ p. p.items ≡ map packet_of (from_on 0 64)) }
{
    let mut all = Vec::with_capacity(alloc, ENTRIES as usize)?;
    for entry in 0..ENTRIES {
        all.push(packet_of(entry))?;
    }
    Ok(all)
}

//! The egress files of a run are written into the store, device by device.

ghost use Rattle.std.specs.Prelude.{◌≡◌, ◌≤◌, ◌+◌, ◌<◌, ◌++◌, ◌∷◌, [], length};
ghost use Rattle.std.specs.List.{AllByRecursion};
ghost use Rattle.mr_base.specs.Outside.{Rose};
ghost use Rattle.mr_egress.specs.FastOrder.{AreFastOf};
ghost use Rattle.mr_load.specs.declared.status.Status.TheVariants as status;
ghost use Rattle.mr_replay.specs.Egress.{Writes, WritesTo, calls_by, egress_file, egress_name};
ghost use Rattle.mr_replay.specs.Egress.{egress_of, failed_write};
ghost use Rattle.mr_replay.specs.Endings.{IfStoreFault};
ghost use Rattle.mr_scenario.specs.Fits.{IsNamed};

use arrayvec::ArrayString;
use mr_base::{Failed, FileName, Memory, Store};
use mr_egress::{FastPackets, file};
use mr_kernel::Kernel;
use mr_load::{LanePackets, Status};
use mr_scenario::Named;
use std::alloc::Global;

/// The name of a device's egress file.
fn egress_name(device: &Named) -> FileName
    requires { IsNamed device.now }
    ensures { result ≡ egress_name device.now.name }
{
    let mut name = ArrayString::new();
    name.push_str("out-");
    name.push_str(device.name.as_str());
    name.push_str(".pcap");
    FileName(name)
}

/// Writes a file.
fn put_file<S: Store>(store: &mut S, name: FileName, bytes: &[u8]) -> Status
    requires { 1 ≤ length name }
    ensures files { Writes (record { name = name; bytes = bytes.now } ∷ []) result
        (S.told store.old) (S.told store.new) }
    ensures calls { S.calls store.new ≡ S.calls store.old ++ calls_by result name }
    ensures last { IfStoreFault result (λ file. S.last store.new ≡ failed_write file) }
    ensures rose { IfStoreFault result (λ _. Rose (S.faults store.old) (S.faults store.new)) }
    ensures good { result ≡ status.Good → S.faults store.new ≡ S.faults store.old }
{
    match store.write(name.as_str(), bytes) {
        Ok(()) => Status::Good,
        Err(Failed) => Status::StoreFault { file: name },
    }
}

/// Writes the egress file of the device at a place, from 0, over a machine's history.
fn write_file<S: Store>(
    alloc: Global,
    kernel: &Kernel,
    lanes: &[LanePackets],
    devices: &[Named],
    fast: &FastPackets,
    place: usize,
    store: &mut S,
) -> Status
    requires fast { AreFastOf fast.now kernel.now.history }
    requires named { AllByRecursion IsNamed devices.now }
    requires few { length devices.now ≤ 64 }
    requires within { place < length devices.now }
    ensures files { Writes (egress_file kernel.now.limits lanes.now devices.now kernel.now.history
        (place + 1) ∷ []) result (S.told store.old) (S.told store.new) }
    ensures calls { S.calls store.new ≡ S.calls store.old ++ calls_by result (egress_file
        kernel.now.limits lanes.now devices.now kernel.now.history (place + 1)).name }
    ensures last { IfStoreFault result (λ name. S.last store.new ≡ failed_write name) }
    ensures rose { IfStoreFault result (λ _. Rose (S.faults store.old) (S.faults store.new)) }
    ensures good { result ≡ status.Good → S.faults store.new ≡ S.faults store.old }
{
    let name = egress_name(&devices[place]);
    match file(alloc, kernel, lanes, fast, place as u32 + 1) {
        Ok(bytes) => put_file(store, name, bytes.as_slice()),
        Err(Memory) => Status::Memory,
    }
}

/// Writes the egress file of each device, in their order, over a machine's history.
fn write_files<S: Store>(
    alloc: Global,
    kernel: &Kernel,
    lanes: &[LanePackets],
    devices: &[Named],
    fast: &FastPackets,
    store: &mut S,
) -> Status
    requires fast { AreFastOf fast.now kernel.now.history }
    requires named { AllByRecursion IsNamed devices.now }
    requires few { length devices.now ≤ 64 }
    ensures writes { WritesTo
        (egress_of kernel.now.limits lanes.now devices.now kernel.now.history) result
        (S.told store.old) (S.told store.new) (S.calls store.old) (S.calls store.new) }
    ensures last { IfStoreFault result (λ name. S.last store.new ≡ failed_write name) }
    ensures rose { IfStoreFault result (λ _. Rose (S.faults store.old) (S.faults store.new)) }
{
    for place in 0..devices.len() {
        match write_file(alloc, kernel, lanes, devices, fast, place, store) {
            Status::Good => {}
            status => return status,
        }
    }
    Status::Good
}

/// Writes the egress file of each device, in their order, over a machine's history. `Memory` where
/// memory runs out and `StoreFault` where a write fails: the files behind are then not written.
pub(crate) fn write_egress<S: Store>(
    alloc: Global,
    kernel: &Kernel,
    lanes: &[LanePackets],
    devices: &[Named],
    store: &mut S,
) -> Status
    requires named { AllByRecursion IsNamed devices.now }
    requires few { length devices.now ≤ 64 }
    ensures writes { WritesTo
        (egress_of kernel.now.limits lanes.now devices.now kernel.now.history) result
        (S.told store.old) (S.told store.new) (S.calls store.old) (S.calls store.new) }
    ensures last { IfStoreFault result (λ name. S.last store.new ≡ failed_write name) }
    ensures rose { IfStoreFault result (λ _. Rose (S.faults store.old) (S.faults store.new)) }
{
    match FastPackets::of(alloc, kernel.journal()) {
        Ok(fast) => write_files(alloc, kernel, lanes, devices, &fast, store),
        Err(Memory) => Status::Memory,
    }
}

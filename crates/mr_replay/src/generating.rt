//! The scenario that a seed makes, run and summed up.

ghost use Rattle.std.specs.Prelude.{◌≡◌, ◌⊎◌, ◌*◌, ◌≤◌};
ghost use Rattle.mr_base.specs.Outside.{Rose, Takes, TakesPrefix};
ghost use Rattle.mr_base.specs.declared.limits.TheConstants.{MOST_ITEMS, MOST_LANES};
ghost use Rattle.mr_command.specs.declared.reading.TheConstants.{MOST_SEED};
ghost use Rattle.mr_gen.specs.Summary.{summary};
ghost use Rattle.mr_load.specs.declared.status.Status.TheVariants as status;
ghost use Rattle.mr_replay.specs.Generating.{IsGenEnd, Sums};

use crate::running::run_loaded;
use mr_base::{Gate, List, Memory, Sink};
use mr_gen::{generate, write_summary};
use mr_kernel::Kernel;
use mr_load::Status;
use mr_model::CallError;
use std::alloc::Global;
use std::mem;
use std::sync::Wait;
use std::thread::Threads;

/// Writes the summary of a machine's history.
fn write_sums<K: Sink>(alloc: Global, kernel: &Kernel, out: &mut K) -> Status
    ensures good { result ≡ status.Good → Takes (K.taken out.old)
        (summary kernel.now.limits kernel.now.history) (K.taken out.new) }
    ensures cut { result ≡ status.SinkFault → TakesPrefix (K.taken out.old)
        (summary kernel.now.limits kernel.now.history) (K.taken out.new) }
    ensures rose { result ≡ status.SinkFault → Rose (K.faults out.old) (K.faults out.new) }
    ensures memory { result ≡ status.Memory → out.new ≡ out.old }
    ensures only { IsGenEnd result }
{
    let Ok(text) = write_summary(alloc, kernel) else {
        return Status::Memory;
    };
    match out.put(text.as_slice()) {
        Ok(()) => Status::Good,
        Err(_) => Status::SinkFault,
    }
}

/// Runs the scenario that a seed makes, and writes the summary of its history.
pub(crate) fn sum_up<R: Wait + Threads + Sync, K: Sink, G: Gate + Sync>(
    rt: &R,
    alloc: Global,
    seed: u64,
    lanes: u32,
    packets: u32,
    out: &mut K,
    gate: &G,
) -> Status
    requires seed { seed ≤ MOST_SEED }
    requires some { 1 ≤ lanes }
    requires lanes { lanes ≤ MOST_LANES }
    requires few { lanes * packets ≤ MOST_ITEMS }
    ensures good { result ≡ status.Good → Sums seed lanes packets
        (λ text. Takes (K.taken out.old) text (K.taken out.new)) }
    ensures sink_fault { result ≡ status.SinkFault → Sums seed lanes packets
        (λ text. TakesPrefix (K.taken out.old) text (K.taken out.new)) }
    ensures sink_rose { result ≡ status.SinkFault → Rose (K.faults out.old) (K.faults out.new) }
    ensures memory { result ≡ status.Memory → out.new ≡ out.old }
    ensures only { IsGenEnd result }
{
    let mut loaded = match generate(alloc, seed, lanes, packets) {
        Ok(loaded) => loaded,
        Err(Memory) => return Status::Memory,
    };
    let machines = mem::replace(&mut loaded.machines, List(Vec::new(alloc)));
    match run_loaded(rt, alloc, &loaded, machines.0, gate) {
        Ok(kernel) => {
            kernel.facts();
            write_sums(alloc, &kernel, out)
        }
        Err(CallError::ControlFull) => Status::ControlFull,
        Err(CallError::Memory) => Status::Memory,
    }
}

//! A scenario of a file, run and written.

ghost use Rattle.std.specs.Prelude.{◌≡◌, ◌⊎◌, ◌≤◌, length, true, Some};
ghost use Rattle.mr_base.specs.Outside.{Files, Rose, AllStay, Takes, TakesPrefix};
ghost use Rattle.mr_load.specs.Faults.{failed_read};
ghost use Rattle.mr_load.specs.Refusals.{loaded};
ghost use Rattle.mr_load.specs.declared.status.Status.TheVariants as status;
ghost use Rattle.mr_replay.specs.Egress.{Stores, StoresFirst, StopsAt, failed_write};
ghost use Rattle.mr_replay.specs.Endings.{CallsFor, ComesTo, EndsBy, IsToRead, Replays};
ghost use Rattle.mr_replay.specs.Endings.{IfConf, IfScenario, IfStoreFault, IfTrace, IsFull};
ghost use Rattle.mr_replay.specs.Endings.{is_silent, keeps_files};

use crate::outputs::write_outputs;
use crate::running::run_loaded;
use mr_base::{Gate, List, Sink, Store};
use mr_load::{Status, load};
use mr_model::CallError;
use std::alloc::Global;
use std::mem;
use std::sync::Wait;
use std::thread::Threads;

/// Reads the scenario of a name from the store, runs it, writes the text of its history to `out`,
/// and then for each device, in their order, its egress trace to the store.
pub(crate) fn replay<R: Wait + Threads + Sync, S: Store, K: Sink, G: Gate + Sync>(
    rt: &R,
    alloc: Global,
    file: &str,
    store: &mut S,
    out: &mut K,
    gate: &G,
) -> Status
    requires named { 1 ≤ length file.now }
    requires fits { length file.now ≤ 255 }
    ensures run { result ≡ status.Usage → ⊥ }
    ensures good { result ≡ status.Good → Replays file.now (S.told store.old) (λ text egress.
        Takes (K.taken out.old) text (K.taken out.new)
        × Stores egress (S.told store.old) (S.told store.new)) }
    ensures scenario { IfScenario result (λ line kind text.
        ComesTo file.now (S.told store.old) (status.Scenario line kind text)) }
    ensures trace { IfTrace result (λ name cause.
        ComesTo file.now (S.told store.old) (status.Trace name cause)) }
    ensures conf { IfConf result (λ name line kind text.
        ComesTo file.now (S.told store.old) (status.Conf name line kind text)) }
    ensures control_full { result ≡ status.ControlFull → IsFull file.now (S.told store.old) }
    ensures store_last { IfStoreFault result (λ name.
        (S.last store.new ≡ failed_read name) ⊎ (S.last store.new ≡ failed_write name)) }
    ensures store_rose { IfStoreFault result (λ _. Rose (S.faults store.old) (S.faults store.new)) }
    ensures read_fault { IfStoreFault result (λ name. S.last store.new ≡ failed_read name →
        IsToRead file.now (S.told store.old) name) }
    ensures read_fault_silent { IfStoreFault result (λ name.
        S.last store.new ≡ failed_read name → out.new ≡ out.old) }
    ensures read_fault_files { IfStoreFault result (λ name.
        S.last store.new ≡ failed_read name → AllStay (S.told store.old) (S.told store.new)) }
    ensures write_fault { IfStoreFault result (λ name. S.last store.new ≡ failed_write name →
        Replays file.now (S.told store.old) (λ text egress.
        Takes (K.taken out.old) text (K.taken out.new)
        × StopsAt name egress (S.told store.old) (S.told store.new))) }
    ensures sink_fault { result ≡ status.SinkFault →
        Replays file.now (S.told store.old)
        (λ text egress. TakesPrefix (K.taken out.old) text (K.taken out.new)) }
    ensures sink_rose { result ≡ status.SinkFault → Rose (K.faults out.old) (K.faults out.new) }
    ensures memory { result ≡ status.Memory →
        ((out.new ≡ out.old) × AllStay (S.told store.old) (S.told store.new))
        ⊎ Replays file.now (S.told store.old) (λ text egress.
        Takes (K.taken out.old) text (K.taken out.new)
        × StoresFirst egress (S.told store.old) (S.told store.new)) }
    ensures complete { (files : Files) → S.told store.old ≡ Some files →
        (Rose (S.faults store.old) (S.faults store.new) → ⊥) →
        (Rose (K.faults out.old) (K.faults out.new) → ⊥) →
        EndsBy files result (loaded files file.now) }
    ensures silent { is_silent result ≡ true → out.new ≡ out.old }
    ensures files { keeps_files result ≡ true → AllStay (S.told store.old) (S.told store.new) }
    ensures calls { CallsFor (S.told store.old) file.now result
        (S.calls store.old) (S.calls store.new) }
{
    let mut loaded = match load(alloc, file, false, store) {
        Ok(loaded) => loaded,
        Err(status) => return status,
    };
    let machines = mem::replace(&mut loaded.machines, List(Vec::new(alloc)));
    match run_loaded(rt, alloc, &loaded, machines.0, gate) {
        Ok(kernel) => {
            kernel.facts();
            write_outputs(alloc, &loaded, &kernel, store, out)
        }
        Err(CallError::ControlFull) => Status::ControlFull,
        Err(CallError::Memory) => Status::Memory,
    }
}

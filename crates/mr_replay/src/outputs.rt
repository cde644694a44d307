//! What a run gives: the text of its history, and then an egress file for each device.

ghost use Rattle.std.specs.Prelude.{◌≡◌, ◌⊎◌};
ghost use Rattle.mr_base.specs.Outside.{Rose, Takes, TakesPrefix};
ghost use Rattle.mr_load.specs.declared.status.Status.TheVariants as status;
ghost use Rattle.mr_replay.specs.Egress.{IsOutput, Writing, Wrote, egress_by, failed_write};
ghost use Rattle.mr_replay.specs.Egress.{names_of, text_by};
ghost use Rattle.mr_replay.specs.Endings.{IfStoreFault};
ghost use Rattle.mr_replay.specs.Running.{CanRun};

use crate::egress::write_egress;
use crate::writing::write_run;
use mr_base::{Sink, Store};
use mr_kernel::Kernel;
use mr_lines::Skip;
use mr_load::{Loaded, Status, devices_of, lanes_of};
use std::alloc::Global;

/// The skips of what was loaded.
fn skips_of(loaded: &Loaded) -> &[Skip]
    ensures { result.now ≡ loaded.now.skips }
{
    loaded.skips.0.as_slice()
}

/// Hands the history's text to the sink.
fn put<K: Sink>(out: &mut K, text: &[u8]) -> Status
    ensures good { result ≡ status.Good → Takes (K.taken out.old) text.now (K.taken out.new) }
    ensures fault { result ≡ status.SinkFault → Rose (K.faults out.old) (K.faults out.new) }
    ensures cut { result ≡ status.SinkFault →
        TakesPrefix (K.taken out.old) text.now (K.taken out.new) }
    ensures only { (result ≡ status.Good) ⊎ (result ≡ status.SinkFault) }
{
    match out.put(text) {
        Ok(()) => Status::Good,
        Err(_) => Status::SinkFault,
    }
}

/// Writes the text of the history of a machine that has run a loaded scenario.
fn write_history<K: Sink>(alloc: Global, loaded: &Loaded, kernel: &Kernel, out: &mut K) -> Status
    ensures good { result ≡ status.Good →
        Takes (K.taken out.old) (text_by loaded.now kernel.now) (K.taken out.new) }
    ensures fault { result ≡ status.SinkFault → Rose (K.faults out.old) (K.faults out.new) }
    ensures cut { result ≡ status.SinkFault →
        TakesPrefix (K.taken out.old) (text_by loaded.now kernel.now) (K.taken out.new) }
    ensures memory { result ≡ status.Memory → out.new ≡ out.old }
    ensures only { (result ≡ status.Good) ⊎ (result ≡ status.SinkFault) ⊎
        (result ≡ status.Memory) }
{
    match write_run(
        alloc,
        skips_of(loaded),
        devices_of(&loaded.scenario),
        kernel,
    ) {
        Ok(text) => put(out, text.as_slice()),
        Err(_) => Status::Memory,
    }
}

/// Writes what a machine that has run a loaded scenario gives: the text of its history, and then
/// the egress file of each device.
pub(crate) fn write_outputs<S: Store, K: Sink>(
    alloc: Global,
    loaded: &Loaded,
    kernel: &Kernel,
    store: &mut S,
    out: &mut K,
) -> Status
    requires { CanRun loaded.now }
    // Memory ran out before anything was written, or all is written as far as the status says.
    ensures written { Wrote result ((out.new ≡ out.old) × (store.new ≡ store.old))
        (K.taken out.old) (K.taken out.new) (S.told store.old) (S.told store.new)
        (text_by loaded.now kernel.now) (egress_by loaded.now kernel.now) }
    ensures calls { Writing (names_of (egress_by loaded.now kernel.now)) result
        (S.calls store.old) (S.calls store.new) }
    ensures only { IsOutput result }
    ensures sink_rose { result ≡ status.SinkFault → Rose (K.faults out.old) (K.faults out.new) }
    ensures last { IfStoreFault result (λ name. S.last store.new ≡ failed_write name) }
    ensures rose { IfStoreFault result (λ _. Rose (S.faults store.old) (S.faults store.new)) }
{
    match write_history(alloc, loaded, kernel, out) {
        Status::Good => {
            write_egress(
                alloc,
                kernel,
                lanes_of(loaded),
                devices_of(&loaded.scenario),
                store,
            )
        }
        status => status,
    }
}

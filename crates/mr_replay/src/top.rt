//! The top call.

ghost use Rattle.std.specs.Prelude.{◌≡◌, ◌⊎◌, ◌↔◌, map, string_bytes, true, Some};
ghost use Rattle.mr_base.specs.Outside.{Files, Rose, AllStay, Takes, TakesPrefix};
ghost use Rattle.mr_command.specs.Commands.{command_of};
ghost use Rattle.mr_load.specs.Faults.{failed_read};
ghost use Rattle.mr_load.specs.Refusals.{loaded};
ghost use Rattle.mr_load.specs.declared.status.Status.TheVariants as status;
ghost use Rattle.mr_replay.specs.Egress.{Stores, StoresFirst, StopsAt, failed_write};
ghost use Rattle.mr_replay.specs.Endings.{CallsFor, ComesTo, EndsBy, IsToRead, Replays};
ghost use Rattle.mr_replay.specs.Endings.{IfConf, IfScenario, IfStoreFault, IfTrace, IsFull};
ghost use Rattle.mr_replay.specs.Endings.{IfReplay, is_silent, is_usage, keeps_files};
ghost use Rattle.mr_replay.specs.Generating.{IfGen, IsGenEnd, Sums};

use crate::generating::sum_up;
use crate::replaying::replay;
use mr_base::{Clock, Door, Gate, Sink, Store};
use mr_command::{Command, command_of};
use mr_load::Status;
use std::alloc::Global;
use std::sync::Wait;
use std::thread::Threads;

/// Runs the command that `words` (those after the program's name) spell.
///
/// `replay SCENARIO` reads the scenario of that name from the store, runs it, writes the text of
/// its history to `out`, and then for each device, in their order, its egress trace to the store as
/// `out-NAME.pcap`. `gen SEED LANES PACKETS` makes a scenario from the seed, in which so many lanes
/// send so many packets each, runs it, and writes the summary of its history to `out`; no file is
/// read or written. Other words are `Usage`, for now also those of `check`.
///
/// The statuses of `replay` in their order: those of loading, which are `StoreFault`, where the
/// scenario cannot be read, `Scenario` with its first bad line, and then for each further file that
/// daemons or lines name, in the order of first naming, `StoreFault`, and then `Conf` or `Trace`;
/// `ControlFull`, where a daemon needs a control entry and the scenario's limit allows no more, and
/// `Memory`; `SinkFault`, with which no file is written; `StoreFault` of an egress file, with which
/// those behind it are not written. `Memory` may come wherever memory is taken: before the text, or
/// between one egress file and the next. `gen` ends with `Good`, `SinkFault` or `Memory`.
///
/// In each phase each lane and each daemon has a thread of its own, and a lane asks the gate before
/// each packet; one for which no thread can be made is run by the caller. The history is one of
/// those that they may come to beside each other. The door and the clock are not asked yet.
pub fn run<R: Wait + Threads + Sync, S: Store, K: Sink, D: Door, C: Clock, G: Gate + Sync>(
    rt: &R,
    alloc: Global,
    words: &[String],
    store: &mut S,
    out: &mut K,
    _door: &mut D,
    _clock: &mut C,
    gate: &G,
) -> Status
    // The words are no form of `replay` and none of `gen`.
    ensures usage { (result ≡ status.Usage)
        ↔ (is_usage (command_of (map string_bytes words.now)) ≡ true) }
    // The sink took the text of a legal history of the scenario that the file spells, with what
    // that asks in its order, and the store has the egress files of that history and no other
    // change.
    ensures good { IfReplay (command_of (map string_bytes words.now)) (λ file.
        result ≡ status.Good → Replays file (S.told store.old) (λ text egress.
        Takes (K.taken out.old) text (K.taken out.new)
        × Stores egress (S.told store.old) (S.told store.new))) }
    // The first bad line of the file, what is wrong with it, and how it begins.
    ensures scenario { IfReplay (command_of (map string_bytes words.now)) (λ file.
        IfScenario result (λ line kind text.
        ComesTo file (S.told store.old) (status.Scenario line kind text))) }
    // The first trace that is no accepted one, or is too much with those before it, and why.
    ensures trace { IfReplay (command_of (map string_bytes words.now)) (λ file.
        IfTrace result (λ name cause.
        ComesTo file (S.told store.old) (status.Trace name cause))) }
    // The first configuration that is no accepted one, its first bad line, what is wrong with it,
    // and how it begins.
    ensures conf { IfReplay (command_of (map string_bytes words.now)) (λ file.
        IfConf result (λ name line kind text.
        ComesTo file (S.told store.old) (status.Conf name line kind text))) }
    // The limit on control entries is less than the most that the daemons make. Without routing
    // machines that is the number of their lines.
    ensures control_full { IfReplay (command_of (map string_bytes words.now)) (λ file.
        result ≡ status.ControlFull → IsFull file (S.told store.old)) }
    // The store's last call failed, and its count rose: the read of this file, or its write.
    ensures store_last { IfStoreFault result (λ name.
        (S.last store.new ≡ failed_read name) ⊎ (S.last store.new ≡ failed_write name)) }
    ensures store_rose { IfStoreFault result (λ _. Rose (S.faults store.old) (S.faults store.new)) }
    // Where it was the read, the file was to be read, and nothing is written.
    ensures read_fault { IfReplay (command_of (map string_bytes words.now)) (λ file.
        IfStoreFault result (λ name. S.last store.new ≡ failed_read name →
        IsToRead file (S.told store.old) name)) }
    ensures read_fault_silent { IfStoreFault result (λ name.
        S.last store.new ≡ failed_read name → out.new ≡ out.old) }
    ensures read_fault_files { IfStoreFault result (λ name.
        S.last store.new ≡ failed_read name → AllStay (S.told store.old) (S.told store.new)) }
    // Where it was the write, the text is written whole, and the egress files before this one.
    ensures write_fault { IfReplay (command_of (map string_bytes words.now)) (λ file.
        IfStoreFault result (λ name. S.last store.new ≡ failed_write name →
        Replays file (S.told store.old) (λ text egress.
        Takes (K.taken out.old) text (K.taken out.new)
        × StopsAt name egress (S.told store.old) (S.told store.new)))) }
    // What was taken is a prefix of the text that Good would have written, and the sink's count
    // rose.
    ensures sink_fault { IfReplay (command_of (map string_bytes words.now)) (λ file.
        result ≡ status.SinkFault → Replays file (S.told store.old)
        (λ text egress. TakesPrefix (K.taken out.old) text (K.taken out.new))) }
    ensures sink_rose { result ≡ status.SinkFault → Rose (K.faults out.old) (K.faults out.new) }
    // Where memory ran out nothing is written, or the text whole and the first egress files.
    ensures memory { IfReplay (command_of (map string_bytes words.now)) (λ file.
        result ≡ status.Memory →
        ((out.new ≡ out.old) × AllStay (S.told store.old) (S.told store.new))
        ⊎ Replays file (S.told store.old) (λ text egress.
        Takes (K.taken out.old) text (K.taken out.new)
        × StoresFirst egress (S.told store.old) (S.told store.new))) }
    // Over a store that tells, and where no count of faults rose, its files decide the status: Good
    // comes only where the least that the daemons make is within the limit on control entries, and
    // `ControlFull` only where the most is not. Without routing machines that is the same number.
    ensures complete { IfReplay (command_of (map string_bytes words.now)) (λ file.
        (files : Files) → S.told store.old ≡ Some files →
        (Rose (S.faults store.old) (S.faults store.new) → ⊥) →
        (Rose (K.faults out.old) (K.faults out.new) → ⊥) →
        EndsBy files result (loaded files file)) }
    // With the other statuses nothing is written, and without the text no file changes.
    ensures silent { is_silent result ≡ true → out.new ≡ out.old }
    ensures files { IfReplay (command_of (map string_bytes words.now)) (λ file.
        keeps_files result ≡ true → AllStay (S.told store.old) (S.told store.new)) }
    // The file asked for and the files that it names are read, each once, and then the egress files
    // written, each once; the last call failed exactly with StoreFault.
    ensures calls { IfReplay (command_of (map string_bytes words.now)) (λ file.
        CallsFor (S.told store.old) file result (S.calls store.old) (S.calls store.new)) }
    // With `gen` the sink took the summary of a legal history of the scenario that the seed makes,
    // with what that asks.
    ensures generates { IfGen (command_of (map string_bytes words.now)) (λ seed lanes packets.
        result ≡ status.Good → Sums seed lanes packets
        (λ text. Takes (K.taken out.old) text (K.taken out.new))) }
    // What was taken is a prefix of that summary.
    ensures gen_sink_fault { IfGen (command_of (map string_bytes words.now))
        (λ seed lanes packets. result ≡ status.SinkFault → Sums seed lanes packets
        (λ text. TakesPrefix (K.taken out.old) text (K.taken out.new))) }
    // Where memory ran out nothing is written.
    ensures gen_memory { IfGen (command_of (map string_bytes words.now)) (λ seed lanes packets.
        result ≡ status.Memory → out.new ≡ out.old) }
    // `gen` ends in no other way, and never asks the store.
    ensures gen_ends { IfGen (command_of (map string_bytes words.now)) (λ seed lanes packets.
        IsGenEnd result) }
    ensures gen_store { IfGen (command_of (map string_bytes words.now)) (λ seed lanes packets.
        store.new ≡ store.old) }
    // With other words the store is not asked; the door and the clock never are.
    ensures unasked { result ≡ status.Usage → store.new ≡ store.old }
    ensures door { _door.new ≡ _door.old }
    ensures clock { _clock.new ≡ _clock.old }
{
    match command_of(words) {
        Some(Command::Replay { scenario }) => replay(rt, alloc, scenario, store, out, gate),
        Some(
            Command::Gen {
                seed,
                lanes,
                packets,
            },
        ) => sum_up(rt, alloc, seed, lanes, packets, out, gate),
        Some(Command::Check { .. }) | None => Status::Usage,
    }
}

//! A scenario is loaded: read with the files that it names, its items told apart into packets and
//! skips, and its machines made.

ghost use Rattle.std.specs.Prelude.{◌≡◌, ◌≤◌, ◌++◌, ◌∷◌, [], List, Option, length, false, Err};
ghost use Rattle.std.specs.Prelude.{None, IfOk, IfSome};
ghost use Rattle.mr_base.specs.Outside.{Files, HasFile, AllStay, Rose};
ghost use Rattle.mr_base.specs.declared.limits.TheConstants.{MOST_ITEMS};
ghost use Rattle.mr_load.specs.Faults.{failed_read, is_fault, read_of};
ghost use Rattle.mr_load.specs.Items.{all_items};
ghost use Rattle.mr_load.specs.Kept.{contents_kept, files_kept};
ghost use Rattle.mr_load.specs.Loading.{items_in};
ghost use Rattle.mr_load.specs.Loads.{IsGiven, Gives, LoadsTo, IfFault};
ghost use Rattle.mr_base.specs.declared.store_call.StoreCall.{StoreCall};
ghost use Rattle.mr_load.specs.Reading.{Asks};
ghost use Rattle.mr_load.specs.Refusals.{scenario_of};
ghost use Rattle.mr_load.specs.declared.status.Status.TheVariants as status;
ghost use Rattle.mr_scenario.specs.Fits.{Fits};

use crate::gathering::{Gathered, gather};
use crate::lane::LanePackets;
use crate::machines::machines_in;
use crate::naming::named_in;
use crate::parts::{limits_of, phases_of};
use crate::passing::pass_lanes;
use crate::reading::{Confs, Traces, read_files};
use crate::status::Status;
use crate::totals::Totals;
use mr_base::{FileName, List, ReadError, Store};
use mr_lines::Skip;
use mr_model::Limits;
use mr_scenario::{Scenario, ScenarioError};
use smc_core::Smc;
use std::alloc::{AllocError, Global};

/// A scenario that was read, with what its items give.
#[derive(Drop)]
pub struct Loaded {
    pub scenario: Scenario,
    /// The scenario's limits, with the number of packets of each lane.
    pub limits: Limits,
    /// Each lane's packets, from lane 1 on.
    pub lanes: List<LanePackets>,
    /// The items whose head is refused, by lane and then by item.
    pub skips: List<Skip>,
    /// The device of each skip's item.
    pub skip_devs: List<u32>,
    /// The routing machine of each daemon, from daemon 1 on: none where it has none.
    pub machines: List<Option<Smc>>,
}

/// The limits of a scenario whose lanes have these numbers of packets.
fn limits_with(limits: &Limits, packets: Vec<u32>) -> Result<Limits, AllocError>
    ensures { IfOk result (λ l. l ≡ record limits.now { packets = packets.items }) }
{
    Ok(Limits {
        entries: limits.entries,
        unresolved: limits.unresolved,
        controls: limits.controls,
        phases: limits.phases,
        packets: List(packets),
        admins: limits.admins.clone()?,
        devices: limits.devices.clone()?,
    })
}

/// A scenario with what its items give and its machines, where these are the files that it names.
fn with_items(
    alloc: Global,
    scenario: Scenario,
    confs: &Confs,
    traces: &Traces,
) -> Result<Loaded, AllocError>
    requires fits { Fits scenario }
    requires items { all_items (contents_kept traces.now.entries) (items_in scenario.phases)
        ≤ MOST_ITEMS }
    ensures scenario { IfOk result (λ l. l.scenario ≡ scenario) }
    ensures given { IfOk result (IsGiven (contents_kept traces.now.entries)
        (files_kept confs.now.entries)) }
{
    let passed = pass_lanes(alloc, scenario.lanes, phases_of(&scenario), traces)?;
    let Gathered {
        lanes,
        counts,
        skips,
        devs,
    } = gather(alloc, passed)?;
    let limits = limits_with(limits_of(&scenario), counts)?;
    let machines = machines_in(alloc, confs, &scenario)?;
    Ok(Loaded {
        scenario,
        limits,
        lanes: List(lanes),
        skips: List(skips),
        skip_devs: List(devs),
        machines: List(machines),
    })
}

/// The scenario that bytes spell.
fn scenario_in(alloc: Global, bytes: &[u8]) -> Result<Scenario, Status>
    ensures scenario { Gives (λ s. s) result (scenario_of bytes.now) }
    ensures fits { IfOk result Fits }
    ensures no_fault { is_fault result ≡ false }
{
    match mr_scenario::read(alloc, bytes) {
        Ok(scenario) => Ok(scenario),
        Err(ScenarioError::Bad { line, kind, text }) => Err(Status::Scenario { line, kind, text }),
        Err(ScenarioError::Memory) => Err(Status::Memory),
    }
}

/// What bytes of a file spell, with the files that they name.
fn load_bytes<S: Store>(
    alloc: Global,
    file: &str,
    bytes: &[u8],
    store: &mut S,
) -> Result<Loaded, Status>
    requires named { 1 ≤ length file.now }
    requires fits { length file.now ≤ 255 }
    requires there { HasFile (S.told store.old) file.now bytes.now }
    ensures loads { (told : Option Files) (before : List StoreCall) →
        AllStay told (S.told store.old) →
        S.calls store.old ≡ before ++ read_of file.now false ∷ [] →
        LoadsTo told file.now result before (S.calls store.new) }
    ensures outside { Asks result (S.last store.new) (S.faults store.old) (S.faults store.new)
        (S.told store.old) (S.told store.new) }
{
    let scenario = match scenario_in(alloc, bytes) {
        Ok(scenario) => scenario,
        Err(status) => return Err(status),
    };
    let named = match named_in(alloc, &scenario) {
        Ok(named) => named,
        Err(_) => return Err(Status::Memory),
    };
    let none = Totals {
        items: named.packets,
        bytes: 0,
    };
    let reading = match read_files(alloc, file, bytes, &named.files, none, store) {
        Ok(reading) => reading,
        Err(status) => return Err(status),
    };
    match with_items(alloc, scenario, &reading.confs, &reading.traces) {
        Ok(loaded) => Ok(loaded),
        Err(_) => Err(Status::Memory),
    }
}

/// Reads the scenario of this name from the store, whose name has 1 to 255 bytes, and the files
/// that it names, each once: the configurations of its daemons, and the traces of its lines. Each
/// lane gets its packets and its skips, and each daemon with configurations its routing machine.
/// The sessions of `serve` are not built yet.
///
/// # Errors
///
/// In their order: `StoreFault` exactly where the scenario cannot be read; `Scenario` with the
/// first bad line; and then for each file that is named, in the order of first naming (the daemons'
/// files first, as the head's lines stand before all phases), `StoreFault` where it cannot be read;
/// `Conf` with its first bad line where a daemon names it and it is no accepted configuration; and
/// `Trace` where lines name it and it is no accepted trace, or where with it the items of all lanes
/// or the bytes of all traces are too many. `Memory` may come wherever memory is taken, and not in
/// place of a fault.
pub fn load<S: Store>(
    alloc: Global,
    file: &str,
    _serve: bool,
    store: &mut S,
) -> Result<Loaded, Status>
    requires named { 1 ≤ length file.now }
    requires fits { length file.now ≤ 255 }
    ensures loads { LoadsTo (S.told store.old) file.now result
        (S.calls store.old) (S.calls store.new) }
    ensures absent { IfSome (S.told store.old) (λ files.
        files file.now ≡ None → result ≡ Err (status.StoreFault file.now)) }
    ensures last { IfFault result (λ name. S.last store.new ≡ failed_read name) }
    ensures rose { IfFault result (λ _. Rose (S.faults store.old) (S.faults store.new)) }
    ensures good { is_fault result ≡ false → S.faults store.new ≡ S.faults store.old }
    ensures files { AllStay (S.told store.old) (S.told store.new) }
    ensures count { S.faults store.old ≤ S.faults store.new }
{
    match store.read(alloc, file) {
        Ok(bytes) => load_bytes(alloc, file, bytes.as_slice(), store),
        Err(ReadError::Failed) => Err(Status::StoreFault {
            file: FileName::new(file),
        }),
        Err(ReadError::Memory) => Err(Status::Memory),
    }
}

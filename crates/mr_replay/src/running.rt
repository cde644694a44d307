//! The phases of a scenario: in each, its lanes and daemons, each on a thread of its own.

ghost use Rattle.std.specs.Prelude.{◌≡◌, ◌<◌, ◌≤◌, ◌+◌, [], IfOk, IsErrOf, OnOk, length};
ghost use Rattle.std.specs.Thread.{IsSync, IsSend};
ghost use Rattle.std.specs.Vec.{vec_len};
ghost use Rattle.mr_base.specs.Outside.{Files};
ghost use Rattle.mr_load.specs.Loads.{IsLoaded};
ghost use Rattle.mr_load.specs.Made.{Made};
ghost use Rattle.mr_model.specs.declared.caller.CallError.TheVariants as call_error;
ghost use Rattle.mr_replay.specs.Lanes.{AllSend, AreLanes, HadTurn, HasTurn, LanesFit, LanesReady};
ghost use Rattle.mr_replay.specs.Lanes.{lane_at};
ghost use Rattle.mr_replay.specs.Running.{CanRun, HasRun, IsShort, MachinesFit, PhaseCut};
ghost use Rattle.mr_replay.specs.Running.{PhaseDriven, with_machines};
ghost use Rattle.mr_replay.specs.Turns.{AllTurn, AreNumbered, AreReady, LinesSuit};

use crate::daemons::ask_daemons;
use crate::sending::send_due;
use mr_base::{Gate, Memory};
use mr_book::BookName;
use mr_kernel::Kernel;
use mr_load::{LanePackets, Loaded, lanes_of, lines_of, phases_of};
use mr_model::CallError;
use mr_router::{Daemon, Lane, Opened, Router, RunName, Team};
use mr_scenario::ScriptLine;
use smc_core::Smc;
use std::alloc::Global;
use std::marker::Brand;
use std::sync::Wait;
use std::thread;
use std::thread::Threads;

/// All lanes, each with the packets that are due in a phase, on a thread for each.
fn send_lanes<B: BookName + Send + Sync, C: RunName + Send + Sync, R, G>(
    rt: &R,
    router: &Router<B, C>,
    gate: &G,
    lanes: &mut [Lane<B, C>],
    packets: &[LanePackets],
    phase: u32,
)
where
    R: Wait + Threads + Sync,
    G: Gate + Sync,
    requires fit { LanesFit C.limits packets.now }
    requires lanes { AreLanes (length packets.now) router.now lanes.old }
    requires ready { LanesReady phase packets.now router.now }
    ensures { AllSend phase packets.now lanes.old lanes.new }
{
    let each = |index: usize, lane: &mut Lane<B, C>|
        requires { HasTurn C.limits phase packets.now index lane.old }
        ensures { HadTurn phase (lane_at packets.entry.now (index + 1)) lane.old lane.new }
    { send_due(rt, router, gate, lane, &packets[index], phase) };
    thread::for_each_mut(rt, lanes, packets.len().max(1), &each);
}

/// All lanes and daemons beside each other.
fn run_callers<'a, B: BookName + Send + Sync, C: RunName + Send + Sync, R, G>(
    rt: &'a R,
    alloc: Global,
    router: &'a Router<B, C>,
    gate: &'a G,
    lanes: &'a mut [Lane<B, C>],
    packets: &'a [LanePackets],
    daemons: &'a mut Vec<Daemon<B, C>>,
    machines: &'a mut Vec<Option<Smc>>,
    script: &'a [ScriptLine],
    phase: u32,
) -> Result<(), CallError>
where
    R: Wait + Threads + Sync,
    G: Gate + Sync,
    requires fit { LanesFit C.limits packets.now }
    requires lanes { AreLanes (length packets.now) router.now lanes.old }
    requires ready { LanesReady phase packets.now router.now }
    requires few { vec_len daemons.old ≤ 8 }
    requires numbers { AreNumbered daemons.old.items }
    requires machines { AreReady daemons.old.items machines.old.items }
    requires suit { LinesSuit script.now machines.old.items }
    ensures send { AllSend phase packets.now lanes.old lanes.new }
    ensures ask { AllTurn C.limits script.now result daemons.old.items machines.old.items
        daemons.new.items machines.new.items }
{
    let mut send = ||
        requires { IsSync R.row × IsSync G.row × IsSend B.row × IsSync B.row × IsSend C.row
            × IsSync C.row × LanesFit C.limits packets.now
            × AreLanes (length packets.now) router.now lanes.now
            × LanesReady phase packets.now router.now }
        ensures { AllSend phase packets.entry.now lanes.entry.now lanes.exit.now }
    { send_lanes(rt, router, gate, lanes, packets, phase) };
    let mut ask = || -> Result<(), CallError>
        requires { IsSync R.row × IsSend B.row × IsSync B.row × IsSend C.row × IsSync C.row
            × (vec_len daemons.now ≤ 8) × AreNumbered daemons.now.items
            × AreReady daemons.now.items machines.now.items
            × LinesSuit script.now machines.now.items }
        ensures { AllTurn C.limits script.entry.now result daemons.entry.now.items
            machines.entry.now.items daemons.exit.now.items machines.exit.now.items }
    { ask_daemons(rt, alloc, router, daemons, machines, script) };
    let ((), ended) = thread::join_mut(rt, &mut send, &mut ask);
    ended
}

/// One phase, and its end, which comes also where a daemon stopped within its lines.
///
/// # Errors
///
/// Why the first daemon that stopped did so.
fn run_phase<B: BookName + Send + Sync, C: RunName + Send + Sync, R, G>(
    rt: &R,
    alloc: Global,
    router: &mut Router<B, C>,
    gate: &G,
    lanes: &mut [Lane<B, C>],
    daemons: &mut Vec<Daemon<B, C>>,
    machines: &mut Vec<Option<Smc>>,
    loaded: &Loaded,
    place: usize,
) -> Result<(), CallError>
where
    R: Wait + Threads + Sync,
    G: Gate + Sync,
    requires can { CanRun loaded.now }
    requires limits { loaded.now.limits ≡ C.limits }
    requires place { place < length loaded.now.scenario.phases }
    requires run { HasRun loaded.now place router.old lanes.old daemons.old.items }
    requires machines { MachinesFit loaded.now.scenario machines.old.items }
    ensures run { OnOk result (HasRun loaded.now (place + 1) router.new lanes.new
        daemons.new.items) }
    ensures machines { OnOk result (MachinesFit loaded.now.scenario machines.new.items) }
    ensures driven { OnOk result (PhaseDriven place loaded.now.scenario router.old router.new
        machines.old.items machines.new.items) }
    ensures cut { IsErrOf result call_error.ControlFull →
        PhaseCut loaded.now place router.old machines.old.items }
{
    let script = lines_of(&phases_of(&loaded.scenario)[place]);
    let packets = lanes_of(loaded);
    let phase = place as u32;
    let ended = run_callers(
        rt, alloc, router, gate, lanes, packets, daemons, machines, script, phase,
    );
    router.end_phase(rt, lanes, daemons.as_mut_slice());
    ended
}

/// All phases, up to the first in which a daemon stopped within its lines.
///
/// # Errors
///
/// Why the first daemon that stopped in that phase did so.
fn run_phases<B: BookName + Send + Sync, C: RunName + Send + Sync, R, G>(
    rt: &R,
    alloc: Global,
    router: &mut Router<B, C>,
    gate: &G,
    lanes: &mut [Lane<B, C>],
    daemons: &mut Vec<Daemon<B, C>>,
    mut machines: Vec<Option<Smc>>,
    loaded: &Loaded,
) -> Result<(), CallError>
where
    R: Wait + Threads + Sync,
    G: Gate + Sync,
    requires can { CanRun loaded.now }
    requires limits { loaded.now.limits ≡ C.limits }
    requires run { HasRun loaded.now 0 router.old lanes.old daemons.old.items }
    requires nothing { router.old ≡ [] }
    requires machines { MachinesFit loaded.now.scenario machines.items }
    ensures run { OnOk result (HasRun loaded.now (length loaded.now.scenario.phases)
        router.new lanes.new daemons.new.items) }
    ensures made { OnOk result ((files : Files) →
        IsLoaded files (with_machines loaded.now machines.items) →
        Made files loaded.now.scenario router.new) }
    ensures full { IsErrOf result call_error.ControlFull →
        IsShort (with_machines loaded.now machines.items) }
{
    for place in 0..phases_of(&loaded.scenario).len() {
        match run_phase(
            rt,
            alloc,
            router,
            gate,
            lanes,
            daemons,
            &mut machines,
            loaded,
            place,
        ) {
            Ok(()) => {}
            Err(error) => return Err(error),
        }
    }
    Ok(())
}

/// The machine that lanes and daemons have run, which share it under a name.
fn run_opened<B: BookName + Send + Sync, C: RunName + Send + Sync, R, G>(
    rt: &R,
    alloc: Global,
    opened: Opened<C>,
    loaded: &Loaded,
    machines: Vec<Option<Smc>>,
    gate: &G,
) -> Result<Kernel, CallError>
where
    R: Wait + Threads + Sync,
    G: Gate + Sync,
    requires named { opened ≡ B.table }
    requires can { CanRun loaded.now }
    requires limits { loaded.now.limits ≡ C.limits }
    requires machines { MachinesFit loaded.now.scenario machines.items }
    ensures limits { IfOk result (λ k. k.limits ≡ loaded.now.limits) }
    ensures made { IfOk result (λ k. (files : Files) →
        IsLoaded files (with_machines loaded.now machines.items) →
        Made files loaded.now.scenario k.history) }
    ensures full { IsErrOf result call_error.ControlFull →
        IsShort (with_machines loaded.now machines.items) }
{
    let Ok(
        Team {
            mut router,
            mut lanes,
            mut daemons,
        },
    ) = Router::<B, C>::open(opened, rt, alloc, &loaded.limits)
    else {
        return Err(CallError::Memory);
    };
    let ended = run_phases(
        rt,
        alloc,
        &mut router,
        gate,
        lanes.as_mut_slice(),
        &mut daemons,
        machines,
        loaded,
    );
    let kernel = router.close(rt, lanes, daemons);
    match ended {
        Ok(()) => Ok(kernel),
        Err(error) => Err(error),
    }
}

/// The machine of a run whose limits have a name.
fn run_named<C: RunName + Send + Sync, R, G>(
    rt: &R,
    alloc: Global,
    loaded: &Loaded,
    machines: Vec<Option<Smc>>,
    gate: &G,
) -> Result<Kernel, CallError>
where
    R: Wait + Threads + Sync,
    G: Gate + Sync,
    requires can { CanRun loaded.now }
    requires limits { loaded.now.limits ≡ C.limits }
    requires machines { MachinesFit loaded.now.scenario machines.items }
    ensures limits { IfOk result (λ k. k.limits ≡ loaded.now.limits) }
    ensures made { IfOk result (λ k. (files : Files) →
        IsLoaded files (with_machines loaded.now machines.items) →
        Made files loaded.now.scenario k.history) }
    ensures full { IsErrOf result call_error.ControlFull →
        IsShort (with_machines loaded.now machines.items) }
{
    match Opened::<C>::new(alloc, &loaded.limits) {
        Ok(opened) => { run_opened::<Brand, C, R, G>(rt, alloc, opened, loaded, machines, gate) }
        Err(Memory) => Err(CallError::Memory),
    }
}

/// The machine that has run what was loaded with these routing machines. In each phase the lanes
/// and daemons have a thread each, and each lane asks the gate before each packet; one for which no
/// thread can be made is run by its caller.
///
/// # Errors
///
/// [`CallError::ControlFull`] where the history has no room for a control entry that a daemon
/// needs, and [`CallError::Memory`] where memory runs out.
pub fn run_loaded<R: Wait + Threads + Sync, G: Gate + Sync>(
    rt: &R,
    alloc: Global,
    loaded: &Loaded,
    machines: Vec<Option<Smc>>,
    gate: &G,
) -> Result<Kernel, CallError>
    requires can { CanRun loaded.now }
    requires machines { MachinesFit loaded.now.scenario machines.items }
    ensures limits { IfOk result (λ k. k.limits ≡ loaded.now.limits) }
    ensures made { IfOk result (λ k. (files : Files) →
        IsLoaded files (with_machines loaded.now machines.items) →
        Made files loaded.now.scenario k.history) }
    ensures full { IsErrOf result call_error.ControlFull →
        IsShort (with_machines loaded.now machines.items) }
{
    run_named::<Brand, R, G>(rt, alloc, loaded, machines, gate)
}

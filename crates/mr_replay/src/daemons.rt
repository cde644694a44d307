//! The turns of all daemons in a phase, each on a thread of its own.

ghost use Rattle.std.specs.Prelude.{◌≡◌, ◌≤◌, ◌<◌, ◌++◌, ◌∷◌, [], IfSome};
ghost use Rattle.std.specs.Thread.{IsSync, IsSend};
ghost use Rattle.std.specs.Vec.{vec_capacity, vec_len};
ghost use Rattle.mr_replay.specs.Turns.{AllTurn, AreNumbered, AreReady, IsIdle, IsPlainFor};
ghost use Rattle.mr_replay.specs.Turns.{LinesSuit, Turn, first_stop};

use crate::turns::{Turned, take_turn};
use mr_book::BookName;
use mr_model::CallError;
use mr_router::{Daemon, Router, RunName};
use mr_scenario::ScriptLine;
use smc_core::Smc;
use std::alloc::Global;
use std::mem;
use std::sync::Wait;
use std::thread::{Threads, join};

/// Daemons behind their turns, with their machines, and why the first that stopped within its lines
/// did so.
#[derive(Drop)]
struct Asked<B: BookName, C: RunName> {
    daemons: Vec<Daemon<B, C>>,
    machines: Vec<Option<Smc>>,
    ended: Result<(), CallError>,
}

/// One daemon more.
fn with_last<B: BookName, C: RunName>(mut others: Asked<B, C>, last: Turned<B, C>) -> Asked<B, C>
    requires daemons { vec_len others.daemons < vec_capacity others.daemons }
    requires machines { vec_len others.machines < vec_capacity others.machines }
    ensures daemons { result.daemons.items ≡ others.daemons.items ++ last.daemon ∷ [] }
    ensures machines { result.machines.items ≡ others.machines.items ++ last.machine ∷ [] }
    ensures room { vec_capacity result.daemons ≡ vec_capacity others.daemons }
    ensures machine_room { vec_capacity result.machines ≡ vec_capacity others.machines }
    ensures ended { result.ended ≡ first_stop others.ended last.ended }
{
    others.daemons.push_reserved(last.daemon);
    others.machines.push_reserved(last.machine);
    if others.ended.is_ok() {
        others.ended = last.ended;
    }
    others
}

/// All these daemons have their turns beside each other.
#[cycle(asking)]
fn ask_all<B: BookName + Send + Sync, C: RunName + Send + Sync, R>(
    rt: &R,
    alloc: Global,
    router: &Router<B, C>,
    mut daemons: Vec<Daemon<B, C>>,
    mut machines: Vec<Option<Smc>>,
    script: &[ScriptLine],
) -> Asked<B, C>
where
    R: Wait + Threads + Sync,
    requires crosses { IsSync R.row × IsSend B.row × IsSync B.row × IsSend C.row × IsSync C.row }
    requires few { vec_len daemons ≤ 8 }
    requires numbers { AreNumbered daemons.items }
    requires ready { AreReady daemons.items machines.items }
    requires suit { LinesSuit script.now machines.items }
    ensures turns { AllTurn C.limits script.now result.ended daemons.items machines.items
        result.daemons.items result.machines.items }
    ensures room { vec_capacity result.daemons ≡ vec_capacity daemons }
    ensures machine_room { vec_capacity result.machines ≡ vec_capacity machines }
{
    let Some(daemon) = daemons.pop() else {
        return Asked {
            daemons,
            machines,
            ended: Ok(()),
        };
    };
    let Some(machine) = machines.pop() else {
        unreachable!()
    };
    let number = daemons.len() as u32 + 1;
    let ask_last = move || -> Turned<B, C>
        requires { (daemon.daemon.0 ≡ number) × IfSome machine IsIdle
            × IsPlainFor number machine script.now }
        ensures { Turn C.limits script.entry.now number machine result.machine result.ended
            daemon result.daemon }
    { take_turn(rt, alloc, router, daemon, machine, number, script) };
    let ask_others = move || -> Asked<B, C>
        requires { IsSync R.row × IsSend B.row × IsSync B.row × IsSend C.row × IsSync C.row
            × (vec_len daemons ≤ 8) × AreNumbered daemons.items
            × AreReady daemons.items machines.items × LinesSuit script.now machines.items }
        ensures { AllTurn C.limits script.entry.now result.ended daemons.items machines.items
            result.daemons.items result.machines.items
            × (vec_capacity result.daemons ≡ vec_capacity daemons)
            × (vec_capacity result.machines ≡ vec_capacity machines) }
    { ask_all(rt, alloc, router, daemons, machines, script) };
    let (last, others) = join(rt, ask_last, ask_others);
    with_last(others, last)
}

/// All daemons have their turns, each on a thread of its own.
///
/// # Errors
///
/// Why the first daemon that stopped within its lines did so; all have had their turns then, too.
pub fn ask_daemons<B: BookName + Send + Sync, C: RunName + Send + Sync, R>(
    rt: &R,
    alloc: Global,
    router: &Router<B, C>,
    daemons: &mut Vec<Daemon<B, C>>,
    machines: &mut Vec<Option<Smc>>,
    script: &[ScriptLine],
) -> Result<(), CallError>
where
    R: Wait + Threads + Sync,
    requires few { vec_len daemons.old ≤ 8 }
    requires numbers { AreNumbered daemons.old.items }
    requires ready { AreReady daemons.old.items machines.old.items }
    requires suit { LinesSuit script.now machines.old.items }
    ensures { AllTurn C.limits script.now result daemons.old.items machines.old.items
        daemons.new.items machines.new.items }
{
    let theirs = mem::replace(machines, Vec::new(alloc));
    let all = mem::replace(daemons, Vec::new(alloc));
    let asked = ask_all(rt, alloc, router, all, theirs, script);
    *daemons = asked.daemons;
    *machines = asked.machines;
    asked.ended
}

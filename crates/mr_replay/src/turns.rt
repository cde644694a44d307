//! The turn of one daemon in a phase: with its routing machine, or without one.

ghost use Rattle.std.specs.Prelude.{◌≡◌, Some, None, IfSome};
ghost use Rattle.mr_replay.specs.Turns.{IsIdle, IsPlainFor, Turn};

use crate::asking::ask_lines;
use mr_base::{ControlFull, DaemonNo};
use mr_book::BookName;
use mr_model::CallError;
use mr_router::{Bound, Daemon, Router, RunName, TurnName};
use mr_scenario::ScriptLine;
use smc_core::Smc;
use smc_driver::drive;
use std::alloc::Global;
use std::marker::Brand;
use std::sync::Wait;

/// A daemon behind its turn: with its machine, if it has one, and why it stopped within its lines.
#[derive(Drop)]
pub struct Turned<B: BookName, C: RunName> {
    pub daemon: Daemon<B, C>,
    pub machine: Option<Smc>,
    pub ended: Result<(), CallError>,
}

/// A daemon without a machine asks its lines.
fn ask_turn<B: BookName, C: RunName, R: Wait>(
    rt: &R,
    alloc: Global,
    router: &Router<B, C>,
    mut daemon: Daemon<B, C>,
    number: u32,
    script: &[ScriptLine],
) -> Turned<B, C>
    requires number { daemon.daemon.0 ≡ number }
    requires lines { IsPlainFor number None script.now }
    ensures { Turn C.limits script.now number None result.machine result.ended daemon
        result.daemon }
{
    match ask_lines(rt, alloc, router, &mut daemon, number, script) {
        Ok(()) => Turned {
            daemon,
            machine: None,
            ended: Ok(()),
        },
        Err(ControlFull) => Turned {
            daemon,
            machine: None,
            ended: Err(CallError::ControlFull),
        },
    }
}

/// The lines of a daemon are played over it by its machine.
fn drive_turn<B: BookName, C: RunName, T: TurnName, R: Wait>(
    rt: &R,
    alloc: Global,
    router: &Router<B, C>,
    daemon: Daemon<B, C>,
    mut machine: Smc,
    number: u32,
    script: &[ScriptLine],
) -> Turned<B, C>
    requires turn { daemon ≡ T.start }
    requires number { daemon.daemon.0 ≡ number }
    requires idle { IsIdle machine }
    ensures { Turn C.limits script.now number (Some machine) result.machine result.ended daemon
        result.daemon }
{
    daemon.facts();
    let mut bound = Bound::<B, C, T, R>::new(rt, router, alloc, daemon);
    let ended = drive(&mut machine, &mut bound, DaemonNo(number), script);
    let daemon = bound.into_daemon();
    daemon.facts();
    Turned {
        daemon,
        machine: Some(machine),
        ended,
    }
}

/// A daemon has its turn.
pub fn take_turn<B: BookName, C: RunName, R: Wait>(
    rt: &R,
    alloc: Global,
    router: &Router<B, C>,
    daemon: Daemon<B, C>,
    machine: Option<Smc>,
    number: u32,
    script: &[ScriptLine],
) -> Turned<B, C>
    requires number { daemon.daemon.0 ≡ number }
    requires idle { IfSome machine IsIdle }
    requires lines { IsPlainFor number machine script.now }
    ensures { Turn C.limits script.now number machine result.machine result.ended daemon
        result.daemon }
{
    match machine {
        Some(machine) => {
            drive_turn::<B, C, Brand, R>(rt, alloc, router, daemon, machine, number, script)
        }
        None => ask_turn(rt, alloc, router, daemon, number, script),
    }
}

//! One line of a daemon's script: what it asks of the machine.

ghost use Rattle.std.specs.Prelude.{◌≡◌, [], ◌∷◌, OnOk, OnErr};
ghost use Rattle.mr_load.specs.Made.{as_asked};
ghost use Rattle.mr_replay.specs.Daemons.{FindsFull, HasAsked, IsPlain};
ghost use Rattle.mr_scenario.specs.declared.scenario.Script.TheVariants as script;

use mr_base::ControlFull;
use mr_book::BookName;
use mr_model::Request;
use mr_opt::read_set;
use mr_router::{Daemon, Router, RunName};
use mr_scenario::Script;
use std::alloc::Global;
use std::sync::Wait;

/// The option that asks for another table (MRT_TABLE of mroute.h), which a machine of one table
/// does not know.
const MRT_TABLE: u16 = 209;

/// A daemon makes a call.
fn call<B: BookName, C: RunName, R: Wait>(
    rt: &R,
    alloc: Global,
    router: &Router<B, C>,
    daemon: &mut Daemon<B, C>,
    request: &Request,
) -> Result<(), ControlFull>
    ensures asks { OnOk result (HasAsked (script.Ask request.now ∷ []) daemon.old daemon.new) }
    ensures full { OnErr result (FindsFull C.limits daemon.old daemon.new) }
{
    match daemon.call(rt, alloc, router, request) {
        Ok(_) => Ok(()),
        Err(_) => Err(ControlFull),
    }
}

/// A daemon lets so many milliseconds pass.
fn tick<B: BookName, C: RunName, R: Wait>(
    rt: &R,
    router: &Router<B, C>,
    daemon: &mut Daemon<B, C>,
    ms: u32,
) -> Result<(), ControlFull>
    ensures asks { OnOk result (HasAsked (script.Tick ms ∷ []) daemon.old daemon.new) }
    ensures full { OnErr result (FindsFull C.limits daemon.old daemon.new) }
{
    daemon.tick(rt, router, ms)
}

/// A daemon asks for a report.
fn receive<B: BookName, C: RunName, R: Wait>(
    rt: &R,
    router: &Router<B, C>,
    daemon: &mut Daemon<B, C>,
) -> Result<(), ControlFull>
    ensures asks { OnOk result (HasAsked (script.Recv ∷ []) daemon.old daemon.new) }
    ensures full { OnErr result (FindsFull C.limits daemon.old daemon.new) }
{
    match daemon.recv(rt, router) {
        Ok(_) => Ok(()),
        Err(ControlFull) => Err(ControlFull),
    }
}

/// A daemon without a routing machine asks what a line of its script says, which is none for a
/// machine.
///
/// # Errors
///
/// [`ControlFull`] where the history has no room for it; then the daemon has done nothing.
pub fn ask<B: BookName, C: RunName, R: Wait>(
    rt: &R,
    alloc: Global,
    router: &Router<B, C>,
    daemon: &mut Daemon<B, C>,
    line: &Script,
) -> Result<(), ControlFull>
    requires plain { IsPlain line.now }
    ensures asks { OnOk result (HasAsked (as_asked line.now ∷ []) daemon.old daemon.new) }
    ensures full { OnErr result (FindsFull C.limits daemon.old daemon.new) }
{
    match line {
        Script::Ask(request) => call(rt, alloc, router, daemon, request),
        Script::Raw { opt, bytes } => {
            let request = read_set(*opt, bytes.0.as_slice());
            call(rt, alloc, router, daemon, &request)
        }
        Script::Table(_) => call(rt, alloc, router, daemon, &Request::Unknown(MRT_TABLE)),
        Script::Tick(ms) => tick(rt, router, daemon, *ms),
        Script::Recv => receive(rt, router, daemon),
        Script::Start => Ok(()),
        Script::Poll(_) => Ok(()),
        Script::Words(_) => Ok(()),
    }
}

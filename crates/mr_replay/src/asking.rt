//! The lines of one daemon in a phase.

ghost use Rattle.std.specs.Prelude.{◌≡◌, OnOk, OnErr, length};
ghost use Rattle.std.specs.List.{AllByRecursion};
ghost use Rattle.mr_load.specs.Made.{of_daemon};
ghost use Rattle.mr_replay.specs.Daemons.{FindsEnd, FindsFull, HasAsked, IsPlain, IsPlainLine};
ghost use Rattle.mr_replay.specs.Daemons.{lines_by};

use crate::calling::ask;
use mr_base::ControlFull;
use mr_book::BookName;
use mr_router::{Daemon, Router, RunName};
use mr_scenario::ScriptLine;
use std::alloc::Global;
use std::sync::Wait;

/// A line is asked if it is this daemon's.
///
/// # Errors
///
/// [`ControlFull`] where it is, and the history has no room for it; then the daemon did nothing.
fn ask_own<B: BookName, C: RunName, R: Wait>(
    rt: &R,
    alloc: Global,
    router: &Router<B, C>,
    daemon: &mut Daemon<B, C>,
    number: u32,
    line: &ScriptLine,
) -> Result<(), ControlFull>
    requires number { daemon.old.daemon.0 ≡ number }
    requires plain { IsPlainLine number line.now }
    ensures asks { OnOk result (HasAsked (of_daemon number line.now) daemon.old daemon.new) }
    ensures full { OnErr result (FindsFull C.limits daemon.old daemon.new) }
    ensures its { OnErr result (length (of_daemon number line.now) ≡ 1) }
{
    if line.daemon.0 == number {
        return ask(rt, alloc, router, daemon, &line.script);
    }
    Ok(())
}

/// The lines of one daemon, one after another, up to one for which the history has no room.
///
/// # Errors
///
/// [`ControlFull`] where the history has no room for one of them.
pub fn ask_lines<B: BookName, C: RunName, R: Wait>(
    rt: &R,
    alloc: Global,
    router: &Router<B, C>,
    daemon: &mut Daemon<B, C>,
    number: u32,
    script: &[ScriptLine],
) -> Result<(), ControlFull>
    requires number { daemon.old.daemon.0 ≡ number }
    requires lines { AllByRecursion (IsPlainLine number) script.now }
    ensures asks { OnOk result (HasAsked (lines_by number script.now) daemon.old daemon.new) }
    ensures full { OnErr result (FindsEnd C.limits (lines_by number script.now) daemon.old
        daemon.new) }
{
    for line in script {
        let Ok(()) = ask_own(rt, alloc, router, daemon, number, line) else {
            return Err(ControlFull);
        };
    }
    Ok(())
}

//! The lines of a daemon.

ghost use Rattle.std.specs.Prelude.{◌≡◌, ◌≤◌, fold, IfOk, IfErr, IsErrOf};
ghost use Rattle.mr_model.specs.declared.caller.CallError.TheVariants as call_error;
ghost use Rattle.smc_core.specs.Driving.{Command, Tick, driven};
ghost use Rattle.smc_daemon.specs.Lines.{driving, of_daemon, lines_among};
ghost use Rattle.smc_driver.specs.Leading.{Goes, Breaks, all};
ghost use Rattle.smc_driver.specs.Playing.{Plays, BreaksOff};

use crate::asking::command;
use crate::receiving::poll;
use mr_base::{ControlFull, DaemonNo, List};
use mr_model::{CallError, Caller};
use mr_scenario::{Script, ScriptLine};
use smc_core::Smc;

/// So many milliseconds pass.
fn tick<K: Caller>(smc: &mut Smc, caller: &mut K, ms: u32) -> Result<(), CallError>
    requires idle { smc.old.plan.left ≡ 0 }
    ensures ok { IfOk result (λ done. Goes (λ c. driven c (Tick ms)) all smc.old smc.new
        (K.did caller.old) (K.did caller.new)) }
    ensures idle { IfOk result (λ done. smc.new.plan.left ≡ 0) }
    ensures err { IfErr result (λ e. Breaks e (λ c. driven c (Tick ms)) smc.old
        (K.did caller.old) (K.did caller.new)) }
    ensures falls { K.entries_left caller.new ≤ K.entries_left caller.old }
    ensures full { IsErrOf result call_error.ControlFull → K.entries_left caller.new ≡ 0 }
    ensures none_left { K.entries_left caller.old ≡ 0 → K.did caller.new ≡ K.did caller.old }
{
    let _ = smc;
    match caller.tick(ms) {
        Ok(()) => Ok(()),
        Err(ControlFull) => Err(CallError::ControlFull),
    }
}

/// A command, whose text nobody reads.
fn obey<K: Caller>(smc: &mut Smc, caller: &mut K, words: &[u8]) -> Result<(), CallError>
    requires idle { smc.old.plan.left ≡ 0 }
    ensures ok { IfOk result (λ done. Goes (λ c. driven c (Command words.now)) all smc.old smc.new
        (K.did caller.old) (K.did caller.new)) }
    ensures idle { IfOk result (λ done. smc.new.plan.left ≡ 0) }
    ensures err { IfErr result (λ e. Breaks e (λ c. driven c (Command words.now)) smc.old
        (K.did caller.old) (K.did caller.new)) }
    ensures falls { K.entries_left caller.new ≤ K.entries_left caller.old }
    ensures full { IsErrOf result call_error.ControlFull → K.entries_left caller.new ≡ 0 }
    ensures none_left { K.entries_left caller.old ≡ 0 → K.did caller.new ≡ K.did caller.old }
{
    match command(smc, caller, words) {
        Ok(_text) => Ok(()),
        Err(error) => Err(error),
    }
}

/// The words of a command.
fn obey_words<K: Caller>(smc: &mut Smc, caller: &mut K, words: &List<u8>) -> Result<(), CallError>
    requires idle { smc.old.plan.left ≡ 0 }
    ensures ok { IfOk result (λ done. Goes (λ c. driven c (Command words.now)) all smc.old smc.new
        (K.did caller.old) (K.did caller.new)) }
    ensures idle { IfOk result (λ done. smc.new.plan.left ≡ 0) }
    ensures err { IfErr result (λ e. Breaks e (λ c. driven c (Command words.now)) smc.old
        (K.did caller.old) (K.did caller.new)) }
    ensures falls { K.entries_left caller.new ≤ K.entries_left caller.old }
    ensures full { IsErrOf result call_error.ControlFull → K.entries_left caller.new ≡ 0 }
    ensures none_left { K.entries_left caller.old ≡ 0 → K.did caller.new ≡ K.did caller.old }
{
    obey(smc, caller, words.0.as_slice())
}

/// Plays a line. What is for daemons without a machine does nothing.
fn play<K: Caller>(smc: &mut Smc, caller: &mut K, script: &Script) -> Result<(), CallError>
    requires idle { smc.old.plan.left ≡ 0 }
    ensures ok { IfOk result (λ done. Goes (λ c. fold driven c (driving script.now)) all
        smc.old smc.new (K.did caller.old) (K.did caller.new)) }
    ensures idle { IfOk result (λ done. smc.new.plan.left ≡ 0) }
    ensures err { IfErr result (λ e. Breaks e (λ c. fold driven c (driving script.now)) smc.old
        (K.did caller.old) (K.did caller.new)) }
    ensures falls { K.entries_left caller.new ≤ K.entries_left caller.old }
    ensures full { IsErrOf result call_error.ControlFull → K.entries_left caller.new ≡ 0 }
    ensures none_left { K.entries_left caller.old ≡ 0 → K.did caller.new ≡ K.did caller.old }
{
    match script {
        Script::Start => obey(smc, caller, b"start"),
        Script::Poll(most) => poll(smc, caller, *most),
        Script::Tick(ms) => tick(smc, caller, *ms),
        Script::Words(words) => obey_words(smc, caller, words),
        Script::Ask(_) | Script::Raw { .. } | Script::Table(_) | Script::Recv => Ok(()),
    }
}

/// Plays a line, if it is this daemon's.
fn play_own<K: Caller>(
    smc: &mut Smc,
    caller: &mut K,
    daemon: DaemonNo,
    line: &ScriptLine,
) -> Result<(), CallError>
    requires idle { smc.old.plan.left ≡ 0 }
    ensures ok { IfOk result (λ done. Goes (λ c. fold driven c (of_daemon daemon.0 line.now)) all
        smc.old smc.new (K.did caller.old) (K.did caller.new)) }
    ensures idle { IfOk result (λ done. smc.new.plan.left ≡ 0) }
    ensures err { IfErr result (λ e. Breaks e (λ c. fold driven c (of_daemon daemon.0 line.now))
        smc.old (K.did caller.old) (K.did caller.new)) }
    ensures falls { K.entries_left caller.new ≤ K.entries_left caller.old }
    ensures full { IsErrOf result call_error.ControlFull → K.entries_left caller.new ≡ 0 }
    ensures none_left { K.entries_left caller.old ≡ 0 → K.did caller.new ≡ K.did caller.old }
{
    if line.daemon.0 == daemon.0 {
        play(smc, caller, &line.script)
    } else {
        Ok(())
    }
}

/// Plays the lines of a daemon among those of a phase, one after another: the requests of its
/// machine are made over the caller, and replies and reports are given to the machine. No reply is
/// waited for before the call, and none behind it where it answers Ok; what is said is dropped.
///
/// # Errors
///
/// [`CallError::ControlFull`] where the caller has no control entry left and one is needed, and
/// [`CallError::Memory`] where memory runs out. What was done before stands, and the machine is in
/// the midst of a line.
pub fn drive<K: Caller>(
    smc: &mut Smc,
    caller: &mut K,
    daemon: DaemonNo,
    script: &[ScriptLine],
) -> Result<(), CallError>
    requires idle { smc.old.plan.left ≡ 0 }
    ensures plays { IfOk result (λ done. Plays smc.old (lines_among daemon.0 script.now)
        (K.did caller.old) (K.did caller.new) smc.new) }
    ensures idle { IfOk result (λ done. smc.new.plan.left ≡ 0) }
    ensures breaks_off { IfErr result (λ e. BreaksOff e smc.old (lines_among daemon.0 script.now)
        (K.did caller.old) (K.did caller.new)) }
    ensures falls { K.entries_left caller.new ≤ K.entries_left caller.old }
    ensures full { IsErrOf result call_error.ControlFull → K.entries_left caller.new ≡ 0 }
    ensures none_left { K.entries_left caller.old ≡ 0 → K.did caller.new ≡ K.did caller.old }
{
    for line in script {
        if let Err(error) = play_own(smc, caller, daemon, line) {
            return Err(error);
        }
    }
    Ok(())
}

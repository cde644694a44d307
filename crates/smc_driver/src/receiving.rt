//! Receives, each of whose reports is handled before the next.

ghost use Rattle.std.specs.Prelude.{◌≡◌, ◌≤◌, ℕ, suc, true, false, Ok, List, IfOk, IfErr, IsOk};
ghost use Rattle.std.specs.Prelude.{IsErrOf};
ghost use Rattle.mr_model.specs.declared.caller.CallError.TheVariants as call_error;
ghost use Rattle.smc_core.specs.Driving.{polled, handled};
ghost use Rattle.smc_driver.specs.Leading.{Leads, Goes, Breaks, all};

use crate::asking::work_off;
use mr_base::ControlFull;
use mr_model::{CallError, Caller, Told};
use smc_core::{Input, Smc};

/// A report is given to the machine, and what that asks is asked.
fn handle<K: Caller>(smc: &mut Smc, caller: &mut K, told: Told) -> Result<(), CallError>
    requires idle { smc.old.plan.left ≡ 0 }
    ensures ok { IfOk result (λ done. Goes (λ c. handled c told) all smc.old smc.new
        (K.did caller.old) (K.did caller.new)) }
    ensures idle { IfOk result (λ done. smc.new.plan.left ≡ 0) }
    ensures err { IfErr result (λ e. Breaks e (λ c. handled c told) smc.old
        (K.did caller.old) (K.did caller.new)) }
    ensures falls { K.entries_left caller.new ≤ K.entries_left caller.old }
    ensures full { IsErrOf result call_error.ControlFull → K.entries_left caller.new ≡ 0 }
    ensures none_left { K.entries_left caller.old ≡ 0 → K.did caller.new ≡ K.did caller.old }
{
    let Ok(output) = smc.step(Input::Upcall(told)) else {
        return Err(CallError::Memory);
    };
    match work_off(smc, caller, output) {
        Ok(_text) => Ok(()),
        Err(error) => Err(error),
    }
}

/// Takes one report and handles it; false where there is none.
///
/// # Errors
///
/// Where no control entry is left, and where memory runs out.
fn receive<K: Caller>(smc: &mut Smc, caller: &mut K) -> Result<bool, CallError>
    requires idle { smc.old.plan.left ≡ 0 }
    ensures more { result ≡ Ok true → (n : ℕ) → Goes (polled (suc n)) (polled n) smc.old smc.new
        (K.did caller.old) (K.did caller.new) }
    ensures none { result ≡ Ok false → (n : ℕ) → Goes (polled (suc n)) all smc.old smc.new
        (K.did caller.old) (K.did caller.new) }
    ensures idle { IfOk result (λ more. smc.new.plan.left ≡ 0) }
    ensures err { IfErr result (λ e. (n : ℕ) → Breaks e (polled (suc n)) smc.old
        (K.did caller.old) (K.did caller.new)) }
    ensures falls { K.entries_left caller.new ≤ K.entries_left caller.old }
    ensures full { IsErrOf result call_error.ControlFull → K.entries_left caller.new ≡ 0 }
    ensures none_left { K.entries_left caller.old ≡ 0 → K.did caller.new ≡ K.did caller.old }
{
    match caller.recv() {
        Ok(Some(told)) => match handle(smc, caller, told) {
            Ok(()) => Ok(true),
            Err(error) => Err(error),
        },
        Ok(None) => Ok(false),
        Err(ControlFull) => Err(CallError::ControlFull),
    }
}

/// Takes and handles up to so many reports, ending at the first receive that gives none.
///
/// # Errors
///
/// Where no control entry is left, and where memory runs out.
pub(crate) fn poll<K: Caller>(smc: &mut Smc, caller: &mut K, most: u32) -> Result<(), CallError>
    requires idle { smc.old.plan.left ≡ 0 }
    ensures ok { IfOk result (λ done. Goes (polled most) all smc.old smc.new
        (K.did caller.old) (K.did caller.new)) }
    ensures idle { IfOk result (λ done. smc.new.plan.left ≡ 0) }
    ensures err { IfErr result (λ e. Breaks e (polled most) smc.old
        (K.did caller.old) (K.did caller.new)) }
    ensures falls { K.entries_left caller.new ≤ K.entries_left caller.old }
    ensures full { IsErrOf result call_error.ControlFull → K.entries_left caller.new ≡ 0 }
    ensures none_left { K.entries_left caller.old ≡ 0 → K.did caller.new ≡ K.did caller.old }
{
    let mut left = most;
    'polls: while left > 0 {
        match receive(smc, caller) {
            Ok(true) => left -= 1,
            Ok(false) => return Ok(()),
            Err(error) => return Err(error),
        }
    }
    Ok(())
}

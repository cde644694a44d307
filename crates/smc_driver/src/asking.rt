//! The requests of a machine, made one by one.

ghost use Rattle.std.specs.Prelude.{◌≡◌, ◌≤◌, ◌<◌, ◌-◌, length, IfOk, IfErr, IsErrOf};
ghost use Rattle.mr_model.specs.declared.caller.CallError.TheVariants as call_error;
ghost use Rattle.smc_core.specs.Answers.{turn_of};
ghost use Rattle.smc_core.specs.Driving.{Command, ask, worked_off, driven};
ghost use Rattle.smc_driver.specs.Leading.{Leads, Breaks, all};

use mr_model::{CallError, Caller, Request};
use smc_core::{Input, Output, Smc};

/// Makes a request, and gives its reply to the machine; what is said then.
///
/// # Errors
///
/// Where no control entry is left, and where memory runs out.
fn ask<K: Caller>(smc: &mut Smc, caller: &mut K, request: &Request) -> Result<Vec<u8>, CallError>
    requires waits { 0 < smc.old.plan.left }
    ensures ok { IfOk result (λ text. Leads (λ c. ask c request.now) all smc.old smc.new
        (K.did caller.old) (K.did caller.new) text.items) }
    ensures waits { IfOk result (λ text. smc.new.plan.left ≡ smc.old.plan.left - 1) }
    ensures err { IfErr result (λ e. Breaks e (λ c. ask c request.now) smc.old
        (K.did caller.old) (K.did caller.new)) }
    ensures falls { K.entries_left caller.new ≤ K.entries_left caller.old }
    ensures full { IsErrOf result call_error.ControlFull → K.entries_left caller.new ≡ 0 }
    ensures none_left { K.entries_left caller.old ≡ 0 → K.did caller.new ≡ K.did caller.old }
{
    match caller.call(request) {
        Ok(reply) => match smc.step(Input::Reply(reply)) {
            Ok(output) => Ok(output.text),
            Err(_) => Err(CallError::Memory),
        },
        Err(error) => Err(error),
    }
}

/// Makes these requests, whatever the replies; what is said, behind this text.
///
/// # Errors
///
/// Where no control entry is left, and where memory runs out.
fn ask_all<K: Caller>(
    smc: &mut Smc,
    caller: &mut K,
    requests: &[Request],
    text: Vec<u8>,
) -> Result<Vec<u8>, CallError>
    requires waits { smc.old.plan.left ≡ length requests.now }
    ensures ok { IfOk result (λ said.
        Leads (λ c. worked_off c (record {
          machine = smc.old;
          requests = requests.now;
          text = text.items;
        })) all smc.old smc.new
        (K.did caller.old) (K.did caller.new) said.items) }
    ensures idle { IfOk result (λ said. smc.new.plan.left ≡ 0) }
    ensures err { IfErr result (λ e.
        Breaks e (λ c. worked_off c (record {
          machine = smc.old;
          requests = requests.now;
          text = text.items;
        })) smc.old (K.did caller.old) (K.did caller.new)) }
    ensures falls { K.entries_left caller.new ≤ K.entries_left caller.old }
    ensures full { IsErrOf result call_error.ControlFull → K.entries_left caller.new ≡ 0 }
    ensures none_left { K.entries_left caller.old ≡ 0 → K.did caller.new ≡ K.did caller.old }
{
    let mut text = text;
    for request in requests {
        let said = match ask(smc, caller, request) {
            Ok(said) => said,
            Err(error) => return Err(error),
        };
        if text.extend_from_slice(said.as_slice()).is_err() {
            return Err(CallError::Memory);
        }
    }
    Ok(text)
}

/// Makes all requests of an output, whatever the replies; what is said, in all.
///
/// # Errors
///
/// Where no control entry is left, and where memory runs out.
pub(crate) fn work_off<K: Caller>(
    smc: &mut Smc,
    caller: &mut K,
    output: Output,
) -> Result<Vec<u8>, CallError>
    requires waits { smc.old.plan.left ≡ length output.requests.items }
    ensures ok { IfOk result (λ text.
        Leads (λ c. worked_off c (turn_of smc.old output)) all smc.old smc.new
        (K.did caller.old) (K.did caller.new) text.items) }
    ensures idle { IfOk result (λ text. smc.new.plan.left ≡ 0) }
    ensures err { IfErr result (λ e.
        Breaks e (λ c. worked_off c (turn_of smc.old output)) smc.old
        (K.did caller.old) (K.did caller.new)) }
    ensures falls { K.entries_left caller.new ≤ K.entries_left caller.old }
    ensures full { IsErrOf result call_error.ControlFull → K.entries_left caller.new ≡ 0 }
    ensures none_left { K.entries_left caller.old ≡ 0 → K.did caller.new ≡ K.did caller.old }
{
    let Output { requests, text } = output;
    ask_all(smc, caller, requests.as_slice(), text)
}

/// A command: what it answers.
///
/// # Errors
///
/// Where no control entry is left, and where memory runs out.
pub(crate) fn command<K: Caller>(
    smc: &mut Smc,
    caller: &mut K,
    words: &[u8],
) -> Result<Vec<u8>, CallError>
    requires idle { smc.old.plan.left ≡ 0 }
    ensures ok { IfOk result (λ text.
        Leads (λ c. driven c (Command words.now)) all smc.old smc.new
        (K.did caller.old) (K.did caller.new) text.items) }
    ensures idle { IfOk result (λ text. smc.new.plan.left ≡ 0) }
    ensures err { IfErr result (λ e.
        Breaks e (λ c. driven c (Command words.now)) smc.old
        (K.did caller.old) (K.did caller.new)) }
    ensures falls { K.entries_left caller.new ≤ K.entries_left caller.old }
    ensures full { IsErrOf result call_error.ControlFull → K.entries_left caller.new ≡ 0 }
    ensures none_left { K.entries_left caller.old ≡ 0 → K.did caller.new ≡ K.did caller.old }
{
    match smc.step(Input::Command(words)) {
        Ok(output) => work_off(smc, caller, output),
        Err(_) => Err(CallError::Memory),
    }
}

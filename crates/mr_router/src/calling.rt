//! The calls of a daemon, as its routing program sees them.

ghost use Rattle.std.specs.Prelude.{◌≡◌, ◌≤◌, ◌++◌, ◌∷◌, [], IfOk, OnErr, IsErr, IsErrOf};
ghost use Rattle.mr_model.specs.declared.caller.CallError.TheVariants as call_error;
ghost use Rattle.mr_model.specs.Deeds.{Asked, Received, Ticked};
ghost use Rattle.mr_router.specs.Deeds.{deeds, controls_left};
ghost use Rattle.mr_router.specs.Histories.{WentOn};

use crate::daemon::Daemon;
use crate::names::RunName;
use crate::router::Router;
use mr_base::ControlFull;
use mr_book::BookName;
use mr_model::{CallError, Reply, Request, Told};
use std::alloc::Global;
use std::sync::Wait;

/// A control call: its reply.
pub fn call<B: BookName, C: RunName, R: Wait>(
    rt: &R,
    router: &Router<B, C>,
    alloc: Global,
    daemon: &mut Daemon<B, C>,
    request: &Request,
) -> Result<Reply, CallError>
    ensures ok { IfOk result (λ reply.
        deeds daemon.new ≡ deeds daemon.old ++ Asked request.now reply ∷ []) }
    ensures err { OnErr result (deeds daemon.new ≡ deeds daemon.old) }
    ensures falls { controls_left C.limits daemon.new ≤ controls_left C.limits daemon.old }
    ensures full { IsErrOf result call_error.ControlFull → controls_left C.limits daemon.new ≡ 0 }
    ensures surely { controls_left C.limits daemon.old ≡ 0 → IsErr result }
    ensures went_on { WentOn daemon.old daemon.new }
{
    daemon.facts();
    let done = daemon.call(rt, alloc, router, request);
    match done {
        Ok((reply, _freed)) => Ok(reply),
        Err(error) => Err(error),
    }
}

/// The oldest unread report, with the addresses of the packet's head.
pub fn recv<B: BookName, C: RunName, R: Wait>(
    rt: &R,
    router: &Router<B, C>,
    daemon: &mut Daemon<B, C>,
) -> Result<Option<Told>, ControlFull>
    ensures ok { IfOk result (λ told.
        deeds daemon.new ≡ deeds daemon.old ++ Received told ∷ []) }
    ensures err { OnErr result (deeds daemon.new ≡ deeds daemon.old) }
    ensures falls { controls_left C.limits daemon.new ≤ controls_left C.limits daemon.old }
    ensures full { IsErr result → controls_left C.limits daemon.new ≡ 0 }
    ensures surely { controls_left C.limits daemon.old ≡ 0 → IsErr result }
    ensures went_on { WentOn daemon.old daemon.new }
{
    daemon.facts();
    match daemon.recv(rt, router) {
        Ok(None) => Ok(None),
        Ok(Some(upcall)) => Ok(Some(Told {
            kind: upcall.id.kind,
            vif: upcall.id.vif,
            src: upcall.head.src,
            dst: upcall.head.dst,
        })),
        Err(ControlFull) => Err(ControlFull),
    }
}

/// So many milliseconds pass.
pub fn tick<B: BookName, C: RunName, R: Wait>(
    rt: &R,
    router: &Router<B, C>,
    daemon: &mut Daemon<B, C>,
    ms: u32,
) -> Result<(), ControlFull>
    ensures ok { IfOk result (λ _. deeds daemon.new ≡ deeds daemon.old ++ Ticked ms ∷ []) }
    ensures err { OnErr result (deeds daemon.new ≡ deeds daemon.old) }
    ensures falls { controls_left C.limits daemon.new ≤ controls_left C.limits daemon.old }
    ensures full { IsErr result → controls_left C.limits daemon.new ≡ 0 }
    ensures surely { controls_left C.limits daemon.old ≡ 0 → IsErr result }
    ensures went_on { WentOn daemon.old daemon.new }
{
    daemon.facts();
    match daemon.tick(rt, router, ms) {
        Ok(()) => Ok(()),
        Err(ControlFull) => Err(ControlFull),
    }
}

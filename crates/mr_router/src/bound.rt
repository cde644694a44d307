ghost use Rattle.std.specs.Prelude.{◌≡◌};
ghost use Rattle.mr_router.specs.Histories.{WentOn};

use crate::calling;
use crate::daemon::Daemon;
use crate::names::{RunName, TurnName};
use crate::router::Router;
use mr_base::ControlFull;
use mr_book::BookName;
use mr_model::{CallError, Caller, Reply, Request, Told};
use std::alloc::Global;
use std::marker::{Model, PhantomData};
use std::sync::Wait;

/// A daemon with all that its calls take, as a routing program calls it in its turn `T`. Contracts
/// see the daemon. What it did are the daemon's own entries; a received report has the addresses of
/// the Slow that it names.
pub struct Bound<'a, B: BookName, C: RunName, T: TurnName, R: Wait> {
    rt: &'a R,
    router: &'a Router<B, C>,
    alloc: Global,
    daemon: Daemon<B, C>,
    of: PhantomData<T>,
}

impl<'a, B: BookName, C: RunName, T: TurnName, R: Wait> Model for Bound<'a, B, C, T, R> {
    ghost use Rattle.mr_router.specs.Callers.{DaemonValue};
    ghost use Rattle.mr_router.specs.Histories.{WentOn};

    ghost Value = { DaemonValue };

    ghost view = { λ b. b.daemon };

    ghost invariant = { λ b. WentOn T.start b.daemon };
}

impl<'a, B: BookName, C: RunName, T: TurnName, R: Wait> Bound<'a, B, C, T, R> {
    /// The daemon whose turn begins. `alloc` is for what a change of the tables takes.
    pub fn new(
        rt: &'a R,
        router: &'a Router<B, C>,
        alloc: Global,
        daemon: Daemon<B, C>,
    ) -> Bound<'a, B, C, T, R>
        requires { daemon ≡ T.start }
        ensures { result ≡ daemon }
    {
        Bound {
            rt,
            router,
            alloc,
            daemon,
            of: PhantomData,
        }
    }

    /// The daemon itself: the one whose turn began, with what it has seen since.
    pub fn into_daemon(self) -> Daemon<B, C>
        ensures daemon { result ≡ self.entry }
        ensures went_on { WentOn T.start result }
    {
        let Bound {
            rt: _,
            router: _,
            alloc: _,
            daemon,
            of: _,
        } = self;
        daemon
    }
}

impl<'a, B: BookName, C: RunName, T: TurnName, R: Wait> Caller for Bound<'a, B, C, T, R> {
    ghost use Rattle.mr_router.specs.Deeds.{deeds, controls_left};

    ghost did = { λ b. deeds b };

    ghost entries_left = { λ b. controls_left C.limits b };

    fn left(&self) -> u32 {
        self.daemon.left()
    }

    #[tactic(auto, using(crate::proofs::Deeding::went_then))]
    fn call(&mut self, request: &Request) -> Result<Reply, CallError> {
        calling::call(self.rt, self.router, self.alloc, &mut self.daemon, request)
    }

    #[tactic(auto, using(crate::proofs::Deeding::went_then))]
    fn recv(&mut self) -> Result<Option<Told>, ControlFull> {
        calling::recv(self.rt, self.router, &mut self.daemon)
    }

    #[tactic(auto, using(crate::proofs::Deeding::went_then))]
    fn tick(&mut self, ms: u32) -> Result<(), ControlFull> {
        calling::tick(self.rt, self.router, &mut self.daemon, ms)
    }
}

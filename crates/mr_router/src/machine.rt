ghost use Rattle.std.specs.Prelude.{◌≡◌, ◌<◌, ◌≤◌, ◌+◌, ◌^◌, ◌↔◌, [], ◌∷◌, ◌++◌, List, length, map};
ghost use Rattle.std.specs.Prelude.{option_map, IfOk, IfSome, IsErr, OnErr};
ghost use Rattle.std.specs.List.{AllByRecursion};
ghost use Rattle.mr_history.specs.Fits.{FitsLimits};
ghost use Rattle.mr_kernel.specs.Flows.{IsKnown, IsHeadOf, flow_of, id_of, back_by};
ghost use Rattle.mr_model.specs.declared.entry.Entry.TheVariants.{Call, Slow, Tick, Recv, EndPhase};
ghost use Rattle.mr_model.specs.Legal.{IsDaemon, IsLane, IsLegal, packets_given};
ghost use Rattle.mr_model.specs.Past.{controls, phases, packets, last_index, last_look};

use crate::lane::Handled;
use crate::names::RunName;
use crate::signed::Signed;
use arrayvec::ArrayVec;
use mr_base::{ControlFull, DaemonNo, LaneNo, Memory};
use mr_book::Journaled;
use mr_kernel::Kernel;
use mr_model::{Freed, Limits, Packet, Reply, Request};
use mr_unres::MOST_PACKETS;
use mr_upcall::Upcall;
use std::alloc::Global;
use std::marker::{Model, PhantomData};

/// The machine behind the lock. Contracts see its history; its limits are those of the run.
pub struct Machine<C: RunName> {
    // Behind the lock it is handed over at each entering, so it lies in a block of its own.
    kernel: Box<Kernel>,
    of: PhantomData<C>,
}

impl<C: RunName> Model for Machine<C> {
    ghost use Rattle.std.specs.Prelude.{◌≡◌, List, box_value};
    ghost use Rattle.mr_model.specs.declared.entry.Entry.{Entry};

    ghost Value = { List Entry };

    ghost view = { λ c. (box_value c.kernel).history };

    ghost invariant = { λ c. (box_value c.kernel).limits ≡ C.limits };
}

impl<C: RunName> Journaled for Machine<C> {
    type Entry = Signed;

    ghost entries = { λ c. c };

    fn count(&self) -> u64 {
        u64::from(self.kernel.journal().len())
    }
}

impl<C: RunName> Machine<C> {
    /// The machine with an empty history.
    ///
    /// # Errors
    ///
    /// [`Memory`] where memory runs out.
    pub fn with(alloc: Global, limits: &Limits) -> Result<Machine<C>, Memory>
        requires limits { limits.now ≡ C.limits }
        requires fits { FitsLimits limits.now }
        ensures { IfOk result (λ c. c ≡ []) }
    {
        let kernel = Kernel::with(alloc, limits)?;
        match Box::new(alloc, kernel) {
            Ok(kernel) => Ok(Machine {
                kernel,
                of: PhantomData,
            }),
            Err(_) => Err(Memory),
        }
    }
}

impl<C: RunName> Machine<C> {
    /// What is true of every machine. It does nothing.
    pub fn facts(&self)
        ensures { IsLegal C.limits self.now }
    {
        self.kernel.facts();
    }

    /// How many more calls, ticks and receives the history may hold.
    pub fn controls_left(&self) -> u32
        ensures { controls self.now + result ≡ C.limits.controls }
    {
        self.kernel.journal().controls_left()
    }

    /// A daemon's control call.
    ///
    /// # Errors
    ///
    /// [`ControlFull`] exactly where no control entry is left; then nothing changes.
    pub fn call(
        &mut self,
        daemon: DaemonNo,
        request: &Request,
    ) -> Result<(Reply, ArrayVec<Freed, MOST_PACKETS>), ControlFull>
        requires { IsDaemon C.limits daemon }
        ensures entry { IfOk result (λ r.
            self.new ≡ self.old ++ Call daemon request.now r.0 (map id_of r.1.items) ∷ []) }
        ensures packets { IfOk result (λ r.
            AllByRecursion (λ f. IsKnown self.old f.packet) r.1.items) }
        ensures stays { OnErr result (self.new ≡ self.old) }
        ensures full { OnErr result (controls self.old ≡ C.limits.controls) }
        ensures legal { IsLegal C.limits self.new }
    {
        let done = self.kernel.call(daemon, request);
        self.kernel.facts();
        done
    }

    /// The clock goes on by so many milliseconds.
    ///
    /// # Errors
    ///
    /// [`ControlFull`] exactly where no control entry is left; then nothing changes.
    pub fn tick(&mut self, daemon: DaemonNo, ms: u32) -> Result<(), ControlFull>
        requires { IsDaemon C.limits daemon }
        ensures entry { IfOk result (λ _. self.new ≡ self.old ++ Tick daemon ms ∷ []) }
        ensures stays { OnErr result (self.new ≡ self.old) }
        ensures full { OnErr result (controls self.old ≡ C.limits.controls) }
        ensures legal { IsLegal C.limits self.new }
    {
        let done = self.kernel.tick(daemon, ms);
        self.kernel.facts();
        done
    }

    /// A daemon asks for the oldest unread report.
    ///
    /// # Errors
    ///
    /// [`ControlFull`] exactly where no control entry is left; then nothing changes.
    pub fn recv(&mut self, daemon: DaemonNo) -> Result<Option<Upcall>, ControlFull>
        requires { IsDaemon C.limits daemon }
        ensures entry { IfOk result (λ m.
            self.new ≡ self.old ++ Recv daemon (option_map (λ u. u.id) m) ∷ []) }
        ensures head { IfOk result (λ m. IfSome m (λ u.
            IsHeadOf self.old u.id.lane u.id.index u.head)) }
        ensures stays { OnErr result (self.new ≡ self.old) }
        ensures full { OnErr result (controls self.old ≡ C.limits.controls) }
        ensures legal { IsLegal C.limits self.new }
    {
        let done = self.kernel.recv(daemon);
        self.kernel.facts();
        done
    }

    /// A packet of a lane is decided. It was first looked up just now: its look is the length of
    /// the history.
    pub fn slow(&mut self, lane: LaneNo, packet: Packet) -> Handled
        requires lane { IsLane C.limits lane }
        requires own { packet.lane ≡ lane }
        requires device { packet.dev ≤ length C.limits.devices }
        requires room { packets lane self.old < packets_given C.limits lane }
        requires next { last_index lane self.old < packet.index }
        requires looks { last_look lane self.old ≤ length self.old }
        ensures entry { self.new ≡ self.old
            ++ Slow lane packet.index (length self.old) (flow_of packet) result.outcome ∷ [] }
        ensures number { result.number ≡ length self.old + 1 }
        ensures back { result.packet ≡ back_by result.outcome packet }
        ensures legal { IsLegal C.limits self.new }
    {
        let kernel = &mut *self.kernel;
        kernel.journal().facts();
        let look = kernel.journal().len();
        let (outcome, packet) = kernel.slow(lane, packet, look);
        kernel.facts();
        Handled {
            number: look + 1,
            outcome,
            packet,
        }
    }

    /// A phase ends, of which one has to be left.
    pub fn end_phase(&mut self)
        requires { phases self.old < C.limits.phases }
        ensures entry { self.new ≡ self.old ++ EndPhase ∷ [] }
        ensures legal { IsLegal C.limits self.new }
    {
        self.kernel.end_phase();
        self.kernel.facts();
    }

    /// The machine itself, once it is not shared any more.
    pub fn into_kernel(self) -> Kernel
        ensures limits { result.limits ≡ C.limits }
        ensures history { result.history ≡ self }
        ensures legal { IsLegal C.limits self }
    {
        let Machine { kernel, of: _ } = self;
        kernel.facts();
        Box::into_inner(kernel)
    }
}

//! The machine with one lane.

ghost use Rattle.std.specs.Prelude.{◌≡◌, [], map, option_map, true, IfOk, IfSome};
ghost use Rattle.mr_model.specs.declared.entry.Entry.TheVariants.{Call, Tick, Recv, EndPhase};
ghost use Rattle.mr_model.specs.Legal.{IsDaemon};
ghost use Rattle.mr_history.specs.Fits.{FitsLimits};
ghost use Rattle.mr_kernel.specs.Flows.{id_of};
ghost use Rattle.mr_kernel.specs.Values.{grown};

use arrayvec::ArrayVec;
use mr_base::{DaemonNo, Head, LaneNo, Memory};
use mr_kernel::Kernel;
use mr_model::{Freed, Limits, Outcome, Packet, Reply, Request};
use mr_unres::MOST_PACKETS;
use mr_upcall::Upcall;
use std::alloc::Global;
use std::marker::Model;

/// The lane.
const LANE: LaneNo = LaneNo(1);

/// The machine with one lane, whose packets come with rising indexes and are each looked up by the
/// newest tables. A step that no history of these limits has is not made.
///
/// Contracts see the machine's limits and history.
#[derive(Debug, Drop)]
pub struct OneLane {
    pub(crate) kernel: Kernel,
    /// No packet of the lane had an index above this.
    pub(crate) last: u32,
}

impl Model for OneLane {
    ghost use Rattle.mr_kernel.specs.Values.{KernelValue};
    ghost use Rattle.mr_kernel_rows.specs.Ready.{IsReady};

    ghost Value = { KernelValue };

    ghost view = { λ o. o.kernel };

    ghost invariant = { λ o. IsReady o.kernel.history o.last };
}

impl OneLane {
    /// The empty history of these limits.
    ///
    /// # Errors
    ///
    /// [`Memory`] where memory runs out.
    pub fn with(alloc: Global, limits: &Limits) -> Result<OneLane, Memory>
        requires { FitsLimits limits.now }
        ensures limits { IfOk result (λ o. o.limits ≡ limits.now) }
        ensures history { IfOk result (λ o. o.history ≡ []) }
    {
        let kernel = Kernel::with(alloc, limits)?;
        Ok(OneLane { kernel, last: 0 })
    }

    /// The machine.
    pub fn kernel(&self) -> &Kernel
        ensures { result.now ≡ self.now }
    {
        &self.kernel
    }

    /// Whether the limits have a daemon.
    fn has_daemon(&self, daemon: DaemonNo) -> bool
        ensures { result ≡ true → IsDaemon self.now.limits daemon }
    {
        let daemons = self.kernel.journal().limits().admins.0.as_slice().len();
        1 <= daemon.0 && daemon.0 as usize <= daemons
    }

    /// A daemon's control call: its answer and the packets that it released. None where the limits
    /// have no such daemon or no room for it.
    pub fn call(
        &mut self,
        daemon: DaemonNo,
        request: &Request,
    ) -> Option<(Reply, ArrayVec<Freed, MOST_PACKETS>)>
        ensures { IfSome result (λ r. self.new
            ≡ grown self.old (Call daemon request.now r.0 (map id_of r.1.items))) }
    {
        if !self.has_daemon(daemon) {
            return None;
        }
        self.kernel.call(daemon, request).ok()
    }

    /// The clock goes on by so many milliseconds; whether the limits have this daemon and room.
    pub fn tick(&mut self, daemon: DaemonNo, ms: u32) -> bool
        ensures { result ≡ true → self.new ≡ grown self.old (Tick daemon ms) }
    {
        self.has_daemon(daemon) && self.kernel.tick(daemon, ms).is_ok()
    }

    /// A daemon asks for the oldest unread report. None where the limits have no such daemon or no
    /// room for it.
    pub fn recv(&mut self, daemon: DaemonNo) -> Option<Option<Upcall>>
        ensures { IfSome result (λ m. self.new
            ≡ grown self.old (Recv daemon (option_map (λ u. u.id) m))) }
    {
        if !self.has_daemon(daemon) {
            return None;
        }
        self.kernel.recv(daemon).ok()
    }

    /// A phase ends; whether the limits have one more.
    pub fn end_phase(&mut self) -> bool
        ensures { result ≡ true → self.new ≡ grown self.old EndPhase }
    {
        if self.kernel.journal().phases_left() == 0 {
            return false;
        }
        self.kernel.end_phase();
        true
    }

    /// The lane's next packet comes in on a device, and is decided. None where the limits have no
    /// such device or no packet more.
    pub fn packet(&mut self, dev: u32, head: Head) -> Option<Outcome> {
        let journal = self.kernel.journal();
        let limits = journal.limits();
        let index = self.last.checked_add(1)?;
        if limits.packets.0.as_slice().is_empty() || journal.packets_left(LANE) == 0 {
            return None;
        }
        if limits.devices.0.as_slice().len() < dev as usize {
            return None;
        }
        let look = journal.len();
        let packet = Packet {
            lane: LANE,
            index,
            dev,
            head,
        };
        let (outcome, _) = self.kernel.slow(LANE, packet, look);
        self.last = index;
        Some(outcome)
    }
}

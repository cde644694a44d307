//! The machine as an object.

ghost use Rattle.std.specs.Prelude.{◌≡◌, ◌<◌, ◌≤◌, ◌↔◌, [], List, length, map, option_map, IfOk};
ghost use Rattle.std.specs.Prelude.{IfSome, IsErr, OnErr};
ghost use Rattle.std.specs.List.{AllByRecursion};
ghost use Rattle.mr_model.specs.declared.entry.Entry.TheVariants.{Call, Slow, Settle, Tick, Recv};
ghost use Rattle.mr_model.specs.declared.entry.Entry.TheVariants.{EndPhase};
ghost use Rattle.mr_model.specs.Answer.{answer};
ghost use Rattle.mr_model.specs.Ending.{ending};
ghost use Rattle.mr_model.specs.Legal.{IsDaemon, IsLane, IsLegal, SettleAgrees, message_for};
ghost use Rattle.mr_model.specs.Legal.{packets_given};
ghost use Rattle.mr_model.specs.Outcome.{outcome};
ghost use Rattle.mr_model.specs.Past.{controls, phases, packets, last_index, last_look, last_end};
ghost use Rattle.mr_model.specs.Past.{own_before_slow};
ghost use Rattle.mr_model.specs.State.{state};
ghost use Rattle.mr_history.specs.Fits.{FitsLimits};
ghost use Rattle.mr_kernel.specs.Flows.{IsKnown, IsHeadOf, flow_of, id_of, back_by};
ghost use Rattle.mr_kernel.specs.Plans.{plan};
ghost use Rattle.mr_kernel.specs.Values.{grown};

use crate::answering::would;
use crate::arriving::{arrive, flow_of};
use crate::calling::change;
use crate::closing::{INDEXES, route_lines, vif_lines};
use crate::deciding::decide;
use crate::expiring::{begin_fate, tick};
use crate::live::Live;
use crate::plan::Plan;
use crate::replying::answer;
use crate::reporting::take;
use arrayvec::ArrayVec;
use mr_base::{ControlFull, DaemonNo, LaneNo, List, Memory};
use mr_fates::Fates;
use mr_history::{Journal, Numbered};
use mr_model::{Ending, FastRecord, Freed, Limits, MessageId, Outcome, Packet, Reply, Request};
use mr_tables::Tables;
use mr_unres::{MOST_PACKETS, Waiting};
use mr_upcall::{Queue, Upcall};
use std::alloc::{AllocError, Global};
use std::marker::Model;

/// The multicast forwarder as a machine of one thread: it owns its journal, its tables, the
/// packets that wait and the unread reports.
///
/// Contracts see its limits and its history, which is always legal; all else that it knows is what
/// the definitions give of these. All memory is taken when it is made.
#[derive(Debug, Drop)]
pub struct Kernel {
    pub(crate) journal: Journal,
    pub(crate) live: Live,
    pub(crate) fates: Fates,
}

impl Model for Kernel {
    ghost use Rattle.mr_kernel.specs.Values.{KernelValue};
    ghost use Rattle.mr_kernel.specs.Holding.{Holds};

    ghost Value = { KernelValue };

    ghost view = { λ k. record { limits = k.journal.limits; history = k.journal.entries } };

    ghost invariant = { λ k. Holds k.journal k.live k.fates };
}

impl Kernel {
    /// The empty history of these limits.
    ///
    /// # Errors
    ///
    /// [`Memory`] where memory runs out.
    pub fn with(alloc: Global, limits: &Limits) -> Result<Kernel, Memory>
        requires { FitsLimits limits.now }
        ensures limits { IfOk result (λ k. k.limits ≡ limits.now) }
        ensures history { IfOk result (λ k. k.history ≡ []) }
    {
        let tables = Tables::with(alloc, limits.entries, limits.devices.0.as_slice())?;
        let waiting = Waiting::with(alloc, limits.unresolved)?;
        let attempts = Numbered::with(alloc, limits.entries as usize)?;
        let fates = Fates::with(alloc, limits.packets.0.as_slice())?;
        let journal = Journal::with(alloc, limits)?;
        let live = Live {
            owner: None,
            tables,
            moment: 0,
            waiting,
            unread: Queue::new(),
            attempts,
        };
        Ok(Kernel {
            journal,
            live,
            fates,
        })
    }

    /// What is true of every machine. It does nothing.
    pub fn facts(&self)
        ensures legal { IsLegal self.now.limits self.now.history }
        ensures limits { FitsLimits self.now.limits }
    {
        let _ = &self.journal;
    }

    /// What a daemon's call would come to, which is not made yet.
    pub fn would(&self, daemon: DaemonNo, request: &Request) -> Plan
        requires { IsDaemon self.now.limits daemon }
        ensures { result ≡ plan self.now daemon request.now }
    {
        would(&self.live, &self.journal, daemon, request)
    }

    /// A daemon's control call: its answer, and the packets that it released, oldest first, with
    /// what became of each.
    ///
    /// # Errors
    ///
    /// [`ControlFull`] exactly where the limits leave no room for one more call, tick or receive;
    /// then nothing changes.
    pub fn call(
        &mut self,
        daemon: DaemonNo,
        request: &Request,
    ) -> Result<(Reply, ArrayVec<Freed, MOST_PACKETS>), ControlFull>
        requires { IsDaemon self.old.limits daemon }
        ensures full { IsErr result ↔ (controls self.old.history ≡ self.old.limits.controls) }
        ensures stays { OnErr result (self.new ≡ self.old) }
        ensures entry { IfOk result (λ r. self.new
            ≡ grown self.old (Call daemon request.now r.0 (map id_of r.1.items))) }
        ensures reply { IfOk result (λ r. r.0
            ≡ (answer self.old.limits self.old.history daemon request.now).reply) }
        ensures released { IfOk result (λ r. map id_of r.1.items
            ≡ (answer self.old.limits self.old.history daemon request.now).released) }
        ensures packets { IfOk result (λ r.
            AllByRecursion (λ f. IsKnown self.old.history f.packet) r.1.items) }
    {
        if self.journal.controls_left() == 0 {
            return Err(ControlFull);
        }
        match would(&self.live, &self.journal, daemon, request) {
            Plan::Answer(reply) => {
                answer(&mut self.live, &mut self.journal, daemon, request, reply);
                Ok((reply, ArrayVec::new()))
            }
            Plan::Tables(what) => {
                let freed = change(
                    &mut self.live,
                    &mut self.journal,
                    &mut self.fates,
                    daemon,
                    request,
                    &what,
                );
                Ok((Reply::Good, freed))
            }
        }
    }

    /// A packet of a lane is decided: what became of it, and the packet itself, but where it
    /// waits. It is the lane's next one, from one of the limits' devices, and `look` is how many
    /// history entries the tables had seen by which it was first looked up.
    pub fn slow(&mut self, lane: LaneNo, packet: Packet, look: u32) -> (Outcome, Option<Packet>)
        requires lane { IsLane self.old.limits lane }
        requires own { packet.lane ≡ lane }
        requires device { packet.dev ≤ length self.old.limits.devices }
        requires room { packets lane self.old.history < packets_given self.old.limits lane }
        requires next { last_index lane self.old.history < packet.index }
        requires look_within { look ≤ length self.old.history }
        requires look_former { last_look lane self.old.history ≤ look }
        requires look_own { own_before_slow lane self.old.history ≤ look }
        requires look_end { last_end self.old.history ≤ look }
        ensures entry { self.new
            ≡ grown self.old (Slow lane packet.index look (flow_of packet) result.0) }
        ensures outcome { result.0 ≡ outcome self.old.limits self.old.history (flow_of packet) }
        ensures back { result.1 ≡ back_by result.0 packet }
    {
        let index = packet.index;
        let flow = flow_of(&packet);
        let outcome = decide(&self.live, &flow);
        self.journal.push_slow(lane, index, look, &flow, &outcome);
        begin_fate(&mut self.fates, lane, index, &outcome);
        let back = arrive(&mut self.live, packet, &outcome);
        (outcome, back)
    }

    /// Packets of a lane that were forwarded without the machine are counted.
    pub fn settle(&mut self, lane: LaneNo, records: &[FastRecord])
        requires { SettleAgrees self.old.limits self.old.history lane records.now }
        ensures { self.new ≡ grown self.old (Settle lane records.now) }
    {
        self.journal.push_settle(lane, records);
    }

    /// The clock goes on by so many milliseconds.
    ///
    /// # Errors
    ///
    /// [`ControlFull`] exactly where the limits leave no room for one more call, tick or receive;
    /// then nothing changes.
    pub fn tick(&mut self, daemon: DaemonNo, ms: u32) -> Result<(), ControlFull>
        requires { IsDaemon self.old.limits daemon }
        ensures full { IsErr result ↔ (controls self.old.history ≡ self.old.limits.controls) }
        ensures stays { OnErr result (self.new ≡ self.old) }
        ensures entry { IfOk result (λ _. self.new ≡ grown self.old (Tick daemon ms)) }
    {
        if self.journal.controls_left() == 0 {
            return Err(ControlFull);
        }
        self.journal.facts();
        let number = self.journal.len() + 1;
        self.journal.push_tick(daemon, ms);
        tick(&mut self.live, &mut self.fates, ms, number);
        Ok(())
    }

    /// A daemon asks for the oldest unread report: none exactly where it is not the owner or
    /// nothing is unread.
    ///
    /// # Errors
    ///
    /// [`ControlFull`] exactly where the limits leave no room for one more call, tick or receive;
    /// then nothing changes.
    pub fn recv(&mut self, daemon: DaemonNo) -> Result<Option<Upcall>, ControlFull>
        requires { IsDaemon self.old.limits daemon }
        ensures full { IsErr result ↔ (controls self.old.history ≡ self.old.limits.controls) }
        ensures stays { OnErr result (self.new ≡ self.old) }
        ensures entry { IfOk result (λ m. self.new
            ≡ grown self.old (Recv daemon (option_map (λ u. u.id) m))) }
        ensures message { IfOk result (λ m. option_map (λ u. u.id) m
            ≡ message_for (state self.old.limits self.old.history) daemon) }
        ensures head { IfOk result (λ m. IfSome m (λ u.
            IsHeadOf self.old.history u.id.lane u.id.index u.head)) }
    {
        if self.journal.controls_left() == 0 {
            return Err(ControlFull);
        }
        let message = take(&mut self.live, daemon);
        self.journal.push_recv(daemon, id_of(&message));
        Ok(message)
    }

    /// A phase ends, of which one has to be left.
    pub fn end_phase(&mut self)
        requires { phases self.old.history < self.old.limits.phases }
        ensures { self.new ≡ grown self.old EndPhase }
    {
        self.journal.push_phase();
    }

    /// The tables.
    pub fn tables(&self) -> &Tables
        ensures tables { result.now.tables ≡ (state self.now.limits self.now.history).tables }
        ensures slots { result.now.slots ≡ self.now.limits.entries }
        ensures devices { result.now.devices ≡ self.now.limits.devices }
    {
        &self.live.tables
    }

    /// The journal, whose entries are the history.
    pub fn journal(&self) -> &Journal
        ensures entries { result.now.entries ≡ self.now.history }
        ensures limits { result.now.limits ≡ self.now.limits }
    {
        &self.journal
    }

    /// The milliseconds of all ticks so far.
    pub fn now(&self) -> u64
        ensures { result ≡ (state self.now.limits self.now.history).now }
    {
        self.live.moment
    }

    /// What the history ends with.
    ///
    /// # Errors
    ///
    /// [`Memory`] where memory runs out.
    pub fn ending(&self, alloc: Global) -> Result<Ending, Memory>
        ensures { IfOk result (λ e. e ≡ ending self.now.limits self.now.history) }
    {
        match self.gather(alloc) {
            Ok(ending) => Ok(ending),
            Err(AllocError) => Err(Memory),
        }
    }

    /// What the history ends with, put together.
    fn gather(&self, alloc: Global) -> Result<Ending, AllocError>
        ensures { IfOk result (λ e. e ≡ ending self.now.limits self.now.history) }
    {
        let routes = route_lines(alloc, self.live.tables.cache(), &self.journal)?;
        let vifs = vif_lines(alloc, self.live.tables.vifs(), &self.journal, &INDEXES)?;
        let fates = Vec::from_slice(alloc, self.fates.lines())?;
        Ok(Ending {
            routes: List(routes),
            vifs: List(vifs),
            fates: List(fates),
        })
    }
}

/// The name of a report, if there is one.
fn id_of(message: &Option<Upcall>) -> Option<MessageId>
    ensures { result ≡ option_map (λ u. u.id) message.now }
{
    match message {
        None => None,
        Some(upcall) => Some(upcall.id),
    }
}

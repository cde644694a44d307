ghost use Rattle.std.specs.Prelude.{◌≡◌, ◌<◌, ◌≤◌, ◌+◌, ◌-◌, length};
ghost use mathlib.Core.List.{IsPrefix};
ghost use Rattle.mr_book.specs.Rule.{OwnEntries};
ghost use Rattle.mr_book.specs.Views.{with_seen};
ghost use Rattle.mr_kernel.specs.Flows.{flow_of, back_by};
ghost use Rattle.mr_model.specs.declared.entry.Entry.TheVariants.{Slow};
ghost use Rattle.mr_model.specs.Legal.{packets_given};
ghost use Rattle.mr_model.specs.Past.{packets, last_index};
ghost use Rattle.mr_authors.specs.Authors.{own};
ghost use Rattle.mr_router.specs.Histories.{Makes};
ghost use Rattle.mr_router.specs.Seats.{IsSeatOf};

use crate::machine::Machine;
use crate::names::RunName;
use crate::router::Router;
use crate::seats;
use crate::signed::Signed;
use mr_base::{Gate, LaneNo};
use mr_book::{Book, BookName, Seat};
use mr_model::{Outcome, Packet};
use std::marker::{Model, PhantomData};
use std::sync::Wait;

/// What became of a packet.
#[derive(Debug, Drop)]
pub struct Handled {
    /// The number of its entry in the history, from 1.
    pub number: u32,
    pub outcome: Outcome,
    /// The packet itself, but where it waits.
    pub packet: Option<Packet>,
}

/// A lane of packets at the router `B` of the run `C`. Contracts see its number and the history as
/// it has last seen it. It may go to another thread.
#[derive(Drop)]
pub struct Lane<B: BookName, C: RunName> {
    pub(crate) seat: Seat<Signed, B>,
    pub(crate) number: LaneNo,
    // how many packets it has left
    pub(crate) left: u32,
    pub(crate) of: PhantomData<C>,
}

impl<B: BookName, C: RunName> Model for Lane<B, C> {
    ghost use Rattle.mr_router.specs.Callers.{LaneValue};
    ghost use Rattle.mr_router.specs.Seats.{HoldsLane};

    ghost Value = { LaneValue };

    ghost view = { λ l. record { lane = l.number; seen = l.seat.seen } };

    ghost invariant = { λ l. HoldsLane C.limits l.number l.left l.seat };
}

impl<B: BookName, C: RunName> Lane<B, C> {
    /// A packet of the lane is decided by the machine, under its lock: one entry, whose look is the
    /// history before it. The gate is asked while the lock is held. It is the lane's next packet,
    /// from one of the limits' devices, and one has to be left. It takes no memory.
    pub fn packet<R: Wait, G: Gate>(
        &mut self,
        rt: &R,
        router: &Router<B, C>,
        gate: &G,
        packet: Packet,
    ) -> Handled
        requires own { packet.lane ≡ self.old.lane }
        requires device { packet.dev ≤ length C.limits.devices }
        requires room { packets self.old.lane self.old.seen
            < packets_given C.limits self.old.lane }
        requires next { last_index self.old.lane self.old.seen < packet.index }
        ensures lane { self.new.lane ≡ self.old.lane }
        ensures entry { Makes C.limits self.old.lane.0 self.old.seen self.new.seen
            (Slow self.old.lane packet.index (result.number - 1) (flow_of packet) result.outcome) }
        ensures number { result.number ≡ length self.new.seen }
        ensures back { result.packet ≡ back_by result.outcome packet }
    {
        let mut guard = seats::take_lock(rt, &router.book, &mut self.seat);
        gate.pass(self.number, packet.index);
        let handled = guard.value.slow(self.number, packet);
        guard.commit();
        self.seat = guard.leave();
        self.left -= 1;
        handled
    }

    /// Packets that were forwarded without the lock would be counted here. There are none yet.
    pub fn settle<R: Wait>(&mut self, rt: &R, router: &Router<B, C>)
        ensures { self.new ≡ self.old }
    {
        let _ = rt;
        let _ = router;
    }

    /// How many packets the lane has left.
    pub fn left(&self) -> u32
        ensures { packets self.now.lane self.now.seen + result
            ≡ packets_given C.limits self.now.lane }
    {
        self.left
    }

    // `into` has then seen what the lane has seen, too
    pub(crate) fn gather(&mut self, book: &Book<Machine<C>, B>, into: &mut Seat<Signed, B>)
        ensures lane { self.new ≡ self.old }
        ensures into { into.new ≡ with_seen into.new.seen into.old }
        ensures all_of_lane { IsPrefix self.old.seen into.new.seen }
        ensures all_of_into { IsPrefix into.old.seen into.new.seen }
    {
        seats::gather(book, &mut self.seat, into);
    }

    // the lane has then seen just what `from` has, which is all that is counted
    pub(crate) fn announce<R: Wait>(
        &mut self,
        rt: &R,
        book: &Book<Machine<C>, B>,
        from: &mut Seat<Signed, B>,
        count: u64,
    )
        requires begins { IsPrefix self.old.seen from.old.seen }
        requires count { count ≡ length from.old.seen }
        ensures from { from.new ≡ from.old }
        ensures lane { self.new ≡ record self.old { seen = from.old.seen } }
        ensures own { own self.old.lane.0 from.old.seen ≡ own self.old.lane.0 self.old.seen }
    {
        seats::announce(rt, book, from, &mut self.seat, count);
    }

    // the lane's seat, which it needs no more
    pub(crate) fn into_seat(self) -> Seat<Signed, B>
        ensures seat { IsSeatOf self.lane.0 result }
        ensures seen { result.seen ≡ self.seen }
    {
        self.seat
    }
}

ghost use Rattle.std.specs.Prelude.{◌≡◌, ◌≤◌, ◌+◌, length, map, option_map, IfOk, IfErr, IfSome};
ghost use Rattle.std.specs.Prelude.{OnErr};
ghost use Rattle.std.specs.List.{AllByRecursion};
ghost use mathlib.Core.List.{IsPrefix};
ghost use Rattle.mr_book.specs.Views.{with_seen};
ghost use Rattle.mr_kernel.specs.Flows.{IsKnown, IsHeadOf, id_of};
ghost use Rattle.mr_model.specs.declared.entry.Entry.TheVariants.{Call, Tick, Recv};
ghost use Rattle.mr_model.specs.Past.{controls};
ghost use Rattle.mr_authors.specs.Authors.{own, daemon_author};
ghost use Rattle.mr_router.specs.Deeds.{AllHeard};
ghost use Rattle.mr_router.specs.Histories.{GoesOn, Makes};
ghost use Rattle.mr_router.specs.Seats.{IsSeatOf};

use crate::machine::Machine;
use crate::names::RunName;
use crate::router::Router;
use crate::seats;
use crate::signed::Signed;
use arrayvec::ArrayVec;
use mr_base::{ControlFull, DaemonNo};
use mr_book::{Book, BookName, Seat};
use mr_model::{CallError, Freed, Reply, Request};
use mr_unres::MOST_PACKETS;
use mr_upcall::Upcall;
use std::alloc::Global;
use std::marker::{Model, PhantomData};
use std::sync::Wait;

/// A daemon at the router `B` of the run `C`. Contracts see its number and the history as it has
/// last seen it. It may go to another thread.
#[derive(Drop)]
pub struct Daemon<B: BookName, C: RunName> {
    pub(crate) seat: Seat<Signed, B>,
    pub(crate) number: DaemonNo,
    // how many control entries were left in what it has seen
    pub(crate) left: u32,
    pub(crate) of: PhantomData<C>,
}

impl<B: BookName, C: RunName> Model for Daemon<B, C> {
    ghost use Rattle.mr_router.specs.Callers.{DaemonValue};
    ghost use Rattle.mr_router.specs.Seats.{HoldsDaemon};

    ghost Value = { DaemonValue };

    ghost view = { λ d. record { daemon = d.number; seen = d.seat.seen } };

    ghost invariant = { λ d. HoldsDaemon C.limits d.number d.left d.seat };
}

impl<B: BookName, C: RunName> Daemon<B, C> {
    /// A control call: the machine's answer, and the packets that it released, oldest first, with
    /// what became of each. `alloc` is for what a change of the tables takes, which is nothing yet.
    ///
    /// # Errors
    ///
    /// [`CallError::ControlFull`] exactly where no control entry is left when the lock is got; then
    /// there is no entry, and the daemon has seen a history with none left. No other error comes
    /// yet.
    pub fn call<R: Wait>(
        &mut self,
        rt: &R,
        alloc: Global,
        router: &Router<B, C>,
        request: &Request,
    ) -> Result<(Reply, ArrayVec<Freed, MOST_PACKETS>), CallError>
        ensures daemon { self.new.daemon ≡ self.old.daemon }
        ensures entry { IfOk result (λ r.
            Makes C.limits (daemon_author self.old.daemon.0) self.old.seen self.new.seen
            (Call self.old.daemon request.now r.0 (map id_of r.1.items))) }
        ensures packets { IfOk result (λ r.
            AllByRecursion (λ f. IsKnown self.new.seen f.packet) r.1.items) }
        ensures goes_on { OnErr result
            (GoesOn C.limits (daemon_author self.old.daemon.0) self.old.seen self.new.seen) }
        ensures full { OnErr result (controls self.new.seen ≡ C.limits.controls) }
        ensures error { IfErr result (λ e. e ≡ CallError.ControlFull) }
    {
        let _ = alloc;
        let mut guard = seats::take_lock(rt, &router.book, &mut self.seat);
        let Ok(answer) = guard.value.call(self.number, request) else {
            self.left = 0;
            self.seat = guard.leave();
            return Err(CallError::ControlFull);
        };
        guard.commit();
        self.left = guard.value.controls_left();
        self.seat = guard.leave();
        Ok(answer)
    }

    /// Asks for the oldest unread report: none exactly where the daemon is not the owner or nothing
    /// is unread. It takes no memory.
    ///
    /// # Errors
    ///
    /// [`ControlFull`] exactly where no control entry is left when the lock is got; then there is
    /// no entry, and the daemon has seen a history with none left.
    pub fn recv<R: Wait>(
        &mut self,
        rt: &R,
        router: &Router<B, C>,
    ) -> Result<Option<Upcall>, ControlFull>
        ensures daemon { self.new.daemon ≡ self.old.daemon }
        ensures entry { IfOk result (λ m.
            Makes C.limits (daemon_author self.old.daemon.0) self.old.seen self.new.seen
            (Recv self.old.daemon (option_map (λ u. u.id) m))) }
        ensures head { IfOk result (λ m. IfSome m (λ u.
            IsHeadOf self.new.seen u.id.lane u.id.index u.head)) }
        ensures goes_on { OnErr result
            (GoesOn C.limits (daemon_author self.old.daemon.0) self.old.seen self.new.seen) }
        ensures full { OnErr result (controls self.new.seen ≡ C.limits.controls) }
    {
        let mut guard = seats::take_lock(rt, &router.book, &mut self.seat);
        let Ok(message) = guard.value.recv(self.number) else {
            self.left = 0;
            self.seat = guard.leave();
            return Err(ControlFull);
        };
        guard.commit();
        self.left = guard.value.controls_left();
        self.seat = guard.leave();
        Ok(message)
    }

    /// Lets so many milliseconds pass. It takes no memory.
    ///
    /// # Errors
    ///
    /// [`ControlFull`] exactly where no control entry is left when the lock is got; then there is
    /// no entry, and the daemon has seen a history with none left.
    pub fn tick<R: Wait>(
        &mut self,
        rt: &R,
        router: &Router<B, C>,
        ms: u32,
    ) -> Result<(), ControlFull>
        ensures daemon { self.new.daemon ≡ self.old.daemon }
        ensures entry { IfOk result (λ _.
            Makes C.limits (daemon_author self.old.daemon.0) self.old.seen self.new.seen
            (Tick self.old.daemon ms)) }
        ensures goes_on { OnErr result
            (GoesOn C.limits (daemon_author self.old.daemon.0) self.old.seen self.new.seen) }
        ensures full { OnErr result (controls self.new.seen ≡ C.limits.controls) }
    {
        let mut guard = seats::take_lock(rt, &router.book, &mut self.seat);
        let Ok(()) = guard.value.tick(self.number, ms) else {
            self.left = 0;
            self.seat = guard.leave();
            return Err(ControlFull);
        };
        guard.commit();
        self.left = guard.value.controls_left();
        self.seat = guard.leave();
        Ok(())
    }

    /// How many control entries are left in what the daemon has seen.
    pub fn left(&self) -> u32
        ensures { controls self.now.seen + result ≡ C.limits.controls }
    {
        self.left
    }

    /// Of each report that the daemon got, the packet's Slow stands in what it has seen, so what it
    /// did is the same in any longer history.
    pub fn facts(&self)
        ensures { AllHeard self.now.seen (own (daemon_author self.now.daemon.0) self.now.seen) }
    {
        let _ = &self.seat;
    }

    // `into` has then seen what the daemon has seen, too
    pub(crate) fn gather(&mut self, book: &Book<Machine<C>, B>, into: &mut Seat<Signed, B>)
        ensures daemon { self.new ≡ self.old }
        ensures into { into.new ≡ with_seen into.new.seen into.old }
        ensures all_of_daemon { IsPrefix self.old.seen into.new.seen }
        ensures all_of_into { IsPrefix into.old.seen into.new.seen }
    {
        seats::gather(book, &mut self.seat, into);
    }

    // the daemon has then seen just what `from` has, which is all that is counted
    pub(crate) fn announce<R: Wait>(
        &mut self,
        rt: &R,
        book: &Book<Machine<C>, B>,
        from: &mut Seat<Signed, B>,
        count: u64,
        left: u32,
    )
        requires begins { IsPrefix self.old.seen from.old.seen }
        requires count { count ≡ length from.old.seen }
        requires left { controls from.old.seen + left ≡ C.limits.controls }
        ensures from { from.new ≡ from.old }
        ensures daemon { self.new ≡ record self.old { seen = from.old.seen } }
        ensures own { own (daemon_author self.old.daemon.0) from.old.seen
            ≡ own (daemon_author self.old.daemon.0) self.old.seen }
    {
        seats::announce(rt, book, from, &mut self.seat, count);
        self.left = left;
    }

    // the daemon's seat, which it needs no more
    pub(crate) fn into_seat(self) -> Seat<Signed, B>
        ensures seat { IsSeatOf (daemon_author self.daemon.0) result }
        ensures seen { result.seen ≡ self.seen }
    {
        self.seat
    }
}

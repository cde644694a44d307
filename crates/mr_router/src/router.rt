ghost use Rattle.std.specs.Prelude.{◌≡◌, ◌<◌, ◌+◌, [], length, map, All, IfOk};
ghost use mathlib.Core.List.{IsPrefix};
ghost use Rattle.mr_history.specs.Fits.{FitsLimits};
ghost use Rattle.mr_model.specs.declared.entry.Entry.TheVariants.{EndPhase};
ghost use Rattle.mr_model.specs.Legal.{IsLegal};
ghost use Rattle.mr_model.specs.Past.{controls, phases};
ghost use Rattle.mr_authors.specs.Authors.{own, daemon_author};
ghost use Rattle.mr_router.specs.Callers.{new_lanes, new_daemons, lane_sees, daemon_sees};
ghost use Rattle.mr_router.specs.Histories.{GoesOn, Ends};
ghost use Rattle.mr_router.specs.Seats.{AddsEnd, HoldsRouter, IsRouterSeat, first_own};

use crate::daemon::Daemon;
use crate::lane::Lane;
use crate::machine::Machine;
use crate::names::RunName;
use crate::opened::Opened;
use crate::signed::Signed;
use crate::{loops, seats};
use mr_base::Memory;
use mr_book::{Book, BookName, Journaled, Seat};
use mr_kernel::Kernel;
use mr_model::Limits;
use std::alloc::Global;
use std::marker::Model;
use std::sync::Wait;

/// What lanes and daemons share: the machine behind its lock. Contracts see the history as the
/// router itself has last seen it. It must be spent by `close`.
pub struct Router<B: BookName, C: RunName>
where
    Machine<C>: Journaled<Entry = Signed>,
{
    pub(crate) book: Book<Machine<C>, B>,
    pub(crate) seat: Seat<Signed, B>,
}

impl<B: BookName, C: RunName> Model for Router<B, C>
where
    Machine<C>: Journaled<Entry = Signed>,
{
    ghost use Rattle.std.specs.Prelude.{List};
    ghost use Rattle.mr_model.specs.declared.entry.Entry.{Entry};
    ghost use Rattle.mr_router.specs.Seats.{HoldsRouter};

    ghost Value = { List Entry };

    ghost view = { λ r. r.seat.seen };

    ghost invariant = { λ r. HoldsRouter r.seat };
}

/// A router with all its lanes and daemons.
pub struct Team<B: BookName, C: RunName> {
    pub router: Router<B, C>,
    /// Lane L stands at L - 1.
    pub lanes: Vec<Lane<B, C>>,
    /// Daemon D stands at D - 1.
    pub daemons: Vec<Daemon<B, C>>,
}

impl<B: BookName, C: RunName> Router<B, C> {
    /// An opened router under its name, with a lane and a daemon for each that the limits have.
    /// None of them has seen anything.
    ///
    /// # Errors
    ///
    /// [`Memory`] where memory runs out.
    pub fn open<R: Wait>(
        opened: Opened<C>,
        rt: &R,
        alloc: Global,
        limits: &Limits,
    ) -> Result<Team<B, C>, Memory>
        requires named { opened ≡ B.table }
        requires limits { limits.now ≡ C.limits }
        requires fits { FitsLimits limits.now }
        ensures router { IfOk result (λ t. t.router ≡ []) }
        ensures lanes { IfOk result (λ t. t.lanes.items ≡ new_lanes (length C.limits.packets)) }
        ensures daemons { IfOk result (λ t.
            t.daemons.items ≡ new_daemons (length C.limits.admins)) }
    {
        let Opened { book } = opened;
        let (book, mut dealer) = book.named::<B>();
        let mut seat = book.deal(&mut dealer);
        let room = loops::make_room(alloc, limits);
        let Ok(room) = room else {
            drop(book.close(rt, seat).into_kernel());
            return Err(Memory);
        };
        let lanes = loops::deal_lanes(&book, &mut dealer, &mut seat, limits, room.lanes);
        let daemons = loops::deal_daemons(&book, &mut dealer, &mut seat, limits, room.daemons);
        Ok(Team {
            router: Router { book, seat },
            lanes,
            daemons,
        })
    }

    /// A phase ends, of which one has to be left: one entry, of the router itself. All that the
    /// lanes and daemons have seen stands before it, and each of them has then seen the history
    /// with it. They are all that `open` gave. It takes no memory.
    pub fn end_phase<R: Wait>(
        &mut self,
        rt: &R,
        lanes: &mut [Lane<B, C>],
        daemons: &mut [Daemon<B, C>],
    )
        requires room { phases (own 0 self.old) < C.limits.phases }
        ensures ends { Ends C.limits self.old self.new lanes.old daemons.old }
        ensures lanes { lanes.new ≡ map (lane_sees self.new) lanes.old }
        ensures daemons { daemons.new ≡ map (daemon_sees self.new) daemons.old }
        ensures own_of_lanes { All (λ l. own l.lane.0 self.new ≡ own l.lane.0 l.seen) lanes.old }
        ensures own_of_daemons { All (λ d.
            own (daemon_author d.daemon.0) self.new ≡ own (daemon_author d.daemon.0) d.seen)
            daemons.old }
    {
        loops::gather_lanes(&self.book, lanes, &mut self.seat);
        loops::gather_daemons(&self.book, daemons, &mut self.seat);
        let end = add_end(rt, &self.book, &mut self.seat);
        loops::announce_lanes(rt, &self.book, &mut self.seat, end.count, lanes);
        loops::announce_daemons(rt, &self.book, &mut self.seat, end, daemons);
    }

    /// The machine, once no thread shares it: its history begins with all that the router, the
    /// lanes and the daemons have seen, and has of each just the entries that it made. They are all
    /// that `open` gave. It takes no memory.
    pub fn close<R: Wait>(
        self,
        rt: &R,
        lanes: Vec<Lane<B, C>>,
        daemons: Vec<Daemon<B, C>>,
    ) -> Kernel
        ensures limits { result.limits ≡ C.limits }
        ensures legal { IsLegal C.limits result.history }
        ensures router { GoesOn C.limits 0 self result.history }
        ensures lanes { All (λ l. GoesOn C.limits l.lane.0 l.seen result.history) lanes.items }
        ensures daemons { All (λ d.
            GoesOn C.limits (daemon_author d.daemon.0) d.seen result.history) daemons.items }
    {
        let Router { book, mut seat } = self;
        loops::meet_lanes(&book, &mut seat, lanes);
        loops::meet_daemons(&book, &mut seat, daemons);
        book.close(rt, seat).into_kernel()
    }
}

/// The end of a phase as it is told to lanes and daemons.
#[derive(Clone, Copy)]
pub(crate) struct PhaseEnd {
    /// Its number, which is the history's length.
    pub count: u64,
    /// How many control entries are left.
    pub left: u32,
}

// The router makes its entry.
fn add_end<B: BookName, C: RunName, R: Wait>(
    rt: &R,
    book: &Book<Machine<C>, B>,
    seat: &mut Seat<Signed, B>,
) -> PhaseEnd
    requires router { IsRouterSeat (first_own seat.old.owns) seat.old }
    requires room { phases (first_own seat.old.owns) < C.limits.phases }
    ensures router { HoldsRouter seat.new }
    ensures adds { AddsEnd C.limits seat.old seat.new }
    ensures count { result.count ≡ length seat.new.seen }
    ensures left { controls seat.new.seen + result.left ≡ C.limits.controls }
{
    let mut guard = seats::take_lock(rt, book, seat);
    guard.value.end_phase();
    guard.commit();
    let end = PhaseEnd {
        count: guard.count(),
        left: guard.value.controls_left(),
    };
    *seat = guard.leave();
    end
}

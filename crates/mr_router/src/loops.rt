//! What the router does for each of its lanes and daemons.

ghost use Rattle.std.specs.Prelude.{◌≡◌, ◌≤◌, ◌+◌, ◌-◌, [], length, map, All, IfOk};
ghost use Rattle.std.specs.Vec.{vec_capacity, vec_len};
ghost use mathlib.Core.List.{IsPrefix};
ghost use Rattle.mr_book.specs.Views.{with_seen};
ghost use Rattle.mr_history.specs.Fits.{FitsLimits};
ghost use Rattle.mr_history.specs.declared.most.TheConstants.{MOST_LANES, MOST_DAEMONS};
ghost use Rattle.mr_model.specs.Past.{controls};
ghost use Rattle.mr_authors.specs.Authors.{own, daemon_author};
ghost use Rattle.mr_router.specs.Callers.{new_lanes, new_daemons, lane_sees, daemon_sees};
ghost use Rattle.mr_router.specs.Seats.{HoldsRouter, KnowsAll, KnowsLane, KnowsDaemon};

use crate::daemon::Daemon;
use crate::lane::Lane;
use crate::machine::Machine;
use crate::names::RunName;
use crate::router::PhaseEnd;
use crate::signed::Signed;
use mr_base::{DaemonNo, LaneNo, Memory};
use mr_book::{Book, BookName, Dealer, Seat};
use mr_history::{MOST_DAEMONS, MOST_LANES};
use mr_model::Limits;
use std::alloc::Global;
use std::marker::PhantomData;
use std::sync::Wait;

/// Empty lists with room for all lanes and daemons.
#[derive(Drop)]
pub struct Places<B: BookName, C: RunName> {
    pub lanes: Vec<Lane<B, C>>,
    pub daemons: Vec<Daemon<B, C>>,
}

/// Room for the lanes and daemons of these limits.
///
/// # Errors
///
/// [`Memory`] where memory runs out.
pub fn make_room<B: BookName, C: RunName>(
    alloc: Global,
    limits: &Limits,
) -> Result<Places<B, C>, Memory>
    ensures empty { IfOk result (λ p. (p.lanes.items ≡ []) × (p.daemons.items ≡ [])) }
    ensures lanes { IfOk result (λ p.
        vec_len p.lanes + length limits.now.packets ≤ vec_capacity p.lanes) }
    ensures daemons { IfOk result (λ p.
        vec_len p.daemons + length limits.now.admins ≤ vec_capacity p.daemons) }
{
    let Ok(lanes) = Vec::with_capacity(alloc, limits.packets.0.len()) else {
        return Err(Memory);
    };
    let Ok(daemons) = Vec::with_capacity(alloc, limits.admins.0.len()) else {
        return Err(Memory);
    };
    Ok(Places { lanes, daemons })
}

/// Gives each lane its seat. Those of lanes that there are not are met into the router's.
pub fn deal_lanes<B: BookName, C: RunName>(
    book: &Book<Machine<C>, B>,
    dealer: &mut Dealer<Signed, B>,
    router: &mut Seat<Signed, B>,
    limits: &Limits,
    mut lanes: Vec<Lane<B, C>>,
) -> Vec<Lane<B, C>>
    requires limits { limits.now ≡ C.limits }
    requires fits { FitsLimits limits.now }
    requires empty { lanes.items ≡ [] }
    requires room { vec_len lanes + length limits.now.packets ≤ vec_capacity lanes }
    requires dealer { dealer.old ≡ record { next = 1; left = MOST_LANES + MOST_DAEMONS } }
    requires router { HoldsRouter router.old }
    requires nothing_seen { router.old.seen ≡ [] }
    ensures lanes { result.items ≡ new_lanes (length limits.now.packets) }
    ensures dealer { dealer.new ≡ record { next = 1 + MOST_LANES; left = MOST_DAEMONS } }
    ensures router { HoldsRouter router.new }
    ensures still_nothing_seen { router.new.seen ≡ [] }
{
    let counts = limits.packets.0.as_slice();
    for index in 0..counts.len() {
        let number = index as u32 + 1;
        lanes.push_reserved(Lane {
            seat: book.deal(dealer),
            number: LaneNo(number),
            left: counts[index],
            of: PhantomData,
        });
    }
    meet_spares(
        book,
        dealer,
        router,
        MOST_LANES as u32 - counts.len() as u32,
    );
    lanes
}

/// Gives each daemon its seat. Those of daemons that there are not are met into the router's.
pub fn deal_daemons<B: BookName, C: RunName>(
    book: &Book<Machine<C>, B>,
    dealer: &mut Dealer<Signed, B>,
    router: &mut Seat<Signed, B>,
    limits: &Limits,
    mut daemons: Vec<Daemon<B, C>>,
) -> Vec<Daemon<B, C>>
    requires limits { limits.now ≡ C.limits }
    requires fits { FitsLimits limits.now }
    requires empty { daemons.items ≡ [] }
    requires room { vec_len daemons + length limits.now.admins ≤ vec_capacity daemons }
    requires dealer { dealer.old ≡ record { next = 1 + MOST_LANES; left = MOST_DAEMONS } }
    requires router { HoldsRouter router.old }
    requires nothing_seen { router.old.seen ≡ [] }
    ensures daemons { result.items ≡ new_daemons (length limits.now.admins) }
    ensures router { HoldsRouter router.new }
    ensures still_nothing_seen { router.new.seen ≡ [] }
{
    let count = limits.admins.0.len();
    for index in 0..count {
        let number = index as u32 + 1;
        daemons.push_reserved(Daemon {
            seat: book.deal(dealer),
            number: DaemonNo(number),
            left: limits.controls,
            of: PhantomData,
        });
    }
    meet_spares(book, dealer, router, MOST_DAEMONS as u32 - count as u32);
    daemons
}

// the router answers for the next numbers, which no lane or daemon has
fn meet_spares<B: BookName, C: RunName>(
    book: &Book<Machine<C>, B>,
    dealer: &mut Dealer<Signed, B>,
    router: &mut Seat<Signed, B>,
    count: u32,
)
    requires some { count ≤ dealer.old.left }
    requires router { HoldsRouter router.old }
    requires nothing_seen { router.old.seen ≡ [] }
    ensures dealer { dealer.new
        ≡ record { next = dealer.old.next + count; left = dealer.old.left - count } }
    ensures router { HoldsRouter router.new }
    ensures still_nothing_seen { router.new.seen ≡ [] }
{
    for met in 0..count {
        let seat = book.deal(dealer);
        book.meet(seat, router);
    }
}

/// The router has then seen what each lane has seen.
pub fn gather_lanes<B: BookName, C: RunName>(
    book: &Book<Machine<C>, B>,
    lanes: &mut [Lane<B, C>],
    router: &mut Seat<Signed, B>,
)
    ensures lanes { lanes.new ≡ lanes.old }
    ensures router { router.new ≡ with_seen router.new.seen router.old }
    ensures all_of_router { IsPrefix router.old.seen router.new.seen }
    ensures all_of_lanes { All (λ l. IsPrefix l.seen router.new.seen) lanes.old }
{
    for index in 0..lanes.len() {
        lanes[index].gather(book, router);
    }
}

/// The router has then seen what each daemon has seen.
pub fn gather_daemons<B: BookName, C: RunName>(
    book: &Book<Machine<C>, B>,
    daemons: &mut [Daemon<B, C>],
    router: &mut Seat<Signed, B>,
)
    ensures daemons { daemons.new ≡ daemons.old }
    ensures router { router.new ≡ with_seen router.new.seen router.old }
    ensures all_of_router { IsPrefix router.old.seen router.new.seen }
    ensures all_of_daemons { All (λ d. IsPrefix d.seen router.new.seen) daemons.old }
{
    for index in 0..daemons.len() {
        daemons[index].gather(book, router);
    }
}

/// Each lane has then seen just what the router has.
pub fn announce_lanes<B: BookName, C: RunName, R: Wait>(
    rt: &R,
    book: &Book<Machine<C>, B>,
    router: &mut Seat<Signed, B>,
    count: u64,
    lanes: &mut [Lane<B, C>],
)
    requires begins { All (λ l. IsPrefix l.seen router.old.seen) lanes.old }
    requires count { count ≡ length router.old.seen }
    ensures router { router.new ≡ router.old }
    ensures lanes { lanes.new ≡ map (lane_sees router.old.seen) lanes.old }
    ensures own { All (λ l. own l.lane.0 router.old.seen ≡ own l.lane.0 l.seen) lanes.old }
{
    for index in 0..lanes.len() {
        lanes[index].announce(rt, book, router, count);
    }
}

/// Each daemon has then seen just what the router has.
pub fn announce_daemons<B: BookName, C: RunName, R: Wait>(
    rt: &R,
    book: &Book<Machine<C>, B>,
    router: &mut Seat<Signed, B>,
    end: PhaseEnd,
    daemons: &mut [Daemon<B, C>],
)
    requires begins { All (λ d. IsPrefix d.seen router.old.seen) daemons.old }
    requires count { end.count ≡ length router.old.seen }
    requires left { controls router.old.seen + end.left ≡ C.limits.controls }
    ensures router { router.new ≡ router.old }
    ensures daemons { daemons.new ≡ map (daemon_sees router.old.seen) daemons.old }
    ensures own { All (λ d.
        own (daemon_author d.daemon.0) router.old.seen ≡ own (daemon_author d.daemon.0) d.seen)
        daemons.old }
{
    for index in 0..daemons.len() {
        daemons[index].announce(rt, book, router, end.count, end.left);
    }
}

/// The router's seat then knows all that it did, and all that the lanes did.
pub fn meet_lanes<B: BookName, C: RunName>(
    book: &Book<Machine<C>, B>,
    router: &mut Seat<Signed, B>,
    mut lanes: Vec<Lane<B, C>>,
)
    ensures router { KnowsAll router.new router.old }
    ensures lanes { All (KnowsLane router.new) lanes.items }
{
    while let Some(lane) = lanes.pop() {
        book.meet(lane.into_seat(), router);
    }
}

/// The router's seat then knows all that it did, and all that the daemons did.
pub fn meet_daemons<B: BookName, C: RunName>(
    book: &Book<Machine<C>, B>,
    router: &mut Seat<Signed, B>,
    mut daemons: Vec<Daemon<B, C>>,
)
    ensures router { KnowsAll router.new router.old }
    ensures daemons { All (KnowsDaemon router.new) daemons.items }
{
    while let Some(daemon) = daemons.pop() {
        book.meet(daemon.into_seat(), router);
    }
}

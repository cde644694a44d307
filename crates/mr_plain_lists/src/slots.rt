//! Entries at places, oldest first, each leading to the next older one of its source and group.

ghost use Rattle.std.specs.Prelude.{◌≡◌, ℕ, ◌≤◌, ◌&&◌, Bool, Some, if◌then◌else◌, find, length};
ghost use Rattle.std.specs.Prelude.{map, IfOk, IfSome, IfNone};
ghost use Rattle.std.specs.HashMap.{get, spare};
ghost use Rattle.mr_base.specs.declared.numbers.Addr.{Addr};
ghost use Rattle.mr_base.specs.declared.route.Route.{Route};
ghost use Rattle.mr_model.specs.RouteList.{is_entry};
ghost use Rattle.mr_plain_lists.specs.Finding.{Answers};
ghost use Rattle.mr_plain_lists.specs.Indexed.{AreLinked, Leads, oldest_first, newest_first, reach};
ghost use Rattle.mr_plain_lists.specs.Indexed.{IsNewest, NoneOf, same_key, flushed};

use mr_base::{Addr, Route};
use std::alloc::{AllocError, Global};
use std::collections::HashMap;

/// From a source and group to how many places there are up to its newest entry.
pub(crate) type Index = HashMap<(u32, u32), usize>;

/// An entry, also once it is gone.
#[derive(Clone, Copy, Debug)]
pub struct Slot {
    pub route: Route,
    /// Whether it is there.
    pub live: bool,
    /// How many places there are up to the next older one of its source and group; 0 for none.
    pub older: usize,
}

/// The newest entry of a source and group that passes a test; there are `from` places up to the
/// newest of them all. No other entry is looked at.
pub(crate) fn first_from<F: Fn(&Route) -> bool>(
    slots: &[Slot],
    from: usize,
    src: Addr,
    dst: Addr,
    test: F,
) -> Option<Route>
    requires test { F.IsAlwaysCallable test }
    requires linked { AreLinked slots.now }
    requires from { Leads slots.now from (length slots.now) src dst }
    ensures { (t : Route → Bool) → Answers F.Fn test t →
        result ≡ find (λ r. is_entry src dst r && t r) (newest_first slots.now) }
{
    let mut reach = from;
    while 0 < reach {
        let slot = slots[reach - 1];
        if slot.live && test(&slot.route) {
            return Some(slot.route);
        }
        reach = slot.older;
    }
    None
}

/// The way to the newest entry that is there, past those that are gone.
pub(crate) fn past_gone(slots: &[Slot], from: usize) -> usize
    requires linked { AreLinked slots.now }
    requires from { from ≤ length slots.now }
    ensures { (src dst : Addr) → Leads slots.now from (length slots.now) src dst →
        Leads slots.now result (length slots.now) src dst }
{
    let mut reach = from;
    while 0 < reach {
        let slot = slots[reach - 1];
        if slot.live {
            return reach;
        }
        reach = slot.older;
    }
    reach
}

/// The place of the newest entry of a number.
pub(crate) fn place_of(slots: &[Slot], number: u32) -> Option<usize>
    ensures some { IfSome result (IsNewest number slots.now) }
    ensures none { IfNone result (NoneOf number slots.now) }
{
    let mut reach = slots.len();
    while 0 < reach {
        let slot = slots[reach - 1];
        reach -= 1;
        if slot.live && slot.route.number == number {
            return Some(reach);
        }
    }
    None
}

/// How many entries are there.
pub(crate) fn count_live(slots: &[Slot]) -> usize
    ensures { result ≡ length (oldest_first slots.now) }
{
    let mut count = 0usize;
    for slot in slots {
        if slot.live {
            count += 1;
        }
    }
    count
}

/// An entry after a flush.
fn flushed(slot: Slot, loose: bool, fixed: bool) -> Slot
    ensures { result ≡ flushed loose fixed slot }
{
    let goes = if slot.route.fixed { fixed } else { loose };
    Slot {
        live: slot.live && !goes,
        ..slot
    }
}

/// The static entries go, where `fixed`, and the others, where `loose`.
pub(crate) fn flush_slots(slots: &mut Vec<Slot>, loose: bool, fixed: bool)
    ensures { slots.new.items ≡ map (flushed loose fixed) slots.old.items }
{
    for i in 0..slots.len() {
        slots[i] = flushed(slots[i], loose, fixed);
    }
}

/// The entries that are there, oldest first.
pub(crate) fn live_routes(alloc: Global, slots: &[Slot]) -> Result<Vec<Route>, AllocError>
    ensures { IfOk result (λ v. v.items ≡ oldest_first slots.now) }
{
    let mut routes = Vec::new(alloc);
    for slot in slots {
        if slot.live {
            routes.push(slot.route)?;
        }
    }
    Ok(routes)
}

/// How many places there are up to the newest entry of a source and group.
pub(crate) fn reach_of(index: &Index, src: Addr, dst: Addr) -> usize
    ensures { result ≡ reach index.now src dst }
{
    match index.get(&(src.0, dst.0)) {
        Some(reach) => *reach,
        None => 0,
    }
}

/// Leads a key to so many places. It takes no memory.
pub(crate) fn lead(index: &mut Index, src: Addr, dst: Addr, places: usize)
    requires { 1 ≤ spare index.old }
    ensures { (q : ℕ × ℕ) → get same_key index.new q
        ≡ (if same_key (src.0, dst.0) q then Some places else get same_key index.old q) }
{
    match index.insert((src.0, dst.0), places) {
        Ok(_) => {}
        Err(_) => unreachable!(),
    }
}

//! The (S,G) entries, found by source and group in time that does not grow with their number.

ghost use Rattle.std.specs.Prelude.{◌≡◌, ◌∷◌, ◌&&◌, [], Bool, find, length, reverse, IfOk, OnOk};
ghost use Rattle.mr_base.specs.declared.route.Route.{Route};
ghost use Rattle.mr_model.specs.RouteList.{is_entry, has_number, routes_left, changed_to};
ghost use Rattle.mr_model.specs.RouteList.{change_first, remove_first};
ghost use Rattle.mr_plain_lists.specs.Finding.{Answers, HasPlace};

use crate::slots::{
    Index, Slot, count_live, first_from, flush_slots, lead, live_routes, past_gone, place_of,
    reach_of,
};
use mr_base::{Addr, Route};
use std::alloc::{AllocError, Global};
use std::collections::HashMap;
use std::marker::Model;

/// The entries. Contracts see them newest first, and the room that is left.
#[derive(Debug, Drop)]
pub struct Routes {
    /// Oldest first, also those that are gone.
    slots: Vec<Slot>,
    index: Index,
    /// How many are there.
    count: usize,
}

impl Model for Routes {
    ghost use Rattle.std.specs.Prelude.{◌-◌};
    ghost use Rattle.std.specs.HashMap.{spare};
    ghost use Rattle.std.specs.Vec.{vec_len, vec_capacity};
    ghost use Rattle.mr_plain_lists.specs.Finding.{RoutesValue};
    ghost use Rattle.mr_plain_lists.specs.Indexed.{IsIndexed, newest_first};

    ghost Value = { RoutesValue };

    ghost view = { λ r. record {
      items = newest_first r.slots.items;
      places = vec_capacity r.slots - vec_len r.slots;
      keys = spare r.index;
    } };

    ghost invariant = { λ r. IsIndexed r.slots.items r.index r.count };
}

impl Routes {
    /// No entry is there.
    pub fn new(alloc: Global) -> Routes
        ensures { result.items ≡ [] }
    {
        Routes {
            slots: Vec::new(alloc),
            index: HashMap::new(alloc),
            count: 0,
        }
    }

    /// How many entries are there.
    pub fn len(&self) -> usize
        ensures { result ≡ length self.now.items }
    {
        self.count
    }

    /// The newest entry of a source and group that passes a test.
    pub fn first<F: Fn(&Route) -> bool>(&self, src: Addr, dst: Addr, test: F) -> Option<Route>
        requires { F.IsAlwaysCallable test }
        ensures { (t : Route → Bool) → Answers F.Fn test t →
            result ≡ find (λ r. is_entry src dst r && t r) self.now.items }
    {
        let from = reach_of(&self.index, src, dst);
        first_from(self.slots.as_slice(), from, src, dst, test)
    }

    /// Room for one more entry.
    ///
    /// # Errors
    ///
    /// [`AllocError`] where memory runs out.
    pub fn reserve(&mut self) -> Result<(), AllocError>
        ensures same { self.new.items ≡ self.old.items }
        ensures room { OnOk result (HasPlace self.new) }
    {
        self.slots.reserve(1)?;
        self.index.reserve(1)
    }

    /// A new entry stands first.
    pub fn add(&mut self, route: Route)
        requires { HasPlace self.old }
        ensures { self.new.items ≡ route ∷ self.old.items }
    {
        let newest = reach_of(&self.index, route.src, route.dst);
        let older = past_gone(self.slots.as_slice(), newest);
        let live = true;
        self.slots.push_reserved(Slot { route, live, older });
        let places = self.slots.as_slice().len();
        lead(&mut self.index, route.src, route.dst, places);
        self.count += 1;
    }

    /// Changes the first entry of this number, if there is one.
    pub fn change(&mut self, target: u32, parent: u8, ttls: [u8; 32], fixed: bool)
        ensures { self.new.items ≡ change_first (has_number target)
            (changed_to parent ttls fixed) self.old.items }
    {
        let place = place_of(self.slots.as_slice(), target);
        if let Some(at) = place {
            let route = &mut self.slots[at].route;
            route.parent = parent;
            route.ttls = ttls;
            route.fixed = fixed;
        }
    }

    /// Takes out the first entry of this number, if there is one.
    pub fn remove(&mut self, target: u32)
        ensures { self.new.items ≡ remove_first (has_number target) self.old.items }
    {
        let place = place_of(self.slots.as_slice(), target);
        if let Some(at) = place {
            self.slots[at].live = false;
            self.count -= 1;
        }
    }

    /// Takes out the static entries, where `fixed`, and the others, where `loose`.
    pub fn flush(&mut self, loose: bool, fixed: bool)
        ensures { self.new.items ≡ routes_left loose fixed self.old.items }
    {
        flush_slots(&mut self.slots, loose, fixed);
        self.count = count_live(self.slots.as_slice());
    }

    /// The entries, oldest first.
    ///
    /// # Errors
    ///
    /// [`AllocError`] where memory runs out.
    pub fn oldest_first(&self, alloc: Global) -> Result<Vec<Route>, AllocError>
        ensures { IfOk result (λ v. v.items ≡ reverse self.now.items) }
    {
        live_routes(alloc, self.slots.as_slice())
    }
}

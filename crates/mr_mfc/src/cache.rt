//! The entries of a table.

ghost use Rattle.std.specs.Prelude.{◌≡◌, ◌<◌, ◌≤◌, [], ◌∷◌, length, nat_lt, nat_le, find, IsTrue};
ghost use Rattle.std.specs.Prelude.{IfOk, IfSome};
ghost use Rattle.std.specs.List.{list_any};
ghost use Rattle.mr_model.specs.RouteList.{is_named, has_number, changed_to, change_first};
ghost use Rattle.mr_model.specs.RouteList.{remove_first, routes_left};
ghost use Rattle.mr_model.specs.Found.{proxy_in, star_in, is_proxied};
ghost use Rattle.mr_mfc.specs.Caches.{is_above, IsFalling};
ghost use Rattle.mr_mfc.specs.declared.cache.TheConstants.{MOST_SLOTS};

use crate::matching::changed_to;
use crate::search::{first_below, first_named, is_above, is_proxied, place_of, proxy_in, star_in};
use mr_base::{Addr, Memory, Route};
use std::alloc::Global;
use std::marker::Model;

/// The most entries for which a cache can be made.
pub const MOST_SLOTS: u32 = mr_base::MOST_ENTRIES;

/// The multicast forwarding cache (ipmr.c, `mfc_cache`): the (S,G) entries, those for any origin,
/// (0.0.0.0, G), and those for any origin and any group, (0.0.0.0, 0.0.0.0).
///
/// Contracts see its entries, newest first, and how many it has room for. An entry has the number
/// of the call that made it, which no other has. All memory is taken when the cache is made.
#[derive(Debug, Drop)]
pub struct Cache {
    newest_first: Vec<Route>,
    slots: u32,
}

impl Model for Cache {
    ghost use Rattle.std.specs.Prelude.{◌≤◌};
    ghost use Rattle.std.specs.Vec.{vec_capacity};
    ghost use Rattle.mr_mfc.specs.Caches.{CacheValue, IsSound};

    ghost Value = { CacheValue };

    ghost view = { λ c. record { routes = c.newest_first.items; slots = c.slots } };

    ghost invariant = { λ c. IsSound (record { routes = c.newest_first.items; slots = c.slots })
        × (c.slots ≤ vec_capacity c.newest_first) };
}

impl Cache {
    /// No entry, and room for `n` entries, 1 to [`MOST_SLOTS`].
    ///
    /// # Errors
    ///
    /// [`Memory`] where memory runs out.
    pub fn with_slots(alloc: Global, n: u32) -> Result<Self, Memory>
        requires some { 1 ≤ n }
        requires most { n ≤ MOST_SLOTS }
        ensures routes { IfOk result (λ cache. cache.routes ≡ []) }
        ensures slots { IfOk result (λ cache. cache.slots ≡ n) }
    {
        match Vec::with_capacity(alloc, n as usize) {
            Ok(newest_first) => Ok(Cache {
                newest_first,
                slots: n,
            }),
            Err(_) => Err(Memory),
        }
    }

    /// The number of entries.
    pub fn len(&self) -> u32
        ensures { result ≡ length self.now.routes }
    {
        self.newest_first.as_slice().len() as u32
    }

    /// How many entries there can be, 1 to [`MOST_SLOTS`].
    pub fn slots(&self) -> u32
        ensures { result ≡ self.now.slots }
    {
        self.slots
    }

    /// Whether no slot is free.
    pub fn is_full(&self) -> bool
        ensures { result ≡ nat_le self.now.slots (length self.now.routes) }
    {
        self.slots <= self.len()
    }

    /// What is true of every cache. It does nothing.
    pub fn facts(&self)
        ensures some { 1 ≤ self.now.slots }
        ensures most { self.now.slots ≤ MOST_SLOTS }
        ensures within { length self.now.routes ≤ self.now.slots }
        ensures falling { IsFalling self.now.routes }
    {
        let _ = &self.slots;
    }

    /// The first entry of this origin and this group and, where one is given, of this parent
    /// (ipmr.c, `ipmr_cache_find` and `ipmr_cache_find_parent`).
    #[inline(always)]
    pub fn find(&self, src: Addr, dst: Addr, parent: Option<u8>) -> Option<Route>
        ensures first { result ≡ find (is_named src dst parent) self.now.routes }
        ensures there { IfSome result
            (λ r. IsTrue (list_any (has_number r.number) self.now.routes)) }
    {
        first_named(self.newest_first.as_slice(), src, dst, parent)
    }

    /// The first entry for any origin, of this group, that reaches this vif or is proxied to it
    /// (ipmr.c, `ipmr_cache_find_any`).
    #[inline(never)]
    pub fn star(&self, dst: Addr, vif: u8) -> Option<Route>
        ensures { result ≡ star_in self.now.routes dst vif }
    {
        star_in(self.newest_first.as_slice(), dst, vif)
    }

    /// The first entry for any origin and any group that reaches this vif (ipmr.c,
    /// `ipmr_cache_find_any_parent`).
    #[inline(never)]
    pub fn proxy(&self, vif: u8) -> Option<Route>
        ensures { result ≡ proxy_in self.now.routes vif }
    {
        proxy_in(self.newest_first.as_slice(), vif)
    }

    /// Whether the proxy entry of an entry's parent reaches this vif.
    #[inline(never)]
    pub fn is_proxied(&self, route: &Route, vif: u8) -> bool
        ensures { result ≡ is_proxied self.now.routes route.now vif }
    {
        is_proxied(self.newest_first.as_slice(), route, vif)
    }

    /// Whether an entry has this number.
    pub fn has(&self, number: u32) -> bool
        ensures { result ≡ list_any (has_number number) self.now.routes }
    {
        self.newest_first.iter().any(|r| r.number == number)
    }

    /// Whether this number is above those of all entries.
    pub fn is_above(&self, number: u32) -> bool
        ensures { result ≡ is_above number self.now.routes }
    {
        is_above(self.newest_first.as_slice(), number)
    }

    /// A new entry, which stands first. A slot has to be free, and its number above those of all
    /// others (ipmr.c, `ipmr_mfc_add`).
    pub fn insert(&mut self, route: Route)
        requires room { length self.old.routes < self.old.slots }
        requires above { IsTrue (is_above route.number self.old.routes) }
        ensures routes { self.new.routes ≡ route ∷ self.old.routes }
        ensures slots { self.new.slots ≡ self.old.slots }
    {
        let _ = self.newest_first.insert(0, route);
    }

    /// Gives the entry of this number, which has to be there, another parent and other thresholds
    /// (one a vif, 255 for none), and says whether it is static. It keeps its number, its origin
    /// and group, and its place.
    pub fn change(&mut self, number: u32, parent: u8, ttls: [u8; 32], fixed: bool)
        requires { IsTrue (list_any (has_number number) self.old.routes) }
        ensures routes { self.new.routes
            ≡ change_first (has_number number) (changed_to parent ttls fixed) self.old.routes }
        ensures slots { self.new.slots ≡ self.old.slots }
    {
        let at = place_of(self.newest_first.as_slice(), number);
        let route = &self.newest_first[at];
        self.newest_first[at] = changed_to(route, parent, ttls, fixed);
    }

    /// Removes the entry of this number, which has to be there (ipmr.c, `ipmr_mfc_delete`).
    pub fn remove(&mut self, number: u32)
        requires { IsTrue (list_any (has_number number) self.old.routes) }
        ensures routes { self.new.routes ≡ remove_first (has_number number) self.old.routes }
        ensures slots { self.new.slots ≡ self.old.slots }
    {
        let at = place_of(self.newest_first.as_slice(), number);
        let _ = self.newest_first.remove(at);
    }

    /// Removes the entries that are not static, where `loose`, and the static ones, where `fixed`
    /// (ipmr.c, `mroute_clean_tables`).
    pub fn flush(&mut self, loose: bool, fixed: bool)
        ensures routes { self.new.routes ≡ routes_left loose fixed self.old.routes }
        ensures slots { self.new.slots ≡ self.old.slots }
    {
        self.newest_first
            .retain(|r| !(if r.fixed { fixed } else { loose }));
    }

    /// The entries, newest first.
    ///
    /// # Errors
    ///
    /// [`Memory`] where memory runs out.
    pub fn routes(&self, alloc: Global) -> Result<Vec<Route>, Memory>
        ensures { IfOk result (λ routes. routes.items ≡ self.now.routes) }
    {
        match Vec::from_slice(alloc, self.newest_first.as_slice()) {
            Ok(routes) => Ok(routes),
            Err(_) => Err(Memory),
        }
    }

    /// The newest entry whose number is less than this one.
    pub fn below(&self, number: u32) -> Option<Route>
        ensures { result ≡ find (λ r. nat_lt r.number number) self.now.routes }
    {
        first_below(self.newest_first.as_slice(), number)
    }
}

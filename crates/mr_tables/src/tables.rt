//! The tables as an object.

ghost use Rattle.std.specs.Prelude.{◌≡◌, ◌≤◌, not, length, IsTrue, IfOk, IfErr};
ghost use Rattle.mr_model.specs.Granting.{sets_tables, tables_error, what_of, numbered};
ghost use Rattle.mr_model.specs.declared.change.What.TheVariants as what;
ghost use Rattle.mr_model.specs.Tables.{no_tables};
ghost use Rattle.mr_model.specs.Verdict.{judge_in, verdict_in};
ghost use Rattle.mr_mfc.specs.Caches.{is_above};
ghost use Rattle.mr_tables.specs.Values.{applied};
ghost use Rattle.mr_tables.specs.Fitting.{fits};

use crate::deciding::{decide, judge};
use crate::entries::{entry_to_delete, mfc_to_add, proxy_to_add, proxy_to_delete};
use crate::flags::{
    MRT_FLUSH_MFC, MRT_FLUSH_MFC_STATIC, MRT_FLUSH_VIFS, MRT_FLUSH_VIFS_STATIC, has_flag,
};
use crate::interfaces::{MAXVIFS, vif_to_add, vif_to_delete};
use mr_base::{Addr, Device, Errno, Few, Memory, Route, VifRecord};
use mr_mfc::{Cache, MOST_SLOTS};
use mr_model::{Change, Request, Verdict, What};
use mr_vif::Vifs;
use std::alloc::Global;
use std::marker::Model;

/// The most devices that tables can be given.
pub const MOST_DEVICES: usize = mr_base::MOST_DEVICES;

/// The tables of the forwarder (ipmr.c, `struct mr_table`): vifs, entries, and the switches pim and
/// assert, with the devices that calls can mean.
///
/// Contracts see the tables as the model has them, how many entries there can be, and the devices.
/// All memory is taken when they are made.
#[derive(Debug, Drop)]
pub struct Tables {
    vifs: Vifs,
    cache: Cache,
    pim: bool,
    asserts: bool,
    devices: Few<Device, MOST_DEVICES>,
}

impl Model for Tables {
    ghost use Rattle.std.specs.Prelude.{◌<◌, ◌≤◌, length};
    ghost use Rattle.std.specs.List.{AllByRecursion};
    ghost use Rattle.mr_tables.specs.Values.{TablesValue};
    ghost use Rattle.mr_tables.specs.declared.tables.TheConstants.{MOST_DEVICES};

    ghost Value = { TablesValue };

    ghost view = { λ t. record {
      tables = record { vifs = t.vifs; routes = t.cache.routes; pim = t.pim; asserts = t.asserts };
      slots = t.cache.slots;
      devices = t.devices;
    } };

    ghost invariant = { λ t. (length t.devices ≤ MOST_DEVICES)
        × AllByRecursion (λ r. r.parent < 256) t.cache.routes };
}

impl Tables {
    /// No vif, no entry, pim and assert off; room for `slots` entries, 1 to [`MOST_SLOTS`]; at most
    /// [`MOST_DEVICES`] devices, the first of which has number 1.
    ///
    /// # Errors
    ///
    /// [`Memory`] where memory runs out.
    pub fn with(alloc: Global, slots: u32, devices: &[Device]) -> Result<Tables, Memory>
        requires some { 1 ≤ slots }
        requires most { slots ≤ MOST_SLOTS }
        requires few { length devices.now ≤ MOST_DEVICES }
        ensures tables { IfOk result (λ t. t.tables ≡ no_tables) }
        ensures slots { IfOk result (λ t. t.slots ≡ slots) }
        ensures devices { IfOk result (λ t. t.devices ≡ devices.now) }
    {
        match Cache::with_slots(alloc, slots) {
            Err(Memory) => Err(Memory),
            Ok(cache) => Ok(Tables {
                vifs: Vifs::new(),
                cache,
                pim: false,
                asserts: false,
                devices: Few::from_slice(devices),
            }),
        }
    }

    /// The change that a request makes, which it does not make yet; `owner`: it comes from the
    /// daemon whose MRT_INIT holds, and else what it adds or changes is static; `number` is that of
    /// the call, above those of all entries. MRT_DONE changes what MRT_FLUSH with the flags 5 does.
    /// Who may ask is the caller's to say.
    ///
    /// # Errors
    ///
    /// Why the tables refuse the request, the checks in the order of ipmr.c:
    /// - MRT_ADD_VIF: `TooManyVifs` for an index of 32 or more, `InUse` for one that is there,
    ///   `InUse` for a second register vif, `NotAvailable` for a device that is not there,
    ///   `Invalid` for flags other than 0, 4 and 8;
    /// - MRT_DEL_VIF: `TooManyVifs` for an index of 32 or more, `NotAvailable` where there is no
    ///   such vif;
    /// - MRT_ADD_MFC, MRT_ADD_MFC_PROXY: `TooManyVifs` for a parent of 32 or more; of an entry that
    ///   is not there yet `Invalid` where its group is none, `NoBuffers` where no slot is free;
    /// - MRT_DEL_MFC, MRT_DEL_MFC_PROXY: `NoEntry` where there is no such entry.
    pub fn would(&self, request: &Request, owner: bool, number: u32) -> Result<Change, Errno>
        requires sets { IsTrue (sets_tables request.now) }
        requires above { IsTrue (is_above number self.now.tables.routes) }
        ensures refused { IfErr result (λ e.
            tables_error self.now.slots self.now.devices self.now.tables request.now ≡ Some e) }
        ensures granted { IfOk result (λ _.
            tables_error self.now.slots self.now.devices self.now.tables request.now ≡ None) }
        ensures what { IfOk result (λ c.
            what_of self.now.devices self.now.tables (not owner) request.now ≡ Some c.what) }
        ensures number { IfOk result (λ c. c.number ≡ number) }
        ensures fits { IfOk result (λ c. IsTrue (fits self.now c)) }
    {
        match self.what_of(request, !owner) {
            Err(errno) => Err(errno),
            Ok(what) => Ok(Change { number, what }),
        }
    }

    /// What a request changes; `fixed`: what it adds or changes is static.
    fn what_of(&self, request: &Request, fixed: bool) -> Result<What, Errno>
        requires { IsTrue (sets_tables request.now) }
        ensures refused { IfErr result (λ e.
            tables_error self.now.slots self.now.devices self.now.tables request.now ≡ Some e) }
        ensures granted { IfOk result (λ _.
            tables_error self.now.slots self.now.devices self.now.tables request.now ≡ None) }
        ensures what { IfOk result (λ w.
            what_of self.now.devices self.now.tables fixed request.now ≡ Some w) }
    {
        let devices = self.devices.0.as_slice();
        match *request {
            Request::Finish => Ok(What::Flush(MRT_FLUSH_MFC | MRT_FLUSH_VIFS)),
            Request::AddVif(c) => vif_to_add(devices, &self.vifs, &c, fixed),
            Request::DelVif(vif) => vif_to_delete(&self.vifs, vif),
            Request::AddMfc(c) => mfc_to_add(&self.vifs, &self.cache, &c, fixed),
            Request::AddProxy(c) => proxy_to_add(&self.vifs, &self.cache, &c, fixed),
            Request::DelMfc(key) => entry_to_delete(&self.cache, &key, None),
            Request::DelProxy(key) => proxy_to_delete(&self.cache, &key),
            Request::Pim(value) => Ok(What::Pim(value != 0)),
            Request::Assert(value) => Ok(What::Assert(value != 0)),
            Request::Flush(flags) => Ok(What::Flush(flags)),
            Request::Init
            | Request::Unknown(_)
            | Request::BadLength(_)
            | Request::GetVersion
            | Request::GetPim
            | Request::GetAssert
            | Request::VifCount(_)
            | Request::SgCount { .. } => unreachable!(),
        }
    }

    /// Whether a change can be applied: an added vif has an index below 32 that is free, and a
    /// register vif comes only where there is no other; a removed vif is there; for a new entry a
    /// slot is free, and its number is above those of all entries; an entry that changes or goes is
    /// there. Every other change fits.
    pub fn fits(&self, change: &Change) -> bool
        ensures { result ≡ fits self.now change.now }
    {
        match change.what {
            What::AddVif { vif, register, .. } => {
                u16::from(vif) < MAXVIFS
                    && !self.vifs.exists(u16::from(vif))
                    && (!register || self.vifs.register().is_none())
            }
            What::DelVif(vif) => self.vifs.exists(u16::from(vif)),
            What::NewRoute { .. } => !self.cache.is_full() && self.cache.is_above(change.number),
            What::OldRoute { target, .. } => self.cache.has(target),
            What::DropRoute(target) => self.cache.has(target),
            What::Flush(_) | What::Pim(_) | What::Assert(_) => true,
        }
    }

    /// Makes a change that fits, as what [`Tables::would`] gives on these tables does.
    pub fn apply(&mut self, change: &Change)
        requires { IsTrue (fits self.old change.now) }
        ensures { self.new ≡ applied self.old change.now }
    {
        let number = change.number;
        match change.what {
            What::AddVif {
                vif,
                dev,
                register,
                fixed,
            } => self.vifs.add(VifRecord {
                vif,
                dev,
                register,
                fixed,
                number,
            }),
            What::DelVif(vif) => self.vifs.remove(vif),
            What::NewRoute {
                src,
                dst,
                parent,
                ttls,
                fixed,
            } => self.new_route(number, src, dst, parent, ttls, fixed),
            What::OldRoute {
                target,
                parent,
                ttls,
                fixed,
            } => self.old_route(target, parent, ttls, fixed),
            What::DropRoute(target) => self.cache.remove(target),
            What::Flush(flags) => {
                self.vifs.flush(
                    has_flag(flags, MRT_FLUSH_VIFS),
                    has_flag(flags, MRT_FLUSH_VIFS_STATIC),
                );
                self.cache.flush(
                    has_flag(flags, MRT_FLUSH_MFC),
                    has_flag(flags, MRT_FLUSH_MFC_STATIC),
                );
            }
            What::Pim(on) => {
                if on != self.pim {
                    self.pim = on;
                    self.asserts = on;
                }
            }
            What::Assert(on) => self.asserts = on,
        }
    }

    /// An entry is put in front of the others.
    fn new_route(
        &mut self,
        number: u32,
        src: Addr,
        dst: Addr,
        parent: u8,
        ttls: [u8; 32],
        fixed: bool,
    )
        requires { IsTrue (fits self.old
            (numbered number (what.NewRoute src dst parent ttls fixed))) }
        ensures { self.new ≡ applied self.old
            (numbered number (what.NewRoute src dst parent ttls fixed)) }
    {
        self.cache.insert(Route {
            number,
            src,
            dst,
            parent,
            ttls,
            fixed,
        });
    }

    /// An entry changes in its place.
    fn old_route(&mut self, target: u32, parent: u8, ttls: [u8; 32], fixed: bool)
        requires { IsTrue (fits self.old (numbered 0 (what.OldRoute target parent ttls fixed))) }
        ensures { self.new ≡ applied self.old
            (numbered 0 (what.OldRoute target parent ttls fixed)) }
    {
        self.cache.change(target, parent, ttls, fixed);
    }

    /// The verdict on a packet that came in on a device, with this TTL.
    #[inline(always)]
    pub fn decide(&self, dev: u32, src: Addr, dst: Addr, ttl: u8) -> Verdict
        ensures { result ≡ verdict_in self.now.tables.vifs self.now.tables.routes dev src dst ttl }
    {
        decide(&self.vifs, &self.cache, dev, src, dst, ttl)
    }

    /// The verdict of one entry on a packet that came in on a device, with this TTL.
    #[inline(always)]
    pub fn judge(&self, route: &Route, dev: u32, ttl: u8) -> Verdict
        ensures { result ≡ judge_in self.now.tables.vifs self.now.tables.routes route.now dev ttl }
    {
        judge(&self.vifs, &self.cache, route, dev, ttl)
    }

    /// Whether PIM is on (ipmr.c, `mroute_do_pim`).
    pub fn pim(&self) -> bool
        ensures { result ≡ self.now.tables.pim }
    {
        self.pim
    }

    /// Whether wrong interfaces are reported (ipmr.c, `mroute_do_assert`).
    pub fn assert_on(&self) -> bool
        ensures { result ≡ self.now.tables.asserts }
    {
        self.asserts
    }

    /// The vifs.
    #[inline(always)]
    pub fn vifs(&self) -> &Vifs
        ensures { result.now ≡ self.now.tables.vifs }
    {
        &self.vifs
    }

    /// The entries.
    #[inline(always)]
    pub fn cache(&self) -> &Cache
        ensures routes { result.now.routes ≡ self.now.tables.routes }
        ensures slots { result.now.slots ≡ self.now.slots }
    {
        &self.cache
    }
}

//! The vifs as an object.

ghost use Rattle.std.specs.Prelude.{◌≡◌, ℕ, ◌<◌, ◌≤◌, ◌++◌, if◌then◌else◌, true, false, List, []};
ghost use Rattle.std.specs.Prelude.{◌∷◌, IsTrue, IsNone, IfSome};
ghost use Rattle.mr_base.specs.declared.vif_record.VifRecord.{VifRecord};
ghost use Rattle.mr_model.specs.Verdict.{is_in};
ghost use Rattle.mr_model.specs.VifList.{vif_at, has_vif, register_vif, vif_on, max_vif};
ghost use Rattle.mr_model.specs.VifList.{without_vif, vifs_left};
ghost use Rattle.mr_vif.specs.Masks.{mask_of, vifs_below};
ghost use Rattle.mr_vif.specs.Rules.{AreVifs};

use crate::answers::{Answers, VIFS, higher};
use crate::masks::sends;
use mr_base::{Mask, VifRecord};
use std::marker::Model;

/// What stands in a place that no vif has.
const NO_VIF: VifRecord = VifRecord {
    vif: 0,
    dev: 0,
    register: false,
    fixed: false,
    number: 0,
};

/// The vifs of a table (ipmr.c, vif_table), at most 32: contracts see the list of their records in
/// the order in which they were added. No call takes memory.
#[derive(Debug, Drop)]
pub struct Vifs {
    answers: Answers,
    /// The first `count` are the vifs, in their order.
    records: [VifRecord; VIFS],
    count: usize,
}

impl Model for Vifs {
    ghost use Rattle.std.specs.Prelude.{◌≤◌, List, take};
    ghost use Rattle.mr_base.specs.declared.vif_record.VifRecord.{VifRecord};
    ghost use Rattle.mr_vif.specs.Rules.{AreVifs};
    ghost use Rattle.mr_vif.specs.Keeping.{AreAnswers};

    ghost Value = { List VifRecord };

    ghost view = { λ s. take s.count s.records };

    ghost invariant = { λ s. (s.count ≤ 32) × AreVifs (take s.count s.records)
        × AreAnswers s.answers (take s.count s.records) };
}

impl Vifs {
    /// No vif.
    pub fn new() -> Self
        ensures { result ≡ [] }
    {
        Vifs {
            answers: Answers::new(),
            records: [NO_VIF; VIFS],
            count: 0,
        }
    }

    /// The records, in the order in which they were added.
    fn list(&self) -> &[VifRecord]
        ensures records { result.now ≡ self.now }
        ensures rules { AreVifs self.now }
    {
        &self.records[..self.count]
    }

    /// What holds of every table's vifs: indexes below 32, each once, and one register vif at most.
    /// It does nothing.
    #[inline(always)]
    pub fn rules(&self)
        ensures { AreVifs self.now }
    {
        let _count = self.count;
    }

    /// The vif with this index.
    #[inline(always)]
    pub fn record(&self, vif: u8) -> Option<VifRecord>
        ensures { result ≡ vif_at self.now vif }
    {
        match self.answers.at.get(usize::from(vif)) {
            Some(record) => *record,
            None => None,
        }
    }

    /// Whether a vif has this index.
    #[inline(always)]
    pub fn exists(&self, vif: u16) -> bool
        ensures { result ≡ has_vif self.now vif }
    {
        match self.answers.at.get(usize::from(vif)) {
            Some(record) => record.is_some(),
            None => false,
        }
    }

    /// The highest vif on a device; 0 is the device of the register vif.
    #[inline(always)]
    pub fn of_device(&self, dev: u32) -> Option<u8>
        ensures vif { result ≡ vif_on self.now dev }
        ensures small { IfSome result (λ i. i < 32) }
    {
        match self.answers.highest.get(dev as usize) {
            Some(vif) => *vif,
            None => highest_on(self.list(), dev),
        }
    }

    /// The index of the register vif.
    #[inline(always)]
    pub fn register(&self) -> Option<u8>
        ensures vif { result ≡ register_vif self.now }
        ensures small { IfSome result (λ i. i < 32) }
    {
        self.answers.register
    }

    /// One more than the highest vif, or 0 (ipmr.c, maxvif).
    pub fn maxvif(&self) -> u8
        ensures value { result ≡ max_vif self.now }
        ensures small { result ≤ 32 }
    {
        self.answers.end
    }

    /// The vifs that are there: bit i is vif i.
    #[inline(always)]
    pub fn present(&self) -> Mask
        ensures mask { result ≡ mask_of self.now }
        ensures bits { (i : ℕ) → is_in result i ≡ has_vif self.now i }
    {
        Mask(self.answers.present)
    }

    /// The vifs that are there and whose threshold a TTL exceeds.
    #[inline(always)]
    pub fn outs(&self, ttls: &[u8; 32], ttl: u8) -> Mask
        ensures { result ≡ mask_of (vifs_below ttls.now ttl self.now) }
    {
        Mask(sends(ttls, ttl).0 & self.answers.present)
    }

    /// Adds a vif behind the others.
    pub fn add(&mut self, vif: VifRecord)
        requires small { vif.vif < 32 }
        requires free { has_vif self.old vif.vif ≡ false }
        requires register { IsTrue vif.register → IsNone (register_vif self.old) }
        ensures { self.new ≡ self.old ++ vif ∷ [] }
    {
        self.records[self.count] = vif;
        self.count += 1;
        self.answers.add(vif);
    }

    /// Removes a vif; the others stay in their order.
    pub fn remove(&mut self, vif: u8)
        requires { has_vif self.old vif ≡ true }
        ensures { self.new ≡ without_vif self.old vif }
    {
        let left = without(self.list(), vif);
        *self = left;
    }

    /// Removes the static vifs, where `fixed`, and the others, where `loose`; the rest stay in
    /// their order (ipmr.c, mroute_clean_tables).
    pub fn flush(&mut self, loose: bool, fixed: bool)
        ensures { self.new ≡ vifs_left loose fixed self.old }
    {
        let left = kept(self.list(), loose, fixed);
        *self = left;
    }
}

/// The highest vif on a device.
#[inline(never)]
fn highest_on(vifs: &[VifRecord], dev: u32) -> Option<u8>
    ensures { result ≡ vif_on vifs.now dev }
{
    let mut highest = None;
    let mut rest = vifs;
    'vifs: while let [v, after @ ..] = rest {
        if v.dev == dev {
            highest = higher(v.vif, highest);
        }
        rest = after;
    }
    highest
}

/// The vifs without the one with this index.
fn without(vifs: &[VifRecord], vif: u8) -> Vifs
    requires { AreVifs vifs.now }
    ensures { result ≡ without_vif vifs.now vif }
{
    let mut left = Vifs::new();
    for v in vifs {
        if v.vif != vif {
            left.add(*v);
        }
    }
    left
}

/// Whether a flush removes a vif.
fn goes(v: &VifRecord, loose: bool, fixed: bool) -> bool
    ensures { result ≡ (if v.now.fixed then fixed else loose) }
{
    if v.fixed { fixed } else { loose }
}

/// The vifs that a flush leaves.
fn kept(vifs: &[VifRecord], loose: bool, fixed: bool) -> Vifs
    requires { AreVifs vifs.now }
    ensures { result ≡ vifs_left loose fixed vifs.now }
{
    let mut left = Vifs::new();
    for v in vifs {
        if !goes(v, loose, fixed) {
            left.add(*v);
        }
    }
    left
}

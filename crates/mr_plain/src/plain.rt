//! The plain machine as an object.

ghost use Rattle.std.specs.Prelude.{◌≡◌, ◌↔◌, true, IsTrue, IfOk, Ok, []};
ghost use Rattle.mr_model.specs.Answer.{answer};
ghost use Rattle.mr_model.specs.Ending.{ending};
ghost use Rattle.mr_model.specs.Verdict.{verdict};
ghost use Rattle.mr_plain.specs.Following.{Follows};
ghost use Rattle.mr_plain.specs.Holding.{with_entry};
ghost use Rattle.mr_plain.specs.Pasts.{AreSmall};

use crate::answering::{CallAnswer, answer_of};
use crate::ending::gather;
use crate::following::follows;
use crate::lines::take_lines;
use crate::meeting::take_mets;
use crate::past::Past;
use crate::room::make_room;
use crate::taking::take;
use mr_base::{DaemonNo, Log, Memory};
use mr_model::{Ending, Entry, FateLine, Flow, Limits, Request, Verdict};
use mr_plain_lists::{Known, Meeting, verdict};
use std::alloc::{AllocError, Global};
use std::marker::Model;

/// The machine that judges a history, entry by entry, over plain lists. Contracts see its limits
/// and the entries that it took.
#[derive(Drop)]
pub struct Plain {
    limits: Limits,
    known: Known,
    mets: Vec<Meeting>,
    past: Past,
    lines: Vec<FateLine>,
    history: Log<Entry>,
}

impl Model for Plain {
    ghost use Rattle.mr_plain.specs.Holding.{Judged, Holds};

    ghost Value = { Judged };

    ghost view = { λ p. record { limits = p.limits; history = p.history.items } };

    ghost invariant = { λ p.
        Holds p.limits p.history.items p.known p.mets.items p.past p.lines.items };
}

impl Plain {
    /// The empty history of these limits, which leave room for at most 4,194,304 entries and have
    /// at most 64 devices.
    ///
    /// # Errors
    ///
    /// [`Memory`] where memory runs out.
    pub fn new(alloc: Global, limits: &Limits) -> Result<Plain, Memory>
        requires { AreSmall limits.now }
        ensures limits { IfOk result (λ p. p.limits ≡ limits.now) }
        ensures history { IfOk result (λ p. p.history ≡ []) }
    {
        match Plain::make(alloc, limits) {
            Ok(plain) => Ok(plain),
            Err(AllocError) => Err(Memory),
        }
    }

    /// Whether an entry may stand behind the history, looks left aside: a call's reply and the
    /// packets that it releases are the machine's, and so is a receive's message and the outcome
    /// of a slow packet; daemons and lanes are those of the limits, which leave room for the
    /// entry; a lane's packets come by rising index, and a settle has 1 to 64 of them. Just then
    /// the entry is taken.
    ///
    /// # Errors
    ///
    /// [`Memory`] where memory runs out for an entry that may stand there; it is not taken then.
    pub fn step(&mut self, entry: &Entry) -> Result<bool, Memory>
        ensures judges { IfOk result (λ taken. IsTrue taken
            ↔ Follows self.old.limits self.old.history entry.now) }
        ensures takes { result ≡ Ok true → self.new ≡ with_entry self.old entry.now }
        ensures stays { (result ≡ Ok true → ⊥) → self.new ≡ self.old }
    {
        if !self.follows(entry) {
            return Ok(false);
        }
        if make_room(&mut self.known, &mut self.mets, &mut self.lines, entry).is_err() {
            return Err(Memory);
        }
        take_lines(&mut self.lines, &self.known, entry);
        let count = self.known.count;
        take_mets(&mut self.mets, count, self.known.waiting.as_slice(), entry);
        take(&mut self.known, &self.limits, entry);
        self.past.take(entry);
        self.history = self.history.with(entry);
        Ok(true)
    }

    /// The verdict on a packet by the tables of the history.
    pub fn verdict(&self, flow: &Flow) -> Verdict
        ensures { result ≡ verdict self.now.limits self.now.history flow.now.dev flow.now.src
            flow.now.dst flow.now.ttl }
    {
        verdict(self.known.vifs.as_slice(), &self.known.routes, flow)
    }

    /// What the machine answers to a call behind the history.
    ///
    /// # Errors
    ///
    /// [`Memory`] where memory runs out.
    pub fn answer(
        &self,
        alloc: Global,
        daemon: DaemonNo,
        request: &Request,
    ) -> Result<CallAnswer, Memory>
        ensures reply { IfOk result (λ a. a.reply
            ≡ (answer self.now.limits self.now.history daemon request.now).reply) }
        ensures released { IfOk result (λ a. a.released
            ≡ (answer self.now.limits self.now.history daemon request.now).released) }
    {
        let known = &self.known;
        let mets = self.mets.as_slice();
        match answer_of(alloc, known, mets, &self.limits, daemon, request) {
            Ok(answer) => Ok(answer),
            Err(AllocError) => Err(Memory),
        }
    }

    /// What the history ends with: the live entries and vifs with their totals, and the fate of
    /// each packet that had to wait.
    ///
    /// # Errors
    ///
    /// [`Memory`] where memory runs out.
    pub fn ending(&self, alloc: Global) -> Result<Ending, Memory>
        ensures { IfOk result (λ e. e ≡ ending self.now.limits self.now.history) }
    {
        let mets = self.mets.as_slice();
        match gather(alloc, &self.known, mets, self.lines.as_slice()) {
            Ok(ending) => Ok(ending),
            Err(AllocError) => Err(Memory),
        }
    }
}

impl Plain {
    /// Takes the memory for no entry.
    fn make(alloc: Global, limits: &Limits) -> Result<Plain, AllocError>
        requires { AreSmall limits.now }
        ensures limits { IfOk result (λ p. p.limits ≡ limits.now) }
        ensures history { IfOk result (λ p. p.history ≡ []) }
    {
        let packets = limits.packets.0.as_slice();
        let past = Past::new(alloc, limits.controls, limits.phases, packets)?;
        let kept = limits.clone()?;
        let known = Known::new(alloc);
        Ok(Plain {
            limits: kept,
            known,
            mets: Vec::new(alloc),
            past,
            lines: Vec::new(alloc),
            history: Log::new(),
        })
    }

    /// Whether an entry may stand behind the history.
    fn follows(&self, entry: &Entry) -> bool
        ensures { IsTrue result ↔ Follows self.now.limits self.now.history entry.now }
    {
        follows(
            &self.known,
            self.mets.as_slice(),
            &self.past,
            &self.limits,
            entry,
        )
    }
}

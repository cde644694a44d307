ghost use Rattle.std.specs.Prelude.{◌≡◌, ◌==◌, IfSome, IfNone, IfOk, IfErr, IsTrue};
ghost use mathlib.Core.List.{IsPrefix};
ghost use Rattle.mr_model.specs.Numbers.{NumbersRise};
ghost use Rattle.mr_publish.specs.Copies.{tables_after, verdict_of};
ghost use Rattle.mr_publish.specs.Lists.{last_number, later};
ghost use Rattle.mr_publish.specs.Values.{refused};

use crate::copies::{CopyReader, Sees};
use crate::front::Front;
use crate::inside::Inside;
use crate::names::PairName;
use crate::note::Note;
use mr_base::Addr;
use mr_model::Verdict;
use std::marker::Model;

/// What decides on packets by the published tables, with no lock and no wait. It may go to another
/// thread.
///
/// Contracts see the published changes up to its last look, those that it has learnt, and how often
/// it could not look.
#[derive(Drop)]
pub struct Looker<J: PairName> {
    pub(crate) reader: Option<CopyReader<J>>,
    pub(crate) seen: Front<J>,
    pub(crate) learnt: Front<J>,
    pub(crate) refusals: u64,
}

impl<J: PairName> Model for Looker<J> {
    ghost use Rattle.std.specs.Prelude.{IsSome};
    ghost use Rattle.mr_model.specs.Numbers.{NumbersRise};
    ghost use Rattle.mr_publish.specs.Values.{Sight};

    ghost Value = { Sight };

    ghost view = { λ l. record { seen = l.seen; learnt = l.learnt; refusals = l.refusals } };

    ghost invariant = { λ l. IsSome l.reader × NumbersRise 0 l.seen };
}

impl<J: PairName> Looker<J> {
    /// The verdict on a packet that came in on a device, with this TTL, by the tables after a
    /// beginning of the published changes, and the number of its last change, or 0. The beginning
    /// never gets shorter, and holds all that was learnt.
    ///
    /// None where it could not look, which is counted: the publisher was spent, or the copy was
    /// older than what was seen or learnt. The second does not come in fact.
    #[inline(always)]
    pub fn look(&mut self, dev: u32, src: Addr, dst: Addr, ttl: u8) -> Option<(u32, Verdict)>
        ensures verdict { IfSome result (λ r.
            r.1 ≡ verdict_of (tables_after J.start self.new.seen) dev src dst ttl) }
        ensures number { IfSome result (λ r. r.0 ≡ last_number 0 self.new.seen) }
        ensures grows { IsPrefix self.old.seen self.new.seen }
        ensures learnt { IfSome result (λ _. IsPrefix self.old.learnt self.new.seen) }
        ensures rise { NumbersRise 0 self.new.seen }
        ensures kept { self.new.learnt ≡ self.old.learnt }
        ensures counts { IfSome result (λ _. self.new.refusals ≡ self.old.refusals) }
        ensures refused { IfNone result (self.new ≡ refused self.old) }
    {
        let Some(reader) = self.reader.take() else {
            unreachable!()
        };
        let (reader, found) = glance(reader, dev, src, dst, ttl);
        self.reader = Some(reader);
        if let Some((front, verdict)) = found {
            if self.seen.begins(&front) && self.learnt.begins(&front) {
                let number = front.version();
                self.seen = front;
                return Some((number, verdict));
            }
        }
        self.refusals = self.refusals.saturating_add(1);
        None
    }

    /// Enters the published copy, for the verdicts on several packets.
    ///
    /// # Errors
    ///
    /// Where it could not look, as in [`Looker::look`], the looker comes back, and it is counted.
    #[inline(always)]
    pub fn enter(self) -> Result<Inside<J>, Looker<J>>
        ensures grows { IfOk result (λ i. IsPrefix self.seen i.seen) }
        ensures learnt { IfOk result (λ i. IsPrefix self.learnt i.seen) }
        ensures rise { IfOk result (λ i. NumbersRise 0 i.seen) }
        ensures kept { IfOk result (λ i. i.learnt ≡ self.learnt) }
        ensures counts { IfOk result (λ i. i.refusals ≡ self.refusals) }
        ensures refused { IfErr result (λ l. l ≡ refused self) }
    {
        let Looker {
            reader,
            seen,
            learnt,
            refusals,
        } = self;
        let Some(reader) = reader else { unreachable!() };
        match reader.enter_as::<Sees<J>>() {
            Err(reader) => Err(Looker {
                reader: Some(reader),
                seen,
                learnt,
                refusals: refusals.saturating_add(1),
            }),
            Ok(reading) => {
                let front = reading.get().mark.named::<J>();
                if seen.begins(&front) && learnt.begins(&front) {
                    return Ok(Inside {
                        reading,
                        seen: front,
                        learnt,
                        refusals,
                    });
                }
                Err(Looker {
                    reader: Some(reading.leave()),
                    seen,
                    learnt,
                    refusals: refusals.saturating_add(1),
                })
            }
        }
    }

    /// Each look from now on holds what the note tells.
    pub fn learn(&mut self, note: Note<J>)
        ensures learnt { self.new.learnt ≡ later self.old.learnt note }
        ensures told { IsPrefix note self.new.learnt }
        ensures grows { IsPrefix self.old.learnt self.new.learnt }
        ensures seen { self.new.seen ≡ self.old.seen }
        ensures counts { self.new.refusals ≡ self.old.refusals }
    {
        if self.learnt.begins(&note.front) {
            self.learnt = note.front;
        }
    }

    /// Whether the last look saw just what the note tells.
    pub fn sees(&self, note: &Note<J>) -> bool
        ensures is { result ≡ (last_number 0 self.now.seen == last_number 0 note.now) }
        ensures same { IsTrue result → self.now.seen ≡ note.now }
    {
        self.seen.is(&note.front)
    }

    /// A note of what was seen.
    pub fn seen(&self) -> Note<J>
        ensures { result ≡ self.now.seen }
    {
        Note {
            front: self.seen.again(),
        }
    }

    /// The number of the last change that was seen, or 0.
    pub fn version(&self) -> u32
        ensures { result ≡ last_number 0 self.now.seen }
    {
        self.seen.version()
    }

    /// How often it could not look.
    pub fn refusals(&self) -> u64
        ensures { result ≡ self.now.refusals }
    {
        self.refusals
    }
}

/// Enters the copy and leaves it: what is published there, and its verdict on a packet.
#[inline(always)]
fn glance<J: PairName>(
    reader: CopyReader<J>,
    dev: u32,
    src: Addr,
    dst: Addr,
    ttl: u8,
) -> (CopyReader<J>, Option<(Front<J>, Verdict)>)
    ensures { IfSome result.1 (λ r.
        r.1 ≡ verdict_of (tables_after J.start r.0) dev src dst ttl) }
{
    match reader.enter_as::<Sees<J>>() {
        Err(reader) => (reader, None),
        Ok(reading) => {
            let copy = reading.get();
            let front = copy.mark.named::<J>();
            let verdict = copy.tables.decide(dev, src, dst, ttl);
            (reading.leave(), Some((front, verdict)))
        }
    }
}

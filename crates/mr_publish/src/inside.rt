ghost use Rattle.std.specs.Prelude.{◌≡◌};
ghost use Rattle.mr_publish.specs.Copies.{tables_after, verdict_of};
ghost use Rattle.mr_publish.specs.Lists.{last_number};

use crate::copies::CopyReading;
use crate::front::Front;
use crate::looker::Looker;
use crate::names::PairName;
use mr_base::Addr;
use mr_model::Verdict;
use std::marker::Model;

/// A looker in the published copy, by which it decides on packets. It must be left. While it is
/// not, the publisher can publish once; it waits where it would publish again, and at its end. So
/// it is left before its thread waits for a lock under which the publisher lies.
///
/// Contracts see what they see of the looker.
pub struct Inside<J: PairName> {
    pub(crate) reading: CopyReading<J>,
    pub(crate) seen: Front<J>,
    pub(crate) learnt: Front<J>,
    pub(crate) refusals: u64,
}

impl<J: PairName> Model for Inside<J> {
    ghost use Rattle.std.specs.Prelude.{◌≡◌};
    ghost use Rattle.mr_model.specs.Numbers.{NumbersRise};
    ghost use Rattle.mr_publish.specs.Copies.{tables_after};
    ghost use Rattle.mr_publish.specs.Values.{Sight};

    ghost Value = { Sight };

    ghost view = { λ i. record { seen = i.seen; learnt = i.learnt; refusals = i.refusals } };

    ghost invariant = { λ i. (i.reading.part.value.tables ≡ tables_after J.start i.seen)
        × NumbersRise 0 i.seen };
}

impl<J: PairName> Inside<J> {
    /// The verdict on a packet that came in on a device, with this TTL.
    #[inline(always)]
    pub fn decide(&self, dev: u32, src: Addr, dst: Addr, ttl: u8) -> Verdict
        ensures { result
            ≡ verdict_of (tables_after J.start self.now.seen) dev src dst ttl }
    {
        self.reading.get().tables.decide(dev, src, dst, ttl)
    }

    /// The number of the last change that is seen, or 0.
    #[inline(always)]
    pub fn version(&self) -> u32
        ensures { result ≡ last_number 0 self.now.seen }
    {
        self.seen.version()
    }

    /// Leaves the copy.
    #[inline(always)]
    pub fn leave(self) -> Looker<J>
        ensures { result ≡ self }
    {
        let Inside {
            reading,
            seen,
            learnt,
            refusals,
        } = self;
        Looker {
            reader: Some(reading.leave()),
            seen,
            learnt,
            refusals,
        }
    }
}

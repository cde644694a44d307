//! Packets that were forwarded plainly, in 32 bytes each.

ghost use Rattle.std.specs.Prelude.{◌≡◌, ◌≤◌, ◌<◌, length, slice_get, Some, map, IfOk};
ghost use Rattle.mr_history.specs.declared.most.TheConstants.{LAST_DEVICE};
ghost use Rattle.mr_history.specs.Small.{fast_of};

use mr_base::{Addr, Mask};
use mr_model::{FastRecord, Flow};
use std::alloc::{AllocError, Global};
use std::marker::Model;

/// A fast record as it is kept.
#[derive(Clone, Copy, Debug)]
pub(crate) struct KeptRecord {
    pub index: u32,
    pub look: u32,
    pub entry: u32,
    pub outs: Mask,
    pub src: Addr,
    pub dst: Addr,
    pub length: u16,
    pub dev: u8,
    pub ttl: u8,
    pub input: Option<u8>,
}

const _: () = prove!(size_of::<KeptRecord>() == 32);

/// A record as it is kept. Its device has to be at most [`LAST_DEVICE`](crate::LAST_DEVICE).
pub(crate) fn keep(fast: &FastRecord) -> KeptRecord
    requires { fast.now.flow.dev ≤ LAST_DEVICE }
    ensures { fast_of result ≡ fast.now }
{
    KeptRecord {
        index: fast.index,
        look: fast.look,
        entry: fast.entry,
        outs: fast.outs,
        src: fast.flow.src,
        dst: fast.flow.dst,
        length: fast.flow.length,
        dev: fast.flow.dev as u8,
        ttl: fast.flow.ttl,
        input: fast.input,
    }
}

/// The record that is kept.
pub(crate) fn fast_of(kept: &KeptRecord) -> FastRecord
    ensures { result ≡ fast_of kept.now }
{
    FastRecord {
        index: kept.index,
        look: kept.look,
        entry: kept.entry,
        input: kept.input,
        outs: kept.outs,
        flow: Flow {
            dev: u32::from(kept.dev),
            src: kept.src,
            dst: kept.dst,
            ttl: kept.ttl,
            length: kept.length,
        },
    }
}

/// The records that are kept.
fn fast_all(alloc: Global, kept: &[KeptRecord]) -> Result<Vec<FastRecord>, AllocError>
    ensures { IfOk result (λ records. records.items ≡ map fast_of kept.now) }
{
    let mut records = Vec::with_capacity(alloc, kept.len())?;
    for one in kept {
        records.push(fast_of(one))?;
    }
    Ok(records)
}

/// The records of a settle, seen in place. Contracts see them as a list.
#[derive(Debug, Drop)]
pub struct Records<'a> {
    kept: &'a [KeptRecord],
}

impl<'a> Model for Records<'a> {
    ghost use Rattle.std.specs.Prelude.{List, map};
    ghost use Rattle.mr_model.specs.declared.entry.FastRecord.{FastRecord};

    ghost Value = { List FastRecord };

    ghost use Rattle.mr_history.specs.Small.{fast_of};

    ghost view = { λ a. map fast_of a.kept.now };
}

impl<'a> Records<'a> {
    ghost use Rattle.std.specs.Prelude.{◌≡◌, ◌<◌, length, slice_get, Some, map, IfOk};
    ghost use Rattle.mr_history.specs.Small.{fast_of};

    pub(crate) fn new(kept: &'a [KeptRecord]) -> Self
        ensures { result ≡ map fast_of kept.now }
    {
        Records { kept }
    }

    /// How many records there are.
    pub fn len(&self) -> usize
        ensures { result ≡ length self.now }
    {
        self.kept.len()
    }

    /// The records with memory of their own.
    pub(crate) fn to_vec(&self, alloc: Global) -> Result<Vec<FastRecord>, AllocError>
        ensures { IfOk result (λ records. records.items ≡ self.now) }
    {
        fast_all(alloc, self.kept)
    }

    /// The record at a place, counted from 0.
    pub fn get(&self, place: usize) -> FastRecord
        requires { place < length self.now }
        ensures { slice_get self.now place ≡ Some result }
    {
        let kept = self.kept;
        fast_of(&kept[place])
    }
}

ghost use Rattle.std.specs.Prelude.{◌≡◌, ◌≤◌, [], length, replicate, IfOk};
ghost use Rattle.mr_mfc.specs.declared.cache.TheConstants.{MOST_SLOTS};
ghost use Rattle.mr_tables.specs.declared.tables.TheConstants.{MOST_DEVICES};
ghost use Rattle.mr_publish.specs.Copies.{empty_tables};
ghost use Rattle.mr_publish.specs.Values.{first_sight};

use crate::copies::{Batch, TablesCopy, show};
use crate::looker::Looker;
use crate::names::PairName;
use crate::opened::OpenedList;
use crate::publisher::Publisher;
use left_right::writer::Writer;
use mr_base::{Device, Memory};
use mr_tables::Tables;
use std::alloc::Global;
use std::sync::Wait;

/// A publisher and its lookers. Both copies are empty tables, with room for `slots` entries and
/// with these devices, as `Tables::with` makes them, and nothing is published yet.
///
/// # Errors
///
/// [`Memory`] where memory runs out.
pub fn publish_pair<J: PairName, R: Wait>(
    rt: &R,
    alloc: Global,
    opened: OpenedList,
    slots: u32,
    devices: &[Device],
    readers: u32,
) -> Result<(Publisher<J>, Vec<Looker<J>>), Memory>
    requires named { opened ≡ J.list }
    requires start { J.start ≡ empty_tables slots devices.now }
    requires some { 1 ≤ slots }
    requires most { slots ≤ MOST_SLOTS }
    requires few { length devices.now ≤ MOST_DEVICES }
    ensures publisher { IfOk result (λ r. r.0 ≡ record { published = []; staged = [] }) }
    ensures lookers { IfOk result (λ r. r.1.items ≡ replicate readers first_sight) }
{
    let publisher = open::<J, R>(rt, alloc, opened, slots, devices, readers)?;
    match lookers_of(alloc, &publisher, readers) {
        Ok(lookers) => Ok((publisher, lookers)),
        Err(Memory) => {
            publisher.end(rt);
            Err(Memory)
        }
    }
}

/// The publisher, with places for so many lookers.
fn open<J: PairName, R: Wait>(
    rt: &R,
    alloc: Global,
    opened: OpenedList,
    slots: u32,
    devices: &[Device],
    readers: u32,
) -> Result<Publisher<J>, Memory>
    requires named { opened ≡ J.list }
    requires start { J.start ≡ empty_tables slots devices.now }
    requires some { 1 ≤ slots }
    requires most { slots ≤ MOST_SLOTS }
    requires few { length devices.now ≤ MOST_DEVICES }
    ensures { IfOk result (λ p. p ≡ record { published = []; staged = [] }) }
{
    let first = Tables::with(alloc, slots, devices)?;
    let second = Tables::with(alloc, slots, devices)?;
    let (head, front) = opened.named::<J>();
    let first = TablesCopy {
        tables: first,
        mark: front.mark(),
    };
    let second = TablesCopy {
        tables: second,
        mark: front.mark(),
    };
    let made = Writer::new(alloc, first, second, places(readers));
    let Ok(back) = made else { return Err(Memory) };
    // a first batch makes the room for all further ones
    let batch = Batch {
        changes: Vec::new(alloc),
        mark: front.mark(),
    };
    match show(rt, back, batch) {
        Err(back) => {
            back.take(rt);
            Err(Memory)
        }
        Ok(back) => Ok(Publisher {
            back,
            head,
            front,
            staged: Vec::new(alloc),
            newest: 0,
            alloc,
        }),
    }
}

/// At least one, which the copies need.
fn places(readers: u32) -> usize
    ensures some { 1 ≤ result }
    ensures most { result ≤ 4294967295 }
{
    readers.max(1) as usize
}

/// Lookers that have seen nothing, before anything is published.
fn lookers_of<J: PairName>(
    alloc: Global,
    publisher: &Publisher<J>,
    readers: u32,
) -> Result<Vec<Looker<J>>, Memory>
    requires { publisher.now.published ≡ [] }
    ensures { IfOk result (λ v. v.items ≡ replicate readers first_sight) }
{
    let mut lookers = Vec::new(alloc);
    for _ in 0..readers {
        let looker = publisher.looker()?;
        let pushed = lookers.push(looker);
        let Ok(()) = pushed else { return Err(Memory) };
    }
    Ok(lookers)
}

//! One pass over the lines of all lanes: each of their items is a packet of its lane, or a skip.

ghost use Rattle.std.specs.Prelude.{◌≡◌, ℕ, ◌+◌, ◌<◌, ◌≤◌, Some, None, [], ◌∷◌, ◌++◌, length, OnOk};
ghost use Rattle.std.specs.Prelude.{IfOk};
ghost use Rattle.std.specs.List.{AllByRecursion};
ghost use Rattle.mr_base.specs.declared.limits.TheConstants.{MOST_ITEMS};
ghost use Rattle.mr_base.specs.Heads.{cause_of};
ghost use Rattle.mr_load.specs.Dues.{IsBefore, with_due};
ghost use Rattle.mr_load.specs.Items.{all_items, contents_in};
ghost use Rattle.mr_load.specs.Kept.{contents_kept};
ghost use Rattle.mr_load.specs.Loading.{cause_number, items_in};
ghost use Rattle.mr_load.specs.Passing.{EachFrom, BothFrom, IsFresh, IsOpen, IsOfLanes};
ghost use Rattle.mr_load.specs.Passing.{Passes, PassesRow, HasPassed};
ghost use Rattle.mr_pcap.specs.Traces.{ip_part_of};

use crate::lane::LanePackets;
use crate::named_file::NamedFile;
use crate::parts::items_of;
use crate::reading::Traces;
use mr_base::{HeadError, LaneNo};
use mr_ip::cause_of;
use mr_lines::Skip;
use mr_pcap::{LinkType, Trace, ip_part};
use mr_scenario::{Given, Item, Phase};
use std::alloc::{AllocError, Global};

/// The cause of a skip whose frame does not say IPv4; the causes of refused heads are above it.
const NO_IPV4: u8 = 0;

/// The number of a cause, 1 to 8.
fn cause_number(cause: HeadError) -> u8
    ensures { result ≡ cause_number cause }
{
    match cause {
        HeadError::Short => 1,
        HeadError::Version => 2,
        HeadError::HeaderLength => 3,
        HeadError::Checksum => 4,
        HeadError::TotalLength => 5,
        HeadError::NotMulticast => 6,
        HeadError::LinkLocal => 7,
        HeadError::BadSource => 8,
    }
}

/// What the items of a lane that were passed over give.
#[derive(Debug, Drop)]
pub(crate) struct Passed {
    pub packets: LanePackets,
    pub skips: Vec<Skip>,
    /// The device of each skip's item.
    pub devs: Vec<u32>,
    /// The number of the lane's next item.
    pub next: u32,
}

/// An item that is a skip, with its cause.
fn pass_skip(passed: &mut Passed, item: &Item, cause: u8) -> Result<(), AllocError>
    requires next { passed.old.next < 4294967295 }
    ensures packets { OnOk result (passed.new.packets ≡ passed.old.packets) }
    ensures skips { OnOk result (passed.new.skips.items ≡ passed.old.skips.items
        ++ record { lane = item.now.lane; index = passed.old.next; cause = cause } ∷ []) }
    ensures devs { OnOk result
        (passed.new.devs.items ≡ passed.old.devs.items ++ item.now.dev ∷ []) }
    ensures next { OnOk result (passed.new.next ≡ passed.old.next + 1) }
{
    passed.skips.push(Skip {
        lane: item.lane,
        index: passed.next,
        cause,
    })?;
    passed.devs.push(item.dev)?;
    passed.next += 1;
    Ok(())
}

/// An item that is a packet.
fn pass_packet(passed: &mut Passed, phase: u32, item: &Item, bytes: &[u8]) -> Result<(), AllocError>
    requires accepted { cause_of bytes.now ≡ None }
    requires first { 1 ≤ passed.old.next }
    requires before { AllByRecursion (IsBefore passed.old.next phase) passed.old.packets.packets }
    requires next { passed.old.next < 4294967295 }
    ensures packets { OnOk result (passed.new.packets ≡ with_due passed.old.packets (record {
      phase = phase;
      index = passed.old.next;
      dev = item.now.dev;
      bytes = bytes.now;
    })) }
    ensures skips { OnOk result (passed.new.skips.items ≡ passed.old.skips.items) }
    ensures devs { OnOk result (passed.new.devs.items ≡ passed.old.devs.items) }
    ensures next { OnOk result (passed.new.next ≡ passed.old.next + 1) }
{
    passed.packets.push(phase, passed.next, item.dev, bytes)?;
    passed.next += 1;
    Ok(())
}

/// An item whose frame does not say IPv4.
fn pass_other(passed: &mut Passed, phase: u32, item: &Item) -> Result<(), AllocError>
    requires before { AllByRecursion (IsBefore passed.old.next phase) passed.old.packets.packets }
    requires next { passed.old.next < 4294967295 }
    ensures { OnOk result (PassesRow phase item.now (None ∷ []) passed.old passed.new) }
{
    pass_skip(passed, item, NO_IPV4)?;
    Ok(())
}

/// An item that should begin with an IPv4 head.
fn pass_bytes(passed: &mut Passed, phase: u32, item: &Item, bytes: &[u8]) -> Result<(), AllocError>
    requires first { 1 ≤ passed.old.next }
    requires before { AllByRecursion (IsBefore passed.old.next phase) passed.old.packets.packets }
    requires next { passed.old.next < 4294967295 }
    ensures { OnOk result (PassesRow phase item.now (Some bytes.now ∷ []) passed.old passed.new) }
{
    let Some(cause) = cause_of(bytes) else {
        pass_packet(passed, phase, item, bytes)?;
        return Ok(());
    };
    pass_skip(passed, item, cause_number(cause))?;
    Ok(())
}

/// An item that is a frame of a trace.
fn pass_frame(
    passed: &mut Passed,
    phase: u32,
    item: &Item,
    link: LinkType,
    frame: &[u8],
) -> Result<(), AllocError>
    requires first { 1 ≤ passed.old.next }
    requires before { AllByRecursion (IsBefore passed.old.next phase) passed.old.packets.packets }
    requires next { passed.old.next < 4294967295 }
    ensures { OnOk result
        (PassesRow phase item.now (ip_part_of link frame.now ∷ []) passed.old passed.new) }
{
    let Some(bytes) = ip_part(link, frame) else {
        pass_other(passed, phase, item)?;
        return Ok(());
    };
    pass_bytes(passed, phase, item, bytes)?;
    Ok(())
}

/// The items of a line that names a trace.
fn pass_trace(passed: &mut Passed, phase: u32, item: &Item, trace: &Trace) -> Result<(), AllocError>
    requires first { 1 ≤ passed.old.next }
    requires before { AllByRecursion (IsBefore passed.old.next phase) passed.old.packets.packets }
    requires next { passed.old.next + length (contents_in trace.now) ≤ 4294967295 }
    ensures { OnOk result (PassesRow phase item.now (contents_in trace.now) passed.old passed.new) }
{
    for i in 0..trace.len() {
        let Some(record) = trace.record(i) else {
            unreachable!()
        };
        pass_frame(passed, phase, item, trace.link(), record.bytes)?;
    }
    Ok(())
}

/// The items of a line of a lane.
fn pass_line(
    passed: &mut Passed,
    phase: u32,
    item: &Item,
    traces: &Traces,
) -> Result<(), AllocError>
    requires first { 1 ≤ passed.old.next }
    requires before { AllByRecursion (IsBefore passed.old.next phase) passed.old.packets.packets }
    requires next { passed.old.next + length (contents_kept traces.now.entries item.now.given)
        ≤ 4294967295 }
    ensures { OnOk result (PassesRow phase item.now
        (contents_kept traces.now.entries item.now.given) passed.old passed.new) }
{
    match &item.given {
        Given::Bytes(bytes) => pass_bytes(passed, phase, item, bytes.0.as_slice()),
        Given::Trace(file) => match traces.get(&NamedFile::new(file.as_str())) {
            Some(trace) => pass_trace(passed, phase, item, trace),
            None => Ok(()),
        },
    }
}

/// A line of one of the lanes.
fn pass_one(
    lanes: &mut Vec<Passed>,
    phase: u32,
    item: &Item,
    traces: &Traces,
) -> Result<(), AllocError>
    requires lane { IsOfLanes (length lanes.old.items) item.now }
    requires ready { EachFrom (IsOpen phase
        (length (contents_kept traces.now.entries item.now.given))) 1 lanes.old.items }
    ensures { OnOk result (BothFrom (Passes (contents_kept traces.now.entries) phase
        (item.now ∷ [])) 1 lanes.old.items lanes.new.items) }
{
    let place = item.lane.0 as usize - 1;
    pass_line(&mut lanes[place], phase, item, traces)?;
    Ok(())
}

/// The lines of a phase.
fn pass_items(
    lanes: &mut Vec<Passed>,
    phase: u32,
    items: &[Item],
    traces: &Traces,
) -> Result<(), AllocError>
    requires items { AllByRecursion (IsOfLanes (length lanes.old.items)) items.now }
    requires ready { EachFrom (IsOpen phase
        (all_items (contents_kept traces.now.entries) items.now)) 1 lanes.old.items }
    ensures { OnOk result (BothFrom (Passes (contents_kept traces.now.entries) phase items.now) 1
        lanes.old.items lanes.new.items) }
{
    for item in items {
        pass_one(lanes, phase, item, traces)?;
    }
    Ok(())
}

/// The lines of all phases.
fn pass_phases(lanes: &mut Vec<Passed>, phases: &[Phase], traces: &Traces) -> Result<(), AllocError>
    requires fresh { EachFrom IsFresh 1 lanes.old.items }
    requires lanes { AllByRecursion (λ p.
        AllByRecursion (IsOfLanes (length lanes.old.items)) p.items) phases.now }
    requires items { all_items (contents_kept traces.now.entries) (items_in phases.now)
        ≤ MOST_ITEMS }
    requires phases { length phases.now ≤ 1000 }
    ensures passed { OnOk result (EachFrom
        (HasPassed (contents_kept traces.now.entries) phases.now) 1 lanes.new.items) }
    ensures count { OnOk result (length lanes.new.items ≡ length lanes.old.items) }
{
    for i in 0..phases.len() {
        pass_items(lanes, i as u32, items_of(&phases[i]), traces)?;
    }
    Ok(())
}

/// So many lanes, of which no item was passed over.
fn fresh_lanes(alloc: Global, lanes: u32) -> Result<Vec<Passed>, AllocError>
    ensures fresh { IfOk result (λ v. EachFrom IsFresh 1 v.items) }
    ensures count { IfOk result (λ v. length v.items ≡ lanes) }
{
    let mut fresh = Vec::with_capacity(alloc, lanes as usize)?;
    for i in 0..lanes {
        fresh.push(Passed {
            packets: LanePackets::new(alloc, LaneNo(i + 1)),
            skips: Vec::new(alloc),
            devs: Vec::new(alloc),
            next: 1,
        })?;
    }
    Ok(fresh)
}

/// What the lines of these phases give to each of so many lanes, where these are the traces that
/// they name.
pub(crate) fn pass_lanes(
    alloc: Global,
    lanes: u32,
    phases: &[Phase],
    traces: &Traces,
) -> Result<Vec<Passed>, AllocError>
    requires lanes { AllByRecursion (λ p. AllByRecursion (IsOfLanes lanes) p.items) phases.now }
    requires items { all_items (contents_kept traces.now.entries) (items_in phases.now)
        ≤ MOST_ITEMS }
    requires phases { length phases.now ≤ 1000 }
    ensures passed { IfOk result (λ v. EachFrom
        (HasPassed (contents_kept traces.now.entries) phases.now) 1 v.items) }
    ensures count { IfOk result (λ v. length v.items ≡ lanes) }
{
    let mut passed = fresh_lanes(alloc, lanes)?;
    pass_phases(&mut passed, phases, traces)?;
    Ok(passed)
}

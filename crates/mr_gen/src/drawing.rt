//! The packets of the lanes, drawn by their generators.

ghost use Rattle.std.specs.Prelude.{◌≡◌, ◌+◌, ◌*◌, ◌<◌, ◌≤◌, ◌^◌, ◌++◌, ◌∷◌, [], map, flat_map};
ghost use Rattle.std.specs.Prelude.{None, IfOk, OnOk};
ghost use Rattle.mr_base.specs.Heads.{cause_of};
ghost use Rattle.mr_gen.specs.Entries.{packet_of};
ghost use Rattle.mr_load.specs.Dues.{with_due};
ghost use Rattle.mr_scenario.specs.declared.scenario.Given.TheVariants.{Bytes};
ghost use Rattle.mr_gen.specs.Dealt.{dealt, lane_dealt, IsBehind, packet_table};
ghost use Rattle.mr_gen.specs.Generated.{item_of, items, items_of};
ghost use Rattle.mr_load.specs.Callers.{one_to};

use crate::routes::{ENTRIES, PACKET_BYTES, VIFS};
use mr_base::{LaneNo, List};
use mr_load::LanePackets;
use mr_scenario::{Given, Item};
use rand_core::SeedableRng;
use rand_core::utils::NextWord;
use rand_pcg::Lcg64Xsh32;
use std::alloc::{AllocError, Global};

/// The phase in which the packets are sent, counted from 0.
const SENDING: u32 = 1;

/// What the lanes are given: their lines in the scenario, and their packets.
#[derive(Debug, Drop)]
pub(crate) struct Drawn {
    pub items: Vec<Item>,
    pub lanes: Vec<LanePackets>,
}

/// The packet of an entry.
fn packet_in(table: &[[u8; PACKET_BYTES]], entry: u32) -> &[u8]
    requires table { table.now ≡ packet_table }
    requires entry { entry < 64 }
    ensures bytes { result.now ≡ packet_of entry }
    ensures accepted { cause_of result.now ≡ None }
{
    &table[entry as usize]
}

/// A line of a lane with these bytes.
fn line_of(alloc: Global, lane: LaneNo, dev: u32, bytes: &[u8]) -> Result<Item, AllocError>
    ensures { IfOk result (λ i. i ≡ record
        { line = 0; lane = lane; dev = dev; given = Bytes bytes.now }) }
{
    Ok(Item {
        line: 0,
        lane,
        dev,
        given: Given::Bytes(List(Vec::from_slice(alloc, bytes)?)),
    })
}

/// One packet more of a lane, for the word that was drawn, and its line.
fn push_packet(
    held: &mut LanePackets,
    items: &mut Vec<Item>,
    table: &[[u8; PACKET_BYTES]],
    index: u32,
    word: u32,
) -> Result<(), AllocError>
    requires table { table.now ≡ packet_table }
    requires first { 1 ≤ index }
    requires behind { IsBehind index held.old }
    ensures packet { OnOk result (held.new ≡ with_due held.old (dealt index word)) }
    ensures line { OnOk result (items.new.items
        ≡ items.old.items ++ item_of held.old.lane.0 word ∷ []) }
{
    let entry = word % ENTRIES;
    let bytes = packet_in(table, entry);
    let dev = entry % VIFS + 1;
    let line = line_of(*items.allocator(), held.lane(), dev, bytes)?;
    items.push(line)?;
    held.push(SENDING, index, dev, bytes)?;
    Ok(())
}

/// The packets of a lane, and their lines behind those before.
fn draw_lane(
    alloc: Global,
    table: &[[u8; PACKET_BYTES]],
    seed: u64,
    lane: u32,
    packets: u32,
    items: &mut Vec<Item>,
) -> Result<LanePackets, AllocError>
    requires table { table.now ≡ packet_table }
    requires seed { seed < 2 ^ 63 }
    requires lane { lane ≤ 16 }
    requires packets { packets ≤ 1048576 }
    ensures packets { IfOk result (λ l. l ≡ lane_dealt seed packets lane) }
    ensures lines { OnOk result (items.new.items
        ≡ items.old.items ++ items_of seed packets lane) }
{
    let mut words = Lcg64Xsh32::seed_from_u64(seed + u64::from(lane));
    let count = packets as usize;
    let mut held = LanePackets::with_room(alloc, LaneNo(lane), count, PACKET_BYTES * count)?;
    for i in 0..packets {
        let word = words.next_word();
        push_packet(&mut held, items, table, i + 1, word)?;
    }
    Ok(held)
}

/// The packets of all lanes, and their lines, lane by lane.
pub(crate) fn draw(
    alloc: Global,
    table: &[[u8; PACKET_BYTES]],
    seed: u64,
    lanes: u32,
    packets: u32,
) -> Result<Drawn, AllocError>
    requires table { table.now ≡ packet_table }
    requires seed { seed < 2 ^ 63 }
    requires lanes { lanes ≤ 16 }
    requires packets { packets ≤ 1048576 }
    ensures lines { IfOk result (λ d. d.items.items ≡ items seed lanes packets) }
    ensures lanes { IfOk result (λ d. d.lanes.items
        ≡ map (lane_dealt seed packets) (one_to lanes)) }
{
    let mut drawn = Drawn {
        items: Vec::with_capacity(alloc, lanes as usize * packets as usize)?,
        lanes: Vec::with_capacity(alloc, lanes as usize)?,
    };
    for i in 0..lanes {
        let held = draw_lane(alloc, table, seed, i + 1, packets, &mut drawn.items)?;
        drawn.lanes.push(held)?;
    }
    Ok(drawn)
}

//! What all lanes give, lane by lane.

ghost use Rattle.std.specs.Prelude.{◌≡◌, ◌≤◌, ◌++◌, ◌∷◌, [], length, map, flat_map, IfOk, OnOk};
ghost use Rattle.std.specs.List.{AllByRecursion};
ghost use Rattle.mr_load.specs.Gathering.{AreFew, Gathers};

use crate::lane::LanePackets;
use crate::passing::Passed;
use mr_lines::Skip;
use std::alloc::{AllocError, Global};

/// What all lanes give.
#[derive(Debug, Drop)]
pub(crate) struct Gathered {
    pub lanes: Vec<LanePackets>,
    /// How many packets each lane has.
    pub counts: Vec<u32>,
    /// By lane and then by item.
    pub skips: Vec<Skip>,
    /// The device of each skip's item.
    pub devs: Vec<u32>,
}

/// One lane more.
fn gather_lane(all: &mut Gathered, passed: Passed) -> Result<(), AllocError>
    requires { length passed.packets.packets ≤ 1048576 }
    ensures { OnOk result (Gathers all.old (passed ∷ []) all.new) }
{
    let Passed {
        packets,
        mut skips,
        mut devs,
        next: _,
    } = passed;
    all.counts.push(packets.len() as u32)?;
    all.skips.append(&mut skips)?;
    all.devs.append(&mut devs)?;
    all.lanes.push(packets)?;
    Ok(())
}

/// What these lanes give.
pub(crate) fn gather(alloc: Global, lanes: Vec<Passed>) -> Result<Gathered, AllocError>
    requires { AreFew lanes.items }
    ensures lanes { IfOk result (λ g. g.lanes.items ≡ map (λ p. p.packets) lanes.items) }
    ensures counts { IfOk result (λ g.
        g.counts.items ≡ map (λ p. length p.packets.packets) lanes.items) }
    ensures skips { IfOk result (λ g. g.skips.items ≡ flat_map (λ p. p.skips.items) lanes.items) }
    ensures devs { IfOk result (λ g. g.devs.items ≡ flat_map (λ p. p.devs.items) lanes.items) }
{
    let mut all = Gathered {
        lanes: Vec::new(alloc),
        counts: Vec::new(alloc),
        skips: Vec::new(alloc),
        devs: Vec::new(alloc),
    };
    let mut left = lanes;
    while !left.is_empty() {
        let passed = left.remove(0);
        gather_lane(&mut all, passed)?;
    }
    Ok(all)
}

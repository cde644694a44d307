//! Generated scenarios, and summaries of their histories on the machine of one lane.

ghost use Rattle.std.specs.Prelude.{◌<◌, ◌≤◌, ◌^◌};
ghost use Rattle.mr_history.specs.Fits.{FitsLimits};

use crate::{generate, write_summary};
use mr_base::{Addr, DaemonNo};
use mr_kernel_rows::OneLane;
use mr_load::{LanePackets, Loaded, lanes_of, lines_of, phases_of};
use mr_model::Request;
use mr_scenario::Script;
use std::alloc::Global;
use std::test::Fail;

/// The packet of the first word for the seed 7: lane 1 draws 3046447000, which is 24 above a
/// multiple of 64, from its generator, which is seeded with 8.
const FIRST: [u8; 20] = [
    0x45, 0, 0, 28, 0, 0, 0, 0, 64, 17, 0x81, 0x90, 10, 8, 0, 25, 239, 8, 0, 24,
];

/// Plays the first phase of a scenario, and the packets of its first lane.
fn play(alloc: Global, loaded: &Loaded) -> Result<OneLane, Fail>
    requires { FitsLimits loaded.now.limits }
{
    let mut machine = OneLane::with(alloc, &loaded.limits)?;
    let [first, ..] = phases_of(&loaded.scenario) else {
        return Err(Fail::from("a phase"));
    };
    for line in lines_of(first) {
        let Script::Ask(request) = &line.script else {
            return Err(Fail::from("a call"));
        };
        machine.call(line.daemon, request).ok_or("room for a call")?;
    }
    let [lane, ..] = lanes_of(loaded) else {
        return Err(Fail::from("a lane"));
    };
    for place in 0..lane.len() {
        let packet = lane.packet(place);
        machine
            .packet(packet.dev, packet.head)
            .ok_or("room for a packet")?;
    }
    Ok(machine)
}

/// The summary of a scenario with one lane.
fn summary(alloc: Global, seed: u64, packets: u32) -> Result<Vec<u8>, Fail>
    requires seed { seed < 2 ^ 63 }
    requires packets { packets ≤ 1048576 }
{
    let loaded = generate(alloc, seed, 1, packets)?;
    let machine = play(alloc, &loaded)?;
    Ok(write_summary(alloc, machine.kernel())?)
}

#[test]
fn one_packet(rt: HostRuntime) -> Result<(), Fail> {
    let loaded = generate(rt.alloc(), 7, 1, 1)?;
    let [lane] = lanes_of(&loaded) else {
        return Err(Fail::from("one lane"));
    };
    assert_eq!(rt; lane.len(), 1);
    let packet = lane.packet(0);
    assert_eq!(rt;
        (packet.lane.0, packet.index, packet.dev, lane.phase(0)),
        (1, 1, 1, 1)
    );
    assert_eq!(rt; packet.head.bytes.0.as_slice(), FIRST.as_slice());
    assert_eq!(rt; lane.body(0), [0; 8].as_slice());
    Ok(())
}

/// The words of lane 1 are 24, 47 and 21 above multiples of 64, those of lane 2 54, 31 and 47.
#[test]
fn two_lanes(rt: HostRuntime) -> Result<(), Fail> {
    let loaded = generate(rt.alloc(), 7, 2, 3)?;
    let [_, lane] = lanes_of(&loaded) else {
        return Err(Fail::from("two lanes"));
    };
    assert_eq!(rt; lane.len(), 3);
    let packet = lane.packet(1);
    assert_eq!(rt; (packet.lane.0, packet.index, packet.dev), (2, 2, 4));
    assert_eq!(rt; packet.head.src, Addr(0x0A08_0020));
    Ok(())
}

/// Each of the three entries counted one packet; the first of them is entry 21, whose number is 27.
#[test]
fn summaries(rt: HostRuntime) -> Result<(), Fail> {
    let text = summary(rt.alloc(), 7, 3)?;
    assert_eq!(rt;
        text.as_slice(),
        b"packets 3\nfast 0\nslow 3\ncopies 9\nbytes 84\nbusiest 27 1\n".as_slice()
    );
    Ok(())
}

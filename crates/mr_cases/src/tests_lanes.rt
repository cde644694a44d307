use crate::tests::{PACKET, SETUP, check_history, replayed, store_of, told};
use crate::tests_threads::check_parts;
use mr_base::LaneNo;
use mr_lines::Skip;
use mr_load::load;
use std::test::Fail;

/// Three lanes, the second of which has no items, and two admin daemons around a plain one, with
/// lines in no order.
const SEVERAL: &str = "\
scenario 1
lanes 3
daemon admin
device eth0 10.0.0.1
daemon plain
device eth1 10.0.1.1
daemon admin
phase
lane 3 pkt eth0 4500001c000100000211bec50a000009ef01010103e803e900080000
daemon 3 addmfc 10.0.0.8 239.1.1.1 1 0:1
daemon 2 init
lane 1 pkt eth0 4500001c000100000211bec50a000009ef01010103e803e900080000
daemon 1 addvif 0 8 @1
daemon 2 addmfc 10.0.0.9 239.1.1.1 0 1:1
daemon 1 addvif 1 8 @2
lane 1 pkt eth1 4500
phase
lane 3 pkt eth1 4500001c000100000211bec60a000008ef01010103e803e900080000
lane 1 pkt eth0 4500001c000100000211bec50a000009ef01010103e803e900080000
daemon 2 addmfc 10.0.0.9 239.1.1.1 0 1:2
";

/// What each of its callers did, in its order, as numbers of tests_threads. Between the callers of
/// a phase any order is legal.
const SEVERAL_PARTS: [(u32, &[u32]); 6] = [
    (0, &[0, 0]),
    (1, &[1, 3]),
    (3, &[1, 2]),
    (17, &[0, 1]),
    (18, &[20, 31, 32]),
    (19, &[30]),
];

#[test]
fn several_lanes_and_daemons(rt: HostRuntime) -> Result<(), Fail> {
    check_parts(&rt, SEVERAL, &SEVERAL_PARTS)
}

/// Heads that are refused, each for the cause of its place here, with an accepted one behind the
/// fourth.
const REFUSED: &str = "\
phase
lane 1 pkt eth0 4500001c000100000211bec50a000009ef0101
lane 1 pkt eth0 6500001c000100000211bec50a000009ef01010103e803e900080000
lane 1 pkt eth0 4400001c000100000211bec50a000009ef01010103e803e900080000
lane 1 pkt eth0 4500001c000100000311bec50a000009ef01010103e803e900080000
lane 1 pkt eth0 4500001c000100000211bec50a000009ef01010103e803e900080000
phase
lane 1 pkt eth1 4500001c000100000211bec50a000009ef01010103e803e9000800
lane 1 pkt eth1 4500001c000100000211a3bf0a0000090a00010903e803e900080000
lane 1 pkt eth1 4500001c000100000211cdcc0a000009e00000fb03e803e900080000
lane 1 pkt eth1 4500001c00010000021149cd7f000001ef01010103e803e900080000
lane 1 pkt eth0 4500001c000100000211bec50a000009ef01010103e803e900080000
";

const REFUSED_HISTORY: &str = "\
history 1
skip 1 1 1
skip 1 2 2
skip 1 3 3
skip 1 4 4
skip 1 6 5
skip 1 7 6
skip 1 8 7
skip 1 9 8
1 call 1 init = ok
2 call 1 addvif 0 8 @1 = ok
3 call 1 addvif 1 8 @2 = ok
4 call 1 addmfc 10.0.0.9 239.1.1.1 0 1:1 = ok
5 phase
6 slow 1 5 5 fwd 4 0 1
7 phase
8 slow 1 10 7 fwd 4 0 1
9 phase
route 4 10.0.0.9 239.1.1.1 0 2 56 0
vif 0 eth0 2 0 56 0
vif 1 eth1 0 2 0 56
end
";

#[test]
fn refused_heads(rt: HostRuntime) -> Result<(), Fail> {
    let text = format!(in rt.alloc(); "{SETUP}{REFUSED}")?;
    check_history(&rt, text.as_str(), REFUSED_HISTORY)
}

#[test]
fn skips_by_lane(rt: HostRuntime) -> Result<(), Fail> {
    check_history(
        &rt,
        "scenario 1\nlanes 2\ndevice a 10.0.0.1\nphase\nlane 2 pkt a 45\nlane 1 pkt a 00\nphase\nlane 1 pkt a 01\nlane 2 pkt a 02\n",
        "history 1\nskip 1 1 1\nskip 1 2 1\nskip 2 1 1\nskip 2 2 1\n1 phase\n2 phase\nend\n",
    )
}

/// Limits on control entries, with the lines of a first phase and what they come to.
#[test]
fn room_for_the_lines(rt: HostRuntime) -> Result<(), Fail> {
    let cases = [
        (1, "daemon 1 init\ndaemon 1 addvif 0 8 @1\n", 8),
        (2, "daemon 1 init\ndaemon 1 addvif 0 8 @1\n", 0),
        (1, "phase\ndaemon 1 init\n", 0),
        // The lines of all daemons in all phases count together.
        (
            2,
            "daemon 1 init\ndaemon 2 addvif 0 8 @1\nphase\ndaemon 2 addvif 1 8 @1\n",
            8,
        ),
        (
            3,
            "daemon 1 init\ndaemon 2 addvif 0 8 @1\nphase\ndaemon 2 addvif 1 8 @1\n",
            0,
        ),
        // Packets take no room.
        (1, "lane 1 pkt a 45\nlane 1 pkt a 45\n", 0),
    ];
    for (most, lines, number) in cases {
        let text = format!(in rt.alloc();
            "scenario 1\nlimit control {most}\ndevice a 10.0.0.1\ndaemon admin\ndaemon admin\nphase\n{lines}"
        )?;
        let (status, taken) = replayed(&rt, "replay f", text.as_str())?;
        assert_eq!(rt; told(&status), (number, 0, 0), "at {text}");
        assert_eq!(rt; taken.is_empty(), number != 0, "at {text}");
    }
    Ok(())
}

#[test]
fn what_is_loaded(rt: HostRuntime) -> Result<(), Fail> {
    let text = format!(in rt.alloc();
        "scenario 1\nlimit entries 5\nlanes 3\ndevice a 10.0.0.1\ndevice b 10.0.1.1\ndaemon plain\ndaemon admin\nphase\nlane 3 pkt b 45\nlane 1 pkt a {PACKET}\nphase\nlane 1 pkt b 65{PACKET}\nlane 3 pkt a {PACKET}\nlane 1 pkt a {PACKET}\nlane 3 pkt a 00\n"
    )?;
    let mut store = store_of(rt.alloc(), text.as_str())?;
    let loaded = load(rt.alloc(), "f", false, &mut store)
        .ok()
        .ok_or("a scenario")?;
    let skips = [
        Skip {
            lane: LaneNo(1),
            index: 2,
            cause: 2,
        },
        Skip {
            lane: LaneNo(3),
            index: 1,
            cause: 1,
        },
        Skip {
            lane: LaneNo(3),
            index: 3,
            cause: 1,
        },
    ];
    assert_eq!(rt; loaded.skips.0.as_slice(), skips.as_slice());
    assert_eq!(rt; loaded.skip_devs.0.as_slice(), [2, 2, 1].as_slice());
    assert_eq!(rt; loaded.limits.packets.0.as_slice(), [2, 0, 1].as_slice());
    assert_eq!(rt; loaded.limits.admins.0.as_slice(), [false, true].as_slice());
    assert_eq!(rt; (loaded.limits.entries, loaded.limits.phases), (5, 2));
    assert_eq!(rt; loaded.limits.devices.0.as_slice().len(), 2);
    assert_eq!(rt;
        loaded.scenario.limits.packets.0.as_slice(),
        [0, 0, 0].as_slice()
    );
    Ok(())
}

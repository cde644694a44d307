use super::*;
use crate::stop::ScenarioError;
use mr_words::{next_word, number_of, past, split_line};
use std::alloc::Global;
use std::str;
use std::test::Fail;

/// The head lines before a row that is a head line, which is line 7.
const HEAD: &[u8] = b"\
scenario 1
device eth0 10.0.0.1
device eth1 10.0.1.1
daemon admin
daemon plain
smc a.conf b.conf
";

/// The lines before a row that is a phase line, which is line 9.
const PHASE: &[u8] = b"\
scenario 1
device eth0 10.0.0.1
device eth1 10.0.1.1
daemon admin
daemon plain
smc a.conf b.conf
lanes 2
phase
";

/// Head lines, each with the line of its mistake and the mistake's number; 0 where there is none.
const HEAD_ROWS: &[u8] = b"\
0 0 limit entries 1
0 0 limit entries 16384
7 3 limit entries 0
7 3 limit entries 16385
7 3 limit entries 01
7 3 limit entries +1
7 2 limit entries
7 2 limit entries 1 1
0 0 limit unresolved 1
0 0 limit unresolved 64
7 3 limit unresolved 0
7 3 limit unresolved 65
0 0 limit control 1
0 0 limit control 1048576
7 3 limit control 0
7 3 limit control 1048577
7 2 limit phases 3
7 2 limit
8 2 limit entries 5|limit entries 5
8 2 limit entries 5|limit entries x
8 2 limit unresolved 5|limit unresolved 6
8 2 limit control 5|limit control 6
0 0 limit entries 5|limit unresolved 5|limit control 5
7 2 limit entries \x01
7 2 limit \x01 0
0 0 lanes 0
0 0 lanes 16
7 3 lanes 17
7 3 lanes x
7 2 lanes
7 2 lanes 1 2
8 2 lanes 2|lanes 2
8 2 lanes 2|lanes x
7 2 lanes 1\x7f
0 0 device eth2 10.0.2.1
7 2 device eth2
7 2 device eth2 10.0.2.1 1
7 5 device eth0 10.0.2.1
7 5 device eth0 10.0.2
7 5 device pimreg 10.0.2.1
7 5 device 2eth 10.0.2.1
7 5 device eth/2 10.0.2.1
0 0 device a23456789012345 10.0.2.1
7 5 device a234567890123456 10.0.2.1
0 0 device A.b_c-d:e 255.255.255.255
7 4 device eth2 10.0.2
7 4 device eth2 10.0.2.256
7 4 device eth2 10.0.02.1
7 4 device eth2 10.0.2.1.1
7 4 device eth2 @1
7 2 device eth\x012 10.0.2.1
7 2 device eth2 10.0.2.\x01
7 5 device 2eth 10.0.2.\x01
7 2 device eth\x012 10.0.2
0 0 daemon admin
0 0 daemon plain
7 2 daemon root
7 2 daemon
7 2 daemon admin plain
7 2 daemon 1 init
0 0 daemon plain|daemon plain|daemon plain|daemon plain|daemon plain
12 11 daemon plain|daemon plain|daemon plain|daemon plain|daemon plain|daemon admin
12 2 daemon plain|daemon plain|daemon plain|daemon plain|daemon plain|daemon root
12 11 daemon plain|daemon plain|daemon plain|daemon plain|daemon plain|smc a.conf
12 12 daemon plain|daemon plain|daemon plain|daemon plain|daemon plain|smc a/b
0 0 smc a.conf
7 2 smc
0 0 smc 1 2 3 4 5 6 7 8
7 12 smc 1 2 3 4 5 6 7 8 9
7 2 smc 1 2 3 4 5 6 7 8 9\x01
7 12 smc a/b
7 12 smc .
7 12 smc ..
0 0 smc ...
7 12 smc out-x
0 0 smc out
7 2 smc a\x01
7 2 smc a/\x01
7 12 smc a/b c\x01
7 2 lane 1 pkt eth0 00
7 2 start
7 2 scenario 1
0 0 phase
7 2 phase 1
10 3 # x||  \t|lanes 17
0 0 lanes 2 # two\x01
7 3 lanes 2#
0 0 #lanes 17
0 0 lanes 2\r
0 0 lanes 2\r|
7 2 lanes 2\r\r
0 0 lanes\t2 \r
7 2 \x01
7 2 lanes\x01 2
";

/// The same for the lines of phases.
const PHASE_ROWS: &[u8] = b"\
0 0 lane 1 pkt eth0 00
0 0 lane 2 pkt eth1 AbfF09
9 7 lane 0 pkt eth0 00
9 7 lane 3 pkt eth0 00
9 7 lane 01 pkt eth0 00
9 7 lane x what eth9 0
9 2 lane 1 what eth9 0
9 6 lane 1 pkt eth9 0
9 6 lane 1 pkt pimreg 00
9 6 lane 1 pkt 9 00
9 9 lane 1 pkt eth0 0
9 9 lane 1 pkt eth0 0g
9 9 lane 1 pkt eth0 @0
9 9 lane 1 pkt eth0 -
9 9 lane 1 pkt eth0 000
9 2 lane 1 pkt eth0
9 2 lane 1 pkt eth0 00 00
9 2 lane 1 pkt eth0 0\x01
9 6 lane 1 pkt eth9 0\x01
9 2 lane 1 pkt eth\x01 0
9 2 lane \x01 pkt eth0 00
9 7 lane 3 pkt eth\x01 00
9 2 lane 1 p\x01 eth0 00
0 0 lane 1 trace eth0 in.pcap
9 12 lane 1 trace eth0 a/b
9 6 lane 1 trace eth9 a/b
9 12 lane 1 trace eth0 out-a
9 12 lane 1 trace eth0 ..
9 7 lane 3 trace eth0 a
9 2 lane 1 trace eth0 a\x01
9 2 lane 1 trace eth0
0 0 daemon 1 init
0 0 daemon 2 init
9 8 daemon 3 init
9 8 daemon 0 init
9 8 daemon 4 init
9 8 daemon x init
9 2 daemon 1 init 1
9 2 daemon 4 init 1
9 2 daemon 1
9 2 daemon
9 2 daemon \x01 init
0 0 daemon 1 done
9 8 daemon 3 done
0 0 daemon 1 addvif 0 8 @1
0 0 daemon 1 addvif 65535 255 @4294967295
9 3 daemon 1 addvif 65536 8 @1
9 3 daemon 1 addvif 0 256 @1
9 3 daemon 1 addvif 0 8 @4294967296
9 3 daemon 1 addvif 0 8 @
9 3 daemon 1 addvif 0 8 @01
9 4 daemon 1 addvif 0 8 1
0 0 daemon 1 addvif 0 0 10.0.0.1
9 4 daemon 1 addvif 0 0 10.0.0
9 2 daemon 1 addvif 0 8
9 8 daemon 3 addvif x 8 @1
9 3 daemon 1 addvif x 256 1
9 2 daemon 1 addvif 0 8 @\x01
9 3 daemon 1 addvif 0 x \x01
0 0 daemon 1 delvif 0
9 3 daemon 1 delvif 65536
9 2 daemon 1 delvif
0 0 daemon 1 addmfc 10.0.0.9 239.1.1.1 0
0 0 daemon 1 addmfc 10.0.0.9 239.1.1.1 0 0:0 31:255
9 10 daemon 1 addmfc 10.0.0.9 239.1.1.1 0 32:0
9 10 daemon 1 addmfc 10.0.0.9 239.1.1.1 0 0:256
9 10 daemon 1 addmfc 10.0.0.9 239.1.1.1 0 1:1 1:1
9 10 daemon 1 addmfc 10.0.0.9 239.1.1.1 0 1:1 2:1 1:0
9 10 daemon 1 addmfc 10.0.0.9 239.1.1.1 0 1:
9 10 daemon 1 addmfc 10.0.0.9 239.1.1.1 0 1
9 10 daemon 1 addmfc 10.0.0.9 239.1.1.1 0 1:1:1
9 10 daemon 1 addmfc 10.0.0.9 239.1.1.1 0 01:1
9 3 daemon 1 addmfc 10.0.0.9 239.1.1.1 65536 32:0
9 4 daemon 1 addmfc 10.0.0 239.1.1.1 x 32:0
9 4 daemon 1 addmfc 10.0.0.9 239.1.1 0
9 2 daemon 1 addmfc 10.0.0.9 239.1.1.1
9 2 daemon 1 addmfc 10.0.0.9 239.1.1.1 0 \x01:1
9 10 daemon 1 addmfc 10.0.0.9 239.1.1.1 0 32:0 \x01
9 8 daemon 3 addmfc 10.0.0.9 239.1.1.1 0
0 0 daemon 1 addproxy 0.0.0.0 239.1.1.1 65535 5:1
9 10 daemon 1 addproxy 0.0.0.0 239.1.1.1 0 5:1 5:0
0 0 daemon 1 delmfc 10.0.0.9 239.1.1.1 0
9 2 daemon 1 delmfc 10.0.0.9 239.1.1.1 0 1:1
9 3 daemon 1 delmfc 10.0.0.9 239.1.1.1 65536
0 0 daemon 1 delproxy 10.0.0.9 239.1.1.1 65535
9 4 daemon 1 delproxy 10.0.0.9 x 0
0 0 daemon 1 pim 1
9 3 daemon 1 pim 4294967296
0 0 daemon 1 assert 4294967295
9 3 daemon 1 assert x
0 0 daemon 1 flush 15
9 2 daemon 1 flush
0 0 daemon 1 table 4294967295
9 3 daemon 1 table 4294967296
9 8 daemon 3 table 1
0 0 daemon 1 version
0 0 daemon 1 getpim
0 0 daemon 1 getassert
9 2 daemon 1 version 1
9 8 daemon 3 getpim
0 0 daemon 1 vifcnt 65535
9 3 daemon 1 vifcnt 65536
0 0 daemon 1 sgcnt 10.0.0.9 239.1.1.1
9 4 daemon 1 sgcnt 10.0.0.9 239.1.1.256
9 2 daemon 1 sgcnt 10.0.0.9
0 0 daemon 1 raw 200 -
0 0 daemon 1 raw 65535 00ff
9 3 daemon 1 raw 65536 00
9 9 daemon 1 raw 200 0
9 9 daemon 1 raw 200 --
9 2 daemon 1 raw 200
9 8 daemon 3 raw 200 -
0 0 daemon 1 tick 0
0 0 daemon 3 tick 4294967295
9 3 daemon 3 tick 4294967296
9 8 daemon 4 tick 1
9 2 daemon 1 tick
0 0 daemon 1 recv
9 8 daemon 3 recv
9 2 daemon 1 recv 1
0 0 daemon 3 start
9 8 daemon 1 start
9 8 daemon 2 start
9 2 daemon 3 start 1
0 0 daemon 3 poll 1
0 0 daemon 3 poll 64
9 3 daemon 3 poll 0
9 3 daemon 3 poll 65
9 8 daemon 1 poll 1
9 2 daemon 3 poll
0 0 daemon 3 smc show
9 2 daemon 3 smc
9 8 daemon 1 smc show
9 2 daemon 3 smc show \x01
9 2 daemon 3 smc \x01
9 8 daemon 4 what
9 2 daemon 1 what
9 2 daemon 3 what 1 2
9 2 daemon \x01 what
0 0 phase
9 2 phase 1
9 2 device eth2 10.0.2.1
9 2 lanes 2
9 2 limit entries 1
9 2 smc a
9 2 daemon admin
9 8 daemon plain x
11 9 phase|phase|lane 1 pkt eth0 0
";

/// The same for whole texts.
const WHOLE_ROWS: &[u8] = b"\
1 1 
1 1 # a||  # b|
0 0 scenario 1
0 0 scenario 1|
0 0 |# a|scenario 1|
3 1 ||scenario 2|
1 1 scenario|
1 1 scenario 1 1|
1 1 scenario 01|
1 1 lanes 2|scenario 1|
1 1 phase|
1 1 scenario 1\x01|
1 1 \x01|
0 0 scenario 1\r|phase\r|
0 0 scenario 1\r
0 0 # a\x01|scenario\t1 # b|
2 2 scenario 1|scenario 1|
2 2 scenario 1|lane 1 pkt eth0 00|
3 6 scenario 1|phase|lane 1 pkt eth0 00|
5 7 scenario 1|lanes 0|device a 1.1.1.1|phase|lane 1 pkt a 00|
0 0 scenario 1|device a 1.1.1.1|phase|lane 1 pkt a 00|
4 7 scenario 1|device a 1.1.1.1|phase|lane 2 pkt a 00|
3 8 scenario 1|phase|daemon 1 init|
";

/// The line and the number of the mistake in a text; 0 where there is none.
fn mistake(alloc: Global, text: &[u8]) -> Result<(u32, u8), Fail> {
    match read(alloc, text) {
        Ok(_) => Ok((0, 0)),
        Err(ScenarioError::Bad { line, kind, .. }) => Ok((line, kind.number())),
        Err(ScenarioError::Memory) => Err(Fail::from("memory")),
    }
}

/// The number of the first row, from 1, whose mistake is another one; 0 where there is none. A row
/// begins with the line and the number of its mistake, and `|` stands in it for a line feed.
fn first_wrong(alloc: Global, front: &[u8], rows: &[u8]) -> Result<u32, Fail> {
    let mut rest = rows;
    for number in 1..1000u32 {
        if rest.is_empty() {
            return Ok(0);
        }
        let (row, after) = split_line(rest);
        let (line, behind) = next_word(row).ok_or("a line")?;
        let (kind, behind) = next_word(behind).ok_or("a kind")?;
        let mut text = Vec::from_slice(alloc, front)?;
        for b in past(behind, 0) {
            text.push(if *b == b'|' { b'\n' } else { *b })?;
        }
        let (at, what) = mistake(alloc, text.as_slice())?;
        if number_of(line, 99) != Some(at) || number_of(kind, 99) != Some(u32::from(what)) {
            return Ok(number);
        }
        rest = after;
    }
    Err(Fail::from("too many rows"))
}

#[test]
fn mistakes(rt: HostRuntime) -> Result<(), Fail> {
    assert_eq!(rt; first_wrong(rt.alloc(), HEAD, HEAD_ROWS)?, 0);
    assert_eq!(rt; first_wrong(rt.alloc(), PHASE, PHASE_ROWS)?, 0);
    assert_eq!(rt; first_wrong(rt.alloc(), b"", WHOLE_ROWS)?, 0);
    Ok(())
}

/// What is wrong with a row behind a front, and what was found.
fn found(alloc: Global, front: &[u8], row: &str) -> Result<String, Fail> {
    let mut text = Vec::from_slice(alloc, front)?;
    text.extend_from_slice(row.as_bytes())?;
    match read(alloc, text.as_slice()) {
        Err(ScenarioError::Bad { kind, text, .. }) => {
            let word = str::from_utf8(text.0.as_slice()).ok().ok_or("a text")?;
            Ok(format!(in alloc; "{kind:?} {word}")?)
        }
        _ => Err(Fail::from("a good row")),
    }
}

#[test]
fn found_in_head_lines(rt: HostRuntime) -> Result<(), Fail> {
    let rows = [
        ("limit entries 0", "Number { least: 1, most: 16384 } 0"),
        ("limit unresolved 065", "Number { least: 1, most: 64 } 065"),
        ("limit control -", "Number { least: 1, most: 1048576 } -"),
        ("lanes  17 # 3", "Number { least: 0, most: 16 } 17"),
        ("device pimreg 10.0.2", "Name pimreg"),
        ("device eth0 10.0.2.1", "Name eth0"),
        ("\tdevice eth2\t10.0.2", "Address 10.0.2"),
        ("daemon root # 1", "Word daemon root # 1"),
        ("limit entries 5 6\r", "Word limit entries 5 6"),
        ("smc a b out-c d/e", "File out-c"),
        ("smc 1 2 3 4 5 6 7 8 9 10", "File 9"),
        (
            "smc 1\nsmc 2\nsmc 3\nsmc 4\nsmc 5\nsmc 6 7",
            "Limit smc 6 7",
        ),
    ];
    for (row, what) in rows {
        assert_eq!(rt; found(rt.alloc(), HEAD, row)?.as_str(), what);
    }
    assert_eq!(rt;
        found(rt.alloc(), b"", "\nscenario 2 # \n")?.as_str(),
        "Header scenario 2 # "
    );
    assert_eq!(rt; found(rt.alloc(), b"\n", "# 1")?.as_str(), "Header ");
    Ok(())
}

#[test]
fn found_in_phase_lines(rt: HostRuntime) -> Result<(), Fail> {
    let rows = [
        ("lane 3 pkt eth9 0", "Lane 3"),
        ("lane 1 pkt eth9 0", "Device eth9"),
        ("lane 1 pkt eth0 0g", "Hex 0g"),
        ("lane 1 trace eth0 a/b", "File a/b"),
        ("daemon 4 init", "Daemon 4"),
        ("daemon 1 poll 4", "Daemon 1"),
        (
            "daemon 1 addvif x y z",
            "Number { least: 0, most: 65535 } x",
        ),
        (
            "daemon 1 addvif 0 256 z",
            "Number { least: 0, most: 255 } 256",
        ),
        (
            "daemon 1 addvif 0 8 @z",
            "Number { least: 0, most: 4294967295 } @z",
        ),
        ("daemon 1 addvif 0 8 1", "Address 1"),
        ("daemon 1 addmfc 1 2 x 1:x", "Address 1"),
        ("daemon 1 delmfc 10.0.0.9 2 x", "Address 2"),
        (
            "daemon 1 addmfc 10.0.0.9 239.1.1.1 x 1:x",
            "Number { least: 0, most: 65535 } x",
        ),
        (
            "daemon 1 addmfc 10.0.0.9 239.1.1.1 0 1:1 2:2 1:3 3:x",
            "Threshold 1:3",
        ),
        (
            "daemon 1 addproxy 10.0.0.9 239.1.1.1 0 32:1",
            "Threshold 32:1",
        ),
        (
            "daemon 1 delproxy 10.0.0.9 239.1.1.1 -1",
            "Number { least: 0, most: 65535 } -1",
        ),
        (
            "daemon 3 tick 01",
            "Number { least: 0, most: 4294967295 } 01",
        ),
        ("daemon 3 poll 65", "Number { least: 1, most: 64 } 65"),
        (
            "daemon 1 raw 65536 0",
            "Number { least: 0, most: 65535 } 65536",
        ),
        ("daemon 1 raw 0 -0", "Hex -0"),
        ("daemon 1 sgcnt 10.0.0.9 g", "Address g"),
    ];
    for (row, what) in rows {
        assert_eq!(rt; found(rt.alloc(), PHASE, row)?.as_str(), what);
    }
    Ok(())
}

#[test]
fn found_words_are_cut(rt: HostRuntime) -> Result<(), Fail> {
    let mut row = String::from_str(rt.alloc(), "lanes ")?;
    for _ in 0..5000u32 {
        row.push('7')?;
    }
    let what = found(rt.alloc(), HEAD, row.as_str())?;
    assert_eq!(rt;
        what.len(),
        "Number { least: 0, most: 16 } ".len() + MOST_TEXT
    );
    Ok(())
}

/// The limits that a text gives, as a debug text.
fn limits_shown(alloc: Global, text: &[u8]) -> Result<String, Fail> {
    let scenario = read(alloc, text).ok().ok_or("a scenario")?;
    Ok(format!(in alloc; "{} {:?}", scenario.lanes, scenario.limits)?)
}

#[test]
fn limits_and_lanes(rt: HostRuntime) -> Result<(), Fail> {
    let given = b"\
scenario 1
limit control 7
limit entries 8
lanes 2
limit unresolved 9
daemon plain
smc a.conf
device eth0 10.0.0.1
phase
phase
";
    assert_eq!(rt;
        limits_shown(rt.alloc(), given)?.as_str(),
        "2 Limits { entries: 8, unresolved: 9, controls: 7, phases: 2, packets: List([0, 0]), \
        admins: List([false, true]), devices: List([Device { addr: Addr(167772161) }]) }"
    );
    assert_eq!(rt;
        limits_shown(rt.alloc(), b"scenario 1")?.as_str(),
        "1 Limits { entries: 1024, unresolved: 10, controls: 65536, phases: 0, packets: List([0]), \
        admins: List([]), devices: List([]) }"
    );
    Ok(())
}

/// The phases of a text that has a row behind line 9, as a debug text.
fn phases_shown(alloc: Global, row: &[u8]) -> Result<String, Fail> {
    let mut text = Vec::from_slice(alloc, PHASE)?;
    text.extend_from_slice(row)?;
    let scenario = read(alloc, text.as_slice()).ok().ok_or("a scenario")?;
    Ok(format!(in alloc; "{:?}", scenario.phases.0.as_slice())?)
}

#[test]
fn vifs(rt: HostRuntime) -> Result<(), Fail> {
    assert_eq!(rt;
        phases_shown(
            rt.alloc(),
            b"daemon 1 addvif 3 8 @7\n#\ndaemon 2 addvif 4 0 10.0.0.1"
        )?
        .as_str(),
        "[Phase { line: 8, items: List([]), script: List([ScriptLine { line: 9, daemon: \
        DaemonNo(1), script: Ask(AddVif(VifCtl { vif: 3, flags: 8, local: 7 })) }, ScriptLine { \
        line: 11, daemon: DaemonNo(2), script: Ask(AddVif(VifCtl { vif: 4, flags: 0, local: \
        167772161 })) }]) }]"
    );
    Ok(())
}

#[test]
fn routes(rt: HostRuntime) -> Result<(), Fail> {
    assert_eq!(rt;
        phases_shown(
            rt.alloc(),
            b"daemon 1 addmfc 10.0.0.9 239.1.1.1 3 31:255 1:7"
        )?
        .as_str(),
        "[Phase { line: 8, items: List([]), script: List([ScriptLine { line: 9, daemon: \
        DaemonNo(1), script: Ask(AddMfc(MfcCtl { src: Addr(167772169), dst: Addr(4009820417), \
        parent: 3, ttls: [0, 7, 0, 0, 0, 0, 0, 0, 0, 0, 0, 0, 0, 0, 0, 0, 0, 0, 0, 0, 0, 0, 0, 0, \
        0, 0, 0, 0, 0, 0, 0, 255] })) }]) }]"
    );
    Ok(())
}

#[test]
fn other_lines(rt: HostRuntime) -> Result<(), Fail> {
    assert_eq!(rt;
        phases_shown(
            rt.alloc(),
            b"daemon 1 raw 202 00fF\ndaemon 3 smc  add\teth0 # all\ndaemon 3 poll 64"
        )?
        .as_str(),
        "[Phase { line: 8, items: List([]), script: List([ScriptLine { line: 9, daemon: \
        DaemonNo(1), script: Raw { opt: 202, bytes: List([0, 255]) } }, ScriptLine { line: 10, \
        daemon: DaemonNo(3), script: Words(List([97, 100, 100, 32, 101, 116, 104, 48])) }, \
        ScriptLine { line: 11, daemon: DaemonNo(3), script: Poll(64) }]) }]"
    );
    Ok(())
}

#[test]
fn items(rt: HostRuntime) -> Result<(), Fail> {
    assert_eq!(rt;
        phases_shown(
            rt.alloc(),
            b"lane 2 pkt eth1 09aF\nphase\nlane 1 trace eth0 in"
        )?
        .as_str(),
        "[Phase { line: 8, items: List([Item { line: 9, lane: LaneNo(2), dev: 2, given: \
        Bytes(List([9, 175])) }]), script: List([]) }, Phase { line: 10, items: List([Item { line: \
        11, lane: LaneNo(1), dev: 1, given: Trace(BoxedName(FileName(\"in\"))) }]), script: \
        List([]) }]"
    );
    Ok(())
}

/// The mistake in a text that has a part so many times between a front and a back.
fn repeated(
    alloc: Global,
    front: &[u8],
    part: &[u8],
    times: usize,
    back: &[u8],
) -> Result<(u32, u8), Fail> {
    let mut text = Vec::from_slice(alloc, front)?;
    for _ in 0..times {
        text.extend_from_slice(part)?;
    }
    text.extend_from_slice(back)?;
    mistake(alloc, text.as_slice())
}

#[test]
fn most_of_all(rt: HostRuntime) -> Result<(), Fail> {
    let front = b"scenario 1\ndevice a 10.0.0.1\nphase\nlane 1 pkt a ";
    assert_eq!(rt; repeated(rt.alloc(), front, b"0f", 65_535, b"")?, (0, 0));
    assert_eq!(rt; repeated(rt.alloc(), front, b"0f", 65_535, b"0")?, (4, 9));
    assert_eq!(rt; repeated(rt.alloc(), front, b"0f", 65_536, b"")?, (4, 9));
    assert_eq!(rt;
        repeated(rt.alloc(), b"scenario 1\n", b"phase\n", 1000, b"")?,
        (0, 0)
    );
    assert_eq!(rt;
        repeated(rt.alloc(), b"scenario 1\n", b"phase\n", 1001, b"phase 1")?,
        (1002, 11)
    );
    Ok(())
}

/// 64 devices, and a line behind them.
fn behind_devices(alloc: Global, back: &[u8]) -> Result<(u32, u8), Fail> {
    let mut text = Vec::from_slice(alloc, b"scenario 1\n")?;
    for name in b"ABCDEFGHIJKLMNOPQRSTUVWXYZabcdef" {
        text.extend_from_slice(b"device ")?;
        text.push(*name)?;
        text.extend_from_slice(b" 10.0.0.1\ndevice ")?;
        text.push(*name)?;
        text.extend_from_slice(b"2 10.0.0.1\n")?;
    }
    text.extend_from_slice(back)?;
    mistake(alloc, text.as_slice())
}

#[test]
fn most_devices(rt: HostRuntime) -> Result<(), Fail> {
    assert_eq!(rt; behind_devices(rt.alloc(), b"")?, (0, 0));
    assert_eq!(rt; behind_devices(rt.alloc(), b"device z 10.0.0.1")?, (66, 11));
    assert_eq!(rt; behind_devices(rt.alloc(), b"device z 10.0.0")?, (66, 4));
    Ok(())
}

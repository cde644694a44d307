//! Histories of small runs, each read and written back.

use super::*;
use std::alloc::Global;
use std::test::Fail;

/// The ordinary path: a packet goes out on one vif.
const FORWARDED: &str = "history 1
1 call 1 init = ok
2 call 1 addvif 0 8 @1 = ok
3 call 1 addvif 1 8 @2 = ok
4 call 1 addmfc 10.0.0.9 239.1.1.1 0 1:1 = ok
5 phase
6 settle 1 1
- 1 5 4 0 1
7 phase
route 4 10.0.0.9 239.1.1.1 0 1 28 0
vif 0 eth0 1 0 28 0
vif 1 eth1 0 1 0 28
end
";

/// The same with another output in the record, which no machine gives.
const OTHER_RECORD: &str = "history 1
1 call 1 init = ok
2 call 1 addvif 0 8 @1 = ok
3 call 1 addvif 1 8 @2 = ok
4 call 1 addmfc 10.0.0.9 239.1.1.1 0 1:1 = ok
5 phase
6 settle 1 1
- 1 5 4 0 0
7 phase
route 4 10.0.0.9 239.1.1.1 0 1 28 0
vif 0 eth0 1 0 28 0
vif 1 eth1 0 1 0 28
end
";

/// A phase in which nothing happens.
const EMPTY_PHASE: &str = "history 1
1 phase
end
";

/// Thresholds against the packet's TTL.
const THRESHOLDS: &str = "history 1
1 call 1 init = ok
2 call 1 addvif 0 8 @1 = ok
3 call 1 addvif 1 8 @2 = ok
4 call 1 addvif 2 8 @3 = ok
5 call 1 addvif 3 8 @4 = ok
6 call 1 addmfc 10.0.0.9 239.1.1.1 0 1:4 2:5 3:6 = ok
7 call 1 addmfc 10.0.0.9 239.1.1.2 0 1:1 = ok
8 phase
9 settle 1 2
- 1 8 6 0 1
- 2 8 7 0 -
10 phase
route 6 10.0.0.9 239.1.1.1 0 1 28 0
route 7 10.0.0.9 239.1.1.2 0 1 28 0
end
";

/// An entry's threshold for a vif that comes later.
const NO_OUTPUT: &str = "history 1
1 call 1 init = ok
2 call 1 addvif 0 8 @1 = ok
3 call 1 addvif 1 8 @2 = ok
4 call 1 addvif 2 8 @3 = ok
5 call 1 addmfc 10.0.0.9 239.1.1.1 0 2:255 3:1 = ok
6 call 1 addvif 3 8 @4 = ok
7 phase
8 settle 1 1
- 1 7 5 0 -
9 phase
end
";

/// Calls that are refused, each with its error.
const REFUSED_CALLS: &str = "history 1
1 call 1 init = ok
2 call 1 addvif 31 8 @1 = ok
3 call 1 addvif 32 8 @1 = err 23
4 call 1 addvif 31 8 @1 = err 98
5 call 1 delvif 31 = ok
6 call 1 delvif 31 = err 99
7 call 1 delvif 32 = err 23
8 call 1 addvif 0 1 10.0.0.1 = err 22
9 call 1 addvif 0 8 @9 = err 99
10 call 1 addvif 5 4 0.0.0.0 = ok
11 call 1 addvif 6 4 0.0.0.0 = err 98
12 call 1 unknown 209 = err 92
13 call 1 version = ok 773
14 call 1 addvif 0 8 @1 = ok
15 call 1 badlength 202 = err 22
16 call 1 vifcnt 6 = err 22
17 call 1 vifcnt 4 = err 99
18 call 1 delmfc 10.0.0.9 239.1.1.1 0 = err 2
19 call 1 addmfc 10.0.0.9 10.0.0.8 0 = err 22
20 phase
21 call 2 pim 1 = err 13
22 call 2 init = err 98
23 phase
vif 0 eth0 0 0 0 0
vif 5 pimreg 0 0 0 0
end
";

/// An entry for every source.
const WILDCARD: &str = "history 1
1 call 1 init = ok
2 call 1 addvif 0 8 @1 = ok
3 call 1 addvif 1 8 @2 = ok
4 call 1 addvif 2 8 @3 = ok
5 call 1 addproxy 0.0.0.0 0.0.0.0 0 0:1 1:1 2:1 = ok
6 call 1 addmfc 0.0.0.0 239.1.1.1 0 0:1 1:1 2:1 = ok
7 phase
8 settle 1 1
- 1 7 6 0 0,2
9 phase
end
";

/// An entry for every source and group, from another vif and from its own.
const PROXY: &str = "history 1
1 call 1 init = ok
2 call 1 addvif 0 8 @1 = ok
3 call 1 addvif 1 8 @2 = ok
4 call 1 addvif 2 8 @3 = ok
5 call 1 addproxy 0.0.0.0 0.0.0.0 0 0:1 1:1 2:1 = ok
6 call 1 addmfc 0.0.0.0 239.1.1.1 0 0:1 1:1 2:1 = ok
7 phase
8 settle 1 2
- 1 7 5 0 0
- 2 7 5 0 -
9 phase
end
";

/// Two vifs of one device, and a packet that waits to the end.
const TWO_VIFS_OF_A_DEVICE: &str = "history 1
1 call 1 init = ok
2 call 1 addvif 0 8 @1 = ok
3 call 1 addvif 1 8 @2 = ok
4 call 1 addvif 2 8 @1 = ok
5 call 1 addmfc 10.0.1.9 239.1.1.1 1 0:1 2:1 = ok
6 phase
7 settle 1 1
- 1 6 5 1 0,2
8 slow 1 2 6 parked
9 phase
10 recv 1 nocache 2 1 2
11 phase
route 5 10.0.1.9 239.1.1.1 1 1 28 0
vif 0 eth0 0 1 0 28
vif 1 eth1 1 0 28 0
vif 2 eth0 0 1 0 28
fate 1 2 waiting
end
";

/// Four packets wait, a fifth is dropped, and an entry releases the four.
const RELEASED: &str = "history 1
1 call 1 init = ok
2 call 1 addvif 0 8 @1 = ok
3 call 1 addvif 1 8 @2 = ok
4 phase
5 slow 1 1 4 parked
6 slow 1 2 5 parked
7 slow 1 3 6 parked
8 slow 1 4 7 parked
9 slow 1 5 8 drop packets
10 phase
11 recv 1 nocache 0 1 1
12 recv 1 none
13 call 1 addmfc 10.0.0.9 239.1.1.1 0 1:1 = ok
- 1 1 fwd 13 0 1
- 1 2 fwd 13 0 1
- 1 3 fwd 13 0 1
- 1 4 fwd 13 0 1
14 phase
route 13 10.0.0.9 239.1.1.1 0 4 112 0
vif 0 eth0 4 0 112 0
vif 1 eth1 0 4 0 112
fate 1 1 released 13
fate 1 2 released 13
fate 1 3 released 13
fate 1 4 released 13
end
";

/// Ten packets wait for entries, and there is no room for an eleventh.
const ELEVENTH: &str = "history 1
1 call 1 init = ok
2 call 1 addvif 0 8 @1 = ok
3 call 1 addvif 1 8 @2 = ok
4 phase
5 slow 1 1 4 parked
6 slow 1 2 5 parked
7 slow 1 3 6 parked
8 slow 1 4 7 parked
9 slow 1 5 8 parked
10 slow 1 6 9 parked
11 slow 1 7 10 parked
12 slow 1 8 11 parked
13 slow 1 9 12 parked
14 slow 1 10 13 parked
15 slow 1 11 14 drop entries
16 phase
vif 0 eth0 0 0 0 0
vif 1 eth1 0 0 0 0
fate 1 1 waiting
fate 1 2 waiting
fate 1 3 waiting
fate 1 4 waiting
fate 1 5 waiting
fate 1 6 waiting
fate 1 7 waiting
fate 1 8 waiting
fate 1 9 waiting
fate 1 10 waiting
end
";

/// A packet that misses where no daemon listens.
const NO_DAEMON: &str = "history 1
1 call 1 addvif 0 8 @1 = ok
2 phase
3 slow 1 1 2 drop nodaemon
4 phase
end
";

/// A packet that waits too long.
const EXPIRED: &str = "history 1
1 call 1 init = ok
2 call 1 addvif 0 8 @1 = ok
3 phase
4 slow 1 1 3 parked
5 phase
6 tick 1 9999
7 tick 1 1
8 phase
vif 0 eth0 0 0 0 0
fate 1 1 expired 7
end
";

/// Packets on a wrong vif; a second within three seconds is not told.
const WRONG_VIF: &str = "history 1
1 call 1 init = ok
2 call 1 addvif 0 8 @1 = ok
3 call 1 addvif 1 8 @2 = ok
4 call 1 assert 1 = ok
5 call 1 addmfc 10.0.0.9 239.1.1.1 0 1:1 = ok
6 phase
7 slow 1 1 6 wrong 5 1 told
8 phase
9 tick 1 3000
10 phase
11 slow 1 2 10 wrong 5 1 quiet
12 phase
13 tick 1 1
14 phase
15 slow 1 3 14 wrong 5 1 told
16 phase
route 5 10.0.0.9 239.1.1.1 0 3 84 3
vif 0 eth0 0 0 0 0
vif 1 eth1 0 0 0 0
end
";

/// A packet to the register vif.
const REGISTERED: &str = "history 1
1 call 1 init = ok
2 call 1 addvif 0 8 @1 = ok
3 call 1 addvif 1 8 @2 = ok
4 call 1 addvif 2 4 0.0.0.0 = ok
5 call 1 addmfc 10.0.0.9 239.1.1.1 0 1:1 2:1 = ok
6 phase
7 slow 1 1 6 reg 5 0 1,2 told
8 phase
9 recv 1 wholepkt 2 1 1
10 phase
end
";

/// Two daemons; what the first one made goes when it is done.
const FLUSHED: &str = "history 1
1 call 1 init = ok
2 call 1 addvif 0 8 @1 = ok
3 call 1 addvif 1 8 @2 = ok
4 phase
5 call 2 addmfc 10.0.0.9 239.1.1.1 0 1:1 = ok
6 phase
7 call 1 addmfc 10.0.0.9 239.1.1.2 0 1:1 = ok
8 phase
9 slow 1 1 8 parked
10 phase
11 call 1 done = ok
12 phase
route 5 10.0.0.9 239.1.1.1 0 0 0 0
fate 1 1 flushed 11
end
";

/// An entry made again, whose totals begin at 0.
const COUNTED: &str = "history 1
1 call 1 init = ok
2 call 1 addvif 0 8 @1 = ok
3 call 1 addvif 1 8 @2 = ok
4 call 1 addmfc 10.0.0.9 239.1.1.1 0 1:1 = ok
5 phase
6 settle 1 1
- 1 5 4 0 1
7 phase
8 call 1 delmfc 10.0.0.9 239.1.1.1 0 = ok
9 call 1 addmfc 10.0.0.9 239.1.1.1 0 1:1 = ok
10 call 1 sgcnt 10.0.0.9 239.1.1.1 = sg 0 0 0
11 phase
route 9 10.0.0.9 239.1.1.1 0 0 0 0
vif 0 eth0 1 0 28 0
vif 1 eth1 0 1 0 28
end
";

/// Two lanes, of which lane 1 comes first.
const LANE_1_FIRST: &str = "history 1
skip 1 1 0
1 call 1 init = ok
2 call 1 addvif 0 8 @1 = ok
3 call 1 addvif 1 8 @2 = ok
4 call 1 addvif 2 8 @3 = ok
5 call 1 addmfc 10.0.0.9 239.1.1.1 0 1:1 2:1 = ok
6 phase
7 settle 1 1
- 2 6 5 0 1,2
8 slow 2 1 6 parked
9 phase
10 recv 1 nocache 2 2 1
11 call 1 addmfc 10.0.2.7 239.2.3.4 2 1:1 = ok
- 2 1 fwd 11 2 1
12 recv 1 none
13 phase
route 5 10.0.0.9 239.1.1.1 0 1 28 0
route 11 10.0.2.7 239.2.3.4 2 1 28 0
vif 0 eth0 1 0 28 0
vif 1 eth1 0 2 0 56
vif 2 eth2 1 1 28 28
fate 2 1 released 11
end
";

/// The same two lanes the other way round.
const LANE_2_FIRST: &str = "history 1
skip 1 1 0
1 call 1 init = ok
2 call 1 addvif 0 8 @1 = ok
3 call 1 addvif 1 8 @2 = ok
4 call 1 addvif 2 8 @3 = ok
5 call 1 addmfc 10.0.0.9 239.1.1.1 0 1:1 2:1 = ok
6 phase
7 slow 2 1 6 parked
8 settle 1 1
- 2 6 5 0 1,2
9 phase
10 recv 1 nocache 2 2 1
11 call 1 addmfc 10.0.2.7 239.2.3.4 2 1:1 = ok
- 2 1 fwd 11 2 1
12 recv 1 none
13 phase
route 5 10.0.0.9 239.1.1.1 0 1 28 0
route 11 10.0.2.7 239.2.3.4 2 1 28 0
vif 0 eth0 1 0 28 0
vif 1 eth1 0 2 0 56
vif 2 eth2 1 1 28 28
fate 2 1 released 11
end
";

/// As many calls as a limit allows.
const TWO_CALLS: &str = "history 1
1 call 1 init = ok
2 call 1 version = ok 773
3 phase
end
";

/// What a session of commands does.
const SESSION: &str = "history 1
1 call 1 init = ok
2 call 1 addvif 0 8 @1 = ok
3 call 1 addvif 1 8 @2 = ok
4 recv 1 none
5 call 1 addmfc 10.0.0.9 239.1.1.1 0 1:1 = ok
6 recv 1 none
7 recv 1 none
8 recv 1 none
9 call 1 done = ok
10 phase
end
";

/// An entry for every source does not release a packet that waits for its own.
const ENTRY_BEHIND: &str = "history 1
1 call 1 init = ok
2 call 1 addvif 0 8 @1 = ok
3 call 1 addvif 1 8 @2 = ok
4 phase
5 slow 1 1 4 parked
6 phase
7 call 1 addmfc 0.0.0.0 239.1.1.1 0 0:1 1:1 = ok
8 phase
9 settle 1 1
- 2 8 7 0 1
10 phase
route 7 0.0.0.0 239.1.1.1 0 1 28 0
vif 0 eth0 1 0 28 0
vif 1 eth1 0 1 0 28
fate 1 1 waiting
end
";

const HISTORIES: [&str; 22] = [
    FORWARDED,
    OTHER_RECORD,
    EMPTY_PHASE,
    THRESHOLDS,
    NO_OUTPUT,
    REFUSED_CALLS,
    WILDCARD,
    PROXY,
    TWO_VIFS_OF_A_DEVICE,
    RELEASED,
    ELEVENTH,
    NO_DAEMON,
    EXPIRED,
    WRONG_VIF,
    REGISTERED,
    FLUSHED,
    COUNTED,
    LANE_1_FIRST,
    LANE_2_FIRST,
    TWO_CALLS,
    SESSION,
    ENTRY_BEHIND,
];

/// Whether a text is read, and what was read is written as the same bytes.
pub fn is_written_back(alloc: Global, text: &[u8]) -> bool {
    let Ok(history) = read_history(alloc, text) else {
        return false;
    };
    let skips = history.skips.0.as_slice();
    let entries = history.entries.0.as_slice();
    match write_history(alloc, skips, entries, &history.tail) {
        Ok(bytes) => bytes.as_slice() == text,
        Err(_) => false,
    }
}

#[test]
fn histories_are_written_back(rt: HostRuntime) -> Result<(), Fail> {
    for text in HISTORIES {
        if !is_written_back(rt.alloc(), text.as_bytes()) {
            return Err(Fail::from(text));
        }
    }
    Ok(())
}

/// The first line of each entry of a text that is read.
fn first_lines(alloc: Global, text: &str) -> Result<Vec<u32>, Fail> {
    let history = read_history(alloc, text.as_bytes())
        .ok()
        .ok_or("a history")?;
    Ok(history.lines.0)
}

#[test]
fn first_lines_of_entries(rt: HostRuntime) -> Result<(), Fail> {
    let lines = first_lines(rt.alloc(), FORWARDED)?;
    assert_eq!(rt; lines.as_slice(), [2, 3, 4, 5, 6, 7, 9].as_slice());
    let lines = first_lines(rt.alloc(), LANE_1_FIRST)?;
    assert_eq!(rt;
        lines.as_slice(),
        [3, 4, 5, 6, 7, 8, 9, 11, 12, 13, 14, 16, 17].as_slice()
    );
    let lines = first_lines(rt.alloc(), LANE_2_FIRST)?;
    assert_eq!(rt;
        lines.as_slice(),
        [3, 4, 5, 6, 7, 8, 9, 10, 12, 13, 14, 16, 17].as_slice()
    );
    Ok(())
}

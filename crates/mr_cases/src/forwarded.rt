//! Scenarios whose packets are forwarded at once, each beside its history.

/// A phase in which nothing happens.
const EMPTY_PHASE: (&str, &str) = (
    "\
scenario 1
phase
",
    "\
history 1
1 phase
end
",
);

/// Thresholds below the packet's TTL, equal to it and above it.
const THRESHOLDS: (&str, &str) = (
    "\
scenario 1
device eth0 10.0.0.1
device eth1 10.0.1.1
device eth2 10.0.2.1
device eth3 10.0.3.1
daemon admin
phase
daemon 1 init
daemon 1 addvif 0 8 @1
daemon 1 addvif 1 8 @2
daemon 1 addvif 2 8 @3
daemon 1 addvif 3 8 @4
daemon 1 addmfc 10.0.0.9 239.1.1.1 0 1:4 2:5 3:6
daemon 1 addmfc 10.0.0.9 239.1.1.2 0 1:1
phase
lane 1 pkt eth0 4500001c000000000511bbc60a000009ef0101010000000000000000
lane 1 pkt eth0 4500001c000000000111bfc50a000009ef0101020000000000000000
",
    "\
history 1
1 call 1 init = ok
2 call 1 addvif 0 8 @1 = ok
3 call 1 addvif 1 8 @2 = ok
4 call 1 addvif 2 8 @3 = ok
5 call 1 addvif 3 8 @4 = ok
6 call 1 addmfc 10.0.0.9 239.1.1.1 0 1:4 2:5 3:6 = ok
7 call 1 addmfc 10.0.0.9 239.1.1.2 0 1:1 = ok
8 phase
9 slow 1 1 8 fwd 6 0 1
10 slow 1 2 9 fwd 7 0 -
11 phase
route 6 10.0.0.9 239.1.1.1 0 1 28 0
route 7 10.0.0.9 239.1.1.2 0 1 28 0
vif 0 eth0 2 0 56 0
vif 1 eth1 0 1 0 28
vif 2 eth2 0 0 0 0
vif 3 eth3 0 0 0 0
end
",
);

/// Thresholds 0 and 255, and one of a vif that comes later, for the greatest TTL.
const LATER_VIF: (&str, &str) = (
    "\
scenario 1
device eth0 10.0.0.1
device eth1 10.0.1.1
device eth2 10.0.2.1
device eth3 10.0.3.1
daemon admin
phase
daemon 1 init
daemon 1 addvif 0 8 @1
daemon 1 addvif 1 8 @2
daemon 1 addvif 2 8 @3
daemon 1 addmfc 10.0.0.9 239.1.1.1 0 1:0 2:255 3:1
daemon 1 addvif 3 8 @4
phase
lane 1 pkt eth0 4500001c00000000ff11c1c50a000009ef0101010000000000000000
",
    "\
history 1
1 call 1 init = ok
2 call 1 addvif 0 8 @1 = ok
3 call 1 addvif 1 8 @2 = ok
4 call 1 addvif 2 8 @3 = ok
5 call 1 addmfc 10.0.0.9 239.1.1.1 0 2:255 3:1 = ok
6 call 1 addvif 3 8 @4 = ok
7 phase
8 slow 1 1 7 fwd 5 0 -
9 phase
route 5 10.0.0.9 239.1.1.1 0 1 28 0
vif 0 eth0 1 0 28 0
vif 1 eth1 0 0 0 0
vif 2 eth2 0 0 0 0
vif 3 eth3 0 0 0 0
end
",
);

/// Calls that are refused, each with its error.
const ERRORS: (&str, &str) = (
    "\
scenario 1
device eth0 10.0.0.1
daemon admin
daemon plain
phase
daemon 1 init
daemon 1 addvif 31 8 @1
daemon 1 addvif 32 8 @1
daemon 1 addvif 31 8 @1
daemon 1 delvif 31
daemon 1 delvif 31
daemon 1 delvif 32
daemon 1 addvif 0 1 10.0.0.1
daemon 1 addvif 0 8 @9
daemon 1 addvif 5 4 0.0.0.0
daemon 1 addvif 6 4 0.0.0.0
daemon 1 table 5
daemon 1 version
daemon 1 raw 202 00000800000000000100000000000000
daemon 1 raw 202 00
daemon 1 vifcnt 6
daemon 1 vifcnt 4
daemon 1 delmfc 10.0.0.9 239.1.1.1 0
daemon 1 addmfc 10.0.0.9 10.0.0.8 0
phase
daemon 2 pim 1
daemon 2 init
",
    "\
history 1
1 call 1 init = ok
2 call 1 addvif 31 8 @1 = ok
3 call 1 addvif 32 8 @1 = err 23
4 call 1 addvif 31 8 @1 = err 98
5 call 1 delvif 31 = ok
6 call 1 delvif 31 = err 99
7 call 1 delvif 32 = err 23
8 call 1 addvif 0 1 10.0.0.1 = err 22
9 call 1 addvif 0 8 @9 = err 99
10 call 1 addvif 5 4 0.0.0.0 = ok
11 call 1 addvif 6 4 0.0.0.0 = err 98
12 call 1 unknown 209 = err 92
13 call 1 version = ok 773
14 call 1 addvif 0 8 @1 = ok
15 call 1 badlength 202 = err 22
16 call 1 vifcnt 6 = err 22
17 call 1 vifcnt 4 = err 99
18 call 1 delmfc 10.0.0.9 239.1.1.1 0 = err 2
19 call 1 addmfc 10.0.0.9 10.0.0.8 0 = err 22
20 phase
21 call 2 pim 1 = err 13
22 call 2 init = err 98
23 phase
vif 0 eth0 0 0 0 0
vif 5 pimreg 0 0 0 0
end
",
);

/// An entry for every source.
const STAR: (&str, &str) = (
    "\
scenario 1
device eth0 10.0.0.1
device eth1 10.0.1.1
device eth2 10.0.2.1
daemon admin
phase
daemon 1 init
daemon 1 addvif 0 8 @1
daemon 1 addvif 1 8 @2
daemon 1 addvif 2 8 @3
daemon 1 addproxy 0.0.0.0 0.0.0.0 0 0:1 1:1 2:1
daemon 1 addmfc 0.0.0.0 239.1.1.1 0 0:1 1:1 2:1
phase
lane 1 pkt eth1 4500001c000000000911b6c60a000109ef0101010000000000000000
",
    "\
history 1
1 call 1 init = ok
2 call 1 addvif 0 8 @1 = ok
3 call 1 addvif 1 8 @2 = ok
4 call 1 addvif 2 8 @3 = ok
5 call 1 addproxy 0.0.0.0 0.0.0.0 0 0:1 1:1 2:1 = ok
6 call 1 addmfc 0.0.0.0 239.1.1.1 0 0:1 1:1 2:1 = ok
7 phase
8 slow 1 1 7 fwd 6 0 0,2
9 phase
route 5 0.0.0.0 0.0.0.0 0 0 0 0
route 6 0.0.0.0 239.1.1.1 0 1 28 0
vif 0 eth0 1 1 28 28
vif 1 eth1 0 0 0 0
vif 2 eth2 0 1 0 28
end
",
);

/// An entry for every source and group, from another vif and from its own.
const PROXY: (&str, &str) = (
    "\
scenario 1
device eth0 10.0.0.1
device eth1 10.0.1.1
device eth2 10.0.2.1
daemon admin
phase
daemon 1 init
daemon 1 addvif 0 8 @1
daemon 1 addvif 1 8 @2
daemon 1 addvif 2 8 @3
daemon 1 addproxy 0.0.0.0 0.0.0.0 0 0:1 1:1 2:1
daemon 1 addmfc 0.0.0.0 239.1.1.1 0 0:1 1:1 2:1
phase
lane 1 pkt eth1 4500001c000000000911aeb60a000109ef0909090000000000000000
lane 1 pkt eth0 4500001c000000000911afb60a000009ef0909090000000000000000
",
    "\
history 1
1 call 1 init = ok
2 call 1 addvif 0 8 @1 = ok
3 call 1 addvif 1 8 @2 = ok
4 call 1 addvif 2 8 @3 = ok
5 call 1 addproxy 0.0.0.0 0.0.0.0 0 0:1 1:1 2:1 = ok
6 call 1 addmfc 0.0.0.0 239.1.1.1 0 0:1 1:1 2:1 = ok
7 phase
8 slow 1 1 7 fwd 5 0 0
9 slow 1 2 8 fwd 5 0 -
10 phase
route 5 0.0.0.0 0.0.0.0 0 2 56 0
route 6 0.0.0.0 239.1.1.1 0 0 0 0
vif 0 eth0 2 1 56 28
vif 1 eth1 0 0 0 0
vif 2 eth2 0 0 0 0
end
",
);

/// A packet that misses where no daemon listens.
const NO_DAEMON: (&str, &str) = (
    "\
scenario 1
device eth0 10.0.0.1
daemon admin
phase
daemon 1 addvif 0 8 @1
phase
lane 1 pkt eth0 4500001c000000000911b7c60a000009ef0101010000000000000000
",
    "\
history 1
1 call 1 addvif 0 8 @1 = ok
2 phase
3 slow 1 1 2 drop nodaemon
4 phase
vif 0 eth0 0 0 0 0
end
",
);

/// An entry that is made again begins to count at 0.
const MADE_AGAIN: (&str, &str) = (
    "\
scenario 1
device eth0 10.0.0.1
device eth1 10.0.1.1
daemon admin
phase
daemon 1 init
daemon 1 addvif 0 8 @1
daemon 1 addvif 1 8 @2
daemon 1 addmfc 10.0.0.9 239.1.1.1 0 1:1
phase
lane 1 pkt eth0 4500001c000000000911b7c60a000009ef0101010000000000000000
phase
daemon 1 delmfc 10.0.0.9 239.1.1.1 0
daemon 1 addmfc 10.0.0.9 239.1.1.1 0 1:1
daemon 1 sgcnt 10.0.0.9 239.1.1.1
",
    "\
history 1
1 call 1 init = ok
2 call 1 addvif 0 8 @1 = ok
3 call 1 addvif 1 8 @2 = ok
4 call 1 addmfc 10.0.0.9 239.1.1.1 0 1:1 = ok
5 phase
6 slow 1 1 5 fwd 4 0 1
7 phase
8 call 1 delmfc 10.0.0.9 239.1.1.1 0 = ok
9 call 1 addmfc 10.0.0.9 239.1.1.1 0 1:1 = ok
10 call 1 sgcnt 10.0.0.9 239.1.1.1 = sg 0 0 0
11 phase
route 9 10.0.0.9 239.1.1.1 0 0 0 0
vif 0 eth0 1 0 28 0
vif 1 eth1 0 1 0 28
end
",
);

/// As many calls as the limit allows.
const TWO_CALLS: (&str, &str) = (
    "\
scenario 1
limit control 2
daemon admin
phase
daemon 1 init
daemon 1 version
",
    "\
history 1
1 call 1 init = ok
2 call 1 version = ok 773
3 phase
end
",
);

/// All of them.
pub const FORWARDED: [(&str, &str); 9] = [
    EMPTY_PHASE,
    THRESHOLDS,
    LATER_VIF,
    ERRORS,
    STAR,
    PROXY,
    NO_DAEMON,
    MADE_AGAIN,
    TWO_CALLS,
];

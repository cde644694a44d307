//! Scenarios of packets that wait or are reported, each beside its history.

/// Two vifs of one device, and a packet that waits to the end.
const TWO_VIFS_OF_A_DEVICE: (&str, &str) = (
    "\
scenario 1
device eth0 10.0.0.1
device eth1 10.0.1.1
daemon admin
phase
daemon 1 init
daemon 1 addvif 0 8 @1
daemon 1 addvif 1 8 @2
daemon 1 addvif 2 8 @1
daemon 1 addmfc 10.0.1.9 239.1.1.1 1 0:1 2:1
phase
lane 1 pkt eth1 4500001c000000000911b6c60a000109ef0101010000000000000000
lane 1 pkt eth0 4500001c000000000911b7c50a000009ef0101020000000000000000
phase
daemon 1 recv
",
    "\
history 1
1 call 1 init = ok
2 call 1 addvif 0 8 @1 = ok
3 call 1 addvif 1 8 @2 = ok
4 call 1 addvif 2 8 @1 = ok
5 call 1 addmfc 10.0.1.9 239.1.1.1 1 0:1 2:1 = ok
6 phase
7 slow 1 1 6 fwd 5 1 0,2
8 slow 1 2 7 parked
9 phase
10 recv 1 nocache 2 1 2
11 phase
route 5 10.0.1.9 239.1.1.1 1 1 28 0
vif 0 eth0 0 1 0 28
vif 1 eth1 1 0 28 0
vif 2 eth0 0 1 0 28
fate 1 2 waiting
end
",
);

/// Four packets wait, a fifth is dropped, and an entry releases the four.
const RELEASED: (&str, &str) = (
    "\
scenario 1
device eth0 10.0.0.1
device eth1 10.0.1.1
daemon admin
phase
daemon 1 init
daemon 1 addvif 0 8 @1
daemon 1 addvif 1 8 @2
phase
lane 1 pkt eth0 4500001c000000000911b7c60a000009ef0101010000000000000000
lane 1 pkt eth0 4500001c000000000911b7c60a000009ef0101010000000000000000
lane 1 pkt eth0 4500001c000000000911b7c60a000009ef0101010000000000000000
lane 1 pkt eth0 4500001c000000000911b7c60a000009ef0101010000000000000000
lane 1 pkt eth0 4500001c000000000911b7c60a000009ef0101010000000000000000
phase
daemon 1 recv
daemon 1 recv
daemon 1 addmfc 10.0.0.9 239.1.1.1 0 1:1
",
    "\
history 1
1 call 1 init = ok
2 call 1 addvif 0 8 @1 = ok
3 call 1 addvif 1 8 @2 = ok
4 phase
5 slow 1 1 4 parked
6 slow 1 2 5 parked
7 slow 1 3 6 parked
8 slow 1 4 7 parked
9 slow 1 5 8 drop packets
10 phase
11 recv 1 nocache 0 1 1
12 recv 1 none
13 call 1 addmfc 10.0.0.9 239.1.1.1 0 1:1 = ok
- 1 1 fwd 13 0 1
- 1 2 fwd 13 0 1
- 1 3 fwd 13 0 1
- 1 4 fwd 13 0 1
14 phase
route 13 10.0.0.9 239.1.1.1 0 4 112 0
vif 0 eth0 4 0 112 0
vif 1 eth1 0 4 0 112
fate 1 1 released 13
fate 1 2 released 13
fate 1 3 released 13
fate 1 4 released 13
end
",
);

/// Ten packets wait for entries, and there is no room for an eleventh.
const ELEVENTH: (&str, &str) = (
    "\
scenario 1
device eth0 10.0.0.1
device eth1 10.0.1.1
daemon admin
phase
daemon 1 init
daemon 1 addvif 0 8 @1
daemon 1 addvif 1 8 @2
phase
lane 1 pkt eth0 4500001c000000000911b7c40a00000bef0101010000000000000000
lane 1 pkt eth0 4500001c000000000911b7c30a00000cef0101010000000000000000
lane 1 pkt eth0 4500001c000000000911b7c20a00000def0101010000000000000000
lane 1 pkt eth0 4500001c000000000911b7c10a00000eef0101010000000000000000
lane 1 pkt eth0 4500001c000000000911b7c00a00000fef0101010000000000000000
lane 1 pkt eth0 4500001c000000000911b7bf0a000010ef0101010000000000000000
lane 1 pkt eth0 4500001c000000000911b7be0a000011ef0101010000000000000000
lane 1 pkt eth0 4500001c000000000911b7bd0a000012ef0101010000000000000000
lane 1 pkt eth0 4500001c000000000911b7bc0a000013ef0101010000000000000000
lane 1 pkt eth0 4500001c000000000911b7bb0a000014ef0101010000000000000000
lane 1 pkt eth0 4500001c000000000911b7ba0a000015ef0101010000000000000000
",
    "\
history 1
1 call 1 init = ok
2 call 1 addvif 0 8 @1 = ok
3 call 1 addvif 1 8 @2 = ok
4 phase
5 slow 1 1 4 parked
6 slow 1 2 5 parked
7 slow 1 3 6 parked
8 slow 1 4 7 parked
9 slow 1 5 8 parked
10 slow 1 6 9 parked
11 slow 1 7 10 parked
12 slow 1 8 11 parked
13 slow 1 9 12 parked
14 slow 1 10 13 parked
15 slow 1 11 14 drop entries
16 phase
vif 0 eth0 0 0 0 0
vif 1 eth1 0 0 0 0
fate 1 1 waiting
fate 1 2 waiting
fate 1 3 waiting
fate 1 4 waiting
fate 1 5 waiting
fate 1 6 waiting
fate 1 7 waiting
fate 1 8 waiting
fate 1 9 waiting
fate 1 10 waiting
end
",
);

/// A packet that waits for ten seconds.
const EXPIRED: (&str, &str) = (
    "\
scenario 1
device eth0 10.0.0.1
daemon admin
phase
daemon 1 init
daemon 1 addvif 0 8 @1
phase
lane 1 pkt eth0 4500001c000000000911b7c60a000009ef0101010000000000000000
phase
daemon 1 tick 9999
daemon 1 tick 1
",
    "\
history 1
1 call 1 init = ok
2 call 1 addvif 0 8 @1 = ok
3 phase
4 slow 1 1 3 parked
5 phase
6 tick 1 9999
7 tick 1 1
8 phase
vif 0 eth0 0 0 0 0
fate 1 1 expired 7
end
",
);

/// Packets on a wrong vif: a second report within three seconds is not made.
const WRONG_INTERFACE: (&str, &str) = (
    "\
scenario 1
device eth0 10.0.0.1
device eth1 10.0.1.1
daemon admin
phase
daemon 1 init
daemon 1 addvif 0 8 @1
daemon 1 addvif 1 8 @2
daemon 1 assert 1
daemon 1 addmfc 10.0.0.9 239.1.1.1 0 1:1
phase
lane 1 pkt eth1 4500001c000000000911b7c60a000009ef0101010000000000000000
phase
daemon 1 tick 3000
phase
lane 1 pkt eth1 4500001c000000000911b7c60a000009ef0101010000000000000000
phase
daemon 1 tick 1
phase
lane 1 pkt eth1 4500001c000000000911b7c60a000009ef0101010000000000000000
",
    "\
history 1
1 call 1 init = ok
2 call 1 addvif 0 8 @1 = ok
3 call 1 addvif 1 8 @2 = ok
4 call 1 assert 1 = ok
5 call 1 addmfc 10.0.0.9 239.1.1.1 0 1:1 = ok
6 phase
7 slow 1 1 6 wrong 5 1 told
8 phase
9 tick 1 3000
10 phase
11 slow 1 2 10 wrong 5 1 quiet
12 phase
13 tick 1 1
14 phase
15 slow 1 3 14 wrong 5 1 told
16 phase
route 5 10.0.0.9 239.1.1.1 0 3 84 3
vif 0 eth0 0 0 0 0
vif 1 eth1 0 0 0 0
end
",
);

/// A packet goes to the register vif, and is reported whole.
const REGISTER: (&str, &str) = (
    "\
scenario 1
device eth0 10.0.0.1
device eth1 10.0.1.1
daemon admin
phase
daemon 1 init
daemon 1 addvif 0 8 @1
daemon 1 addvif 1 8 @2
daemon 1 addvif 2 4 0.0.0.0
daemon 1 addmfc 10.0.0.9 239.1.1.1 0 1:1 2:1
phase
lane 1 pkt eth0 4500001c000100000211bec50a000009ef01010103e803e900080000
phase
daemon 1 recv
",
    "\
history 1
1 call 1 init = ok
2 call 1 addvif 0 8 @1 = ok
3 call 1 addvif 1 8 @2 = ok
4 call 1 addvif 2 4 0.0.0.0 = ok
5 call 1 addmfc 10.0.0.9 239.1.1.1 0 1:1 2:1 = ok
6 phase
7 slow 1 1 6 reg 5 0 1,2 told
8 phase
9 recv 1 wholepkt 2 1 1
10 phase
route 5 10.0.0.9 239.1.1.1 0 1 28 0
vif 0 eth0 1 0 28 0
vif 1 eth1 0 1 0 28
vif 2 pimreg 0 1 0 28
end
",
);

/// Two daemons: what the owner made goes when it is done, and a waiting packet with it.
const FLUSHED: (&str, &str) = (
    "\
scenario 1
device eth0 10.0.0.1
device eth1 10.0.1.1
daemon admin
daemon admin
phase
daemon 1 init
daemon 1 addvif 0 8 @1
daemon 1 addvif 1 8 @2
phase
daemon 2 addmfc 10.0.0.9 239.1.1.1 0 1:1
phase
daemon 1 addmfc 10.0.0.9 239.1.1.2 0 1:1
phase
lane 1 pkt eth0 4500001c000000000911b7c70a000008ef0101010000000000000000
phase
daemon 1 done
",
    "\
history 1
1 call 1 init = ok
2 call 1 addvif 0 8 @1 = ok
3 call 1 addvif 1 8 @2 = ok
4 phase
5 call 2 addmfc 10.0.0.9 239.1.1.1 0 1:1 = ok
6 phase
7 call 1 addmfc 10.0.0.9 239.1.1.2 0 1:1 = ok
8 phase
9 slow 1 1 8 parked
10 phase
11 call 1 done = ok
12 phase
route 5 10.0.0.9 239.1.1.1 0 0 0 0
fate 1 1 flushed 11
end
",
);

/// An entry for every source forwards, but does not release a packet that waits for its own.
const STILL_WAITING: (&str, &str) = (
    "\
scenario 1
device eth0 10.0.0.1
device eth1 10.0.1.1
daemon admin
phase
daemon 1 init
daemon 1 addvif 0 8 @1
daemon 1 addvif 1 8 @2
phase
lane 1 pkt eth0 4500001c000000000911b7c60a000009ef0101010000000000000000
phase
daemon 1 addmfc 0.0.0.0 239.1.1.1 0 0:1 1:1
phase
lane 1 pkt eth0 4500001c000000000911b7c60a000009ef0101010000000000000000
",
    "\
history 1
1 call 1 init = ok
2 call 1 addvif 0 8 @1 = ok
3 call 1 addvif 1 8 @2 = ok
4 phase
5 slow 1 1 4 parked
6 phase
7 call 1 addmfc 0.0.0.0 239.1.1.1 0 0:1 1:1 = ok
8 phase
9 slow 1 2 8 fwd 7 0 1
10 phase
route 7 0.0.0.0 239.1.1.1 0 1 28 0
vif 0 eth0 1 0 28 0
vif 1 eth1 0 1 0 28
fate 1 1 waiting
end
",
);

/// All of them.
pub const WAITING: [(&str, &str); 8] = [
    TWO_VIFS_OF_A_DEVICE,
    RELEASED,
    ELEVENTH,
    EXPIRED,
    WRONG_INTERFACE,
    REGISTER,
    FLUSHED,
    STILL_WAITING,
];

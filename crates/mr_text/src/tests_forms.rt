//! Each form of a line in a whole text, also such as no router makes, each read and written back.

use crate::tests_worked::is_written_back;
use std::alloc::{AllocError, Global};
use std::test::Fail;

/// Skips at the ends of their ranges.
const SKIPS: &str = "history 1
skip 0 0 0
skip 1 1 0
skip 1 2 255
skip 1 4294967295 8
skip 2 1 4
skip 4294967295 0 1
1 phase
end
";

/// Each request, at the ends of its numbers.
const REQUESTS: &str = "history 1
1 call 0 init = ok
2 call 4294967295 done = ok
3 call 1 addvif 65535 255 255.255.255.255 = ok
4 call 1 addvif 0 8 @4294967295 = ok
5 call 1 addvif 1 0 0.0.0.1 = ok
6 call 1 delvif 65535 = ok
7 call 1 addmfc 0.0.0.0 255.255.255.255 65535 0:1 31:255 = ok
8 call 1 addmfc 10.0.0.9 239.1.1.1 0 0:255 1:254 2:253 3:252 4:251 5:250 6:249 7:248 8:247 9:246 \
    10:245 11:244 12:243 13:242 14:241 15:240 16:239 17:238 18:237 19:236 20:235 21:234 22:233 \
    23:232 24:231 25:230 26:229 27:228 28:227 29:226 30:225 31:224 = ok
9 call 1 addmfc 10.0.0.9 239.1.1.1 0 = ok
10 call 1 delmfc 1.20.255.0 239.1.1.1 65535 = ok
11 call 1 addproxy 0.0.0.0 0.0.0.0 3 0:255 = ok
12 call 1 addproxy 0.0.0.0 0.0.0.0 31 = ok
13 call 1 delproxy 0.0.0.0 0.0.0.0 3 = ok
14 call 1 pim 4294967295 = ok
15 call 1 assert 0 = ok
16 call 1 flush 15 = ok
17 call 1 unknown 65535 = ok
18 call 1 badlength 0 = ok
19 call 1 version = ok
20 call 1 getpim = ok
21 call 1 getassert = ok
22 call 1 vifcnt 65535 = ok
23 call 1 sgcnt 0.0.0.0 224.0.1.0 = ok
end
";

/// Each reply, to whatever request.
const REPLIES: &str = "history 1
1 call 1 getpim = ok 4294967295
2 call 1 getassert = ok 0
3 call 1 sgcnt 10.0.0.9 239.1.1.1 = sg 18446744073709551615 18446744073709551614 0
4 call 1 vifcnt 0 = vif 18446744073709551615 0 18446744073709551614 1
5 call 1 init = sg 0 0 0
6 call 1 init = vif 0 0 0 0
7 call 1 init = err 2
8 call 1 init = err 13
9 call 1 init = err 22
10 call 1 init = err 23
11 call 1 init = err 92
12 call 1 init = err 98
13 call 1 init = err 99
14 call 1 init = err 105
end
";

/// Each outcome, under the lock.
const OUTCOMES: &str = "history 1
1 slow 255 0 4294967295 fwd 0 - -
2 slow 255 1 4294967295 fwd 4294967295 255 \
    0,1,2,3,4,5,6,7,8,9,10,11,12,13,14,15,16,17,18,19,20,21,22,23,24,25,26,27,28,29,30,31
3 slow 255 2 4294967295 reg 4 0 1 told
4 slow 255 3 4294967295 reg 4 - - lost
5 slow 255 4 4294967295 wrong 4294967295 - quiet
6 slow 255 5 4294967295 wrong 5 255 told
7 slow 255 6 4294967295 wrong 0 0 lost
8 slow 255 7 4294967295 parked
9 slow 255 8 4294967295 drop novif
10 slow 255 9 4294967295 drop nodaemon
11 slow 255 10 4294967295 drop entries
12 slow 255 11 4294967295 drop packets
13 slow 255 12 4294967295 drop upcall
14 slow 4294967295 4294967295 0 parked
end
";

/// Each outcome of released packets.
const OUTCOMES_OF_RELEASED: &str = "history 1
1 call 1 init = ok
- 4294967295 1 fwd 0 - -
- 4294967295 2 fwd 4294967295 255 \
    0,1,2,3,4,5,6,7,8,9,10,11,12,13,14,15,16,17,18,19,20,21,22,23,24,25,26,27,28,29,30,31
- 4294967295 3 reg 4 0 1 told
- 4294967295 4 reg 4 - - lost
2 call 1 init = ok
- 4294967295 1 wrong 4294967295 - quiet
- 4294967295 2 wrong 5 255 told
- 4294967295 3 wrong 0 0 lost
- 4294967295 4 parked
3 call 1 init = ok
- 4294967295 1 drop novif
- 4294967295 2 drop nodaemon
- 4294967295 3 drop entries
- 4294967295 4 drop packets
4 call 1 init = ok
- 4294967295 1 drop upcall
end
";

/// Settles of no record and of some, at the ends of their numbers.
const RECORDS: &str = "history 1
1 settle 1 0
2 settle 4294967295 3
- 4294967295 4294967295 4294967295 255 \
    0,1,2,3,4,5,6,7,8,9,10,11,12,13,14,15,16,17,18,19,20,21,22,23,24,25,26,27,28,29,30,31
- 0 0 0 - -
- 1 10 100 9 0,31
3 settle 0 1
- 10 9 8 10 30,31
end
";

/// Ticks, and reports of each kind.
const TIMES_AND_REPORTS: &str = "history 1
1 tick 1 0
2 tick 4294967295 4294967295
3 recv 0 none
4 recv 4294967295 none
5 recv 255 none
6 recv 1 nocache 0 0 0
7 recv 1 wrongvif 255 4294967295 4294967295
8 recv 1 wholepkt 31 255 1
end
";

/// A tail at the ends of its numbers.
const TAIL: &str = "history 1
1 phase
route 0 0.0.0.0 255.255.255.255 255 18446744073709551615 18446744073709551614 0
route 4294967295 10.0.0.9 239.1.1.1 0 0 18446744073709551615 18446744073709551615
vif 0 pimreg 0 0 0 0
vif 9 a 18446744073709551615 18446744073709551614 0 18446744073709551615
vif 10 Bridge.100_a-b: 10000000000000000000 1 1000000000000000000 2
vif 255 eth0 1 2 3 4
fate 0 0 released 0
fate 4294967295 4294967295 expired 4294967295
fate 1 1 flushed 7
fate 1 1 waiting
fate 1 1 waiting
end
";

/// A tail of fates, and no entry.
const FATES_ALONE: &str = "history 1
fate 1 1 waiting
end
";

/// The least text.
const NOTHING: &str = "history 1
end
";

const FORMS: [&str; 10] = [
    SKIPS,
    REQUESTS,
    REPLIES,
    OUTCOMES,
    OUTCOMES_OF_RELEASED,
    RECORDS,
    TIMES_AND_REPORTS,
    TAIL,
    FATES_ALONE,
    NOTHING,
];

#[test]
fn forms_are_written_back(rt: HostRuntime) -> Result<(), Fail> {
    for text in FORMS {
        if !is_written_back(rt.alloc(), text.as_bytes()) {
            return Err(Fail::from(text));
        }
    }
    Ok(())
}

/// The text of a run in which 64 reports fill the queue of a daemon, a 65th is lost, and two
/// packets find no room.
fn many_reports(alloc: Global) -> Result<Vec<u8>, AllocError> {
    let mut text = Vec::from_slice(
        alloc,
        b"\
history 1
1 call 1 init = ok
2 call 1 addvif 0 8 @1 = ok
3 call 1 addvif 1 4 0.0.0.0 = ok
4 call 1 addmfc 10.0.0.9 239.1.1.1 0 1:1 = ok
5 phase
",
    )?;
    for index in 1..65u32 {
        let line = format!(in alloc;
            "{} slow 1 {index} {} reg 4 0 1 told\n",
            index + 5,
            index + 4
        )?;
        text.extend_from_slice(line.as_bytes())?;
    }
    text.extend_from_slice(
        b"\
70 slow 1 65 69 reg 4 0 1 lost
71 slow 1 66 70 drop upcall
72 slow 1 67 71 drop upcall
73 phase
route 4 10.0.0.9 239.1.1.1 0 65 1820 0
vif 0 eth0 65 0 1820 0
vif 1 pimreg 0 65 0 1820
end
",
    )?;
    Ok(text)
}

#[test]
fn many_lines_are_written_back(rt: HostRuntime) -> Result<(), Fail> {
    let text = many_reports(rt.alloc())?;
    assert!(rt; is_written_back(rt.alloc(), text.as_slice()));
    Ok(())
}

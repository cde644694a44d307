//! Texts outside the grammar, each with its first line that is outside.

use super::*;
use mr_words::{next_word, number_of, past};
use std::alloc::Global;
use std::test::Fail;

/// Texts that differ from one of the grammar in one place, each behind the number of the line that
/// is outside. It is the line behind the last where `end` is missing, and a last line without its
/// line feed is outside. `|` stands for a line feed.
const NEAR_MISSES: &[u8] = b"\
1 
1 |
1 history 1
2 history 1|
2 history 1|end
1 end|
1 1 phase|end|
1 history 2|end|
1 history|end|
1 history 01|end|
1 history  1|end|
1 history 1 |end|
1 history 1 1|end|
1 History 1|end|
1 history\t1|end|
1 history 1\r|end|
1  history 1|end|
2 history 1|history 1|end|
2 history 1||end|
2 history 1|end |
2 history 1|end\r|
2 history 1|end 1|
3 history 1|end||
3 history 1|end|x
3 history 1|end|end|
3 history 1|end|1 phase|
3 history 1|1 phase|
2 history 1|1 phase
3 history 1|1 settle 1 1|- 1 0 0 0 1
2 history 1|0 phase|end|
2 history 1|2 phase|end|
2 history 1|01 phase|end|
2 history 1|+1 phase|end|
2 history 1|1  phase|end|
2 history 1|1 phase |end|
2 history 1| 1 phase|end|
2 history 1|1\tphase|end|
2 history 1|1 phase\r|end|
2 history 1|1 phase 1|end|
2 history 1|1 Phase|end|
2 history 1|1|end|
2 history 1|1 |end|
2 history 1|phase|end|
2 history 1|18446744073709551616 phase|end|
3 history 1|1 phase|1 phase|end|
3 history 1|1 phase|3 phase|end|
3 history 1|1 call 1 init = ok|3 phase|end|
3 history 1|1 settle 1 0|1 phase|end|
2 history 1|skip 1 1|end|
2 history 1|skip 1 1 0 0|end|
2 history 1|skip 1 1 256|end|
2 history 1|skip 1 4294967296 0|end|
2 history 1|skip 4294967296 1 0|end|
2 history 1|skip 1 01 0|end|
3 history 1|skip 1 2 0|skip 1 2 0|end|
3 history 1|skip 1 2 0|skip 1 1 0|end|
3 history 1|skip 2 1 0|skip 1 5 0|end|
3 history 1|1 phase|skip 1 1 0|end|
3 history 1|1 call 1 init = ok|skip 1 1 0|end|
3 history 1|vif 0 eth0 0 0 0 0|skip 1 1 0|end|
2 history 1|1 call 1 init = OK|end|
2 history 1|1 call 1 init ok|end|
2 history 1|1 call 1 init =ok|end|
2 history 1|1 call 1 init  = ok|end|
2 history 1|1 call 1 init = ok |end|
2 history 1|1 call 1 init = ok 01|end|
2 history 1|1 call 1 init = ok 1 1|end|
2 history 1|1 call 1 init = ok 4294967296|end|
2 history 1|1 call 1 init = err|end|
2 history 1|1 call 1 init = err 9|end|
2 history 1|1 call 1 init = err 02|end|
2 history 1|1 call 1 init = err 2 2|end|
2 history 1|1 call 1 init =|end|
2 history 1|1 call 1 init|end|
2 history 1|1 call 1 reset = ok|end|
2 history 1|1 call 1 init 1 = ok|end|
2 history 1|1 call 1 table 5 = err 92|end|
2 history 1|1 call 1 raw 202 00 = err 22|end|
2 history 1|1 call 4294967296 init = ok|end|
2 history 1|1 call init = ok|end|
2 history 1|1 Call 1 init = ok|end|
2 history 1|1 call 1 addvif 0 8 10.0.0.1 = ok|end|
2 history 1|1 call 1 addvif 0 8 1 = ok|end|
2 history 1|1 call 1 addvif 0 8 @ = ok|end|
2 history 1|1 call 1 addvif 0 8 @01 = ok|end|
2 history 1|1 call 1 addvif 0 8 @4294967296 = ok|end|
2 history 1|1 call 1 addvif 0 1 @1 = ok|end|
2 history 1|1 call 1 addvif 0 9 @1 = ok|end|
2 history 1|1 call 1 addvif 0 1 10.0.0.256 = ok|end|
2 history 1|1 call 1 addvif 0 1 10.0.0 = ok|end|
2 history 1|1 call 1 addvif 0 1 10.0.0.0.1 = ok|end|
2 history 1|1 call 1 addvif 0 1 10.0.0.01 = ok|end|
2 history 1|1 call 1 addvif 0 1 1 = ok|end|
2 history 1|1 call 1 addvif 65536 8 @1 = ok|end|
2 history 1|1 call 1 addvif 0 256 @1 = ok|end|
2 history 1|1 call 1 addvif 0 8 = ok|end|
2 history 1|1 call 1 addmfc 10.0.0.9 239.1.1.1 0 2:1 1:1 = ok|end|
2 history 1|1 call 1 addmfc 10.0.0.9 239.1.1.1 0 1:1 1:1 = ok|end|
2 history 1|1 call 1 addmfc 10.0.0.9 239.1.1.1 0 1:0 = ok|end|
2 history 1|1 call 1 addmfc 10.0.0.9 239.1.1.1 0 1:256 = ok|end|
2 history 1|1 call 1 addmfc 10.0.0.9 239.1.1.1 0 32:1 = ok|end|
2 history 1|1 call 1 addmfc 10.0.0.9 239.1.1.1 0 01:1 = ok|end|
2 history 1|1 call 1 addmfc 10.0.0.9 239.1.1.1 0 1:01 = ok|end|
2 history 1|1 call 1 addmfc 10.0.0.9 239.1.1.1 0 1:1,2:1 = ok|end|
2 history 1|1 call 1 addmfc 10.0.0.9 239.1.1.1 0 1:1:1 = ok|end|
2 history 1|1 call 1 addmfc 10.0.0.9 239.1.1.1 0 1 = ok|end|
2 history 1|1 call 1 addmfc 10.0.0.9 239.1.1.1 0 1: = ok|end|
2 history 1|1 call 1 addmfc 10.0.0.9 239.1.1.1 0 1:1  2:1 = ok|end|
2 history 1|1 call 1 addmfc 10.0.0.9 239.1.1.1 65536 = ok|end|
2 history 1|1 call 1 addproxy 0.0.0.0 0.0.0.0 0 1:1 0:1 = ok|end|
2 history 1|1 call 1 delmfc 10.0.0.9 239.1.1.1 = ok|end|
2 history 1|1 call 1 delmfc 10.0.0.9 239.1.1.1 0 1:1 = ok|end|
2 history 1|1 call 1 delvif 65536 = ok|end|
2 history 1|1 call 1 pim 4294967296 = ok|end|
2 history 1|1 call 1 unknown 65536 = err 92|end|
2 history 1|1 call 1 badlength 65536 = err 22|end|
2 history 1|1 call 1 sgcnt 10.0.0.9 239.1.1.1 = sg 0 0|end|
2 history 1|1 call 1 sgcnt 10.0.0.9 239.1.1.1 = sg 0 0 0 0|end|
2 history 1|1 call 1 sgcnt 10.0.0.9 239.1.1.1 = sg 0 0 18446744073709551616|end|
2 history 1|1 call 1 vifcnt 0 = vif 0 0 0|end|
2 history 1|1 call 1 vifcnt 0 = vif 0 0 0 18446744073709551616|end|
2 history 1|1 slow 1 1 0 Parked|end|
2 history 1|1 slow 1 1 0 parked 1|end|
2 history 1|1 slow 1 1 0 waiting|end|
2 history 1|1 slow 1 1 0 drop|end|
2 history 1|1 slow 1 1 0 drop full|end|
2 history 1|1 slow 1 1 0 drop novif 1|end|
2 history 1|1 slow 1 1 0 fwd 3 0|end|
2 history 1|1 slow 1 1 0 fwd 3 0 |end|
2 history 1|1 slow 1 1 0 fwd 3 0 32|end|
2 history 1|1 slow 1 1 0 fwd 3 0 01|end|
2 history 1|1 slow 1 1 0 fwd 3 0 1,1|end|
2 history 1|1 slow 1 1 0 fwd 3 0 2,1|end|
2 history 1|1 slow 1 1 0 fwd 3 0 1,|end|
2 history 1|1 slow 1 1 0 fwd 3 0 ,1|end|
2 history 1|1 slow 1 1 0 fwd 3 0 1, 2|end|
2 history 1|1 slow 1 1 0 fwd 3 0 -,1|end|
2 history 1|1 slow 1 1 0 fwd 3 256 1|end|
2 history 1|1 slow 1 1 0 fwd 3 -1 1|end|
2 history 1|1 slow 1 1 0 fwd 4294967296 0 1|end|
2 history 1|1 slow 1 1 0 fwd 3 0 1 told|end|
2 history 1|1 slow 1 1 0 reg 4 0 1|end|
2 history 1|1 slow 1 1 0 reg 4 0 1 quiet|end|
2 history 1|1 slow 1 1 0 wrong 5 1|end|
2 history 1|1 slow 1 1 0 wrong 5 1 silent|end|
2 history 1|1 slow 1 1 0 wrong 5 256 told|end|
2 history 1|1 slow 1 1 0 wrong - 1 told|end|
2 history 1|1 slow 1 1 parked|end|
2 history 1|1 slow 4294967296 1 0 parked|end|
2 history 1|1 slow 1 1 4294967296 parked|end|
3 history 1|1 call 1 init = ok|- 1 1|end|
3 history 1|1 call 1 init = ok|- 1 1 1 parked|end|
3 history 1|1 call 1 init = ok|- 1 1 parked |end|
3 history 1|1 call 1 init = ok|- 1 0 0 0 1|end|
3 history 1|1 call 1 init = ok|-  1 1 parked|end|
3 history 1|1 call 1 init = ok|-1 1 parked|end|
3 history 1|1 slow 1 1 0 parked|- 1 1 parked|end|
3 history 1|1 phase|- 1 1 parked|end|
2 history 1|- 1 1 parked|end|
3 history 1|1 tick 1 5|- 1 1 parked|end|
7 history 1|1 call 1 init = ok|- 1 1 parked|- 1 2 parked|- 1 3 parked|- 1 4 parked|- 1 5 parked|end|
5 history 1|1 call 1 init = ok|- 1 1 parked|2 phase|- 1 2 parked|end|
2 history 1|1 settle 1|end|
2 history 1|1 settle 1 01|end|
2 history 1|1 settle 1 -|end|
2 history 1|1 settle 1 1 1|end|
2 history 1|1 settle 4294967296 0|end|
2 history 1|1 settle 1 18446744073709551616|end|
3 history 1|1 settle 1 18446744073709551615|end|
3 history 1|1 settle 1 1|end|
3 history 1|1 settle 1 1|2 phase|end|
3 history 1|1 settle 1 1|route 4 10.0.0.9 239.1.1.1 0 1 28 0|end|
3 history 1|1 settle 1 0|- 1 0 0 0 1|end|
3 history 1|1 settle 1 1|- 1 1 parked|end|
2 history 1|- 1 0 0 0 1|end|
3 history 1|1 settle 1 1|-  1 0 0 0 1|end|
3 history 1|1 settle 1 1|- 1 0 0 0 1 |end|
3 history 1|1 settle 1 1|- 1 0 0 0|end|
3 history 1|1 settle 1 1|- 1 0 0 0 1 1|end|
3 history 1|1 settle 1 1|- 01 0 0 0 1|end|
3 history 1|1 settle 1 1|-1 0 0 0 1|end|
3 history 1|1 settle 1 1| - 1 0 0 0 1|end|
3 history 1|1 settle 1 1|- 4294967296 0 0 0 1|end|
3 history 1|1 settle 1 1|- 1 4294967296 0 0 1|end|
3 history 1|1 settle 1 1|- 1 0 4294967296 0 1|end|
3 history 1|1 settle 1 1|- 1 0 0 256 1|end|
3 history 1|1 settle 1 1|- 1 0 0 - 32|end|
3 history 1|1 settle 1 1|- 1 0 0 0 2,1|end|
3 history 1|1 settle 1 1|- 1 0 0 0 1,1|end|
3 history 1|1 settle 1 1|- 1 0 0 0 1,|end|
3 history 1|1 settle 1 1|- 1 0 0 0 --|end|
3 history 1|1 settle 1 1|- 1 0 0 0 1\r|end|
3 history 1|1 settle 1 1|- 1 0 - 0 1|end|
3 history 1|1 settle 1 1|+ 1 0 0 0 1|end|
4 history 1|1 settle 1 2|- 1 0 0 0 1|2 phase|end|
4 history 1|1 settle 1 2|- 1 0 0 0 1|end|
4 history 1|1 settle 1 1|- 1 0 0 0 1|- 2 0 0 0 1|end|
4 history 1|1 settle 1 1|- 1 0 0 0 1|1 phase|end|
2 history 1|1 tick 1|end|
2 history 1|1 tick 1 4294967296|end|
2 history 1|1 tick 4294967296 1|end|
2 history 1|1 tick 1 1 1|end|
2 history 1|1 recv 1|end|
2 history 1|1 recv none|end|
2 history 1|1 recv 1 None|end|
2 history 1|1 recv 1 none 1|end|
2 history 1|1 recv 1 nocache 1 1|end|
2 history 1|1 recv 1 nocache 256 1 1|end|
2 history 1|1 recv 1 nocache 0 1 4294967296|end|
2 history 1|1 recv 1 nocache 0 1 1 1|end|
2 history 1|1 recv 1 igmp 0 1 1|end|
2 history 1|route 4 10.0.0.9 239.1.1.1 0 1 28|end|
2 history 1|route 4 10.0.0.9 239.1.1.1 0 1 28 0 0|end|
2 history 1|route 4 10.0.0.9 239.1.1.1 256 1 28 0|end|
2 history 1|route 4294967296 10.0.0.9 239.1.1.1 0 1 28 0|end|
2 history 1|route 4 10.0.0 239.1.1.1 0 1 28 0|end|
2 history 1|route 4 10.0.0.9 239.1.1.1 0 1 18446744073709551616 0|end|
2 history 1|vif 1 eth1 0 0 0|end|
2 history 1|vif 1 eth1 0 0 0 0 0|end|
2 history 1|vif 256 eth1 0 0 0 0|end|
2 history 1|vif 1 eth/0 0 0 0 0|end|
2 history 1|vif 1 1eth 0 0 0 0|end|
2 history 1|vif 1  0 0 0 0|end|
2 history 1|vif 1 sixteen-letters1 0 0 0 0|end|
2 history 1|vif 1 eth1 0 0 0 18446744073709551616|end|
2 history 1|fate 1 1|end|
2 history 1|fate 1 1 gone|end|
2 history 1|fate 1 1 Waiting|end|
2 history 1|fate 1 1 waiting 3|end|
2 history 1|fate 1 1 released|end|
2 history 1|fate 1 1 released 4294967296|end|
2 history 1|fate 1 1 expired -|end|
2 history 1|fate 4294967296 1 waiting|end|
3 history 1|vif 1 eth1 0 0 0 0|route 4 10.0.0.9 239.1.1.1 0 1 28 0|end|
3 history 1|fate 1 1 waiting|route 4 10.0.0.9 239.1.1.1 0 1 28 0|end|
3 history 1|fate 1 1 waiting|vif 1 eth1 0 0 0 0|end|
3 history 1|vif 1 eth1 0 0 0 0|vif 1 eth1 0 0 0 0|end|
3 history 1|vif 1 eth1 0 0 0 0|vif 0 eth0 0 0 0 0|end|
3 history 1|route 4 10.0.0.9 239.1.1.1 0 1 28 0|route 4 10.0.0.9 239.1.1.1 0 1 28 0|end|
3 history 1|route 4 10.0.0.9 239.1.1.1 0 1 28 0|route 3 10.0.0.8 239.1.1.1 0 1 28 0|end|
3 history 1|route 4 10.0.0.9 239.1.1.1 0 1 28 0|1 phase|end|
3 history 1|vif 1 eth1 0 0 0 0|1 phase|end|
3 history 1|fate 1 1 waiting|1 phase|end|
3 history 1|fate 1 1 waiting|1 settle 1 0|end|
3 history 1|route 4 10.0.0.9 239.1.1.1 0 1 28 0|- 1 1 parked|end|
3 history 1|route 4 10.0.0.9 239.1.1.1 0 1 28 0|history 1|end|
4 history 1|1 phase|route 4 10.0.0.9 239.1.1.1 0 1 28 0|2 phase|end|
";

/// Texts that look odd, and are in the grammar.
const ODD: &[u8] = b"\
0 history 1|end|
0 history 1|1 call 1 init = sg 0 0 0|end|
0 history 1|1 call 1 init = vif 0 0 0 0|end|
0 history 1|1 call 1 init = ok 4294967295|end|
0 history 1|1 call 1 init = err 2|- 1 1 parked|- 1 1 parked|- 1 1 parked|- 1 1 parked|end|
0 history 1|skip 0 0 255|end|
0 history 1|1 slow 255 1 0 parked|end|
0 history 1|1 slow 1 1 0 fwd 0 - -|end|
0 history 1|1 settle 1 0|end|
0 history 1|1 settle 1 1|- 0 0 0 255 0,31|end|
0 history 1|vif 255 pimreg 0 0 0 0|end|
0 history 1|fate 1 1 waiting|fate 1 1 waiting|end|
0 history 1|route 4 10.0.0.9 239.1.1.1 0 1 28 0|fate 1 1 waiting|end|
";

/// The line at which a text is refused, or 0.
fn refused(alloc: Global, text: &[u8]) -> Result<u32, Fail> {
    match read_history(alloc, text) {
        Ok(_) => Ok(0),
        Err(TextError::Line(line)) => Ok(line),
        Err(TextError::Memory) => Err(Fail::from("memory")),
    }
}

/// Whether the text behind a row's number is refused at the line of that number.
fn is_as_told(alloc: Global, row: &[u8]) -> Result<bool, Fail> {
    let (line, behind) = next_word(row).ok_or("a line")?;
    let mut text = Vec::new(alloc);
    for b in past(behind, 0) {
        text.push(if *b == b'|' { b'\n' } else { *b })?;
    }
    Ok(number_of(line, 99) == Some(refused(alloc, text.as_slice())?))
}

/// The number of the first row, from 1, whose text is refused at another line; 0 where there is
/// none.
fn first_wrong(alloc: Global, rows: &[u8]) -> Result<u32, Fail> {
    let mut number = 1u32;
    for row in rows.split(|b| *b == b'\n') {
        if !row.is_empty() && !is_as_told(alloc, row)? {
            return Ok(number);
        }
        number = number.saturating_add(1);
    }
    Ok(0)
}

#[test]
fn near_misses(rt: HostRuntime) -> Result<(), Fail> {
    assert_eq!(rt; first_wrong(rt.alloc(), NEAR_MISSES)?, 0);
    assert_eq!(rt; first_wrong(rt.alloc(), ODD)?, 0);
    Ok(())
}

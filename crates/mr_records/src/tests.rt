use super::*;
use mr_base::{Addr, Mask};
use mr_model::{FastRecord, Flow};
use std::alloc::{AllocError, Global};
use std::test::Fail;

/// A record of entry 50.
fn record(index: u32, look: u32, input: Option<u8>, outs: u32) -> FastRecord {
    FastRecord {
        index,
        look,
        entry: 50,
        input,
        outs: Mask(outs),
        flow: Flow {
            dev: 0,
            src: Addr(0),
            dst: Addr(0),
            ttl: 0,
            length: 0,
        },
    }
}

/// Six records of three ways, of which the last has more than 32 bytes; each comes once more.
fn records() -> [FastRecord; 6] {
    [
        record(4294967295, 6, Some(0), 6),
        record(9, 6, Some(0), 6),
        record(10, 7, None, 0),
        record(99, 7, None, 0),
        record(100, 4294967295, Some(255), 0xFFFF_FFFF),
        record(0, 0, Some(255), 0xFFFF_FFFF),
    ]
}

const LINES: &str = "\
- 4294967295 6 50 0 1,2
- 9 6 50 0 1,2
- 10 7 50 - -
- 99 7 50 - -
- 100 4294967295 50 255 \
    0,1,2,3,4,5,6,7,8,9,10,11,12,13,14,15,16,17,18,19,20,21,22,23,24,25,26,27,28,29,30,31
- 0 0 50 255 0,1,2,3,4,5,6,7,8,9,10,11,12,13,14,15,16,17,18,19,20,21,22,23,24,25,26,27,28,29,30,31
";

#[test]
fn written(rt: HostRuntime) -> Result<(), Fail> {
    let mut out = Vec::new(rt.alloc());
    let mut ways = Ways::new();
    for record in &records() {
        write_record(&mut out, &mut ways, record)?;
    }
    assert_eq!(rt; out.as_slice(), LINES.as_bytes());
    Ok(())
}

/// The records in front of a text, and how many bytes are behind them.
fn take_all(alloc: Global, text: &[u8]) -> Result<(Vec<FastRecord>, usize), AllocError> {
    let mut kept = Kept::new();
    let mut records = Vec::new(alloc);
    let mut rest = text;
    for _ in 0..text.len() {
        match take_record(&mut kept, &mut records, rest)? {
            Some(left) => rest = left,
            None => return Ok((records, rest.len())),
        }
    }
    Ok((records, rest.len()))
}

#[test]
fn taken(rt: HostRuntime) -> Result<(), Fail> {
    let (taken, left) = take_all(rt.alloc(), LINES.as_bytes())?;
    assert_eq!(rt; taken.as_slice(), records().as_slice());
    assert_eq!(rt; left, 0);
    Ok(())
}

/// The records of a line that comes three times, between one of index 100 and look 6 and two
/// others.
fn take_between(alloc: Global, line: &str) -> Result<Vec<FastRecord>, AllocError> {
    let mut text = Vec::new(alloc);
    text.extend_from_slice(b"- 100 6 50 0 1,2\n")?;
    for _ in 0..3 {
        text.extend_from_slice(line.as_bytes())?;
    }
    text.extend_from_slice(b"- 101 6 50 0 1,2\n- 102 6 50 0 1,2\n")?;
    let (taken, _) = take_all(alloc, text.as_slice())?;
    Ok(taken)
}

#[test]
fn heads(rt: HostRuntime) -> Result<(), Fail> {
    let cases = [
        ("- 98 6 50 0 1,2\n", 98, 6),
        ("- 100 6 50 0 1,2\n", 100, 6),
        ("- 199 60 50 0 1,2\n", 199, 60),
        ("- 200 6 50 0 1,2\n", 200, 6),
        ("- 1001 6 50 0 1,2\n", 1001, 6),
        ("- 10010 9 50 0 1,2\n", 10_010, 9),
        ("- 999999999 0 50 0 1,2\n", 999_999_999, 0),
        ("- 1000000000 6 50 0 1,2\n", 1_000_000_000, 6),
    ];
    for (line, index, look) in cases {
        let one = record(index, look, Some(0), 6);
        let first = record(100, 6, Some(0), 6);
        let last = [record(101, 6, Some(0), 6), record(102, 6, Some(0), 6)];
        let taken = take_between(rt.alloc(), line)?;
        assert_eq!(rt;
            taken.as_slice(),
            [first, one, one, one, last[0], last[1]].as_slice()
        );
    }
    Ok(())
}

/// Whether no record is in front of a text, before its head and its way are known and behind a
/// record with both.
fn refuses(alloc: Global, text: &[u8]) -> Result<bool, AllocError> {
    let mut kept = Kept::new();
    let mut records = Vec::new(alloc);
    let first = take_record(&mut kept, &mut records, text)?;
    let line = b"- 100 2 50 0 1,2\n- 100 2 50 0 1,2\n- 100 2 50 0 1,2\n";
    let known = take_record(&mut kept, &mut records, line)?;
    let second = take_record(&mut kept, &mut records, text)?;
    Ok(first.is_none() && known.is_some() && second.is_none() && records.len() == 1)
}

#[test]
fn near_misses(rt: HostRuntime) -> Result<(), Fail> {
    let texts = [
        "- 103 2 50 0 1,2",
        "- 0103 2 50 0 1,2\n- 4 2 50 0 1,2\n- 5 2 50 0 1,2\n",
        "- 103  2 50 0 1,2\n- 4 2 50 0 1,2\n- 5 2 50 0 1,2\n",
        "- 103 02 50 0 1,2\n- 4 2 50 0 1,2\n- 5 2 50 0 1,2\n",
        "- 4294967296 2 50 0 1,2\n- 4 2 50 0 1,2\n- 5 2 50 0 1,2\n",
        "- 103 4294967296 50 0 1,2\n- 4 2 50 0 1,2\n- 5 2 50 0 1,2\n",
        "- 103 2 50 0 1,2 \n- 4 2 50 0 1,2\n- 5 2 50 0 1,2\n",
        "- 103 2 50 0 1,2,\n- 4 2 50 0 1,2\n- 5 2 50 0 1,2\n",
        "- 103 2 50 0 1,2\r\n- 4 2 50 0 1,2\n- 5 2 50 0 1,2\n",
        "- 1032 50 0 1,2\n- 4 2 50 0 1,2\n- 5 2 50 0 1,2\n",
        "- 1x3 2 50 0 1,2\n- 4 2 50 0 1,2\n- 5 2 50 0 1,2\n",
        "- 10 3 2 50 0 1,2\n- 4 2 50 0 1,2\n- 5 2 50 0 1,2\n",
        "- 103 250 0 1,2\n- 4 2 50 0 1,2\n- 5 2 50 0 1,2\n",
        "-103 2 50 0 1,2\n- 4 2 50 0 1,2\n- 5 2 50 0 1,2\n",
        " - 103 2 50 0 1,2\n- 4 2 50 0 1,2\n- 5 2 50 0 1,2\n",
        "103 2 50 0 1,2\n- 4 2 50 0 1,2\n- 5 2 50 0 1,2\n",
        "- 103 2 50 0 2,1\n- 4 2 50 0 1,2\n- 5 2 50 0 1,2\n",
        "- 1 2 parked\n- 4 2 50 0 1,2\n- 5 2 50 0 1,2\n",
        "\n- 4 2 50 0 1,2\n- 5 2 50 0 1,2\n- 6 2 50 0 1,2\n",
        "",
    ];
    for text in texts {
        assert!(rt; refuses(rt.alloc(), text.as_bytes())?);
    }
    Ok(())
}

/// A space and a mask, as they are put at the end of a row.
fn masked(alloc: Global, outs: u32) -> Result<Vec<u8>, AllocError> {
    let mut row = [0u8; 144];
    let at = put_mask(&mut row, 144, Mask(outs));
    let mut out = Vec::new(alloc);
    out.extend_from_slice(&row[at..])?;
    Ok(out)
}

#[test]
fn masks(rt: HostRuntime) -> Result<(), Fail> {
    let cases = [
        (0, " -"),
        (1, " 0"),
        (6, " 1,2"),
        (0x8000_0000, " 31"),
        (0x8000_0401, " 0,10,31"),
    ];
    for (outs, want) in cases {
        assert_eq!(rt; masked(rt.alloc(), outs)?.as_slice(), want.as_bytes());
    }
    Ok(())
}

/// What `short_number` gives of a text: the number, and how many bytes are behind it.
fn leads(text: &str) -> Option<(u32, usize)> {
    let (number, rest) = short_number(text.as_bytes())?;
    Some((number, rest.len()))
}

#[test]
fn numbers(rt: HostRuntime) -> Result<(), Fail> {
    let cases = [
        ("0", Some((0, 0))),
        ("07", Some((0, 1))),
        ("7 8", Some((7, 2))),
        ("123456789", Some((123_456_789, 0))),
        ("1234567890", Some((123_456_789, 1))),
        ("", None),
        (" 1", None),
        ("x", None),
    ];
    for (text, want) in cases {
        assert!(rt; leads(text) == want);
    }
    Ok(())
}

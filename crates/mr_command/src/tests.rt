use crate::*;
use std::test::Fail;

/// These words, each a string of its own.
fn words(rt: &HostRuntime, all: &[&str]) -> Result<Vec<String>, Fail> {
    let mut made = Vec::new(rt.alloc());
    for word in all {
        made.push(String::from_str(rt.alloc(), word)?)?;
    }
    Ok(made)
}

#[test]
fn forms(rt: HostRuntime) -> Result<(), Fail> {
    let given = words(&rt, &["replay", "a.txt"])?;
    let asked = command_of(given.as_slice());
    assert!(rt; matches!(asked, Some(Command::Replay { scenario }) if scenario == "a.txt"));
    let given = words(&rt, &["check", "a.txt", "b"])?;
    let Some(Command::Check { scenario, history }) = command_of(given.as_slice()) else {
        return Err("a check".into());
    };
    assert_eq!(rt; (scenario, history), ("a.txt", "b"));
    let given = words(&rt, &["gen", "9223372036854775807", "16", "65536"])?;
    let Some(
        Command::Gen {
            seed,
            lanes,
            packets,
        },
    ) = command_of(given.as_slice())
    else {
        return Err("work to be made".into());
    };
    assert_eq!(rt; (seed, lanes, packets), (MOST_SEED, 16, 65_536));
    Ok(())
}

#[test]
fn no_forms(rt: HostRuntime) -> Result<(), Fail> {
    let rows: [&[&str]; 6] = [
        &[],
        &["replay", "out-eth0.pcap"],
        &["check", "a.txt"],
        &["gen", "9223372036854775808", "1", "1"],
        &["gen", "7", "17", "1"],
        &["gen", "7", "16", "65537"],
    ];
    for row in rows {
        assert!(rt; command_of(words(&rt, row)?.as_slice()).is_none());
    }
    Ok(())
}

use crate::bad_conf::conf_mistake;
use crate::explain::mistake;
use mr_base::MOST_ENTRIES;
use mr_scenario::Kind;
use std::test::Fail;

/// The message of a mistake in which the reader found this word or line.
fn shown(rt: &HostRuntime, found: &[u8], kind: Kind) -> Result<String, Fail> {
    Ok(mistake(rt.alloc(), found, kind)?)
}

#[test]
fn words(rt: HostRuntime) -> Result<(), Fail> {
    let rows: [(&[u8], Kind, &str); 9] = [
        (
            b"0",
            Kind::Number {
                least: 1,
                most: MOST_ENTRIES,
            },
            "bad number '0' (1 to 16384)",
        ),
        (
            b"@x",
            Kind::Number {
                least: 0,
                most: u32::MAX,
            },
            "bad number '@x' (0 to 4294967295)",
        ),
        (
            b"239.1.1",
            Kind::Address,
            "bad address '239.1.1' (four numbers of 0 to 255 parted by dots)",
        ),
        (
            b"pimreg",
            Kind::Name,
            "bad device name 'pimreg' (1 to 15 letters, digits, '.', '_', '-' or ':', a letter first, not pimreg, each name once)",
        ),
        (
            b"eth9",
            Kind::Device,
            "bad device 'eth9' (a name of a line 'device NAME ADDRESS')",
        ),
        (
            b"3",
            Kind::Lane,
            "bad lane '3' (a number from 1 to that of the lanes)",
        ),
        (
            b"9",
            Kind::Daemon,
            "bad daemon '9' (the number, from 1, of a daemon of the sort that has this operation)",
        ),
        (
            b"1:256",
            Kind::Threshold,
            "bad threshold '1:256' (V:T, V 0 to 31 each once, T 0 to 255)",
        ),
        (
            b"out-b",
            Kind::File,
            "bad file 'out-b' (a name of 1 to 255 bytes without '/', not '.' or '..', which does not begin with 'out-', at most 8)",
        ),
    ];
    for (found, kind, message) in rows {
        assert_eq!(rt; shown(&rt, found, kind)?.as_str(), message);
    }
    Ok(())
}

#[test]
fn lines(rt: HostRuntime) -> Result<(), Fail> {
    let rows: [(&[u8], Kind, &str); 4] = [
        (
            b"scenario 2",
            Kind::Header,
            "bad first line 'scenario 2' ('scenario 1', in front of all others)",
        ),
        (
            b"daemon 1 addvif 0 8",
            Kind::Word,
            "bad word or number of words in 'daemon 1 addvif 0 8' (daemon D addvif I F LOCAL)",
        ),
        (
            b"lanes 1 2",
            Kind::Word,
            "bad word or number of words in 'lanes 1 2' (before the phases 'lanes N', once)",
        ),
        (
            b"phase",
            Kind::Limit,
            "bad line, one too many: 'phase' (at most 1000 phases)",
        ),
    ];
    for (found, kind, message) in rows {
        assert_eq!(rt; shown(&rt, found, kind)?.as_str(), message);
    }
    Ok(())
}

#[test]
fn words_are_escaped_and_cut(rt: HostRuntime) -> Result<(), Fail> {
    assert_eq!(rt;
        shown(&rt, b"4\x1b[31m\xff", Kind::Hex)?.as_str(),
        "bad hex '4\\x1b[31m\\xff' (an even number of hex digits, at most 131070)"
    );
    assert_eq!(rt;
        shown(
            &rt,
            b"0000000000111111111122222222223333333333444444444455555555556",
            Kind::Hex
        )?
        .as_str(),
        "bad hex '000000000011111111112222222222333333333344444444445555555555..' (an even number of hex digits, at most 131070)"
    );
    Ok(())
}

#[test]
fn bad_configurations(rt: HostRuntime) -> Result<(), Fail> {
    let alloc = rt.alloc();
    let told = conf_mistake(
        alloc,
        b"phyint eth0 enable ttl-threshold 0",
        smc_conf::Kind::Threshold,
    )?;
    assert_eq!(rt;
        told.as_str(),
        "bad threshold in 'phyint eth0 enable ttl-threshold 0' (1 to 255)"
    );
    let cut = conf_mistake(alloc, b"mgroup\xff", smc_conf::Kind::Word)?;
    assert!(rt;
        cut.as_str()
            .starts_with("bad word or number of words in 'mgroup")
    );
    Ok(())
}

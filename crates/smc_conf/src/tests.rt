use crate::*;
use std::test::Fail;

const OFFICE: &[u8] = b"# office\n\
    phyint eth0 enable ttl-threshold 1\n\
    phyint eth1 enable\r\n\
    phyint eth2 disable ttl-threshold 255\n\
    \n\
    mgroup from eth1 source 10.255.0.9/9 group 239.0.0.1/8\n\
    mroute from eth0 group 239.1.1.1 source 10.0.0.9 to eth1 eth2\n";

#[test]
fn an_office(rt: HostRuntime) -> Result<(), Fail> {
    let conf = read(rt.alloc(), OFFICE).ok().ok_or("a configuration")?;
    let [first, second, third] = conf.phyints.0.as_slice() else {
        return Err("three interfaces".into());
    };
    assert_eq!(rt; first.name.as_str(), "eth0");
    assert_eq!(rt; (first.enabled, first.threshold), (true, 1));
    assert_eq!(rt; second.name.as_str(), "eth1");
    assert_eq!(rt; (second.enabled, second.threshold), (true, 1));
    assert_eq!(rt; third.name.as_str(), "eth2");
    assert_eq!(rt; (third.enabled, third.threshold), (false, 255));
    let [joined] = conf.groups.0.as_slice() else {
        return Err("a group".into());
    };
    assert_eq!(rt; joined.input.as_str(), "eth1");
    assert_eq!(rt; (joined.source.addr.0, joined.source.len), (0x0A80_0000, 9));
    assert_eq!(rt; (joined.group.addr.0, joined.group.len), (0xEF00_0000, 8));
    let [rule] = conf.rules.0.as_slice() else {
        return Err("a rule".into());
    };
    assert_eq!(rt; rule.input.as_str(), "eth0");
    assert_eq!(rt; (rule.source.addr.0, rule.source.len), (0x0A00_0009, 32));
    assert_eq!(rt; (rule.group.addr.0, rule.group.len), (0xEF01_0101, 32));
    let [one, other] = rule.outs.0.as_slice() else {
        return Err("two outputs".into());
    };
    assert_eq!(rt; (one.as_str(), other.as_str()), ("eth1", "eth2"));
    Ok(())
}

/// A bad line of a configuration: its number, what is wrong with it, and the line itself.
type Row<'a> = (&'a [u8], u32, Kind, &'a [u8]);

const BAD: &[Row<'_>] = &[
    (
        b"phyint eth0 enable ttl-threshold 0",
        1,
        Kind::Threshold,
        b"phyint eth0 enable ttl-threshold 0",
    ),
    (
        b"\n# x\nphyint eth0 enabled\r\n",
        3,
        Kind::Word,
        b"phyint eth0 enabled",
    ),
    (
        b"phyint a enable\nphyint a disable\n",
        2,
        Kind::Interface,
        b"phyint a disable",
    ),
    (
        b"mgroup from a group 10.0.0.1/33",
        1,
        Kind::Address,
        b"mgroup from a group 10.0.0.1/33",
    ),
    (
        b"mgroup from a group 239.1.1.1/33",
        1,
        Kind::Prefix,
        b"mgroup from a group 239.1.1.1/33",
    ),
    (
        b"mroute from a group 239.1.1.1 to",
        1,
        Kind::Word,
        b"mroute from a group 239.1.1.1 to",
    ),
    (
        b"mroute from a group 239.1.1.1 to pimreg",
        1,
        Kind::Interface,
        b"mroute from a group 239.1.1.1 to pimreg",
    ),
];

#[test]
fn first_bad_lines(rt: HostRuntime) -> Result<(), Fail> {
    for (bytes, number, wrong, found) in BAD {
        let Err(ConfError::Bad { line, kind, text }) = read(rt.alloc(), bytes) else {
            return Err("a bad line".into());
        };
        assert_eq!(rt; (line, kind), (*number, *wrong));
        assert_eq!(rt; text.0.as_slice(), *found);
        assert!(rt; 1 <= kind.number() && kind.number() <= 5);
    }
    Ok(())
}

#[test]
fn long_bad_line(rt: HostRuntime) -> Result<(), Fail> {
    let Err(ConfError::Bad { text, .. }) = read(rt.alloc(), &[b'x'; MOST_TEXT + 1]) else {
        return Err("a bad line".into());
    };
    assert_eq!(rt; text.0.len(), MOST_TEXT);
    Ok(())
}

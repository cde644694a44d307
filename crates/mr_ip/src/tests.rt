ghost use Rattle.std.specs.Prelude.{◌<◌};

use crate::*;
use mr_base::Addr;
use std::test::Fail;

/// A UDP packet of 28 bytes from 10.0.0.9 to 239.1.1.1 with ident 1 and TTL 2.
const PACKET: [u8; 28] = [
    0x45, 0, 0, 0x1C, 0, 1, 0, 0, 2, 17, 0xBE, 0xC5, 10, 0, 0, 9, 239, 1, 1, 1, 3, 0xE8, 3, 0xE9,
    0, 8, 0, 0,
];

/// A head of 24 bytes with the option of RFC 2113, and the first 8 of its packet's bytes.
const WITH_OPTION: [u8; 32] = [
    0x46, 0, 0, 0x20, 0, 7, 0x40, 0, 5, 17, 0xE6, 0xB6, 10, 0, 0, 9, 239, 1, 1, 1, 0x94, 4, 0, 0,
    3, 0xE8, 3, 0xE9, 0, 8, 0, 0,
];

/// The packet with one byte changed.
fn changed(at: usize, byte: u8) -> [u8; 28]
    requires { at < 28 }
{
    let mut bytes = PACKET;
    bytes[at] = byte;
    bytes
}

/// The packet with these addresses and this checksum.
fn addressed(src: [u8; 4], dst: [u8; 4], checksum: [u8; 2]) -> [u8; 28] {
    let [c, d] = checksum;
    let [i, j, k, l] = src;
    let [w, x, y, z] = dst;
    [
        0x45, 0, 0, 0x1C, 0, 1, 0, 0, 2, 17, c, d, i, j, k, l, w, x, y, z, 3, 0xE8, 3, 0xE9, 0, 8,
        0, 0,
    ]
}

#[test]
fn accepted(rt: HostRuntime) -> Result<(), Fail> {
    let head = read_head(&PACKET).ok().ok_or("the packet")?;
    assert_eq!(rt; head.bytes.0.as_slice(), &PACKET[..20]);
    assert_eq!(rt;
        (head.length, head.ttl, head.src, head.dst),
        (28, 2, Addr(0x0A00_0009), Addr(0xEF01_0101))
    );
    let head = read_head(&WITH_OPTION).ok().ok_or("the option")?;
    assert_eq!(rt; head.bytes.0.as_slice(), &WITH_OPTION[..24]);
    assert_eq!(rt; (head.length, head.ttl), (32, 5));
    Ok(())
}

#[test]
fn refused(rt: HostRuntime) {
    let ours = [10, 0, 0, 9];
    let group = [239, 1, 1, 1];
    let version = changed(0, 0x65);
    let short_head = changed(0, 0x44);
    let long_head = changed(0, 0x4F);
    let checksum = changed(8, 3);
    let to_one = addressed(ours, [10, 0, 1, 9], [0xA3, 0xBF]);
    let to_local = addressed(ours, [224, 0, 0, 251], [0xCD, 0xCC]);
    let from_loopback = addressed([127, 0, 0, 1], group, [0x49, 0xCD]);
    let rows: [(&[u8], HeadError); 9] = [
        (&PACKET[..19], HeadError::Short),
        (&version, HeadError::Version),
        (&short_head, HeadError::HeaderLength),
        (&long_head, HeadError::HeaderLength),
        (&checksum, HeadError::Checksum),
        (&PACKET[..27], HeadError::TotalLength),
        (&to_one, HeadError::NotMulticast),
        (&to_local, HeadError::LinkLocal),
        (&from_loopback, HeadError::BadSource),
    ];
    for (bytes, cause) in rows {
        assert_eq!(rt; read_head(bytes).err(), Some(cause));
    }
}

#[test]
fn made(rt: HostRuntime) {
    let head = make_head(1, 2, Addr(0x0A00_0009), Addr(0xEF01_0101), 28);
    assert_eq!(rt; head.bytes.0.as_slice(), &PACKET[..20]);
    assert_eq!(rt;
        (head.length, head.ttl, head.src, head.dst),
        (28, 2, Addr(0x0A00_0009), Addr(0xEF01_0101))
    );
}

#[test]
fn sent_on(rt: HostRuntime) -> Result<(), Fail> {
    let head = sent_head(&read_head(&PACKET).ok().ok_or("the packet")?);
    let wanted = b"\x45\0\0\x1c\0\x01\0\0\x01\x11\xbf\xc5\x0a\0\0\x09\xef\x01\x01\x01";
    assert_eq!(rt; head.bytes.0.as_slice(), wanted.as_slice());
    assert_eq!(rt;
        (head.length, head.ttl, head.src, head.dst),
        (28, 1, Addr(0x0A00_0009), Addr(0xEF01_0101))
    );
    let head = sent_head(&read_head(&WITH_OPTION).ok().ok_or("the option")?);
    assert_eq!(rt;
        &head.bytes.0.as_slice()[8..12],
        b"\x04\x11\xe7\xb6".as_slice()
    );
    assert_eq!(rt; &head.bytes.0.as_slice()[20..], b"\x94\x04\0\0".as_slice());
    Ok(())
}

/// The checksums 0xFF00 and 0xFEFF of TTL 2 become 0x0001 and 0.
#[test]
fn sent_with_a_carry(rt: HostRuntime) {
    for (ident, before, after) in [(0xBFC5, [0xFF, 0], [0, 1]), (0xBFC6, [0xFE, 0xFF], [0, 0])] {
        let head = make_head(ident, 2, Addr(0x0A00_0009), Addr(0xEF01_0101), 28);
        assert_eq!(rt;
            head.bytes.0.as_slice().get(10..12),
            Some(before.as_slice())
        );
        let head = sent_head(&head);
        assert_eq!(rt; head.bytes.0.as_slice().get(10..12), Some(after.as_slice()));
    }
}

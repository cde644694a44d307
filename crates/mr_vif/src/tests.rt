ghost use Rattle.std.specs.Prelude.{◌≡◌};
ghost use Rattle.mr_vif.specs.WorkedVifs as worked;

use super::*;
use mr_base::{Mask, VifRecord};

/// Vif 3 on device 1, vif 31 (static) on device 1, the register vif 5, vif 0 (static) on device 70.
const ADDED: [VifRecord; 4] = [
    VifRecord {
        vif: 3,
        dev: 1,
        register: false,
        fixed: false,
        number: 13,
    },
    VifRecord {
        vif: 31,
        dev: 1,
        register: false,
        fixed: true,
        number: 41,
    },
    VifRecord {
        vif: 5,
        dev: 0,
        register: true,
        fixed: false,
        number: 15,
    },
    VifRecord {
        vif: 0,
        dev: 70,
        register: false,
        fixed: true,
        number: 10,
    },
];

fn added() -> Vifs
    ensures { result ≡ worked.added }
{
    let mut vifs = Vifs::new();
    vifs.add(ADDED[0]);
    vifs.add(ADDED[1]);
    vifs.add(ADDED[2]);
    vifs.add(ADDED[3]);
    vifs
}

/// What the vifs answer: the highest on devices 0, 1, 2, 64 and 70, the register vif, the end, and
/// the bits.
type Row = ([Option<u8>; 5], Option<u8>, u8, u32);

fn row(vifs: &Vifs) -> Row {
    let devices = [
        vifs.of_device(0),
        vifs.of_device(1),
        vifs.of_device(2),
        vifs.of_device(64),
        vifs.of_device(70),
    ];
    (devices, vifs.register(), vifs.maxvif(), vifs.present().0)
}

#[test]
fn none(rt: HostRuntime) {
    let vifs = Vifs::new();
    assert!(rt; row(&vifs) == ([None, None, None, None, None], None, 0, 0));
    assert!(rt; vifs.record(0).is_none() && !vifs.exists(0));
}

#[test]
fn four(rt: HostRuntime) {
    let vifs = added();
    assert!(rt;
        row(&vifs)
            == (
                [Some(5), Some(31), None, None, Some(0)],
                Some(5),
                32,
                0x8000_0029
            )
    );
    assert!(rt; vifs.record(31) == Some(ADDED[1]));
    assert!(rt; vifs.record(5) == Some(ADDED[2]));
    assert!(rt;
        vifs.record(4).is_none() && vifs.record(32).is_none() && vifs.record(255).is_none()
    );
    assert!(rt; vifs.exists(0) && !vifs.exists(32) && !vifs.exists(259) && !vifs.exists(65535));
}

#[test]
fn removed(rt: HostRuntime) {
    let mut vifs = added();
    vifs.remove(31);
    assert!(rt; row(&vifs) == ([Some(5), Some(3), None, None, Some(0)], Some(5), 6, 0x29));
    assert!(rt; vifs.record(31).is_none() && vifs.record(3) == Some(ADDED[0]));
    vifs.remove(5);
    assert!(rt; row(&vifs) == ([None, Some(3), None, None, Some(0)], None, 4, 9));
}

#[test]
fn flushed(rt: HostRuntime) {
    let rows = [
        (false, false, 0x8000_0029u32),
        (true, false, 0x8000_0001),
        (false, true, 0x28),
        (true, true, 0),
    ];
    for (loose, fixed, left) in rows {
        let mut vifs = added();
        vifs.flush(loose, fixed);
        assert_eq!(rt; vifs.present().0, left);
    }
}

#[test]
fn thresholds(rt: HostRuntime) {
    let mut ttls = [255u8; 32];
    ttls[0] = 1;
    ttls[3] = 9;
    ttls[4] = 1;
    ttls[31] = 10;
    let vifs = added();
    let rows = [
        (1u8, 0u32, 0u32),
        (2, 0x11, 1),
        (9, 0x11, 1),
        (10, 0x19, 9),
        (11, 0x8000_0019, 0x8000_0009),
        (255, 0x8000_0019, 0x8000_0009),
    ];
    for (ttl, bits, outs) in rows {
        assert_eq!(rt; sends(&ttls, ttl).0, bits);
        assert_eq!(rt; vifs.outs(&ttls, ttl).0, outs);
    }
}

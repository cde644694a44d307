ghost use Rattle.std.specs.Prelude.{◌≡◌};
ghost use Rattle.mr_model.specs.Granting.{sets_tables};

use super::*;
use mr_base::{Addr, Device, Mask};
use mr_model::{MfcCtl, MfcKey, Request, Verdict, VifCtl};
use std::process::Abort;
use std::test::Fail;

/// The devices eth0 to eth3, numbered 1 to 4.
const DEVICES: [Device; 4] = [
    Device {
        addr: Addr(0x0a00_0001),
    },
    Device {
        addr: Addr(0x0a00_0101),
    },
    Device {
        addr: Addr(0x0a00_0201),
    },
    Device {
        addr: Addr(0x0a00_0301),
    },
];

/// 10.0.0.9 and 10.0.1.9.
const SOURCE: Addr = Addr(0x0a00_0009);

const OTHER: Addr = Addr(0x0a00_0109);

/// 239.1.1.1, 239.1.1.2 and 239.9.9.9.
const GROUP: Addr = Addr(0xef01_0101);

const SECOND: Addr = Addr(0xef01_0102);

const FAR: Addr = Addr(0xef09_0909);

/// Whether a request sets tables.
fn is_setting(request: &Request) -> bool
    ensures { result ≡ sets_tables request.now }
{
    matches!(
        request,
        Request::Finish
            | Request::AddVif(_)
            | Request::DelVif(_)
            | Request::AddMfc(_)
            | Request::AddProxy(_)
            | Request::DelMfc(_)
            | Request::DelProxy(_)
            | Request::Pim(_)
            | Request::Assert(_)
            | Request::Flush(_)
    )
}

/// A call by the owner: its errno, or 0 where it is good and made.
fn call(tables: &mut Tables, number: u32, request: &Request) -> u32 {
    if !is_setting(request) || !tables.cache().is_above(number) {
        return 1;
    }
    match tables.would(request, true, number) {
        Err(errno) => errno.number(),
        Ok(change) => {
            tables.apply(&change);
            0
        }
    }
}

/// Makes calls by the owner, each with its number and with what it answers: an errno, or 0.
fn make_calls(rt: &impl Abort, tables: &mut Tables, calls: &[(u32, Request, u32)]) {
    for (number, request, errno) in calls {
        assert_eq!(rt; call(tables, *number, request), *errno);
    }
}

fn vif(vif: u16, flags: u8, local: u32) -> VifCtl {
    VifCtl { vif, flags, local }
}

fn ctl(src: Addr, dst: Addr, parent: u16, thresholds: &[(u8, u8)]) -> MfcCtl {
    let mut ttls = [0; 32];
    for (vif, ttl) in thresholds {
        if *vif < 32 {
            ttls[usize::from(*vif)] = *ttl;
        }
    }
    MfcCtl {
        src,
        dst,
        parent,
        ttls,
    }
}

fn key(src: Addr, dst: Addr, parent: u16) -> MfcKey {
    MfcKey { src, dst, parent }
}

/// Vif i on device i + 1.
fn numbered(i: u16) -> Request {
    Request::AddVif(vif(i, 8, u32::from(i) + 1))
}

#[test]
fn vif_errnos(rt: HostRuntime) -> Result<(), Fail> {
    use Request::{AddVif, DelVif};
    let mut t = Tables::with(rt.alloc(), 2, &DEVICES[..1])?;
    let rows = [
        (2, AddVif(vif(31, 8, 1)), 0),
        (3, AddVif(vif(32, 8, 1)), 23),
        (4, AddVif(vif(31, 8, 1)), 98),
        (5, DelVif(31), 0),
        (6, DelVif(31), 99),
        (7, DelVif(32), 23),
        (8, AddVif(vif(0, 1, 0x0a00_0001)), 22),
        (9, AddVif(vif(0, 8, 9)), 99),
        (10, AddVif(vif(5, 4, 0)), 0),
        (11, AddVif(vif(6, 4, 0)), 98),
        (14, AddVif(vif(0, 8, 1)), 0),
        // an index of 32 or more comes first, the flags last
        (20, AddVif(vif(300, 4, 0)), 23),
        (21, AddVif(vif(5, 1, 9)), 98),
        (22, AddVif(vif(1, 0, 0x0a00_0101)), 99),
        (23, AddVif(vif(1, 8, 0)), 99),
    ];
    make_calls(&rt, &mut t, &rows);
    Ok(())
}

#[test]
fn entry_errnos(rt: HostRuntime) -> Result<(), Fail> {
    use Request::{AddMfc, AddProxy, DelMfc, DelProxy};
    let mut t = Tables::with(rt.alloc(), 2, &DEVICES[..1])?;
    let no_group = Addr(0x0a00_0008);
    let rows = [
        (18, DelMfc(key(SOURCE, GROUP, 0)), 2),
        (19, AddMfc(ctl(SOURCE, no_group, 0, &[])), 22),
        (24, AddMfc(ctl(SOURCE, no_group, 32, &[])), 23),
        (25, AddProxy(ctl(SOURCE, GROUP, 300, &[])), 23),
        // two slots: the first two entries, a change in place, and no third
        (26, AddMfc(ctl(SOURCE, GROUP, 0, &[])), 0),
        (27, AddProxy(ctl(SOURCE, GROUP, 1, &[])), 0),
        (28, AddMfc(ctl(SOURCE, GROUP, 2, &[])), 0),
        (29, AddProxy(ctl(SOURCE, GROUP, 1, &[])), 105),
        (30, DelProxy(key(SOURCE, GROUP, 1)), 2),
        (31, DelProxy(key(SOURCE, GROUP, 256)), 2),
        (32, DelProxy(key(SOURCE, GROUP, 2)), 0),
        (33, DelMfc(key(SOURCE, GROUP, 31)), 0),
        (34, DelMfc(key(SOURCE, GROUP, 0)), 2),
    ];
    make_calls(&rt, &mut t, &rows);
    Ok(())
}

/// A plain verdict whose packet counts in on vif 0.
fn forward(entry: u32, outs: u32) -> Verdict {
    Verdict::Forward {
        entry,
        input: Some(0),
        outs: Mask(outs),
    }
}

/// A packet's device, origin, group and TTL, and its verdict.
type Row = (u32, Addr, Addr, u8, Verdict);

fn decide_rows(rt: &impl Abort, tables: &Tables, rows: &[Row]) {
    for (dev, src, dst, ttl, verdict) in rows {
        assert_eq!(rt; tables.decide(*dev, *src, *dst, *ttl), *verdict);
    }
}

#[test]
fn thresholds(rt: HostRuntime) -> Result<(), Fail> {
    use Request::AddMfc;
    let mut t = Tables::with(rt.alloc(), 8, &DEVICES)?;
    let calls = [
        (2, numbered(0), 0),
        (3, numbered(1), 0),
        (4, numbered(2), 0),
        (5, numbered(3), 0),
        (
            6,
            AddMfc(ctl(SOURCE, GROUP, 0, &[(1, 4), (2, 5), (3, 6)])),
            0,
        ),
        (7, AddMfc(ctl(SOURCE, SECOND, 0, &[(1, 1)])), 0),
    ];
    make_calls(&rt, &mut t, &calls);
    let rows = [
        (1, SOURCE, GROUP, 5, forward(6, 0b10)),
        (1, SOURCE, SECOND, 1, forward(7, 0)),
    ];
    decide_rows(&rt, &t, &rows);
    Ok(())
}

/// A vif that comes later has no threshold, nor has one for which 0 or 255 is asked.
#[test]
fn later_vif(rt: HostRuntime) -> Result<(), Fail> {
    use Request::AddMfc;
    let mut t = Tables::with(rt.alloc(), 8, &DEVICES)?;
    let calls = [
        (2, numbered(0), 0),
        (3, numbered(1), 0),
        (4, numbered(2), 0),
        (
            5,
            AddMfc(ctl(SOURCE, GROUP, 0, &[(1, 0), (2, 255), (3, 1)])),
            0,
        ),
        (6, numbered(3), 0),
    ];
    make_calls(&rt, &mut t, &calls);
    decide_rows(&rt, &t, &[(1, SOURCE, GROUP, 255, forward(5, 0))]);
    Ok(())
}

#[test]
fn wildcards(rt: HostRuntime) -> Result<(), Fail> {
    use Request::{AddMfc, AddProxy};
    let mut t = Tables::with(rt.alloc(), 8, &DEVICES)?;
    let all = [(0, 1), (1, 1), (2, 1)];
    let calls = [
        (2, numbered(0), 0),
        (3, numbered(1), 0),
        (4, numbered(2), 0),
        (5, AddProxy(ctl(Addr(0), Addr(0), 0, &all)), 0),
        (6, AddMfc(ctl(Addr(0), GROUP, 0, &all)), 0),
    ];
    make_calls(&rt, &mut t, &calls);
    let rows = [
        (2, OTHER, GROUP, 9, forward(6, 0b101)),
        (2, OTHER, FAR, 9, forward(5, 0b1)),
        (1, SOURCE, FAR, 9, forward(5, 0)),
        (4, SOURCE, GROUP, 9, Verdict::NoVif),
    ];
    decide_rows(&rt, &t, &rows);
    Ok(())
}

#[test]
fn wrong_and_missed(rt: HostRuntime) -> Result<(), Fail> {
    use Request::{AddMfc, AddVif};
    let mut t = Tables::with(rt.alloc(), 8, &DEVICES)?;
    let calls = [
        (2, numbered(0), 0),
        (3, numbered(1), 0),
        (4, AddVif(vif(5, 4, 0)), 0),
        (5, AddMfc(ctl(SOURCE, GROUP, 0, &[(1, 1), (5, 9)])), 0),
    ];
    make_calls(&rt, &mut t, &calls);
    let register = Verdict::Register {
        entry: 5,
        input: Some(0),
        outs: Mask(0b10_0010),
    };
    let wrong = |vif: Option<u8>| Verdict::Wrong { entry: 5, vif };
    let rows = [
        (1, SOURCE, GROUP, 9, forward(5, 0b10)),
        (1, SOURCE, GROUP, 10, register),
        (2, SOURCE, GROUP, 9, wrong(Some(1))),
        (3, SOURCE, GROUP, 9, wrong(None)),
        (2, OTHER, GROUP, 9, Verdict::Miss { vif: 1 }),
        (3, OTHER, GROUP, 9, Verdict::NoVif),
    ];
    decide_rows(&rt, &t, &rows);
    Ok(())
}

#[test]
fn switches(rt: HostRuntime) -> Result<(), Fail> {
    use Request::{Assert, Pim};
    let rows = [
        (Pim(0), false, false),
        (Assert(7), false, true),
        (Pim(0), false, true),
        (Pim(2), true, true),
        (Assert(0), true, false),
        (Pim(1), true, false),
        (Pim(0), false, false),
    ];
    let mut t = Tables::with(rt.alloc(), 1, &[])?;
    for (request, pim, asserts) in rows {
        assert_eq!(rt; call(&mut t, 1, &request), 0);
        assert!(rt; (t.pim(), t.assert_on()) == (pim, asserts));
    }
    Ok(())
}

/// The new entry (10.0.0.9, 239.1.1.1).
const ENTRY: What = What::NewRoute {
    src: SOURCE,
    dst: GROUP,
    parent: 0,
    ttls: [255; 32],
    fixed: false,
};

/// A change of entry 4.
const OLD: What = What::OldRoute {
    target: 4,
    parent: 0,
    ttls: [255; 32],
    fixed: true,
};

fn added(vif: u8, register: bool) -> What {
    What::AddVif {
        vif,
        dev: 1,
        register,
        fixed: false,
    }
}

fn fit_rows(rt: &impl Abort, tables: &Tables, number: u32, rows: &[(What, bool)]) {
    for (what, fits) in rows {
        let change = Change {
            number,
            what: *what,
        };
        assert_eq!(rt; tables.fits(&change), *fits);
    }
}

#[test]
fn fitting(rt: HostRuntime) -> Result<(), Fail> {
    let mut t = Tables::with(rt.alloc(), 1, &DEVICES)?;
    make_calls(
        &rt,
        &mut t,
        &[(2, numbered(0), 0), (3, Request::AddVif(vif(5, 4, 0)), 0)],
    );
    let rows = [
        (added(31, false), true),
        (added(32, false), false),
        (added(5, false), false),
        (added(6, true), false),
        (What::DelVif(5), true),
        (What::DelVif(6), false),
        (ENTRY, true),
        (OLD, false),
        (What::DropRoute(4), false),
        (What::Flush(0), true),
        (What::Pim(true), true),
        (What::Assert(false), true),
    ];
    fit_rows(&rt, &t, 4, &rows);
    // behind the new entry no slot is free
    make_calls(
        &rt,
        &mut t,
        &[(4, Request::AddMfc(ctl(SOURCE, GROUP, 0, &[])), 0)],
    );
    fit_rows(
        &rt,
        &t,
        5,
        &[(ENTRY, false), (OLD, true), (What::DropRoute(4), true)],
    );
    Ok(())
}

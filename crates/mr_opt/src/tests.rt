use crate::*;
use mr_base::Addr;
use mr_model::{MfcCtl, MfcKey, Request, RouteTotals, VifCtl, VifTotals};
use std::test::Fail;

const NOBODY: Addr = Addr(0);

const NO_VIF: VifCtl = VifCtl {
    vif: 0,
    flags: 0,
    local: 0,
};

const NO_KEY: MfcKey = MfcKey {
    src: NOBODY,
    dst: NOBODY,
    parent: 0,
};

const NO_ENTRY: MfcCtl = MfcCtl {
    src: NOBODY,
    dst: NOBODY,
    parent: 0,
    ttls: [0; 32],
};

/// The options that can be set, but MRT_DONE, with the length of their record and what it asks
/// where it is all zeros.
const SETTABLE: [(u16, usize, Request); 10] = [
    (200, 4, Request::Init),
    (202, 16, Request::AddVif(NO_VIF)),
    (203, 16, Request::DelVif(0)),
    (204, 58, Request::AddMfc(NO_ENTRY)),
    (205, 58, Request::DelMfc(NO_KEY)),
    (207, 4, Request::Assert(0)),
    (208, 4, Request::Pim(0)),
    (210, 58, Request::AddProxy(NO_ENTRY)),
    (211, 58, Request::DelProxy(NO_KEY)),
    (212, 4, Request::Flush(0)),
];

#[test]
fn each_length(rt: HostRuntime) {
    let zeros = [0; 64];
    for (opt, right, request) in SETTABLE {
        for length in 0..=64 {
            let wanted = if length == right {
                request
            } else {
                Request::BadLength(opt)
            };
            assert_eq!(rt; read_set(opt, &zeros[..length]), wanted);
        }
    }
    for length in 0..=64 {
        assert_eq!(rt; read_set(201, &zeros[..length]), Request::Finish);
    }
    for opt in [0, 199, 206, 209, 213, 65_535] {
        for length in 0..=64 {
            assert_eq!(rt; read_set(opt, &zeros[..length]), Request::Unknown(opt));
        }
    }
}

#[test]
fn a_vif_both_ways(rt: HostRuntime) -> Result<(), Fail> {
    let bytes = b"\0\0\x08\0\0\0\0\0\x01\0\0\0\0\0\0\0";
    let request = Request::AddVif(VifCtl {
        vif: 0,
        flags: 8,
        local: 1,
    });
    assert_eq!(rt; read_set(202, bytes), request);
    let set = set_bytes(rt.alloc(), &request).ok().ok_or("memory")?;
    let (opt, record) = set.ok_or("it can be set")?;
    assert_eq!(rt; opt, 202);
    assert_eq!(rt; record.as_slice(), bytes.as_slice());
    Ok(())
}

#[test]
fn requests_that_read(rt: HostRuntime) -> Result<(), Fail> {
    let reading = [
        Request::GetVersion,
        Request::GetPim,
        Request::GetAssert,
        Request::VifCount(3),
        Request::SgCount {
            src: NOBODY,
            dst: NOBODY,
        },
        Request::Unknown(206),
        Request::BadLength(202),
    ];
    for request in reading {
        let set = set_bytes(rt.alloc(), &request).ok().ok_or("memory")?;
        assert!(rt; set.is_none());
    }
    Ok(())
}

#[test]
fn counts_of_nothing(rt: HostRuntime) {
    let none = RouteTotals::default();
    assert_eq!(rt; sg_bytes(NOBODY, NOBODY, &none), [0; 32]);
    assert_eq!(rt; read_sg(&[0; 32]), (NOBODY, NOBODY, none));
    let none = VifTotals::default();
    assert_eq!(rt; vif_bytes(0, &none), [0; 34]);
    assert_eq!(rt; read_vif(&[0; 34]), (0, none));
}

//! A packet that is settled after the vif was made again on which it went out.

ghost use Rattle.std.specs.Prelude.{◌≡◌, ◌++◌, ◌∷◌, ◌≤◌, [], length, map, true, IfOk};
ghost use Rattle.mr_model.specs.declared.entry.Entry.TheVariants.{Settle};
ghost use Rattle.mr_history.specs.Fits.{FitsLimits};
ghost use Rattle.mr_kernel_rows.specs.Late.{add_mfc, calls, good, late, limits};

use crate::worked::worked_late;
use mr_base::{Addr, DaemonNo, Device, LaneNo, List, Mask};
use mr_kernel::Kernel;
use mr_model::{
    FastRecord, Flow, Limits, MfcCtl, Reply, Request, RouteTotals, Step, VifCtl, VifTotals,
};
use std::alloc::{AllocError, Global};
use std::test::Fail;

/// 10.0.0.9 and 239.1.1.1.
const SOURCE: Addr = Addr(0x0a00_0009);

const GROUP: Addr = Addr(0xef01_0101);

/// `init`, `addvif 0 8 @1`, `addvif 1 8 @2` and `delvif 1`.
const INIT: Request = Request::Init;

const ADD_VIF_0: Request = Request::AddVif(VifCtl {
    vif: 0,
    flags: 8,
    local: 1,
});

const ADD_VIF_1: Request = Request::AddVif(VifCtl {
    vif: 1,
    flags: 8,
    local: 2,
});

const DEL_VIF_1: Request = Request::DelVif(1);

/// A packet of 28 bytes that came in on vif 0 and went out on vif 1, by the first four entries.
const LATE: FastRecord = FastRecord {
    index: 1,
    look: 4,
    entry: 4,
    input: Some(0),
    outs: Mask(2),
    flow: Flow {
        dev: 1,
        src: SOURCE,
        dst: GROUP,
        ttl: 9,
        length: 28,
    },
};

/// Two devices, one lane of one packet, and one daemon.
fn limits(alloc: Global) -> Result<Limits, AllocError>
    ensures is { IfOk result (λ l. l ≡ limits) }
    ensures fits { IfOk result FitsLimits }
{
    let devices = [
        Device {
            addr: Addr(0x0a00_0001),
        },
        Device {
            addr: Addr(0x0a00_0101),
        },
    ];
    Ok(Limits {
        entries: 4,
        unresolved: 1,
        controls: 8,
        phases: 1,
        packets: List(Vec::from_slice(alloc, &[1])?),
        admins: List(Vec::from_slice(alloc, &[true])?),
        devices: List(Vec::from_slice(alloc, &devices)?),
    })
}

/// `addmfc 10.0.0.9 239.1.1.1 0 1:1`.
fn add_mfc() -> Request
    ensures { result ≡ add_mfc }
{
    let mut ttls = [0; 32];
    ttls[1] = 1;
    Request::AddMfc(MfcCtl {
        src: SOURCE,
        dst: GROUP,
        parent: 0,
        ttls,
    })
}

/// A call of daemon 1; whether it is good and releases nothing.
fn call(kernel: &mut Kernel, request: &Request) -> bool
    requires { 1 ≤ length kernel.old.limits.admins }
    ensures limits { kernel.new.limits ≡ kernel.old.limits }
    ensures history { result ≡ true →
        kernel.new.history ≡ kernel.old.history ++ good request.now ∷ [] }
{
    match kernel.call(DaemonNo(1), request) {
        Ok((Reply::Good, freed)) => freed.as_slice().is_empty(),
        _ => false,
    }
}

/// Makes calls of daemon 1; whether all are good and release nothing.
fn make_calls(kernel: &mut Kernel, requests: &[Request]) -> bool
    requires { 1 ≤ length kernel.old.limits.admins }
    ensures limits { kernel.new.limits ≡ kernel.old.limits }
    ensures history { result ≡ true →
        kernel.new.history ≡ kernel.old.history ++ map good requests.now }
{
    for request in requests {
        if !call(kernel, request) {
            return false;
        }
    }
    true
}

/// Lane 1 settles the packet behind the calls.
fn settle_late(kernel: &mut Kernel)
    requires limits { kernel.old.limits ≡ limits }
    requires history { kernel.old.history ≡ calls }
    ensures { kernel.new.history ≡ calls ++ Settle (record { 0 = 1 }) (late ∷ []) ∷ [] }
{
    worked_late();
    kernel.settle(LaneNo(1), &[LATE]);
}

/// Whether a step is the fast packet.
fn is_fast(step: &Step) -> bool {
    match step {
        Step::Fast { lane, fast } => lane.0 == 1 && *fast == LATE,
        Step::Kept(_) => false,
    }
}

/// Makes the calls, and settles the packet behind them; whether all calls are good.
fn make_late(kernel: &mut Kernel) -> bool
    requires limits { kernel.old.limits ≡ limits }
    requires history { kernel.old.history ≡ [] }
{
    let requests = [INIT, ADD_VIF_0, ADD_VIF_1, add_mfc(), DEL_VIF_1, ADD_VIF_1];
    if !make_calls(kernel, &requests) {
        return false;
    }
    settle_late(kernel);
    true
}

/// The machine behind the late packet. None where memory runs out, or a call is not good.
fn made(alloc: Global) -> Option<Kernel> {
    let Ok(limits) = limits(alloc) else {
        return None;
    };
    let Ok(mut kernel) = Kernel::with(alloc, &limits) else {
        return None;
    };
    if make_late(&mut kernel) {
        Some(kernel)
    } else {
        None
    }
}

/// The vif that was made again has counted nothing.
#[test]
fn late_packet_counts_for_what_it_met(rt: HostRuntime) -> Result<(), Fail> {
    let Some(kernel) = made(rt.alloc()) else {
        return Err(Fail::from("a call is not good"));
    };
    let came_in = VifTotals {
        packets_in: 1,
        packets_out: 0,
        bytes_in: 28,
        bytes_out: 0,
    };
    let met = RouteTotals {
        packets: 1,
        bytes: 28,
        wrong: 0,
    };
    let journal = kernel.journal();
    assert_eq!(rt; journal.vif_totals(0), Some(came_in));
    assert_eq!(rt; journal.vif_totals(1), Some(VifTotals::default()));
    assert_eq!(rt; journal.route_totals(4), Some(met));
    Ok(())
}

/// The packet stands behind the fourth entry.
#[test]
fn late_packet_stands_where_it_looked(rt: HostRuntime) -> Result<(), Fail> {
    let Some(kernel) = made(rt.alloc()) else {
        return Err(Fail::from("a call is not good"));
    };
    let steps = kernel.journal().unfold(rt.alloc())?;
    assert_eq!(rt; steps.as_slice().len(), 8);
    for (place, step) in steps.as_slice().iter().enumerate() {
        assert_eq!(rt; is_fast(step), place == 4);
    }
    Ok(())
}

/// The history ends with an entry and two vifs, and no packet waited.
#[test]
fn late_packet_changes_no_table(rt: HostRuntime) -> Result<(), Fail> {
    let Some(kernel) = made(rt.alloc()) else {
        return Err(Fail::from("a call is not good"));
    };
    let ending = kernel.ending(rt.alloc())?;
    assert_eq!(rt; ending.routes.0.as_slice().len(), 1);
    assert_eq!(rt; ending.vifs.0.as_slice().len(), 2);
    assert!(rt; ending.fates.0.as_slice().is_empty());
    Ok(())
}

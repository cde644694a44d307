ghost use Rattle.std.specs.Prelude.{◌≡◌, ◌≤◌, length};
ghost use Rattle.mr_model.specs.Granting.{sets_tables};
ghost use Rattle.mr_tables.specs.declared.tables.TheConstants.{MOST_DEVICES};
ghost use Rattle.mr_publish.specs.Copies.{empty_tables};

use super::*;
use mr_base::{Addr, Device, Mask, Memory};
use mr_model::{MfcCtl, MfcKey, Request, Verdict, VifCtl};
use mr_tables::Tables;
use std::alloc::Global;
use std::marker::{Brand, Model};
use std::process::Abort;
use std::sync::Wait;
use std::test::*;
use std::thread::Threads;
use std::{mem, thread};

/// The devices eth0 and eth1, numbered 1 and 2.
const DEVICES: [Device; 2] = [
    Device {
        addr: Addr(0x0a00_0001),
    },
    Device {
        addr: Addr(0x0a00_0101),
    },
];

/// 10.0.0.9 and 239.1.1.1.
const SOURCE: Addr = Addr(0x0a00_0009);

const GROUP: Addr = Addr(0xef01_0101);

/// How many changes are published while another thread looks, and how often it looks.
const MANY: u32 = 1000;

const LOOKS: u32 = 100_000;

/// Tables that calls change, as they are published.
struct Control<J: PairName> {
    master: Tables,
    publisher: Publisher<J>,
}

impl<J: PairName> Model for Control<J> {
    ghost use Rattle.std.specs.Prelude.{◌≡◌, ◌++◌};
    ghost use Rattle.mr_publish.specs.Copies.{tables_after};
    ghost use Rattle.mr_publish.specs.Values.{Published};

    ghost Value = { Published };

    ghost view = { λ c. c.publisher };

    ghost invariant = { λ c.
        c.master ≡ tables_after J.start (c.publisher.published ++ c.publisher.staged) };
}

impl<J: PairName> Control<J> {
    /// A call by the owner is made, and what it changes is staged: whether it was.
    #[tactic(auto, using(crate::proofs::Fitting::last_applied))]
    fn stage(&mut self, number: u32, request: &Request) -> bool {
        if !is_setting(request) || !self.master.cache().is_above(number) {
            return false;
        }
        if number <= self.publisher.newest() {
            return false;
        }
        let granted = self.master.would(request, true, number);
        let Ok(change) = granted else { return false };
        let staged = self.publisher.stage(&change);
        let Ok(()) = staged else { return false };
        self.master.apply(&change);
        true
    }

    fn publish<R: Wait>(self, rt: &R) -> Control<J> {
        let Control { master, publisher } = self;
        Control {
            master,
            publisher: publisher.publish(rt),
        }
    }

    fn end<R: Wait>(self, rt: &R) {
        let Control {
            master: _,
            publisher,
        } = self;
        publisher.end(rt);
    }
}

/// Whether a request sets tables.
fn is_setting(request: &Request) -> bool
    ensures { result ≡ sets_tables request.now }
{
    matches!(
        request,
        Request::Finish
            | Request::AddVif(_)
            | Request::DelVif(_)
            | Request::AddMfc(_)
            | Request::AddProxy(_)
            | Request::DelMfc(_)
            | Request::DelProxy(_)
            | Request::Pim(_)
            | Request::Assert(_)
            | Request::Flush(_)
    )
}

/// A control over tables with four slots, and its one looker.
fn control_of<J: PairName, R: Wait>(
    rt: &R,
    alloc: Global,
    opened: OpenedList,
    devices: &[Device],
) -> Result<(Control<J>, Looker<J>), Memory>
    requires named { opened ≡ J.list }
    requires start { J.start ≡ empty_tables 4 devices.now }
    requires few { length devices.now ≤ MOST_DEVICES }
{
    let master = Tables::with(alloc, 4, devices)?;
    let (publisher, mut lookers) = publish_pair::<J, R>(rt, alloc, opened, 4, devices, 1)?;
    let Some(looker) = lookers.pop() else {
        publisher.end(rt);
        return Err(Memory);
    };
    Ok((Control { master, publisher }, looker))
}

/// Vif i on device i + 1.
fn vif(i: u16) -> Request {
    Request::AddVif(VifCtl {
        vif: i,
        flags: 8,
        local: u32::from(i) + 1,
    })
}

/// The entry from vif 0 to vif 1, with the threshold 1.
fn add_mfc() -> Request {
    let mut ttls = [0; 32];
    ttls[1] = 1;
    Request::AddMfc(MfcCtl {
        src: SOURCE,
        dst: GROUP,
        parent: 0,
        ttls,
    })
}

fn del_mfc() -> Request {
    Request::DelMfc(MfcKey {
        src: SOURCE,
        dst: GROUP,
        parent: 0,
    })
}

/// A look at a packet that comes in on eth0 with a TTL of 2.
fn look<J: PairName>(looker: &mut Looker<J>) -> Option<(u32, Verdict)> {
    looker.look(1, SOURCE, GROUP, 2)
}

#[test]
fn looks_see_what_was_published(rt: HostRuntime) -> Result<(), Fail> {
    row::<Brand, _>(&rt, rt.alloc(), OpenedList::new(), &DEVICES)
}

fn row<J: PairName, R: Wait + Abort>(
    rt: &R,
    alloc: Global,
    opened: OpenedList,
    devices: &[Device],
) -> Result<(), Fail>
    requires named { opened ≡ J.list }
    requires start { J.start ≡ empty_tables 4 devices.now }
    requires few { length devices.now ≤ MOST_DEVICES }
{
    let (mut control, mut looker) = control_of::<J, R>(rt, alloc, opened, devices)?;
    assert_eq!(rt; look(&mut looker), Some((0, Verdict::NoVif)));
    assert!(rt; control.stage(2, &vif(0)));
    assert!(rt; control.stage(3, &vif(1)));
    let mut control = control.publish(rt);
    let note = control.publisher.note();
    assert!(rt; !looker.sees(&note) && !note.begins(&looker.seen()));
    looker.learn(note);
    assert_eq!(rt; look(&mut looker), Some((3, Verdict::Miss { vif: 0 })));
    assert!(rt; control.stage(4, &add_mfc()));
    assert_eq!(rt; look(&mut looker), Some((3, Verdict::Miss { vif: 0 })));
    let control = control.publish(rt);
    looker.learn(control.publisher.note());
    let forward = Verdict::Forward {
        entry: 4,
        input: Some(0),
        outs: Mask(0b10),
    };
    assert_eq!(rt; look(&mut looker), Some((4, forward)));
    let note = control.publisher.note();
    assert!(rt; looker.sees(&note) && looker.seen().begins(&note));
    let mut looker = look_inside(rt, looker, forward);
    control.end(rt);
    assert_eq!(rt; look(&mut looker), None);
    assert_eq!(rt; (looker.refusals(), looker.version()), (1, 4));
    Ok(())
}

/// One entering for two packets, of which the second has too low a TTL.
fn look_inside<J: PairName>(rt: &impl Abort, looker: Looker<J>, verdict: Verdict) -> Looker<J> {
    match looker.enter() {
        Err(looker) => {
            assert!(rt; false);
            looker
        }
        Ok(inside) => {
            let none = Verdict::Forward {
                entry: 4,
                input: Some(0),
                outs: Mask(0),
            };
            assert_eq!(rt; inside.version(), 4);
            assert_eq!(rt; inside.decide(1, SOURCE, GROUP, 2), verdict);
            assert_eq!(rt; inside.decide(1, SOURCE, GROUP, 1), none);
            inside.leave()
        }
    }
}

#[test]
fn looks_beside_publishing(rt: HostRuntime) -> Result<(), Fail> {
    on_threads::<Brand, _>(&rt, rt.alloc(), OpenedList::new(), &DEVICES)
}

fn on_threads<J: PairName + Send + Sync, R: Threads + Wait + Abort + Sync>(
    rt: &R,
    alloc: Global,
    opened: OpenedList,
    devices: &[Device],
) -> Result<(), Fail>
    requires named { opened ≡ J.list }
    requires start { J.start ≡ empty_tables 4 devices.now }
    requires few { length devices.now ≤ MOST_DEVICES }
{
    let (control, looker) = control_of::<J, R>(rt, alloc, opened, devices)?;
    let mut kept = Some(control);
    let lent = &mut kept;
    let (published, (mut looker, rise)) = thread::join(
        rt,
        move || -> bool { publish_many(rt, lent) },
        move || -> (Looker<J>, bool) { look_often(looker) },
    );
    let Some(control) = kept else {
        return Err(Fail::from("the control"));
    };
    assert!(rt; published && rise);
    looker.learn(control.publisher.note());
    let last = look(&mut looker);
    assert_eq!(rt; last, Some((MANY, Verdict::NoVif)));
    assert_eq!(rt; (looker.version(), looker.refusals()), (MANY, 0));
    control.end(rt);
    Ok(())
}

/// The changes 1 to `MANY`, each published by itself: whether all were. An entry comes by an odd
/// number, and goes again by an even one.
fn publish_many<J: PairName, R: Wait>(rt: &R, kept: &mut Option<Control<J>>) -> bool {
    let Some(mut control) = kept.take() else {
        return false;
    };
    let mut all = true;
    for number in 1..MANY + 1 {
        let request = if number % 2 == 0 {
            del_mfc()
        } else {
            add_mfc()
        };
        let staged = control.stage(number, &request);
        control = control.publish(rt);
        all = all && staged;
    }
    let before = mem::replace(kept, Some(control));
    let None = before else { unreachable!() };
    all
}

/// Whether the numbers of many looks never fall, and each look is given.
fn look_often<J: PairName>(looker: Looker<J>) -> (Looker<J>, bool) {
    let mut looker = looker;
    let mut rise = true;
    let mut last = 0;
    for _ in 0..LOOKS {
        let seen = look(&mut looker);
        let number = seen.map_or(0, |found| found.0);
        rise = rise && last <= number && seen.is_some();
        last = number;
    }
    (looker, rise)
}

ghost use Rattle.std.specs.Prelude.{◌≡◌, ◌≤◌, ◌++◌, [], ◌∷◌, OnOk, OnErr, IsErr};

use crate::drive;
use mr_base::{Addr, ControlFull, DaemonNo, Errno, FileName, List};
use mr_model::{CallError, Caller, Kind, Reply, Request, Told};
use mr_scenario::{Script, ScriptLine};
use smc_conf::{Conf, read};
use smc_core::Smc;
use smc_words::{write_address, write_number};
use std::alloc::{AllocError, Global};
use std::process::Abort;
use std::test::*;

const OFFICE: &[u8] = b"# office\n\
    phyint eth0 enable ttl-threshold 1\n\
    phyint eth1 enable\n\
    phyint eth2 enable\n\
    mroute from eth0 source 10.0.0.9 group 239.1.1.1 to eth1 eth2\n\
    mroute from eth2 group 239.2.0.0/16 to eth1\n";

const STARTED: &str = " init addvif 0 8 @1 addvif 1 8 @2 addvif 2 8 @3 \
    addmfc 10.0.0.9 239.1.1.1 0 1:1 2:1";

const LEARNED: &str = " addmfc 10.0.2.7 239.2.3.4 2 1:1";

const FILM: Told = Told {
    kind: Kind::NoCache,
    vif: 2,
    src: Addr(0x0A00_0207),
    dst: Addr(0xEF02_0304),
};

/// A call with its reply, else a receive with its report, else a tick.
#[derive(Clone, Copy, Debug)]
struct Done {
    asked: Option<(Request, Reply)>,
    told: Option<Option<Told>>,
    ms: u32,
}

/// A caller that refuses one of its calls, and gives a report so many times.
#[derive(Drop)]
struct Desk {
    left: u32,
    reports: u32,
    /// So many things are done before the call that is refused.
    refused: usize,
    done: Vec<Done>,
}

impl Desk {
    /// Notes this, with one entry less to come; without memory none is to come.
    fn note(&mut self, done: Done) -> Result<(), ControlFull>
        ensures ok { OnOk result (self.new.done.items ≡ self.old.done.items ++ done ∷ []) }
        ensures err { OnErr result (self.new.done.items ≡ self.old.done.items) }
        ensures falls { self.new.left ≤ self.old.left }
        ensures full { IsErr result → self.new.left ≡ 0 }
        ensures surely { self.old.left ≡ 0 → IsErr result }
    {
        if self.left == 0 {
            return Err(ControlFull);
        }
        if self.done.push(done).is_err() {
            self.left = 0;
            return Err(ControlFull);
        }
        self.left -= 1;
        Ok(())
    }

    fn reply(&self) -> Reply {
        if self.done.len() == self.refused {
            Reply::Refused(Errno::NotAvailable)
        } else {
            Reply::Good
        }
    }

    fn report(&self) -> Option<Told> {
        if self.reports == 0 { None } else { Some(FILM) }
    }
}

impl Caller for Desk {
    ghost use Rattle.std.specs.Prelude.{map};
    ghost use Rattle.std.specs.Option.{option_map_or};
    ghost use Rattle.mr_model.specs.Deeds.{Deed, Asked, Received, Ticked};

    ghost did = { λ s. map (λ d. option_map_or (λ a. Asked a.0 a.1) d.asked
        (option_map_or (λ t. Received t) d.told (Ticked d.ms))) s.done.items };

    ghost entries_left = { λ s. s.left };

    fn left(&self) -> u32 {
        self.left
    }

    fn call(&mut self, request: &Request) -> Result<Reply, CallError> {
        let reply = self.reply();
        match self.note(Done {
            asked: Some((*request, reply)),
            told: None,
            ms: 0,
        }) {
            Ok(()) => Ok(reply),
            Err(ControlFull) => Err(CallError::ControlFull),
        }
    }

    fn recv(&mut self) -> Result<Option<Told>, ControlFull> {
        let told = self.report();
        match self.note(Done {
            asked: None,
            told: Some(told),
            ms: 0,
        }) {
            Ok(()) => {
                self.reports = self.reports.saturating_sub(1);
                Ok(told)
            }
            Err(ControlFull) => Err(ControlFull),
        }
    }

    fn tick(&mut self, ms: u32) -> Result<(), ControlFull> {
        self.note(Done {
            asked: None,
            told: None,
            ms,
        })
    }
}

fn write_tick(out: &mut Vec<u8>, ms: u32) -> Result<(), AllocError> {
    out.extend_from_slice(b" tick ")?;
    write_number(out, ms)
}

/// A vif's threshold, where one is asked.
fn write_threshold(out: &mut Vec<u8>, vif: u32, threshold: u8) -> Result<(), AllocError> {
    if threshold > 0 {
        out.push(b' ')?;
        write_number(out, vif)?;
        out.push(b':')?;
        write_number(out, u32::from(threshold))?;
    }
    Ok(())
}

/// A request as a history writes it.
fn write_request(out: &mut Vec<u8>, request: Request) -> Result<(), AllocError> {
    match request {
        Request::Init => out.extend_from_slice(b" init")?,
        Request::Finish => out.extend_from_slice(b" done")?,
        Request::AddVif(vif) => {
            out.extend_from_slice(b" addvif ")?;
            write_number(out, u32::from(vif.vif))?;
            out.push(b' ')?;
            write_number(out, u32::from(vif.flags))?;
            out.extend_from_slice(b" @")?;
            write_number(out, vif.local)?;
        }
        Request::AddMfc(route) => {
            out.extend_from_slice(b" addmfc ")?;
            write_address(out, route.src)?;
            out.push(b' ')?;
            write_address(out, route.dst)?;
            out.push(b' ')?;
            write_number(out, u32::from(route.parent))?;
            let mut vif = 0u32;
            for threshold in route.ttls {
                write_threshold(out, vif, threshold)?;
                vif = vif.wrapping_add(1);
            }
        }
        _ => out.extend_from_slice(b" other")?,
    }
    Ok(())
}

/// What was done, each part behind a blank.
fn write_done(out: &mut Vec<u8>, done: &Done) -> Result<(), AllocError> {
    match (done.asked, done.told) {
        (Some((request, _)), _) => write_request(out, request),
        (None, Some(Some(_))) => out.extend_from_slice(b" film"),
        (None, Some(None)) => out.extend_from_slice(b" none"),
        (None, None) => write_tick(out, done.ms),
    }
}

fn written(alloc: Global, all: &[Done]) -> Result<Vec<u8>, AllocError> {
    let mut out = Vec::new(alloc);
    for done in all {
        write_done(&mut out, done)?;
    }
    Ok(out)
}

/// The devices eth0, eth1 and eth2.
fn devices(alloc: Global) -> Result<Vec<FileName>, AllocError> {
    let mut names = Vec::new(alloc);
    names.push(FileName::new("eth0"))?;
    names.push(FileName::new("eth1"))?;
    names.push(FileName::new("eth2"))?;
    Ok(names)
}

/// The configuration of an office.
fn office_conf(alloc: Global) -> Option<Vec<Conf>> {
    let mut confs = Vec::new(alloc);
    confs.push(read(alloc, OFFICE).ok()?).ok()?;
    Some(confs)
}

/// So many entries are left, and so many reports; the call behind so many deeds is refused.
fn desk_with(alloc: Global, left: u32, reports: u32, refused: usize) -> Desk {
    Desk {
        left,
        reports,
        refused,
        done: Vec::new(alloc),
    }
}

fn line(daemon: u32, script: Script) -> ScriptLine {
    ScriptLine {
        line: 1,
        daemon: DaemonNo(daemon),
        script,
    }
}

/// Plays the first daemon's lines among these on a machine for which no reply is to come.
fn drive_new<K: Caller>(smc: Smc, caller: &mut K, lines: &[ScriptLine]) -> Result<(), CallError> {
    let mut smc = smc;
    if smc.pending() > 0 {
        return Err(CallError::Memory);
    }
    drive(&mut smc, caller, DaemonNo(1), lines)
}

/// Plays the first daemon's lines among these on a new machine.
fn play_on(
    alloc: Global,
    names: Vec<FileName>,
    confs: Vec<Conf>,
    desk: &mut Desk,
    lines: &[ScriptLine],
) -> Result<(), CallError> {
    match Smc::new(alloc, names, confs) {
        Ok(smc) => drive_new(smc, desk, lines),
        Err(_) => Err(CallError::Memory),
    }
}

/// Plays them on the machine of an office.
fn play(alloc: Global, desk: &mut Desk, lines: &[ScriptLine]) -> Result<(), CallError> {
    let Ok(names) = devices(alloc) else {
        return Err(CallError::Memory);
    };
    let Some(confs) = office_conf(alloc) else {
        return Err(CallError::Memory);
    };
    play_on(alloc, names, confs, desk, lines)
}

/// Plays them on the machine of an office; what was done at the desk is this.
fn plays<R: AllocGlobal + Abort>(
    rt: &R,
    desk: &mut Desk,
    lines: &[ScriptLine],
    parts: &[&str],
) -> Result<(), CallError> {
    let played = play(rt.alloc(), desk, lines);
    let Ok(text) = written(rt.alloc(), desk.done.as_slice()) else {
        return Err(CallError::Memory);
    };
    let mut rest = text.as_slice();
    for part in parts {
        let behind = rest.strip_prefix(part.as_bytes());
        assert!(rt; behind.is_some(), "no {part}");
        rest = behind.unwrap_or_default();
    }
    assert_eq!(rt; rest.len(), 0);
    played
}

#[test]
fn office(rt: HostRuntime) {
    let mut desk = desk_with(rt.alloc(), 100, 1, usize::MAX);
    let lines = [line(1, Script::Start), line(1, Script::Poll(4))];
    let played = plays(
        &rt,
        &mut desk,
        &lines,
        &[STARTED, " film", LEARNED, " none"],
    );
    assert_eq!(rt; played, Ok(()));
    assert_eq!(rt; desk.left, 92);
}

#[test]
fn others_lines(rt: HostRuntime) {
    let mut desk = desk_with(rt.alloc(), 100, 0, usize::MAX);
    let lines = [
        line(2, Script::Start),
        line(1, Script::Tick(7)),
        line(2, Script::Recv),
    ];
    let played = plays(&rt, &mut desk, &lines, &[" tick 7"]);
    assert_eq!(rt; played, Ok(()));
}

#[test]
fn polls_end(rt: HostRuntime) {
    let mut desk = desk_with(rt.alloc(), 100, 3, usize::MAX);
    let lines = [
        line(1, Script::Start),
        line(1, Script::Poll(2)),
        line(1, Script::Tick(0)),
        line(1, Script::Poll(64)),
    ];
    let played = plays(
        &rt,
        &mut desk,
        &lines,
        &[
            STARTED, " film", LEARNED, " film", LEARNED, " tick 0", " film", LEARNED, " none",
        ],
    );
    assert_eq!(rt; played, Ok(()));
}

/// All requests of a start are made whatever is answered, and the machine runs.
#[test]
fn refused(rt: HostRuntime) -> Result<(), AllocError> {
    let mut desk = desk_with(rt.alloc(), 100, 0, 1);
    let words = List(Vec::from_slice(rt.alloc(), b"kill")?);
    let lines = [line(1, Script::Start), line(1, Script::Words(words))];
    let played = plays(&rt, &mut desk, &lines, &[STARTED, " done"]);
    assert_eq!(rt; played, Ok(()));
    Ok(())
}

#[test]
fn none_left(rt: HostRuntime) {
    let mut desk = desk_with(rt.alloc(), 7, 1, usize::MAX);
    let lines = [line(1, Script::Start), line(1, Script::Poll(4))];
    let played = plays(&rt, &mut desk, &lines, &[STARTED, " film", LEARNED]);
    assert_eq!(rt; played, Err(CallError::ControlFull));
    assert_eq!(rt; desk.left, 0);
}

use crate::Input::{Command, Upcall};
use crate::*;
use mr_base::{Addr, Errno, FileName};
use mr_model::{Kind, Reply, Request, Told};
use smc_conf::read;
use smc_words::{write_address, write_number};
use std::alloc::{AllocError, Global};
use std::process::Abort;
use std::test::*;

/// What comes, what the kernel answers to the requests that it makes (`ok` where nothing is said),
/// the requests as a history writes them, each behind a blank, and the text.
type Row<'a> = (Input<'a>, &'a [Reply], &'a str, &'a str);

const OFFICE: &[u8] = b"# office\n\
    phyint eth0 enable ttl-threshold 1\n\
    phyint eth1 enable\n\
    phyint eth2 enable\n\
    mroute from eth0 source 10.0.0.9 group 239.1.1.1 to eth1 eth2\n\
    mroute from eth2 group 239.2.0.0/16 to eth1\n";

/// Interfaces that are no devices or not enabled, rules and groups of such, and two rules for one
/// packet.
const CITY: &[u8] = b"phyint eth0 enable ttl-threshold 3\n\
    phyint eth9 enable\n\
    phyint eth1 disable\n\
    phyint eth2 enable\n\
    mgroup from eth1 group 239.1.1.1\n\
    mgroup from eth0 source 10.0.0.9 group 239.0.0.0/8\n\
    mroute from eth0 source 10.0.0.9 group 239.1.1.1 to eth2\n\
    mroute from eth1 source 10.0.1.9 group 239.0.0.1 to eth0\n\
    mroute from eth0 group 239.2.0.0/16 to eth2\n\
    mroute from eth0 group 239.0.0.0/8 to eth0\n";

const LATER: &[u8] = b"phyint eth1 enable\n\
    phyint eth0 enable\n\
    mgroup from eth0 group 239.4.4.4\n\
    mroute from eth1 source 10.0.1.9 group 239.1.1.1 to eth0\n";

const NO_REPLY: &[Reply] = &[];

/// A packet of 10.0.0.7 to 239.2.3.4 came in on vif 0 and had no route.
const FILM: Told = Told {
    kind: Kind::NoCache,
    vif: 0,
    src: Addr(0x0A00_0007),
    dst: Addr(0xEF02_0304),
};

fn film_as(kind: Kind) -> Told {
    Told { kind, ..FILM }
}

fn film_on(vif: u8) -> Told {
    Told { vif, ..FILM }
}

fn film_to(dst: u32) -> Told {
    Told {
        dst: Addr(dst),
        ..FILM
    }
}

/// The devices eth0, eth1 and eth2.
fn devices(alloc: Global) -> Result<Vec<FileName>, AllocError> {
    let mut names = Vec::new(alloc);
    names.push(FileName::new("eth0"))?;
    names.push(FileName::new("eth1"))?;
    names.push(FileName::new("eth2"))?;
    Ok(names)
}

fn machine(alloc: Global, texts: &[&[u8]]) -> Option<Smc> {
    let names = devices(alloc).ok()?;
    let mut confs = Vec::new(alloc);
    for text in texts {
        confs.push(read(alloc, text).ok()?).ok()?;
    }
    Smc::new(alloc, names, confs).ok()
}

/// A vif's threshold, where one is asked.
fn write_threshold(out: &mut Vec<u8>, vif: u32, threshold: u8) -> Result<(), AllocError> {
    if threshold > 0 {
        out.push(b' ')?;
        write_number(out, vif)?;
        out.push(b':')?;
        write_number(out, u32::from(threshold))?;
    }
    Ok(())
}

fn write_key(out: &mut Vec<u8>, src: Addr, dst: Addr, parent: u16) -> Result<(), AllocError> {
    write_address(out, src)?;
    out.push(b' ')?;
    write_address(out, dst)?;
    out.push(b' ')?;
    write_number(out, u32::from(parent))
}

/// A request as a history writes it.
fn write_request(out: &mut Vec<u8>, request: Request) -> Result<(), AllocError> {
    match request {
        Request::Init => out.extend_from_slice(b" init")?,
        Request::Finish => out.extend_from_slice(b" done")?,
        Request::AddVif(vif) => {
            out.extend_from_slice(b" addvif ")?;
            write_number(out, u32::from(vif.vif))?;
            out.push(b' ')?;
            write_number(out, u32::from(vif.flags))?;
            out.extend_from_slice(b" @")?;
            write_number(out, vif.local)?;
        }
        Request::DelVif(vif) => {
            out.extend_from_slice(b" delvif ")?;
            write_number(out, u32::from(vif))?;
        }
        Request::AddMfc(route) => {
            out.extend_from_slice(b" addmfc ")?;
            write_key(out, route.src, route.dst, route.parent)?;
            let mut vif = 0u32;
            for threshold in route.ttls {
                write_threshold(out, vif, threshold)?;
                vif = vif.wrapping_add(1);
            }
        }
        Request::DelMfc(key) => {
            out.extend_from_slice(b" delmfc ")?;
            write_key(out, key.src, key.dst, key.parent)?;
        }
        _ => out.extend_from_slice(b" other")?,
    }
    Ok(())
}

fn written(alloc: Global, requests: &[Request]) -> Result<Vec<u8>, AllocError> {
    let mut out = Vec::new(alloc);
    for request in requests {
        write_request(&mut out, *request)?;
    }
    Ok(out)
}

/// Gives an input that is no reply, while no reply is waited for.
fn given<R: Abort>(rt: &R, smc: &mut Smc, input: Input<'_>) -> Option<Output> {
    assert_eq!(rt; smc.pending(), 0);
    match input {
        Command(words) => smc.step(Command(words)).ok(),
        Upcall(told) => smc.step(Upcall(told)).ok(),
        Input::Reply(_) => None,
    }
}

/// Gives the next reply, and puts what is said behind the text.
fn replied<R: Abort>(rt: &R, smc: &mut Smc, reply: Reply, text: &mut Vec<u8>) {
    assert!(rt; smc.pending() > 0);
    let said = smc.step(Input::Reply(reply)).ok();
    assert!(rt; said.is_some());
    if let Some(output) = said {
        assert!(rt; output.requests.is_empty());
        assert!(rt; text.extend_from_slice(output.text.as_slice()).is_ok());
    }
}

/// Plays a row: all its requests are answered.
fn play<R: AllocGlobal + Abort>(rt: &R, smc: &mut Smc, row: Row<'_>) {
    let (input, answers, requests, text) = row;
    let stepped = given(rt, smc, input);
    assert!(rt; stepped.is_some());
    if let Some(output) = stepped {
        let asked = written(rt.alloc(), output.requests.as_slice()).ok();
        assert_eq!(rt; asked.as_deref(), Some(requests.as_bytes()));
        let mut said = output.text;
        for place in 0..output.requests.as_slice().len() {
            let reply = answers.get(place).copied().unwrap_or(Reply::Good);
            replied(rt, smc, reply, &mut said);
        }
        assert_eq!(rt; said.as_slice(), text.as_bytes());
    }
}

/// Plays rows on a new machine over these configurations.
fn play_all<R: AllocGlobal + Abort>(rt: &R, confs: &[&[u8]], rows: &[Row<'_>]) {
    let made = machine(rt.alloc(), confs);
    assert!(rt; made.is_some());
    if let Some(mut smc) = made {
        for row in rows {
            play(rt, &mut smc, *row);
        }
    }
}

#[test]
fn office(rt: HostRuntime) {
    let film = Told {
        src: Addr(0x0A00_0207),
        vif: 2,
        ..FILM
    };
    play_all(
        &rt,
        &[OFFICE],
        &[
            (
                Command(b"start"),
                NO_REPLY,
                " init addvif 0 8 @1 addvif 1 8 @2 addvif 2 8 @3 \
                 addmfc 10.0.0.9 239.1.1.1 0 1:1 2:1",
                "ok\n",
            ),
            (
                Upcall(film),
                NO_REPLY,
                " addmfc 10.0.2.7 239.2.3.4 2 1:1",
                "",
            ),
        ],
    );
}

#[test]
fn session(rt: HostRuntime) {
    let conf = b"phyint eth0 enable\nphyint eth1 enable\n".as_slice();
    play_all(
        &rt,
        &[conf],
        &[
            (
                Command(b"start"),
                NO_REPLY,
                " init addvif 0 8 @1 addvif 1 8 @2",
                "ok\n",
            ),
            (
                Command(b"add eth0 10.0.0.9 239.1.1.1 eth1"),
                NO_REPLY,
                " addmfc 10.0.0.9 239.1.1.1 0 1:1",
                "ok\n",
            ),
            (
                Command(b"show"),
                NO_REPLY,
                "",
                "route eth0 10.0.0.9 239.1.1.1 eth1\nok\n",
            ),
            (
                Command(b"remove eth0 239.9.9.9"),
                NO_REPLY,
                "",
                "error no such route\n",
            ),
            (Command(b"kill"), NO_REPLY, " done", "ok\n"),
        ],
    );
}

const CITY_STARTS: Row<'_> = (
    Command(b"start"),
    NO_REPLY,
    " init addvif 0 8 @1 addvif 1 8 @3 addmfc 10.0.0.9 239.1.1.1 0 1:1",
    "ok\n",
);

#[test]
fn starting(rt: HostRuntime) {
    let two_refusals: &[Reply] = &[
        Reply::Good,
        Reply::Refused(Errno::NotAvailable),
        Reply::Refused(Errno::InUse),
    ];
    let access: &[Reply] = &[Reply::Refused(Errno::Access)];
    let (_, _, starts, _) = CITY_STARTS;
    play_all(
        &rt,
        &[CITY, LATER],
        &[
            (Command(b"show"), NO_REPLY, "", "error not running\n"),
            (Command(b""), NO_REPLY, "", "error not running\n"),
            (Command(b"start now"), NO_REPLY, "", "error usage\n"),
            (Command(b"\tstart "), two_refusals, starts, "error 99\n"),
            (Command(b"start"), NO_REPLY, "", "error running\n"),
            (Command(b"start now"), NO_REPLY, "", "error running\n"),
            (Command(b" \t"), NO_REPLY, "", "error usage\n"),
            (Command(b"stop"), NO_REPLY, "", "error usage\n"),
            (Command(b"poll"), NO_REPLY, "", "ok\n"),
            (Command(b"poll 4"), NO_REPLY, "", "error usage\n"),
            (Command(b"kill it"), NO_REPLY, "", "error usage\n"),
            (Command(b"kill"), access, " done", "error 13\n"),
            (Command(b"kill"), NO_REPLY, "", "error not running\n"),
            (Command(b"start"), NO_REPLY, starts, "ok\n"),
        ],
    );
}

#[test]
fn reloading(rt: HostRuntime) {
    play_all(
        &rt,
        &[CITY, LATER],
        &[
            CITY_STARTS,
            (
                Upcall(FILM),
                NO_REPLY,
                " addmfc 10.0.0.7 239.2.3.4 0 1:1",
                "",
            ),
            (Command(b"reload all"), NO_REPLY, "", "error usage\n"),
            (
                Command(b"reload"),
                NO_REPLY,
                " delmfc 10.0.0.9 239.1.1.1 0 delmfc 10.0.0.7 239.2.3.4 0 delvif 0 delvif 1 \
             addvif 0 8 @2 addvif 1 8 @1 addmfc 10.0.1.9 239.1.1.1 0 1:1",
                "ok\n",
            ),
            (
                Command(b"show routes"),
                NO_REPLY,
                "",
                "route eth1 10.0.1.9 239.1.1.1 eth0\nok\n",
            ),
            (
                Command(b"show groups"),
                NO_REPLY,
                "",
                "group eth0 * 239.4.4.4\nok\n",
            ),
            (Command(b"kill"), NO_REPLY, " done", "ok\n"),
            (
                Command(b"start"),
                NO_REPLY,
                " init addvif 0 8 @2 addvif 1 8 @1 addmfc 10.0.1.9 239.1.1.1 0 1:1",
                "ok\n",
            ),
            (
                Command(b"reload"),
                NO_REPLY,
                " delmfc 10.0.1.9 239.1.1.1 0 delvif 0 delvif 1 \
             addvif 0 8 @2 addvif 1 8 @1 addmfc 10.0.1.9 239.1.1.1 0 1:1",
                "ok\n",
            ),
        ],
    );
}

#[test]
fn reports(rt: HostRuntime) {
    let no_room: &[Reply] = &[Reply::Refused(Errno::NoBuffers)];
    let no_entry: &[Reply] = &[Reply::Refused(Errno::NoEntry)];
    let other = film_to(0xEF03_0303);
    let news = Told {
        src: Addr(0x0A00_0009),
        ..film_to(0xEF01_0101)
    };
    play_all(
        &rt,
        &[CITY],
        &[
            CITY_STARTS,
            (Upcall(film_as(Kind::WrongVif)), NO_REPLY, "", ""),
            (Upcall(film_as(Kind::WholePkt)), NO_REPLY, "", ""),
            (Upcall(film_on(1)), NO_REPLY, "", ""),
            (Upcall(film_on(2)), NO_REPLY, "", ""),
            (Upcall(film_to(0xE801_0101)), NO_REPLY, "", ""),
            (
                Upcall(FILM),
                NO_REPLY,
                " addmfc 10.0.0.7 239.2.3.4 0 1:1",
                "",
            ),
            (Upcall(other), NO_REPLY, " addmfc 10.0.0.7 239.3.3.3 0", ""),
            (
                Upcall(FILM),
                no_room,
                " addmfc 10.0.0.7 239.2.3.4 0 1:1",
                "",
            ),
            (Upcall(news), NO_REPLY, " addmfc 10.0.0.9 239.1.1.1 0", ""),
            (
                Command(b"show"),
                NO_REPLY,
                "",
                "route eth0 10.0.0.9 239.1.1.1 eth2\n\
             route eth1 10.0.1.9 239.0.0.1 eth0\n\
             route eth0 * 239.2.0.0/16 eth2\n\
             route eth0 * 239.0.0.0/8 eth0\n\
             learned eth0 10.0.0.7 239.2.3.4\n\
             learned eth0 10.0.0.7 239.3.3.3\n\
             learned eth0 10.0.0.9 239.1.1.1\n\
             ok\n",
            ),
            (Command(b"flush it"), NO_REPLY, "", "error usage\n"),
            (
                Command(b"remove eth0 10.0.0.9 239.1.1.1"),
                NO_REPLY,
                " delmfc 10.0.0.9 239.1.1.1 0",
                "ok\n",
            ),
            (
                Command(b"remove eth0 239.2.255.255/16"),
                NO_REPLY,
                " delmfc 10.0.0.7 239.2.3.4 0",
                "ok\n",
            ),
            (
                Command(b"flush"),
                no_entry,
                " delmfc 10.0.0.7 239.3.3.3 0 delmfc 10.0.0.9 239.1.1.1 0",
                "error 2\n",
            ),
            (Command(b"flush"), NO_REPLY, "", "ok\n"),
        ],
    );
}

#[test]
fn rules(rt: HostRuntime) {
    let invalid: &[Reply] = &[Reply::Refused(Errno::Invalid)];
    play_all(
        &rt,
        &[CITY],
        &[
            CITY_STARTS,
            (
                Command(b"add eth0 239.1.1.1"),
                NO_REPLY,
                "",
                "error usage\n",
            ),
            (
                Command(b"add eth0 10.0.0.9 239.1.1.1"),
                NO_REPLY,
                "",
                "error usage\n",
            ),
            (
                Command(b"add eth1 10.0.0 239.1.1.1 eth9"),
                NO_REPLY,
                "",
                "error address\n",
            ),
            (
                Command(b"add eth0 10.0.0.9/33 239.1.1.1 eth2"),
                NO_REPLY,
                "",
                "error address\n",
            ),
            (
                Command(b"add eth0 10.1.1.1 eth2"),
                NO_REPLY,
                "",
                "error address\n",
            ),
            (
                Command(b"add eth1 239.1.1.1 eth0"),
                NO_REPLY,
                "",
                "error interface\n",
            ),
            (
                Command(b"add eth0 239.1.1.1 eth2 eth9"),
                NO_REPLY,
                "",
                "error interface\n",
            ),
            (
                Command(b"add eth2 10.0.0.9/8 224.0.0.1/4 eth0 eth2"),
                NO_REPLY,
                "",
                "ok\n",
            ),
            (
                Command(b"add eth2 0.0.0.0 239.1.1.1 eth0 eth2"),
                invalid,
                " addmfc 0.0.0.0 239.1.1.1 1 0:3",
                "error 22\n",
            ),
            (
                Command(b"add eth0 10.0.0.9 239.1.1.1 eth0"),
                NO_REPLY,
                " addmfc 10.0.0.9 239.1.1.1 0",
                "ok\n",
            ),
            (Command(b"remove eth0"), NO_REPLY, "", "error usage\n"),
            (
                Command(b"remove eth0 239.2.0.0/16 eth2"),
                NO_REPLY,
                "",
                "error usage\n",
            ),
            (
                Command(b"remove eth1 239.1.1"),
                NO_REPLY,
                "",
                "error address\n",
            ),
            (
                Command(b"remove eth1 10.0.1.9 239.0.0.1"),
                NO_REPLY,
                "",
                "error interface\n",
            ),
            (
                Command(b"remove eth0 239.2.0.0/15"),
                NO_REPLY,
                "",
                "error no such route\n",
            ),
            (Command(b"remove eth0 239.2.0.0/16"), NO_REPLY, "", "ok\n"),
            (
                Command(b"show\troutes "),
                NO_REPLY,
                "",
                "route eth0 10.0.0.9 239.1.1.1 eth0\n\
             route eth1 10.0.1.9 239.0.0.1 eth0\n\
             route eth0 * 239.0.0.0/8 eth0\n\
             route eth2 10.0.0.0/8 224.0.0.0/4 eth0,eth2\n\
             route eth2 0.0.0.0 239.1.1.1 eth0,eth2\n\
             ok\n",
            ),
        ],
    );
}

#[test]
fn groups(rt: HostRuntime) {
    play_all(
        &rt,
        &[CITY],
        &[
            CITY_STARTS,
            (Command(b"show all"), NO_REPLY, "", "error usage\n"),
            (
                Command(b"show routes groups"),
                NO_REPLY,
                "",
                "error usage\n",
            ),
            (
                Command(b"show interfaces"),
                NO_REPLY,
                "",
                "0 eth0 3\n1 eth2 1\nok\n",
            ),
            (Command(b"join eth2"), NO_REPLY, "", "error usage\n"),
            (
                Command(b"join eth2 239.9.9.9 eth0"),
                NO_REPLY,
                "",
                "error usage\n",
            ),
            (
                Command(b"join eth2 10.0.0.9 10.9.9.9"),
                NO_REPLY,
                "",
                "error address\n",
            ),
            (
                Command(b"join eth1 239.1.1.1"),
                NO_REPLY,
                "",
                "error interface\n",
            ),
            (
                Command(b"join eth2 10.0.0.9 239.9.9.9"),
                NO_REPLY,
                "",
                "ok\n",
            ),
            (
                Command(b"join eth0 10.0.0.9 239.0.0.1/8"),
                NO_REPLY,
                "",
                "ok\n",
            ),
            (
                Command(b"show groups"),
                NO_REPLY,
                "",
                "group eth1 * 239.1.1.1\n\
             group eth0 10.0.0.9 239.0.0.0/8\n\
             group eth2 10.0.0.9 239.9.9.9\n\
             ok\n",
            ),
            (
                Command(b"leave eth0 239.0.0.0/8"),
                NO_REPLY,
                "",
                "error no such group\n",
            ),
            (
                Command(b"leave eth0 10.0.0.9 239.0.0.0/8"),
                NO_REPLY,
                "",
                "ok\n",
            ),
            (
                Command(b"show groups"),
                NO_REPLY,
                "",
                "group eth1 * 239.1.1.1\n\
             group eth2 10.0.0.9 239.9.9.9\n\
             ok\n",
            ),
        ],
    );
}

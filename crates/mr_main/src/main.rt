//! The program: `replay SCENARIO` runs the scenario of that file, prints its history and writes an
//! egress trace for each device; `gen SEED LANES PACKETS` runs a scenario that it makes from a
//! seed, and prints what its packets come to.
//!
//! It ends with the number of the run's status, and where that is not 0 it prints one line on
//! standard error.
#![tactic(auto)]

mod bad_conf;
mod explain;
mod folder;
mod form;
mod shown;
mod standard;
#[cfg(test)]
mod tests;

use crate::explain::explain;
use crate::folder::Folder;
use crate::standard::StandardOutput;
use mr_base::{ListClock, MemDoor, OpenGate};
use mr_replay::{Status, run};
use std::env::Env;
use std::process::ExitCode;
use std::rt::Files;
use std::sync::Wait;
use std::thread::Threads;
use std::{env, io};

/// The words after the program's name. One that is no UTF-8 is an error of the kind InvalidData.
fn words(rt: &(impl Env + AllocGlobal)) -> io::Result<Vec<String>> {
    let mut words = Vec::new(rt.alloc());
    for word in env::args(rt)?.skip(1) {
        words.push(word)?;
    }
    Ok(words)
}

/// Runs the words over the folder in which the program was called. The door has no links, and the
/// clock stands still.
fn run_here<R: Files + AllocGlobal + Print + Wait + Threads + Sync>(
    rt: &R,
    words: &[String],
) -> io::Result<Status> {
    let alloc = rt.alloc();
    let mut folder = Folder::new(rt);
    let mut out = StandardOutput::new(rt);
    let Ok(mut door) = MemDoor::with(alloc, Vec::new(alloc), Vec::new(alloc)) else {
        return Ok(Status::Memory);
    };
    let mut clock = ListClock::with(vec![in alloc; 0u64]?);
    Ok(run(
        rt,
        alloc,
        words,
        &mut folder,
        &mut out,
        &mut door,
        &mut clock,
        &OpenGate,
    ))
}

/// The status of a run that could not begin: words that are no text are no form, and else memory
/// ran out.
fn status_of(e: &io::Error) -> Status {
    if e.kind() == io::ErrorKind::InvalidData {
        Status::Usage
    } else {
        Status::Memory
    }
}

/// Runs the words and tells what their status means. What cannot be told changes no status.
fn run_and_tell<R: Files + AllocGlobal + Print + Eprint + Wait + Threads + Sync>(
    rt: &R,
    words: &[String],
) -> Status {
    let status = match run_here(rt, words) {
        Ok(status) => status,
        Err(e) => status_of(&e),
    };
    let _ = explain(rt, words, &status);
    status
}

fn main(rt: HostRuntime) -> ExitCode {
    let status = match words(&rt) {
        Ok(words) => run_and_tell(&rt, words.as_slice()),
        Err(e) => {
            let status = status_of(&e);
            let _ = explain(&rt, &[], &status);
            status
        }
    };
    ExitCode::from(status.number())
}

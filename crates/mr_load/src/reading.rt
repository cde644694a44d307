//! The files that a scenario names are read from a store, each once, in the order of their first
//! naming.

ghost use Rattle.std.specs.Prelude.{◌≡◌, ◌≤◌, ◌++◌, false, true, length, IfErr, IfOk, OnOk};
ghost use Rattle.std.specs.Prelude.{bytes_eq};
ghost use Rattle.std.specs.List.{AllByRecursion};
ghost use Rattle.indexmap.specs.IndexMap.{insert_entry};
ghost use Rattle.mr_load.specs.Faults.{is_fault};
ghost use Rattle.mr_load.specs.Kept.{AreBytesOf, confs_with, traces_with};
ghost use Rattle.mr_load.specs.Loads.{Gives};
ghost use Rattle.mr_load.specs.Reading.{Asks, HasPut, IsStop, IsUnread, ReadsAll, Stops, read_if};
ghost use Rattle.mr_load.specs.Refusals.{accepted_trace, after_bytes, after_lines, as_named};
ghost use Rattle.mr_pcap.specs.Traces.{capture_of};

use crate::named_file::NamedFile;
use crate::naming::{Files, Use};
use crate::status::{Status, TraceCause};
use crate::totals::{Totals, with_file};
use indexmap::IndexMap;
use mr_base::{FileName, List, ReadError, Store};
use mr_pcap::{PcapError, Trace};
use smc_conf::ConfError;
use std::alloc::Global;

/// The traces that were read, by the names of their files.
pub(crate) type Traces = IndexMap<NamedFile, Trace>;

/// The bytes of the configurations that were read, by the names of their files.
pub(crate) type Confs = IndexMap<NamedFile, List<u8>>;

/// What was read so far.
#[derive(Debug, Drop)]
pub(crate) struct Reading {
    pub totals: Totals,
    pub confs: Confs,
    pub traces: Traces,
}

/// The bytes of a file that is named. Those of the scenario itself are not read again.
fn read_bytes<S: Store>(
    alloc: Global,
    file: &str,
    own: &[u8],
    name: &str,
    store: &mut S,
) -> Result<Vec<u8>, Status>
    requires named { 1 ≤ length name.now }
    requires fits { length name.now ≤ 255 }
    ensures bytes { IfOk result (λ v. AreBytesOf (bytes_eq name.now file.now)
        (S.told store.old) own.now name.now v.items) }
    ensures refusal { IfErr result (IsUnread (bytes_eq name.now file.now) name.now) }
    ensures calls { S.calls store.new ≡ S.calls store.old
        ++ read_if (bytes_eq name.now file.now) name.now (is_fault result) }
    ensures outside { Asks result (S.last store.new) (S.faults store.old) (S.faults store.new)
        (S.told store.old) (S.told store.new) }
{
    if name == file {
        return match Vec::from_slice(alloc, own) {
            Ok(copy) => Ok(copy),
            Err(_) => Err(Status::Memory),
        };
    }
    match store.read(alloc, name) {
        Ok(bytes) => Ok(bytes),
        Err(ReadError::Failed) => Err(Status::StoreFault {
            file: FileName::new(name),
        }),
        Err(ReadError::Memory) => Err(Status::Memory),
    }
}

/// Whether the bytes of a file are a configuration.
fn test_conf(alloc: Global, name: &str, bytes: &[u8]) -> Result<(), Status>
    requires { length name.now ≤ 255 }
    ensures tested { Gives (λ _. bytes.now) result (as_named true name.now bytes.now) }
    ensures no_fault { is_fault result ≡ false }
{
    match smc_conf::read(alloc, bytes) {
        Ok(_conf) => Ok(()),
        Err(ConfError::Bad { line, kind, text }) => Err(Status::Conf {
            file: FileName::new(name),
            line,
            kind,
            text,
        }),
        Err(ConfError::Memory) => Err(Status::Memory),
    }
}

/// Keeps the bytes of a configuration: each machine's configurations are read from them once more,
/// since a configuration has no copy.
fn keep_conf(alloc: Global, name: &str, bytes: &[u8], confs: &mut Confs) -> Result<(), Status>
    requires { length name.now ≤ 255 }
    ensures kept { OnOk result (confs.new.entries
        ≡ insert_entry bytes_eq confs.old.entries name.now bytes.now) }
    ensures tested { Gives (λ _. bytes.now) result (as_named true name.now bytes.now) }
    ensures no_fault { is_fault result ≡ false }
{
    match test_conf(alloc, name, bytes) {
        Ok(()) => {}
        Err(status) => return Err(status),
    }
    let Ok(copy) = Vec::from_slice(alloc, bytes) else {
        return Err(Status::Memory);
    };
    match confs.insert(NamedFile::new(name), List(copy)) {
        Ok(_) => Ok(()),
        Err(_) => Err(Status::Memory),
    }
}

/// A file that a daemon names is a configuration, and is kept.
fn take_conf(
    alloc: Global,
    name: &str,
    conf: bool,
    bytes: &[u8],
    confs: &mut Confs,
) -> Result<(), Status>
    requires { length name.now ≤ 255 }
    ensures kept { OnOk result (confs.new.entries
        ≡ confs_with conf confs.old.entries name.now bytes.now) }
    ensures tested { Gives (λ _. bytes.now) result (as_named conf name.now bytes.now) }
    ensures no_fault { is_fault result ≡ false }
{
    if conf {
        keep_conf(alloc, name, bytes, confs)
    } else {
        Ok(())
    }
}

/// The trace that the bytes of a file are.
fn accepted(alloc: Global, name: &str, bytes: Vec<u8>) -> Result<Trace, Status>
    requires { length name.now ≤ 255 }
    ensures trace { Gives (λ t. t) result (accepted_trace name.now (capture_of bytes.items)) }
    ensures no_fault { is_fault result ≡ false }
{
    let cause = match mr_pcap::read(alloc, bytes) {
        Ok(trace) => return Ok(trace),
        Err(PcapError::CutHeader) => TraceCause::CutHeader,
        Err(PcapError::Magic) => TraceCause::Magic,
        Err(PcapError::LinkType) => TraceCause::LinkType,
        Err(PcapError::CutRecord(number)) => TraceCause::CutRecord(number),
        Err(PcapError::Memory) => return Err(Status::Memory),
    };
    Err(Status::Trace {
        file: FileName::new(name),
        cause,
    })
}

/// Keeps the trace that the bytes of a file are, which so many lines name.
fn keep_trace(
    alloc: Global,
    name: &str,
    lines: u64,
    bytes: Vec<u8>,
    totals: &mut Totals,
    traces: &mut Traces,
) -> Result<(), Status>
    requires fits { length name.now ≤ 255 }
    requires named { 1 ≤ lines }
    ensures kept { OnOk result (traces.new.entries
        ≡ traces_with lines traces.old.entries name.now (capture_of bytes.items)) }
    ensures after { Gives (λ _. totals.new) result
        (after_lines totals.old name.now lines bytes.items) }
    ensures no_fault { is_fault result ≡ false }
{
    let length = bytes.as_slice().len() as u64;
    let trace = match accepted(alloc, name, bytes) {
        Ok(trace) => trace,
        Err(status) => return Err(status),
    };
    let Some(after) = with_file(*totals, lines, trace.len() as u64, length) else {
        return Err(Status::Trace {
            file: FileName::new(name),
            cause: TraceCause::TooMany,
        });
    };
    match traces.insert(NamedFile::new(name), trace) {
        Ok(_) => {
            *totals = after;
            Ok(())
        }
        Err(_) => Err(Status::Memory),
    }
}

/// A file that lines name is a trace, and is kept.
fn take_trace(
    alloc: Global,
    name: &str,
    lines: u64,
    bytes: Vec<u8>,
    totals: &mut Totals,
    traces: &mut Traces,
) -> Result<(), Status>
    requires { length name.now ≤ 255 }
    ensures kept { OnOk result (traces.new.entries
        ≡ traces_with lines traces.old.entries name.now (capture_of bytes.items)) }
    ensures after { Gives (λ _. totals.new) result
        (after_lines totals.old name.now lines bytes.items) }
    ensures no_fault { is_fault result ≡ false }
{
    if lines == 0 {
        Ok(())
    } else {
        keep_trace(alloc, name, lines, bytes, totals, traces)
    }
}

/// A file of these bytes is what it is named as: a configuration first, and then a trace.
fn take_file(
    alloc: Global,
    name: &str,
    used: Use,
    bytes: Vec<u8>,
    reading: &mut Reading,
) -> Result<(), Status>
    requires { length name.now ≤ 255 }
    ensures confs { OnOk result (reading.new.confs.entries
        ≡ confs_with used.conf reading.old.confs.entries name.now bytes.items) }
    ensures traces { OnOk result (reading.new.traces.entries ≡ traces_with used.lines
        reading.old.traces.entries name.now (capture_of bytes.items)) }
    ensures after { Gives (λ _. reading.new.totals) result
        (after_bytes reading.old.totals (name.now, used) bytes.items) }
    ensures no_fault { is_fault result ≡ false }
{
    match take_conf(alloc, name, used.conf, bytes.as_slice(), &mut reading.confs) {
        Ok(()) => {}
        Err(status) => return Err(status),
    }
    let Reading { totals, traces, .. } = reading;
    take_trace(alloc, name, used.lines, bytes, totals, traces)
}

/// Reads one file more.
fn read_file<S: Store>(
    alloc: Global,
    file: &str,
    own: &[u8],
    name: &str,
    used: Use,
    reading: &mut Reading,
    store: &mut S,
) -> Result<(), Status>
    requires named { 1 ≤ length name.now }
    requires fits { length name.now ≤ 255 }
    ensures put { OnOk result (HasPut (S.told store.old) file.now own.now (name.now, used)
        reading.old reading.new) }
    ensures refusal { IfErr result
        (IsStop (S.told store.old) file.now own.now reading.old.totals (name.now, used)) }
    ensures calls { S.calls store.new ≡ S.calls store.old
        ++ read_if (bytes_eq name.now file.now) name.now (is_fault result) }
    ensures outside { Asks result (S.last store.new) (S.faults store.old) (S.faults store.new)
        (S.told store.old) (S.told store.new) }
{
    let bytes = read_bytes(alloc, file, own, name, store)?;
    take_file(alloc, name, used, bytes, reading)
}

/// Reads the files that are named, behind these totals.
pub(crate) fn read_files<S: Store>(
    alloc: Global,
    file: &str,
    own: &[u8],
    files: &Files,
    totals: Totals,
    store: &mut S,
) -> Result<Reading, Status>
    requires named { AllByRecursion (λ n. 1 ≤ length n.0) files.now.entries }
    ensures all { IfOk result (λ r. ReadsAll (S.told store.old) file.now own.now totals
        files.now.entries r (S.calls store.old) (S.calls store.new)) }
    ensures stops { IfErr result (λ s. Stops (S.told store.old) file.now own.now totals
        files.now.entries s (S.calls store.old) (S.calls store.new)) }
    ensures outside { Asks result (S.last store.new) (S.faults store.old) (S.faults store.new)
        (S.told store.old) (S.told store.new) }
{
    let mut reading = Reading {
        totals,
        confs: IndexMap::new(alloc),
        traces: IndexMap::new(alloc),
    };
    for i in 0..files.len() {
        let Some((name, used)) = files.get_index(i) else {
            unreachable!()
        };
        match read_file(alloc, file, own, name.as_str(), *used, &mut reading, store) {
            Ok(()) => {}
            Err(status) => return Err(status),
        }
    }
    Ok(reading)
}

//! The files that a scenario names: configurations by its daemons, and traces by its lines.

ghost use Rattle.std.specs.Prelude.{◌≡◌, ◌+◌, IfOk, OnOk, bytes_eq, fold};
ghost use Rattle.std.specs.Map.{lookup};
ghost use Rattle.mr_load.specs.Naming.{as_conf, as_trace, named_in, named_on, use_of};
ghost use Rattle.mr_load.specs.Naming.{with_given, with_kind, with_naming};
ghost use Rattle.mr_scenario.specs.Fits.{packets_in, packets_of};
ghost use Rattle.std.specs.List.{sum_by};

use crate::named_file::NamedFile;
use crate::parts::{daemons_of, items_of, phases_of};
use indexmap::IndexMap;
use mr_base::FileName;
use mr_scenario::{BoxedName, DaemonKind, Given, Item, Phase, Scenario};
use std::alloc::{AllocError, Global};

/// What a file is named as.
#[derive(Clone, Copy, Debug)]
pub(crate) struct Use {
    /// Whether a daemon names it as a configuration.
    pub conf: bool,
    /// How many lines name it as a trace.
    pub lines: u64,
}

/// The files that a scenario names, in the order of their first naming.
pub(crate) type Files = IndexMap<NamedFile, Use>;

/// What a scenario names, and how many of its lines have the bytes of a packet.
#[derive(Debug, Drop)]
pub(crate) struct Named {
    pub files: Files,
    pub packets: u64,
}

/// One more. So many lines as 64 bits cannot count want more memory than there is.
fn one_more(n: u64) -> Result<u64, AllocError>
    ensures { IfOk result (λ m. m ≡ n + 1) }
{
    match n.checked_add(1) {
        Some(m) => Ok(m),
        None => Err(AllocError),
    }
}

/// What a file is named as so far.
fn use_so_far(files: &Files, file: &NamedFile) -> Use
    ensures { result ≡ use_of (lookup (bytes_eq file.now) files.now.entries) }
{
    match files.get(file) {
        Some(used) => *used,
        None => Use {
            conf: false,
            lines: 0,
        },
    }
}

/// A daemon names a file.
fn name_conf(files: &mut Files, file: &FileName) -> Result<(), AllocError>
    ensures { OnOk result (files.new.entries ≡ with_naming as_conf files.old.entries file.now) }
{
    let name = NamedFile::new(file.as_str());
    let used = use_so_far(files, &name);
    files.insert(
        name,
        Use {
            conf: true,
            lines: used.lines,
        },
    )?;
    Ok(())
}

/// A line names a file.
fn name_trace(files: &mut Files, file: &BoxedName) -> Result<(), AllocError>
    ensures { OnOk result (files.new.entries ≡ with_naming as_trace files.old.entries file.now) }
{
    let name = NamedFile::new(file.as_str());
    let used = use_so_far(files, &name);
    let lines = one_more(used.lines)?;
    files.insert(
        name,
        Use {
            conf: used.conf,
            lines,
        },
    )?;
    Ok(())
}

/// The configurations of a daemon.
fn name_confs(files: &mut Files, names: &[FileName]) -> Result<(), AllocError>
    ensures { OnOk result (files.new.entries
        ≡ fold (with_naming as_conf) files.old.entries names.now) }
{
    for name in names {
        name_conf(files, name)?;
    }
    Ok(())
}

fn name_daemon(files: &mut Files, kind: &DaemonKind) -> Result<(), AllocError>
    ensures { OnOk result (files.new.entries ≡ with_kind files.old.entries kind.now) }
{
    match kind {
        DaemonKind::Smc(names) => name_confs(files, names.0.as_slice()),
        DaemonKind::Plain => Ok(()),
        DaemonKind::Admin => Ok(()),
    }
}

fn name_daemons(files: &mut Files, kinds: &[DaemonKind]) -> Result<(), AllocError>
    ensures { OnOk result (files.new.entries ≡ fold with_kind files.old.entries kinds.now) }
{
    for kind in kinds {
        name_daemon(files, kind)?;
    }
    Ok(())
}

/// A line of a lane.
fn name_item(named: &mut Named, item: &Item) -> Result<(), AllocError>
    ensures files { OnOk result (named.new.files.entries
        ≡ with_given named.old.files.entries item.now.given) }
    ensures packets { OnOk result (named.new.packets
        ≡ named.old.packets + packets_in item.now.given) }
{
    match &item.given {
        Given::Bytes(_) => named.packets = one_more(named.packets)?,
        Given::Trace(file) => name_trace(&mut named.files, file)?,
    }
    Ok(())
}

/// The lines of a phase.
fn name_items(named: &mut Named, items: &[Item]) -> Result<(), AllocError>
    ensures files { OnOk result
        (named.new.files.entries ≡ named_on named.old.files.entries items.now) }
    ensures packets { OnOk result (named.new.packets
        ≡ named.old.packets + sum_by (λ i. packets_in i.given) items.now) }
{
    for item in items {
        name_item(named, item)?;
    }
    Ok(())
}

/// The lines of all phases.
fn name_phases(named: &mut Named, phases: &[Phase]) -> Result<(), AllocError>
    ensures files { OnOk result (named.new.files.entries
        ≡ fold (λ ns p. named_on ns p.items) named.old.files.entries phases.now) }
    ensures packets { OnOk result (named.new.packets ≡ named.old.packets + packets_of phases.now) }
{
    for phase in phases {
        name_items(named, items_of(phase))?;
    }
    Ok(())
}

/// The files that a scenario names.
pub(crate) fn named_in(alloc: Global, scenario: &Scenario) -> Result<Named, AllocError>
    ensures files { IfOk result (λ n. n.files.entries ≡ named_in scenario.now) }
    ensures packets { IfOk result (λ n. n.packets ≡ packets_of scenario.now.phases) }
{
    let mut named = Named {
        files: IndexMap::new(alloc),
        packets: 0,
    };
    name_daemons(&mut named.files, daemons_of(scenario))?;
    name_phases(&mut named, phases_of(scenario))?;
    Ok(named)
}

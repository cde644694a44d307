//! The routing machines of a scenario's daemons.

ghost use Rattle.std.specs.Prelude.{◌≡◌, ◌++◌, IfOk, OnOk, map};
ghost use Rattle.mr_load.specs.Kept.{files_kept};
ghost use Rattle.mr_load.specs.Machines.{machine_for, machines_in};
ghost use Rattle.smc_daemon.specs.Machines.{conf_in, confs_in, machine_of};

use crate::named_file::NamedFile;
use crate::parts::{daemons_of, devices_of};
use crate::reading::Confs;
use mr_base::FileName;
use mr_scenario::{DaemonKind, Named, Scenario};
use smc_conf::{Conf, ConfError};
use smc_core::Smc;
use std::alloc::{AllocError, Global};

/// The configuration in a file, behind others.
fn push_conf(
    alloc: Global,
    kept: &Confs,
    name: &FileName,
    confs: &mut Vec<Conf>,
) -> Result<(), AllocError>
    ensures { OnOk result (confs.new.items
        ≡ confs.old.items ++ conf_in (files_kept kept.now.entries name.now)) }
{
    let Some(bytes) = kept.get(&NamedFile::new(name.as_str())) else {
        return Ok(());
    };
    match smc_conf::read(alloc, bytes.0.as_slice()) {
        Ok(conf) => confs.push(conf)?,
        Err(ConfError::Bad { text: _text, .. }) => {}
        Err(ConfError::Memory) => return Err(AllocError),
    }
    Ok(())
}

/// The configurations in these files.
fn confs_of(alloc: Global, kept: &Confs, names: &[FileName]) -> Result<Vec<Conf>, AllocError>
    ensures { IfOk result (λ v. v.items ≡ confs_in (files_kept kept.now.entries) names.now) }
{
    let mut confs = Vec::new(alloc);
    for name in names {
        push_conf(alloc, kept, name, &mut confs)?;
    }
    Ok(confs)
}

/// The names of devices.
fn names_of(alloc: Global, devices: &[Named]) -> Result<Vec<FileName>, AllocError>
    ensures { IfOk result (λ v. v.items ≡ map (λ device. device.name) devices.now) }
{
    let mut names = Vec::with_capacity(alloc, devices.len())?;
    for device in devices {
        names.push(device.name.clone()?)?;
    }
    Ok(names)
}

/// The machine of a daemon with these configurations.
fn machine_of(
    alloc: Global,
    kept: &Confs,
    scenario: &Scenario,
    names: &[FileName],
) -> Result<Smc, AllocError>
    ensures { IfOk result (λ m.
        m ≡ machine_of (files_kept kept.now.entries) scenario.now names.now) }
{
    let devices = names_of(alloc, devices_of(scenario))?;
    let confs = confs_of(alloc, kept, names)?;
    match Smc::new(alloc, devices, confs) {
        Ok(machine) => Ok(machine),
        Err(_) => Err(AllocError),
    }
}

/// The machine of a daemon, if it has one.
fn machine_for(
    alloc: Global,
    kept: &Confs,
    scenario: &Scenario,
    kind: &DaemonKind,
) -> Result<Option<Smc>, AllocError>
    ensures { IfOk result (λ m.
        m ≡ machine_for (files_kept kept.now.entries) scenario.now kind.now) }
{
    match kind {
        DaemonKind::Smc(names) => {
            Ok(Some(machine_of(alloc, kept, scenario, names.0.as_slice())?))
        }
        DaemonKind::Plain => Ok(None),
        DaemonKind::Admin => Ok(None),
    }
}

/// The machine of each daemon, where these are the configurations that were read.
pub(crate) fn machines_in(
    alloc: Global,
    kept: &Confs,
    scenario: &Scenario,
) -> Result<Vec<Option<Smc>>, AllocError>
    ensures { IfOk result (λ v.
        v.items ≡ machines_in (files_kept kept.now.entries) scenario.now) }
{
    let mut machines = Vec::new(alloc);
    for kind in daemons_of(scenario) {
        machines.push(machine_for(alloc, kept, scenario, kind)?)?;
    }
    Ok(machines)
}

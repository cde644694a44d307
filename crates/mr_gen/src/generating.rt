//! The scenario that a seed makes.

ghost use Rattle.std.specs.Prelude.{◌≡◌, ◌*◌, ◌<◌, ◌≤◌, ◌^◌, ◌∷◌, [], replicate, true, None, map};
ghost use Rattle.std.specs.Prelude.{IfOk};
ghost use Rattle.mr_base.specs.Outside.{Files};
ghost use Rattle.mr_base.specs.declared.limits.TheConstants.{MOST_ITEMS, MOST_LANES};
ghost use Rattle.mr_gen.specs.Entries.{devices};
ghost use Rattle.mr_gen.specs.Generated.{generated, limits, phases};
ghost use Rattle.mr_gen.specs.Dealt.{IsDealt};
ghost use Rattle.mr_history.specs.Fits.{FitsLimits};
ghost use Rattle.mr_load.specs.Loads.{IsLoaded};
ghost use Rattle.mr_scenario.specs.declared.scenario.DaemonKind.TheVariants.{Admin};
ghost use Rattle.mr_scenario.specs.Spelled.{address_only};

use crate::drawing::{Drawn, draw};
use crate::routes::{VIFS, devices, packets_of_all, script_lines};
use mr_base::{DEFAULT_CONTROLS, DEFAULT_ENTRIES, DEFAULT_UNRESOLVED, Device, List, Memory};
use mr_load::Loaded;
use mr_model::Limits;
use mr_scenario::{DaemonKind, Item, Named, Phase, Scenario};
use smc_core::Smc;
use std::alloc::{AllocError, Global};

/// The phases.
const PHASES: u32 = 2;

/// The devices as a run's limits have them.
fn addresses(alloc: Global, named: &[Named]) -> Result<Vec<Device>, AllocError>
    ensures { IfOk result (λ d. d.items ≡ map address_only named.now) }
{
    let mut all = Vec::with_capacity(alloc, named.len())?;
    for one in named {
        all.push(Device { addr: one.addr })?;
    }
    Ok(all)
}

/// So many packets for each of so many lanes.
fn counts(alloc: Global, lanes: u32, packets: u32) -> Result<Vec<u32>, AllocError>
    ensures { IfOk result (λ c. c.items ≡ replicate lanes packets) }
{
    Vec::from_elem(alloc, packets, lanes as usize)
}

/// The limits of so many lanes with so many packets each.
fn limits_of(alloc: Global, named: &[Named], lanes: u32, packets: u32) -> Result<Limits, AllocError>
    requires { named.now ≡ devices }
    ensures { IfOk result (λ l. l ≡ record (limits lanes)
        { packets = replicate lanes packets }) }
{
    Ok(Limits {
        entries: DEFAULT_ENTRIES,
        unresolved: DEFAULT_UNRESOLVED,
        controls: DEFAULT_CONTROLS,
        phases: PHASES,
        packets: List(counts(alloc, lanes, packets)?),
        admins: List(Vec::from_slice(alloc, &[true])?),
        devices: List(addresses(alloc, named)?),
    })
}

/// The phases, whose second one has these lines of lanes.
fn phases_of(alloc: Global, items: Vec<Item>) -> Result<Vec<Phase>, AllocError>
    ensures { IfOk result (λ p. p.items ≡ phases items.items) }
{
    let mut all = Vec::with_capacity(alloc, PHASES as usize)?;
    all.push(Phase {
        line: 0,
        items: List(Vec::new(alloc)),
        script: List(script_lines(alloc)?),
    })?;
    all.push(Phase {
        line: 0,
        items: List(items),
        script: List(Vec::new(alloc)),
    })?;
    Ok(all)
}

/// The one daemon, which may always change tables.
fn daemons(alloc: Global) -> Result<Vec<DaemonKind>, AllocError>
    ensures { IfOk result (λ d. d.items ≡ Admin ∷ []) }
{
    let mut all = Vec::with_capacity(alloc, 1)?;
    all.push(DaemonKind::Admin)?;
    Ok(all)
}

/// The one daemon has no routing machine.
fn no_machines(alloc: Global) -> Result<Vec<Option<Smc>>, AllocError>
    ensures { IfOk result (λ m. m.items ≡ None ∷ []) }
{
    let mut all = Vec::with_capacity(alloc, 1)?;
    all.push(None)?;
    Ok(all)
}

/// The scenario, put together.
fn put_together(alloc: Global, seed: u64, lanes: u32, packets: u32) -> Result<Loaded, AllocError>
    requires seed { seed < 2 ^ 63 }
    requires lanes { lanes ≤ MOST_LANES }
    requires packets { packets ≤ MOST_ITEMS }
    ensures scenario { IfOk result (λ l. l.scenario ≡ generated seed lanes packets) }
    ensures dealt { IfOk result (IsDealt seed lanes packets) }
{
    let table = packets_of_all(alloc)?;
    let Drawn {
        items,
        lanes: given,
    } = draw(alloc, table.as_slice(), seed, lanes, packets)?;
    let named = devices(alloc)?;
    let run_limits = limits_of(alloc, named.as_slice(), lanes, packets)?;
    let scenario = Scenario {
        limits: limits_of(alloc, named.as_slice(), lanes, 0)?,
        devices: List(named),
        lanes,
        daemons: List(daemons(alloc)?),
        phases: List(phases_of(alloc, items)?),
    };
    Ok(Loaded {
        scenario,
        limits: run_limits,
        lanes: List(given),
        skips: List(Vec::new(alloc)),
        skip_devs: List(Vec::new(alloc)),
        machines: List(no_machines(alloc)?),
    })
}

/// The scenario that a seed makes for so many lanes with so many packets each, loaded: a daemon
/// adds four vifs and 64 (S,G) entries in the first phase, and in the second one each lane sends
/// packets of entries that its generator draws, which is seeded with the seed and the lane's
/// number. A lane's packets take no memory one by one.
///
/// # Errors
///
/// [`Memory`] where memory runs out.
pub fn generate(alloc: Global, seed: u64, lanes: u32, packets: u32) -> Result<Loaded, Memory>
    requires seed { seed < 2 ^ 63 }
    requires lanes { lanes ≤ MOST_LANES }
    requires few { lanes * packets ≤ MOST_ITEMS }
    requires one_lane { 1 ≤ lanes }
    ensures scenario { IfOk result (λ l. l.scenario ≡ generated seed lanes packets) }
    ensures loaded { IfOk result (λ l. (files : Files) → IsLoaded files l) }
    ensures machine { IfOk result (λ l. FitsLimits l.limits) }
{
    match put_together(alloc, seed, lanes, packets) {
        Ok(loaded) => Ok(loaded),
        Err(AllocError) => Err(Memory),
    }
}

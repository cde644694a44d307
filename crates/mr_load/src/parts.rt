//! The lists of a scenario, as contracts see them.

ghost use Rattle.std.specs.Prelude.{◌≡◌};

use crate::lane::LanePackets;
use crate::loading::Loaded;
use mr_model::Limits;
use mr_scenario::{DaemonKind, Item, Named, Phase, Scenario, ScriptLine};

/// The items of a phase.
pub fn items_of(phase: &Phase) -> &[Item]
    ensures { result.now ≡ phase.now.items }
{
    phase.items.0.as_slice()
}

/// The lines of a phase.
pub fn lines_of(phase: &Phase) -> &[ScriptLine]
    ensures { result.now ≡ phase.now.script }
{
    phase.script.0.as_slice()
}

/// The daemons of a scenario.
pub fn daemons_of(scenario: &Scenario) -> &[DaemonKind]
    ensures { result.now ≡ scenario.now.daemons }
{
    scenario.daemons.0.as_slice()
}

/// The phases of a scenario.
pub fn phases_of(scenario: &Scenario) -> &[Phase]
    ensures { result.now ≡ scenario.now.phases }
{
    scenario.phases.0.as_slice()
}

/// The scenario's limits.
pub fn limits_of(scenario: &Scenario) -> &Limits
    ensures { result.now ≡ scenario.now.limits }
{
    &scenario.limits
}

/// The devices of a scenario.
pub fn devices_of(scenario: &Scenario) -> &[Named]
    ensures { result.now ≡ scenario.now.devices }
{
    scenario.devices.0.as_slice()
}

/// Each lane's packets, from lane 1 on.
pub fn lanes_of(loaded: &Loaded) -> &[LanePackets]
    ensures { result.now ≡ loaded.now.lanes }
{
    loaded.lanes.0.as_slice()
}

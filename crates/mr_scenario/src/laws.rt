//! Laws of scenarios.

ghost use Rattle.mr_scenario.specs.Laws.{SpelledFits};

/// A scenario that bytes spell fits its own limits.
pub fn spelled_fits()
    ensures { SpelledFits }
{}

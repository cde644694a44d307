//! What a history of a scenario has to have.

ghost use Rattle.std.specs.Prelude.{◌≡◌, ◌∷◌, [], map};
ghost use Rattle.mr_load.specs.Callers.{one_to};
ghost use Rattle.mr_load.specs.Dues.{lane_of};
ghost use Rattle.mr_load.specs.Loading.{run_limits, skips_of};
ghost use Rattle.mr_load.specs.Made.{Made, as_asked};
ghost use Rattle.mr_model.specs.Legal.{IsLegal};
ghost use Rattle.mr_model.specs.declared.request.Request.TheVariants.{Init, Unknown, BadLength};
ghost use Rattle.mr_rows.specs.MadeMisses as misses;
ghost use Rattle.mr_rows.specs.Office as office;
ghost use Rattle.mr_rows.specs.SideBySide as beside;
ghost use Rattle.mr_scenario.specs.declared.scenario.Script.TheVariants as script;
ghost use Rattle.smc_daemon.specs.Worked.{files as office_files, history as office_history};

/// Two lanes and two daemons stand beside each other in two phases. The history is legal and has
/// what the scenario asks: a daemon asks for another table, which is an unknown option, a lane's
/// packets are counted, and an item that is no packet is a skip and keeps its number.
pub fn side_by_side()
    ensures skips { skips_of beside.files beside.scenario ≡ beside.skips }
    ensures legal { IsLegal (run_limits beside.files beside.scenario) beside.history }
    ensures made { Made beside.files beside.scenario beside.history }
{}

/// A history has just what its scenario asks: nothing behind the last phase and no phase without an
/// end; each packet once, in its phase and with its flow; each line once and in its daemon's order;
/// and nothing of a lane or a daemon that the scenario does not have.
pub fn made_near_misses()
    ensures behind_the_last { Made beside.files beside.scenario misses.behind_the_last → ⊥ }
    ensures unended { Made beside.files beside.scenario misses.unended → ⊥ }
    ensures one_phase_late { Made beside.files beside.scenario misses.one_phase_late → ⊥ }
    ensures other_ttl { Made beside.files beside.scenario misses.other_ttl → ⊥ }
    ensures packet_twice { Made beside.files beside.scenario misses.packet_twice → ⊥ }
    ensures line_missing { Made beside.files beside.scenario misses.line_missing → ⊥ }
    ensures lines_exchanged { Made beside.files beside.scenario misses.lines_exchanged → ⊥ }
    ensures third_lane { Made beside.files beside.scenario misses.third_lane → ⊥ }
    ensures third_daemon { Made beside.files beside.scenario misses.third_daemon → ⊥ }
{}

/// An office whose first daemon has a routing machine: the daemon starts it beside another daemon,
/// a lane sends a packet that has no route, and the machine polls and learns its route. The history
/// has what the scenario asks.
pub fn office_made()
    ensures { Made office_files office.scenario office_history }
{}

/// Each lane of that scenario has its packets in one list, with their phases and the numbers of
/// their items.
pub fn lanes_side_by_side()
    ensures { map (lane_of beside.files beside.scenario) (one_to 2) ≡ beside.lanes }
{}

/// A record makes the call that it spells, by its option and its length; one that asks for another
/// table asks for an option that cannot be set.
pub fn records_as_asked()
    ensures init { as_asked (script.Raw 200 (1 ∷ 0 ∷ 0 ∷ 0 ∷ [])) ≡ script.Ask Init }
    ensures short { as_asked (script.Raw 200 (1 ∷ [])) ≡ script.Ask (BadLength 200) }
    ensures table { as_asked (script.Raw 209 (1 ∷ 0 ∷ 0 ∷ 0 ∷ [])) ≡ script.Ask (Unknown 209) }
{}

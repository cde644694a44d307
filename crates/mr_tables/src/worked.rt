ghost use Rattle.std.specs.Prelude.{◌≡◌, true, false, [], ◌∷◌};
ghost use Rattle.mr_tables.specs.Values.{applied};
ghost use Rattle.mr_tables.specs.Fitting.{fits, FitInTurn};
ghost use Rattle.mr_tables.specs.WorkedTables as worked;

/// Worked rows of the definitions of changes that fit: tables with vif 3 and the register vif 5,
/// entry 4, and room for one more. It does nothing.
pub fn worked_fits()
    ensures free_vif { fits worked.tables (worked.added 5 31 false) ≡ true }
    ensures vif_of_32 { fits worked.tables (worked.added 5 32 false) ≡ false }
    ensures taken_vif { fits worked.tables (worked.added 5 3 false) ≡ false }
    ensures second_register { fits worked.tables (worked.added 5 6 true) ≡ false }
    ensures there { fits worked.tables (worked.removed 5 3) ≡ true }
    ensures absent { fits worked.tables (worked.removed 5 4) ≡ false }
    ensures free_slot { fits worked.tables (worked.made 5) ≡ true }
    ensures old_number { fits worked.tables (worked.made 4) ≡ false }
    ensures no_slot { fits (applied worked.tables (worked.made 5)) (worked.made 6) ≡ false }
    ensures changed { fits worked.tables (worked.changed 5 4) ≡ true }
    ensures changed_none { fits worked.tables (worked.changed 5 3) ≡ false }
    ensures dropped { fits worked.tables (worked.dropped 5 4) ≡ true }
    ensures dropped_none { fits worked.tables (worked.dropped 5 5) ≡ false }
    ensures dropped_then { (applied worked.tables (worked.dropped 5 4)).tables.routes ≡ [] }
    ensures removed_then { (applied worked.tables (worked.removed 5 3)).tables.vifs
        ≡ worked.register_vif ∷ [] }
    ensures room_made { FitInTurn worked.tables
        (worked.made 5 ∷ worked.dropped 6 4 ∷ worked.made 7 ∷ []) }
    ensures no_room { FitInTurn worked.tables (worked.made 5 ∷ worked.made 6 ∷ []) → ⊥ }
    ensures no_more { FitInTurn worked.tables (worked.removed 5 3 ∷ worked.removed 6 3 ∷ []) → ⊥ }
{}

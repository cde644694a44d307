//! The words of the laws, evaluated on worked lists.

ghost use Rattle.std.specs.Prelude.{◌≡◌, true, false, [], ◌∷◌};
ghost use Rattle.mr_laws.specs.Once.{times_parked, times_waiting, times_released, is_line_of};
ghost use Rattle.mr_laws.specs.Rows as row;
ghost use Rattle.mr_laws.specs.Served.{is_served};
ghost use Rattle.mr_laws.specs.Shape.{KeysDiffer, HasPackets, HasItsOwn, MomentsRise, IsYoung};

/// Lists that have the shape, and others that just have not.
pub fn worked_lists()
    ensures two_sources { KeysDiffer (row.waits 1 0 row.four ∷ row.waits 2 0 row.four ∷ []) }
    ensures one_source { KeysDiffer
        (row.waits 1 0 row.four ∷ row.waits 2 0 [] ∷ row.waits 1 7 [] ∷ []) → ⊥ }
    ensures four { HasPackets (row.waits 1 0 row.four) }
    ensures five { HasPackets (row.waits 1 0 (row.from 1 9 ∷ row.four)) → ⊥ }
    ensures none { HasPackets (row.waits 1 0 []) → ⊥ }
    ensures own { HasItsOwn (row.waits 1 0 row.four) }
    ensures stray { HasItsOwn (row.waits 1 0 (row.from 1 1 ∷ row.from 2 2 ∷ [])) → ⊥ }
    ensures level { MomentsRise 0 (row.waits 1 5 [] ∷ row.waits 2 5 [] ∷ row.waits 3 6 [] ∷ []) }
    ensures fallen { MomentsRise 0 (row.waits 1 5 [] ∷ row.waits 2 4 [] ∷ []) → ⊥ }
    ensures young { IsYoung 10004 (row.waits 1 5 []) }
    ensures aged { IsYoung 10005 (row.waits 1 5 []) → ⊥ }
    ensures early { IsYoung 4 (row.waits 1 5 []) → ⊥ }
    ensures served { is_served (row.entry 2 ∷ row.entry 1 ∷ []) (row.waits 1 0 []) ≡ true }
    ensures unserved { is_served (row.entry 2 ∷ []) (row.waits 1 0 []) ≡ false }
    ensures parked_twice { times_parked (row.lane 1) 3
        (row.parked 3 ∷ row.dropped 3 ∷ row.parked 4 ∷ row.parked 3 ∷ []) ≡ 2 }
    ensures waits_twice { times_waiting (row.lane 1) 3
        (row.waits 1 0 row.four ∷ row.waits 2 0 row.four ∷ []) ≡ 2 }
    ensures other_lane { times_waiting (row.lane 2) 3 (row.waits 1 0 row.four ∷ []) ≡ 0 }
    ensures released_twice { times_released (row.lane 1) 3
        (row.released 3 ∷ row.released 4 ∷ row.released 3 ∷ []) ≡ 2 }
    ensures its_line { is_line_of (row.lane 1) 3 (row.line 3) ≡ true }
    ensures other_line { is_line_of (row.lane 1) 3 (row.line 4) ≡ false }
{}

//! The words of the lines, evaluated on worked lists.

ghost use Rattle.std.specs.Prelude.{◌≡◌, true, false, Some, None, [], ◌∷◌, take};
ghost use Rattle.mr_model.specs.declared.ending.Fate.TheVariants.{Released, Expired, Flushed};
ghost use Rattle.mr_model.specs.declared.ending.Fate.TheVariants.{Waiting};
ghost use Rattle.mr_model.specs.declared.entry.Entry.TheVariants.{EndPhase};
ghost use Rattle.mr_model.specs.declared.limits.Limits.{Limits};
ghost use Rattle.mr_model.specs.declared.request.Request.TheVariants.{Init, Finish, Flush};
ghost use Rattle.mr_fates.specs.Lanes.{line_in, places_from};
ghost use Rattle.mr_fates.specs.Lines.{waiting_line, ended, fate_in_lines, lane_count, IsNext};
ghost use Rattle.mr_fates.specs.After.{line_after, lines_parked, ended_all, released_each};
ghost use Rattle.mr_fates.specs.After.{expired, drops_all, is_without_fates};
ghost use Rattle.mr_laws.specs.Rows.{lane, parked, dropped, released};
ghost use Rattle.mr_fates.specs.Rows as row;

/// Three lines of two lanes, and what one packet's fate, or that of several, makes of them.
pub fn worked_lines()
    ensures ended_one { ended (lane 1) 8 (Released 4) row.three
        ≡ row.line 1 3 Waiting ∷ row.line 2 5 Waiting ∷ row.line 1 8 (Released 4) ∷ [] }
    ensures ended_none { ended (lane 2) 8 (Released 4) row.three ≡ row.three }
    ensures fate { fate_in_lines (lane 1) 3 (row.line 1 3 (Expired 6) ∷ row.three)
        ≡ Some (Expired 6) }
    ensures no_fate { fate_in_lines (lane 2) 3 row.three ≡ None }
    ensures count { lane_count (lane 1) row.three ≡ 2 }
    ensures next { IsNext (lane 1) 9 row.three }
    ensures not_next { IsNext (lane 1) 8 row.three → ⊥ }
    ensures next_of_lane { IsNext (lane 2) 6 row.three }
    ensures places { places_from 1 0 row.three ≡ row.place 3 0 ∷ row.place 8 2 ∷ [] }
    ensures placed { line_in (row.place 3 0 ∷ row.place 8 2 ∷ []) 8 ≡ Some 2 }
    ensures not_placed { line_in (row.place 3 0 ∷ row.place 8 2 ∷ []) 2 ≡ None }
    ensures flushed { ended_all (Flushed 7) row.two row.three
        ≡ row.line 1 3 (Flushed 7) ∷ row.line 2 5 Waiting ∷ row.line 1 8 (Flushed 7) ∷ [] }
    ensures released { released_each 9 (released 8 ∷ released 4 ∷ []) row.three
        ≡ row.line 1 3 Waiting ∷ row.line 2 5 Waiting ∷ row.line 1 8 (Released 9) ∷ [] }
{}

/// Entries of a history, and what they do to a line.
pub fn worked_entries()
    ensures aged { expired 10000 row.two ≡ take 1 row.two }
    ensures young { expired 9999 row.two ≡ [] }
    ensures leaves { drops_all Finish ≡ true }
    ensures flushes { drops_all (Flush 9) ≡ true }
    ensures flushes_vifs { drops_all (Flush 12) ≡ false }
    ensures begins { drops_all Init ≡ false }
    ensures parks { lines_parked (parked 3) ≡ waiting_line (lane 1) 3 ∷ [] }
    ensures parks_none { lines_parked (dropped 3) ≡ [] }
    ensures after { (limits : Limits) →
        line_after limits [] row.call (row.line 1 3 Waiting) ≡ row.line 1 3 (Released 1) }
    ensures kept { (limits : Limits) →
        line_after limits [] row.call (row.line 1 3 (Expired 6)) ≡ row.line 1 3 (Expired 6) }
    ensures other { (limits : Limits) →
        line_after limits [] row.call (row.line 1 4 Waiting) ≡ row.line 1 4 Waiting }
    ensures a_call { is_without_fates row.call ≡ false }
    ensures a_tick { is_without_fates row.tick ≡ false }
    ensures a_parking { is_without_fates (parked 3) ≡ false }
    ensures a_drop { is_without_fates (dropped 3) ≡ true }
    ensures a_question { is_without_fates row.asking ≡ true }
    ensures an_end { is_without_fates EndPhase ≡ true }
{}

//! The definitions on worked values.
ghost use Rattle.std.specs.Prelude.{◌≡◌, ◌-◌, ◌^◌, true, [], ◌∷◌, Some};
ghost use Rattle.mr_model.specs.declared.verdict.Verdict.TheVariants.{Forward, Miss, NoVif};
ghost use Rattle.mr_publish.specs.Copies.{taken, tables_after};
ghost use Rattle.mr_publish.specs.Lists.{last_number, later};
ghost use Rattle.mr_publish.specs.Rules.{IsKept};
ghost use Rattle.mr_publish.specs.Values.{first_sight, one_more, refused};
ghost use Rattle.mr_publish.specs.WorkedCopies as worked;

/// What looks say of one packet while two vifs and then its entry come, and that a copy passes over
/// a vif that is there. It does nothing.
pub fn worked_looks()
    ensures none { worked.verdict_after [] ≡ NoVif }
    ensures vifs { worked.verdict_after (worked.two ∷ worked.three ∷ []) ≡ Miss 0 }
    ensures entry { worked.verdict_after (worked.two ∷ worked.three ∷ worked.four ∷ [])
        ≡ Forward 4 (Some 0) (record { 0 = 2 }) }
    ensures fits { taken worked.start worked.two ≡ tables_after worked.start (worked.two ∷ []) }
    ensures passed_over { taken (tables_after worked.start (worked.two ∷ [])) worked.two
        ≡ tables_after worked.start (worked.two ∷ []) }
{}

/// The rule of the list: its word is the number of the last change, and the numbers rise. It does
/// nothing.
pub fn worked_rule()
    ensures kept { IsKept ((3, true) ∷ (0, true) ∷ []) (worked.two ∷ worked.three ∷ []) }
    ensures other_word { ¬ IsKept ((2, true) ∷ (0, true) ∷ []) (worked.two ∷ worked.three ∷ []) }
    ensures no_rise { ¬ IsKept ((2, true) ∷ (0, true) ∷ []) (worked.three ∷ worked.two ∷ []) }
{}

/// The last number of changes, the later of two lists, and how a refused look is counted. It does
/// nothing.
pub fn worked_lists()
    ensures none { last_number 0 [] ≡ 0 }
    ensures last { last_number 0 (worked.two ∷ worked.three ∷ []) ≡ 3 }
    ensures later { later (worked.two ∷ []) (worked.two ∷ worked.three ∷ [])
        ≡ worked.two ∷ worked.three ∷ [] }
    ensures not_earlier { later (worked.two ∷ worked.three ∷ []) (worked.two ∷ [])
        ≡ worked.two ∷ worked.three ∷ [] }
    ensures refused { refused first_sight
        ≡ record { seen = []; learnt = []; refusals = 1 } }
    ensures full { one_more (2 ^ 64 - 1) ≡ 2 ^ 64 - 1 }
{}

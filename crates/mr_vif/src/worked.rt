ghost use Rattle.std.specs.Prelude.{◌≡◌, true, false, [], ◌∷◌};
ghost use Rattle.mr_model.specs.VifList.{vifs_left};
ghost use Rattle.mr_vif.specs.Masks.{mask_of, vifs_below};
ghost use Rattle.mr_vif.specs.Rules.{AreVifs};
ghost use Rattle.mr_vif.specs.WorkedVifs as worked;

/// Worked rows of the definitions of lists of vifs: its contract says what they give for four vifs
/// and their thresholds. It does nothing.
pub fn worked_vifs()
    ensures rules { AreVifs worked.added }
    ensures mask { (mask_of worked.added).0 ≡ 2147483689 }
    ensures no_mask { (mask_of []).0 ≡ 0 }
    ensures none_at_one { vifs_below worked.thresholds 1 worked.added ≡ [] }
    ensures one_at_nine { vifs_below worked.thresholds 9 worked.added ≡ worked.far ∷ [] }
    ensures two_at_ten { vifs_below worked.thresholds 10 worked.added ≡
        worked.lower ∷ worked.far ∷ [] }
    ensures three_at_255 { vifs_below worked.thresholds 255 worked.added ≡
        worked.lower ∷ worked.higher ∷ worked.far ∷ [] }
    ensures without_static { vifs_left false true worked.added ≡
        worked.lower ∷ worked.register ∷ [] }
    ensures static_alone { vifs_left true false worked.added ≡ worked.higher ∷ worked.far ∷ [] }
    ensures none_left { vifs_left true true worked.added ≡ [] }
    ensures all_left { vifs_left false false worked.added ≡ worked.added }
{}

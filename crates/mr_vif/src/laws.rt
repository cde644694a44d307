//! Laws of masks of vifs.

ghost use Rattle.std.specs.Prelude.{◌≡◌, ◌≢◌, ℕ, Bool, List, filter, bit_and};
ghost use Rattle.mr_base.specs.declared.numbers.Mask.{Mask};
ghost use Rattle.mr_base.specs.declared.route.Route.{Route};
ghost use Rattle.mr_base.specs.declared.vif_record.VifRecord.{VifRecord};
ghost use Rattle.mr_model.specs.Verdict.{is_in, outs_of};
ghost use Rattle.mr_vif.specs.Masks.{mask_of, vifs_below};

/// Where a mask has just the bits that pass a test, the mask of some vifs meets it in the mask of
/// those of them that pass.
pub fn masks_meet()
    ensures { (test : ℕ → Bool) (m : Mask) (vifs : List VifRecord) →
        ((i : ℕ) → is_in m i ≡ test i) →
        bit_and m.0 (mask_of vifs).0 ≡ (mask_of (filter (λ v. test v.vif) vifs)).0 }
{}

/// An entry with an origin sends on the vifs whose threshold the TTL exceeds.
pub fn origin_outs()
    ensures { (vifs : List VifRecord) (r : Route) (dev ttl : ℕ) → r.src.0 ≢ 0 →
        outs_of vifs r dev ttl ≡ mask_of (vifs_below r.ttls ttl vifs) }
{}

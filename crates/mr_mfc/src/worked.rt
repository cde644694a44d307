ghost use Rattle.std.specs.Prelude.{◌≡◌, true, false, [], ◌∷◌};
ghost use Rattle.mr_mfc.specs.Caches.{is_above, IsFalling};
ghost use Rattle.mr_mfc.specs.WorkedNumbers as worked;

/// Worked rows of the definitions of numbers: which lists fall, and what is above them. It does
/// nothing.
pub fn worked_numbers()
    ensures none { IsFalling (worked.routes []) }
    ensures falling { IsFalling (worked.routes (9 ∷ 4 ∷ 1 ∷ [])) }
    ensures twice { IsFalling (worked.routes (9 ∷ 4 ∷ 4 ∷ [])) → ⊥ }
    ensures rising { IsFalling (worked.routes (4 ∷ 1 ∷ 9 ∷ [])) → ⊥ }
    ensures above_none { is_above 0 (worked.routes []) ≡ true }
    ensures above { is_above 10 (worked.routes (4 ∷ 9 ∷ 1 ∷ [])) ≡ true }
    ensures equal { is_above 9 (worked.routes (4 ∷ 9 ∷ 1 ∷ [])) ≡ false }
{}

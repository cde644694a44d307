//! Laws of changes: those of a history give its tables.

ghost use Rattle.std.specs.Prelude.{◌≡◌, ℕ, ◌+◌, List, [], ◌∷◌, ◌++◌, length, take};
ghost use Rattle.mr_model.specs.declared.entry.Entry.{Entry};
ghost use Rattle.mr_model.specs.declared.limits.Limits.{Limits};
ghost use Rattle.mr_model.specs.Changes.{change_by, changes, up_to};
ghost use Rattle.mr_model.specs.Numbers.{NumbersRise, NumbersFall};
ghost use Rattle.mr_model.specs.State.{state};
ghost use Rattle.mr_model.specs.Tables.{tables_by};

/// The change of one more entry stands last.
pub fn changes_push()
    ensures { (limits : Limits) (h : List Entry) (e : Entry) →
        changes limits (h ++ e ∷ []) ≡ changes limits h ++ change_by limits (state limits h) e }
{}

/// The changes of a history, one after another, make its tables of empty ones; those up to n make
/// the tables of its first n entries.
pub fn changes_make_tables()
    ensures all { (limits : Limits) (h : List Entry) →
        tables_by (changes limits h) ≡ (state limits h).tables }
    ensures first { (limits : Limits) (h : List Entry) (n : ℕ) →
        changes limits (take n h) ≡ up_to n (changes limits h) }
    ensures up_to { (limits : Limits) (h : List Entry) (n : ℕ) →
        tables_by (up_to n (changes limits h)) ≡ (state limits (take n h)).tables }
{}

/// The numbers of changes are above 0 and rise; those of the entries of the tables fall from the
/// newest on, and are at most that of the last history entry.
pub fn numbers_rise()
    ensures rise { (limits : Limits) (h : List Entry) → NumbersRise 0 (changes limits h) }
    ensures fall { (limits : Limits) (h : List Entry) →
        NumbersFall (length h + 1) (state limits h).tables.routes }
{}

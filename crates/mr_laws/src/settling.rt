//! What a Settle leaves as it was.

ghost use Rattle.std.specs.Prelude.{◌≡◌, List, [], ◌∷◌, ◌++◌};
ghost use Rattle.mr_base.specs.declared.numbers.LaneNo.{LaneNo};
ghost use Rattle.mr_model.specs.declared.entry.Entry.{Entry};
ghost use Rattle.mr_model.specs.declared.entry.Entry.TheVariants.{Settle};
ghost use Rattle.mr_model.specs.declared.entry.FastRecord.{FastRecord};
ghost use Rattle.mr_model.specs.declared.limits.Limits.{Limits};
ghost use Rattle.mr_model.specs.State.{state, counted};

/// A Settle at the end counts as an entry, and changes nothing else: neither the owner, the
/// tables, the moment, nor what waits, is unread or was attempted.
pub fn settle_changes_nothing()
    ensures state { (limits : Limits) (h : List Entry) (lane : LaneNo)
        (records : List FastRecord) →
        state limits (h ++ Settle lane records ∷ []) ≡ counted (state limits h) }
    ensures owner { (limits : Limits) (h : List Entry) (lane : LaneNo)
        (records : List FastRecord) →
        (state limits (h ++ Settle lane records ∷ [])).owner ≡ (state limits h).owner }
    ensures tables { (limits : Limits) (h : List Entry) (lane : LaneNo)
        (records : List FastRecord) →
        (state limits (h ++ Settle lane records ∷ [])).tables ≡ (state limits h).tables }
    ensures now { (limits : Limits) (h : List Entry) (lane : LaneNo)
        (records : List FastRecord) →
        (state limits (h ++ Settle lane records ∷ [])).now ≡ (state limits h).now }
    ensures waiting { (limits : Limits) (h : List Entry) (lane : LaneNo)
        (records : List FastRecord) →
        (state limits (h ++ Settle lane records ∷ [])).waiting ≡ (state limits h).waiting }
    ensures unread { (limits : Limits) (h : List Entry) (lane : LaneNo)
        (records : List FastRecord) →
        (state limits (h ++ Settle lane records ∷ [])).unread ≡ (state limits h).unread }
    ensures attempts { (limits : Limits) (h : List Entry) (lane : LaneNo)
        (records : List FastRecord) →
        (state limits (h ++ Settle lane records ∷ [])).attempts ≡ (state limits h).attempts }
{}

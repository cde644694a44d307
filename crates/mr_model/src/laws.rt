//! Laws of the definitions in `specs/`: what one more entry does, and that definitions agree.

ghost use Rattle.std.specs.Prelude.{◌≡◌, ℕ, ◌+◌, ◌≤◌, ◌&&◌, true, false, if◌then◌else◌, List, []};
ghost use Rattle.std.specs.Prelude.{◌∷◌, ◌++◌, length, reverse, count_by};
ghost use Rattle.mr_base.specs.declared.numbers.LaneNo.{LaneNo};
ghost use Rattle.mr_base.specs.declared.vif_record.VifRecord.{VifRecord};
ghost use Rattle.mr_model.specs.declared.entry.Entry.{Entry};
ghost use Rattle.mr_model.specs.declared.entry.Entry.TheVariants.{Slow, Settle};
ghost use Rattle.mr_model.specs.declared.entry.FastRecord.{FastRecord};
ghost use Rattle.mr_model.specs.declared.flow.Flow.{Flow};
ghost use Rattle.mr_model.specs.declared.limits.Limits.{Limits};
ghost use Rattle.mr_model.specs.declared.outcome.Outcome.{Outcome};
ghost use Rattle.mr_model.specs.declared.step.Step.TheVariants.{Kept};
ghost use Rattle.mr_model.specs.Attempt.{attempted_by, attempts_from, attempt};
ghost use Rattle.mr_model.specs.Counts.{met_in, met, route_sums, route_counts, vif_sums};
ghost use Rattle.mr_model.specs.Counts.{vif_counts};
ghost use Rattle.mr_model.specs.Fate.{fate_in, fate};
ghost use Rattle.mr_model.specs.Laws.{fate_after, is_settle, is_of_no_lane, short_after};
ghost use Rattle.mr_model.specs.Laws.{is_left_short};
ghost use Rattle.mr_model.specs.Legal.{Agrees, IsLegal};
ghost use Rattle.mr_model.specs.Lively.{is_lively_at, lively_from};
ghost use Rattle.mr_model.specs.Messages.{last_attempt};
ghost use Rattle.mr_model.specs.Now.{milliseconds, now};
ghost use Rattle.mr_model.specs.Owner.{owner_after, owner};
ghost use Rattle.mr_model.specs.Past.{is_control, is_end, is_of_lane, packets_in, controls, phases};
ghost use Rattle.mr_model.specs.Past.{packets, last_own, last_end, index_after, last_index};
ghost use Rattle.mr_model.specs.Past.{look_after, last_look, ends_short, own_before_slow};
ghost use Rattle.mr_model.specs.State.{step, state};
ghost use Rattle.mr_model.specs.Switches.{switches_after, switches, pim, asserts};
ghost use Rattle.mr_model.specs.Unfolded.{fast_in, fast_at, unfolded};
ghost use Rattle.mr_model.specs.Unread.{pushed_by, pushed, behind_finish, up_to_finish, is_taking};
ghost use Rattle.mr_model.specs.Unread.{unread};

/// One more entry takes one step from the state before it, and the state counts the entries.
pub fn state_push()
    ensures step { (limits : Limits) (h : List Entry) (e : Entry)
        → state limits (h ++ e ∷ []) ≡ step limits (state limits h) e }
    ensures count { (limits : Limits) (h : List Entry) → (state limits h).count ≡ length h }
{}

/// A legal history stays legal by an entry that agrees with it, and by no other.
pub fn legal_push()
    ensures longer { (limits : Limits) (h : List Entry) (e : Entry)
        → IsLegal limits h → Agrees limits h e → IsLegal limits (h ++ e ∷ []) }
    ensures shorter { (limits : Limits) (h : List Entry) (e : Entry)
        → IsLegal limits (h ++ e ∷ []) → IsLegal limits h }
    ensures agrees { (limits : Limits) (h : List Entry) (e : Entry)
        → IsLegal limits (h ++ e ∷ []) → Agrees limits h e }
{}

/// Within a legal history each entry agrees with what stands before it, which is legal too.
pub fn legal_within()
    ensures agrees { (limits : Limits) (g : List Entry) (e : Entry) (h : List Entry)
        → IsLegal limits (g ++ e ∷ h) → Agrees limits g e }
    ensures front { (limits : Limits) (g h : List Entry)
        → IsLegal limits (g ++ h) → IsLegal limits g }
{}

/// One more entry changes the owner as a good MRT_INIT or MRT_DONE does, or not.
pub fn owner_push()
    ensures { (h : List Entry) (e : Entry) → owner (h ++ e ∷ []) ≡ owner_after (owner h) e }
{}

/// One more entry changes pim and assert as a good call that sets them does, or not.
pub fn switches_push()
    ensures { (h : List Entry) (e : Entry)
        → switches (h ++ e ∷ []) ≡ switches_after (switches h) e }
{}

/// The moment goes on by the milliseconds of a tick.
pub fn now_push()
    ensures { (h : List Entry) (e : Entry) → now (h ++ e ∷ []) ≡ now h + milliseconds e }
{}

/// The packets that met entries in one more entry stand behind those before.
pub fn met_push()
    ensures { (h : List Entry) (e : Entry) → met (h ++ e ∷ []) ≡ met h ++ met_in h e }
{}

/// What one more entry adds to the totals of a route.
pub fn route_counts_push()
    ensures packets { (h : List Entry) (e : Entry) (n : ℕ) → (route_counts (h ++ e ∷ []) n).packets
        ≡ (route_counts h n).packets + (route_sums (met_in h e) n).packets }
    ensures bytes { (h : List Entry) (e : Entry) (n : ℕ) → (route_counts (h ++ e ∷ []) n).bytes
        ≡ (route_counts h n).bytes + (route_sums (met_in h e) n).bytes }
    ensures wrong { (h : List Entry) (e : Entry) (n : ℕ) → (route_counts (h ++ e ∷ []) n).wrong
        ≡ (route_counts h n).wrong + (route_sums (met_in h e) n).wrong }
{}

/// What one more entry adds to the totals of a vif.
pub fn vif_counts_push()
    ensures packets_in { (h : List Entry) (e : Entry) (v : VifRecord)
        → (vif_counts (h ++ e ∷ []) v).packets_in
        ≡ (vif_counts h v).packets_in + (vif_sums (met_in h e) v).packets_in }
    ensures packets_out { (h : List Entry) (e : Entry) (v : VifRecord)
        → (vif_counts (h ++ e ∷ []) v).packets_out
        ≡ (vif_counts h v).packets_out + (vif_sums (met_in h e) v).packets_out }
    ensures bytes_in { (h : List Entry) (e : Entry) (v : VifRecord)
        → (vif_counts (h ++ e ∷ []) v).bytes_in
        ≡ (vif_counts h v).bytes_in + (vif_sums (met_in h e) v).bytes_in }
    ensures bytes_out { (h : List Entry) (e : Entry) (v : VifRecord)
        → (vif_counts (h ++ e ∷ []) v).bytes_out
        ≡ (vif_counts h v).bytes_out + (vif_sums (met_in h e) v).bytes_out }
{}

/// The attempts of one more entry stand behind those before, at the moment before the entry.
pub fn attempts_push()
    ensures { (h : List Entry) (e : Entry)
        → attempts_from 0 (h ++ e ∷ []) ≡ attempts_from 0 h ++ attempted_by (now h) e }
{}

/// The reports that one more entry pushes stand behind those before, told in the state before it.
pub fn pushed_push()
    ensures { (limits : Limits) (g h : List Entry) (e : Entry) → pushed limits g (h ++ e ∷ [])
        ≡ pushed limits g h ++ pushed_by limits (state limits (g ++ h)) e }
{}

/// What one more entry does to the counts of entries and to what a lane did last.
pub fn past_push()
    ensures controls { (h : List Entry) (e : Entry)
        → controls (h ++ e ∷ []) ≡ controls h + (if is_control e then 1 else 0) }
    ensures phases { (h : List Entry) (e : Entry)
        → phases (h ++ e ∷ []) ≡ phases h + (if is_end e then 1 else 0) }
    ensures packets { (lane : LaneNo) (h : List Entry) (e : Entry) → packets lane (h ++ e ∷ [])
        ≡ packets lane h + (if is_of_lane lane e then packets_in e else 0) }
    ensures index { (lane : LaneNo) (h : List Entry) (e : Entry)
        → last_index lane (h ++ e ∷ []) ≡ index_after lane (last_index lane h) e }
    ensures look { (lane : LaneNo) (h : List Entry) (e : Entry)
        → last_look lane (h ++ e ∷ []) ≡ look_after lane (last_look lane h) e }
    ensures own { (lane : LaneNo) (h : List Entry) (e : Entry) → last_own lane (h ++ e ∷ [])
        ≡ (if is_of_lane lane e then length h + 1 else last_own lane h) }
    ensures end { (h : List Entry) (e : Entry)
        → last_end (h ++ e ∷ []) ≡ (if is_end e then length h + 1 else last_end h) }
    ensures short { (lane : LaneNo) (h : List Entry) (e : Entry)
        → ends_short lane (h ++ e ∷ []) ≡ ends_short lane (e ∷ []) }
    ensures before_slow { (lane : LaneNo) (h : List Entry) (e : Entry)
        → own_before_slow lane (h ++ e ∷ [])
        ≡ (if ends_short lane (e ∷ []) then last_own lane h else last_own lane (h ++ e ∷ [])) }
{}

/// A packet that waits no longer keeps its fate; one that waits gets what one more entry makes of
/// it.
pub fn fate_push()
    ensures { (limits : Limits) (h : List Entry) (e : Entry) (lane : LaneNo) (index : ℕ)
        → fate limits (h ++ e ∷ []) lane index
        ≡ fate_after (fate limits h lane index) (fate_in limits h e lane index) }
{}

/// The fast records of one more entry stand behind those before that have their look, and an entry
/// that is no Settle stands last.
pub fn unfolded_push()
    ensures fast { (n : ℕ) (h : List Entry) (e : Entry)
        → fast_at n (h ++ e ∷ []) ≡ fast_at n h ++ fast_in n e }
    ensures kept { (h : List Entry) (e : Entry) → is_settle e ≡ false
        → unfolded (h ++ e ∷ []) ≡ unfolded h ++ Kept e ∷ fast_at (length h + 1) h }
    ensures legal { (limits : Limits) (h : List Entry) (e : Entry) → IsLegal limits h
        → is_settle e ≡ false → unfolded (h ++ e ∷ []) ≡ unfolded h ++ Kept e ∷ [] }
{}

/// An entry of no lane leaves a history as lively as it was.
pub fn lively_push()
    ensures { (limits : Limits) (h : List Entry) (e : Entry)
        → is_of_no_lane e ≡ true → lively_from limits [] (h ++ e ∷ []) ≡ lively_from limits [] h }
{}

/// An entry adds what it owes itself to a lively history, where its lane was not left short in this
/// phase, and a Slow also directly behind a Settle of its lane.
pub fn lively_lane_push()
    ensures lane { (limits : Limits) (h : List Entry) (e : Entry)
        → ((lane : LaneNo) → is_of_lane lane e ≡ true → is_left_short lane h ≡ false)
        → lively_from limits [] (h ++ e ∷ [])
        ≡ (lively_from limits [] h && is_lively_at limits h e []) }
    ensures behind { (limits : Limits) (h : List Entry) (lane : LaneNo)
        (records : List FastRecord) (index look : ℕ) (flow : Flow) (o : Outcome)
        → lively_from limits [] (h ++ Settle lane records ∷ Slow lane index look flow o ∷ [])
        ≡ (lively_from limits [] (h ++ Settle lane records ∷ [])
        && is_lively_at limits (h ++ Settle lane records ∷ []) (Slow lane index look flow o) []) }
    ensures short { (lane : LaneNo) (h : List Entry) (e : Entry)
        → is_left_short lane (h ++ e ∷ []) ≡ short_after lane (is_left_short lane h) e }
{}

/// The owner, the switches, the moment and the attempts of the state are those of the history.
pub fn state_agrees()
    ensures owner { (limits : Limits) (h : List Entry) → (state limits h).owner ≡ owner h }
    ensures pim { (limits : Limits) (h : List Entry) → (state limits h).tables.pim ≡ pim h }
    ensures asserts { (limits : Limits) (h : List Entry)
        → (state limits h).tables.asserts ≡ asserts h }
    ensures now { (limits : Limits) (h : List Entry) → (state limits h).now ≡ now h }
    ensures attempts { (limits : Limits) (h : List Entry)
        → (state limits h).attempts ≡ reverse (attempts_from 0 h) }
    ensures attempt { (limits : Limits) (h : List Entry) (n : ℕ)
        → last_attempt (state limits h).attempts n ≡ attempt h n }
{}

/// In a legal history the unread reports of the state are those pushed since the last good MRT_DONE
/// that no receive took; receives take no more than was pushed.
pub fn unread_agrees()
    ensures unread { (limits : Limits) (h : List Entry)
        → IsLegal limits h → (state limits h).unread ≡ unread limits h }
    ensures within { (limits : Limits) (h : List Entry) → IsLegal limits h
        → count_by is_taking (behind_finish h)
        ≤ length (pushed limits (up_to_finish h) (behind_finish h)) }
    ensures splits { (h : List Entry) → up_to_finish h ++ behind_finish h ≡ h }
{}

//! What becomes of a packet that was parked.

ghost use Rattle.std.specs.Prelude.{◌≡◌, ℕ, ◌≤◌, true, if◌then◌else◌, List, ◌∷◌, ◌++◌, count_by};
ghost use Rattle.std.specs.List.{AllByRecursion};
ghost use Rattle.mr_base.specs.declared.numbers.DaemonNo.{DaemonNo};
ghost use Rattle.mr_base.specs.declared.numbers.LaneNo.{LaneNo};
ghost use Rattle.mr_model.specs.declared.ending.Fate.{Fate};
ghost use Rattle.mr_model.specs.declared.entry.Entry.{Entry};
ghost use Rattle.mr_model.specs.declared.entry.Entry.TheVariants.{Call};
ghost use Rattle.mr_model.specs.declared.entry.ReleasedId.{ReleasedId};
ghost use Rattle.mr_model.specs.declared.limits.Limits.{Limits};
ghost use Rattle.mr_model.specs.declared.reply.Reply.{Reply};
ghost use Rattle.mr_model.specs.declared.request.Request.{Request};
ghost use Rattle.mr_model.specs.Fate.{IsFate, fate, fates, was_parked};
ghost use Rattle.mr_model.specs.Legal.{IsLegal};
ghost use Rattle.mr_model.specs.State.{state};
ghost use Rattle.mr_laws.specs.Once.{times_parked, times_waiting, times_released, is_line_of};

/// Of each packet that was parked in a legal history just one fate holds: an entry released it,
/// let it expire or flushed it, or it waits still; and that is the fate which the history gives
/// it. Of no other packet does one hold.
pub fn one_fate()
    ensures has { (limits : Limits) (h : List Entry) (lane : LaneNo) (index : ℕ) →
        IsLegal limits h → was_parked h lane index ≡ true →
        IsFate limits h lane index (fate limits h lane index) }
    ensures only { (limits : Limits) (h : List Entry) (lane : LaneNo) (index : ℕ) (f : Fate) →
        IsLegal limits h → IsFate limits h lane index f → f ≡ fate limits h lane index }
    ensures parked { (limits : Limits) (h : List Entry) (lane : LaneNo) (index : ℕ) (f : Fate) →
        IsLegal limits h → IsFate limits h lane index f → was_parked h lane index ≡ true }
{}

/// The lines of fates with which a legal history ends have one for each packet that was parked, and
/// for no other; and each line's fate holds of its packet.
pub fn fates_hold()
    ensures hold { (limits : Limits) (h : List Entry) →
        IsLegal limits h →
        AllByRecursion (λ x. IsFate limits h x.lane x.index x.fate) (fates limits h) }
    ensures one { (limits : Limits) (h : List Entry) (lane : LaneNo) (index : ℕ) →
        IsLegal limits h →
        count_by (is_line_of lane index) (fates limits h)
        ≡ (if was_parked h lane index then 1 else 0) }
{}

/// In a legal history a packet is parked once at most, waits once at most, and is released once at
/// most by a call; and only what waited is released.
pub fn each_once()
    ensures parked { (limits : Limits) (h : List Entry) (lane : LaneNo) (index : ℕ) →
        IsLegal limits h → times_parked lane index h ≤ 1 }
    ensures waits { (limits : Limits) (h : List Entry) (lane : LaneNo) (index : ℕ) →
        IsLegal limits h → times_waiting lane index (state limits h).waiting ≤ 1 }
    ensures released { (limits : Limits) (g : List Entry) (d : DaemonNo) (r : Request)
        (reply : Reply) (released : List ReleasedId) (h : List Entry) (lane : LaneNo) (index : ℕ) →
        IsLegal limits (g ++ Call d r reply released ∷ h) →
        times_released lane index released ≤ 1 }
    ensures waited { (limits : Limits) (g : List Entry) (d : DaemonNo) (r : Request)
        (reply : Reply) (released : List ReleasedId) (h : List Entry) (lane : LaneNo) (index : ℕ) →
        IsLegal limits (g ++ Call d r reply released ∷ h) →
        times_released lane index released ≤ times_waiting lane index (state limits g).waiting }
{}

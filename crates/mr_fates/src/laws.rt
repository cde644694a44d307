//! Laws of the fates of a history, as a list of lines: what one more entry makes of them.

ghost use Rattle.std.specs.Prelude.{◌≡◌, ℕ, ◌+◌, ◌-◌, ◌<◌, ◌≤◌, true, false, nat_lt};
ghost use Rattle.std.specs.Prelude.{List, [], ◌∷◌, ◌++◌, length, map};
ghost use Rattle.mr_base.specs.declared.numbers.DaemonNo.{DaemonNo};
ghost use Rattle.mr_base.specs.declared.numbers.LaneNo.{LaneNo};
ghost use Rattle.mr_model.specs.declared.ending.Fate.TheVariants.{Expired, Flushed};
ghost use Rattle.mr_model.specs.declared.entry.Entry.{Entry};
ghost use Rattle.mr_model.specs.declared.entry.Entry.TheVariants.{Call, Slow, Tick};
ghost use Rattle.mr_model.specs.declared.entry.ReleasedId.{ReleasedId};
ghost use Rattle.mr_model.specs.declared.flow.Flow.{Flow};
ghost use Rattle.mr_model.specs.declared.limits.Limits.{Limits};
ghost use Rattle.mr_model.specs.declared.outcome.Outcome.TheVariants.{Parked};
ghost use Rattle.mr_model.specs.declared.reply.Reply.TheVariants.{Good};
ghost use Rattle.mr_model.specs.declared.request.Request.{Request};
ghost use Rattle.mr_model.specs.Fate.{fates};
ghost use Rattle.mr_model.specs.Legal.{Agrees, CallAgrees, IsLegal};
ghost use Rattle.mr_model.specs.Past.{packets, last_index};
ghost use Rattle.mr_model.specs.State.{state};
ghost use Rattle.mr_model.specs.Waiting.{waiting};
ghost use Rattle.mr_model.specs.WaitingList.{Awaiting, unexpired};
ghost use Rattle.mr_fates.specs.Lines.{waiting_line, lane_count, IsNext};
ghost use Rattle.mr_fates.specs.After.{line_after, lines_parked, ended_all, released_each};
ghost use Rattle.mr_fates.specs.After.{expired, drops_all, is_without_fates};

/// One more entry that agrees gives each packet that waited the fate which it decides, and the
/// line of the packet that it parks stands last, and waits.
pub fn fates_push()
    ensures { (limits : Limits) (h : List Entry) (e : Entry) →
        IsLegal limits h → Agrees limits h e →
        fates limits (h ++ e ∷ [])
        ≡ map (line_after limits h e) (fates limits h) ++ lines_parked e }
{}

/// What one more entry does to the lines. A packet that is parked gets the last line. A good call
/// gives the packets that it releases their fate; a good MRT_DONE, or MRT_FLUSH with flag 1, gives
/// it to all packets that wait, and a tick to those that then have waited for ten seconds or more
/// (10,000 milliseconds). Every other entry changes no line.
pub fn fates_after()
    ensures parked { (limits : Limits) (h : List Entry) (lane : LaneNo) (index look : ℕ)
        (flow : Flow) →
        IsLegal limits h → Agrees limits h (Slow lane index look flow Parked) →
        fates limits (h ++ Slow lane index look flow Parked ∷ [])
        ≡ fates limits h ++ waiting_line lane index ∷ [] }
    ensures released { (limits : Limits) (h : List Entry) (d : DaemonNo) (r : Request)
        (released : List ReleasedId) →
        IsLegal limits h → CallAgrees limits h d r Good released → drops_all r ≡ false →
        fates limits (h ++ Call d r Good released ∷ [])
        ≡ released_each (length h + 1) released (fates limits h) }
    ensures flushed { (limits : Limits) (h : List Entry) (d : DaemonNo) (r : Request)
        (released : List ReleasedId) →
        IsLegal limits h → CallAgrees limits h d r Good released → drops_all r ≡ true →
        fates limits (h ++ Call d r Good released ∷ [])
        ≡ ended_all (Flushed (length h + 1)) (waiting limits h) (fates limits h) }
    ensures expired { (limits : Limits) (h : List Entry) (d : DaemonNo) (ms : ℕ) →
        IsLegal limits h →
        fates limits (h ++ Tick d ms ∷ [])
        ≡ ended_all (Expired (length h + 1))
        (expired ((state limits h).now + ms) (waiting limits h)) (fates limits h) }
    ensures other { (limits : Limits) (h : List Entry) (e : Entry) →
        is_without_fates e ≡ true → fates limits (h ++ e ∷ []) ≡ fates limits h }
{}

/// A lane's lines have indexes up to its last one, and there are no more of them than the lane has
/// packets in the history.
pub fn lines_of_lane()
    ensures next { (limits : Limits) (h : List Entry) (lane : LaneNo) (index : ℕ) →
        IsLegal limits h → last_index lane h < index → IsNext lane index (fates limits h) }
    ensures fit { (limits : Limits) (h : List Entry) (lane : LaneNo) →
        lane_count lane (fates limits h) ≤ packets lane h }
{}

/// The waiting entries that have waited for ten seconds or more, one after another: the first one
/// of a list comes first, where it has, and where only entries are left that have not, there is
/// none.
pub fn expired_in_turn()
    ensures next { (now : ℕ) (a : Awaiting) (waiting : List Awaiting) →
        nat_lt (now - a.since) 10000 ≡ false →
        expired now (a ∷ waiting) ≡ a ∷ expired now waiting }
    ensures none { (now : ℕ) (waiting : List Awaiting) →
        unexpired now waiting ≡ waiting → expired now waiting ≡ [] }
{}

//! Laws of the state after a legal history.

ghost use Rattle.std.specs.Prelude.{◌≡◌, Bool, true, false, List, [], ◌∷◌, ◌++◌};
ghost use Rattle.std.specs.List.{list_any};
ghost use Rattle.mr_base.specs.declared.numbers.DaemonNo.{DaemonNo};
ghost use Rattle.mr_model.specs.declared.entry.Entry.{Entry};
ghost use Rattle.mr_model.specs.declared.entry.ReleasedId.{ReleasedId};
ghost use Rattle.mr_model.specs.declared.limits.Limits.{Limits};
ghost use Rattle.mr_model.specs.declared.reply.Reply.{Reply};
ghost use Rattle.mr_model.specs.declared.reply.Reply.TheVariants.{Good};
ghost use Rattle.mr_model.specs.declared.request.Request.{Request};
ghost use Rattle.mr_model.specs.Answer.{released_in};
ghost use Rattle.mr_model.specs.Legal.{Agrees, CallAgrees, IsLegal};
ghost use Rattle.mr_model.specs.State.{state};
ghost use Rattle.mr_laws.specs.Served.{is_served};

/// A test that the empty history passes, and that still passes after one more entry that agrees,
/// is passed by each legal history.
pub fn legal_induction()
    ensures { (limits : Limits) (test : List Entry → Bool) →
        test [] ≡ true →
        ((g : List Entry) (e : Entry) →
        IsLegal limits g → Agrees limits g e → test g ≡ true → test (g ++ e ∷ []) ≡ true) →
        (h : List Entry) → IsLegal limits h → test h ≡ true }
{}

/// A good call releases the packets that the state before it says, any other call none.
pub fn call_releases()
    ensures good { (limits : Limits) (g : List Entry) (d : DaemonNo) (r : Request)
        (released : List ReleasedId) →
        CallAgrees limits g d r Good released →
        released ≡ released_in limits (state limits g) d r }
    ensures other { (limits : Limits) (g : List Entry) (d : DaemonNo) (r : Request) (reply : Reply)
        (released : List ReleasedId) →
        (reply ≡ Good → ⊥) → CallAgrees limits g d r reply released → released ≡ [] }
{}

/// No packet waits for an (S,G) entry that is live.
pub fn none_waits_served()
    ensures { (limits : Limits) (h : List Entry) →
        IsLegal limits h →
        list_any (is_served (state limits h).tables.routes) (state limits h).waiting ≡ false }
{}

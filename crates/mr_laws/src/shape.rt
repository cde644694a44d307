//! The shape of what waits and of what is unread.

ghost use Rattle.std.specs.Prelude.{◌≤◌, List, length};
ghost use Rattle.std.specs.List.{AllByRecursion};
ghost use Rattle.mr_model.specs.declared.entry.Entry.{Entry};
ghost use Rattle.mr_model.specs.declared.limits.Limits.{Limits};
ghost use Rattle.mr_model.specs.Legal.{IsLegal};
ghost use Rattle.mr_model.specs.State.{state};
ghost use Rattle.mr_laws.specs.Shape.{KeysDiffer, HasPackets, HasItsOwn, MomentsRise, IsYoung};

/// The waiting records of a legal history: at most as many as the limits have, each of another
/// source and group, with 1 to 4 packets of them. They stand in the order of their moments, all
/// within the last ten seconds (milliseconds less than 10,000 ago). At most 64 reports are unread.
pub fn waiting_shape()
    ensures room { (limits : Limits) (h : List Entry) →
        IsLegal limits h → length (state limits h).waiting ≤ limits.unresolved }
    ensures keys { (limits : Limits) (h : List Entry) →
        IsLegal limits h → KeysDiffer (state limits h).waiting }
    ensures packets { (limits : Limits) (h : List Entry) →
        IsLegal limits h → AllByRecursion HasPackets (state limits h).waiting }
    ensures own { (limits : Limits) (h : List Entry) →
        IsLegal limits h → AllByRecursion HasItsOwn (state limits h).waiting }
    ensures order { (limits : Limits) (h : List Entry) →
        IsLegal limits h → MomentsRise 0 (state limits h).waiting }
    ensures young { (limits : Limits) (h : List Entry) →
        IsLegal limits h → AllByRecursion (IsYoung (state limits h).now) (state limits h).waiting }
    ensures unread { (limits : Limits) (h : List Entry) →
        IsLegal limits h → length (state limits h).unread ≤ 64 }
{}

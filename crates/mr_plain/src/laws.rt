//! What looks add to an entry that follows.

ghost use Rattle.std.specs.Prelude.{List};
ghost use Rattle.mr_model.specs.declared.entry.Entry.{Entry};
ghost use Rattle.mr_model.specs.declared.limits.Limits.{Limits};
ghost use Rattle.mr_model.specs.Legal.{Agrees};
ghost use Rattle.mr_plain.specs.Following.{Follows, LooksAgree};

/// An entry agrees with a history exactly where it follows and its looks agree.
pub fn looks_aside()
    ensures follows { (limits : Limits) (g : List Entry) (e : Entry) →
        Agrees limits g e → Follows limits g e }
    ensures looks { (limits : Limits) (g : List Entry) (e : Entry) →
        Agrees limits g e → LooksAgree limits g e }
    ensures agrees { (limits : Limits) (g : List Entry) (e : Entry) →
        Follows limits g e → LooksAgree limits g e → Agrees limits g e }
{}

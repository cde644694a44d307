//! Laws on the entries of one author, for those who put the parts of several callers together.

ghost use Rattle.std.specs.Prelude.{◌≡◌, ◌≢◌, ℕ, ◌==◌, false, List, [], ◌∷◌, ◌++◌, flat_map};
ghost use Rattle.mr_base.specs.declared.numbers.DaemonNo.{DaemonNo};
ghost use Rattle.mr_base.specs.declared.numbers.LaneNo.{LaneNo};
ghost use Rattle.mr_model.specs.declared.entry.Entry.{Entry};
ghost use Rattle.mr_model.specs.declared.limits.Limits.{Limits};
ghost use Rattle.mr_model.specs.Legal.{IsDaemon, IsLane, IsLegal};
ghost use Rattle.mr_model.specs.Past.{packets, last_index, last_look, phases};
ghost use Rattle.mr_authors.specs.Authors.{author, daemon_author, own};

/// Parts of a history are taken one behind the other, and an author's entry is one more of its own.
pub fn own_grows()
    ensures append { (n : ℕ) (g h : List Entry) → own n (g ++ h) ≡ own n g ++ own n h }
    ensures push { (n : ℕ) (h : List Entry) (e : Entry) → author e ≡ n
        → own n (h ++ e ∷ []) ≡ own n h ++ e ∷ [] }
{}

/// What is nothing for the entries of others is found in the entries of the author alone.
pub fn own_gathers<X>()
    ensures { (f : Entry → List X) (n : ℕ)
        → ((e : Entry) → (author e == n) ≡ false → f e ≡ [])
        → (h : List Entry) → flat_map f (own n h) ≡ flat_map f h }
{}

/// A lane's own entries tell how many packets it has, and its last index and look; the router's own
/// tell how many phases have ended.
pub fn own_tells()
    ensures packets { (lane : LaneNo) (h : List Entry)
        → packets lane (own lane.0 h) ≡ packets lane h }
    ensures index { (lane : LaneNo) (h : List Entry)
        → last_index lane (own lane.0 h) ≡ last_index lane h }
    ensures look { (lane : LaneNo) (h : List Entry)
        → last_look lane (own lane.0 h) ≡ last_look lane h }
    ensures phases { (h : List Entry) → phases (own 0 h) ≡ phases h }
{}

/// A legal history has entries of the router and of the limits' lanes and daemons alone.
pub fn own_of_nobody()
    ensures { (limits : Limits) (n : ℕ) (h : List Entry) → n ≢ 0
        → ((lane : LaneNo) → IsLane limits lane → lane.0 ≢ n)
        → ((d : DaemonNo) → IsDaemon limits d → daemon_author d.0 ≢ n)
        → IsLegal limits h → own n h ≡ [] }
{}

/// Where nobody has added an entry, there is no further one.
pub fn own_ends()
    ensures { (h more : List Entry) → ((n : ℕ) → own n (h ++ more) ≡ own n h) → more ≡ [] }
{}

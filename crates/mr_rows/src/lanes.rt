//! Packets that are forwarded without the lock, and several lanes.

ghost use Rattle.std.specs.Prelude.{◌≡◌};
ghost use Rattle.mr_model.specs.Counts.{route_counts};
ghost use Rattle.mr_model.specs.Ending.{ending};
ghost use Rattle.mr_model.specs.Legal.{IsLegal};
ghost use Rattle.mr_model.specs.Lively.{IsLively};
ghost use Rattle.mr_model.specs.Unfolded.{unfolded};
ghost use Rattle.mr_rows.specs.FullSettle as full_settle;
ghost use Rattle.mr_rows.specs.NothingHappens as nothing;
ghost use Rattle.mr_rows.specs.OldLooks as looks;
ghost use Rattle.mr_rows.specs.Samples.{route_totals};
ghost use Rattle.mr_rows.specs.TwoLanes as lanes;

/// One phase without a call or a packet is a history, and leaves nothing.
pub fn nothing_happens()
    ensures legal { IsLegal nothing.limits nothing.history }
    ensures lively { IsLively nothing.limits nothing.history }
    ensures ending { ending nothing.limits nothing.history ≡ nothing.tail }
{}

/// A packet of one lane is forwarded without the lock while one of another lane misses. Both orders
/// are legal and lively, and both end alike. The packet that waited is released with its own lane's
/// number.
pub fn two_lanes()
    ensures legal { IsLegal lanes.limits lanes.history }
    ensures lively { IsLively lanes.limits lanes.history }
    ensures ending { ending lanes.limits lanes.history ≡ lanes.tail }
    ensures other_legal { IsLegal lanes.limits lanes.other_history }
    ensures other_lively { IsLively lanes.limits lanes.other_history }
    ensures other_ending { ending lanes.limits lanes.other_history ≡ lanes.tail }
{}

/// A lane's packets are counted by 64 at most at a time, and a full count may be followed by
/// another one.
pub fn full_settle()
    ensures legal { IsLegal full_settle.limits full_settle.history }
    ensures lively { IsLively full_settle.limits full_settle.history }
    ensures ending { ending full_settle.limits full_settle.history ≡ full_settle.tail }
    ensures slow_after { IsLegal full_settle.limits full_settle.slow_after }
    ensures overfull { IsLegal full_settle.limits full_settle.overfull → ⊥ }
{}

/// A packet is forwarded by what its look had seen, also where its entry is gone when it is
/// counted. It is a step behind that look, counts for its entry from its counting on, and for no
/// vif that was made after its look.
pub fn old_looks()
    ensures legal { IsLegal looks.limits looks.history }
    ensures lively { IsLively looks.limits looks.history }
    ensures ending { ending looks.limits looks.history ≡ looks.tail }
    ensures unfolded { unfolded looks.history ≡ looks.steps }
    ensures entry { route_counts looks.history 4 ≡ route_totals 2 56 0 }
    ensures gone { IsLegal looks.limits looks.gone → ⊥ }
    ensures falling { IsLegal looks.limits looks.falling → ⊥ }
{}

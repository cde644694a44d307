//! Worked histories, on which the definitions are evaluated.

ghost use Rattle.std.specs.Prelude.{◌≡◌, length};
ghost use Rattle.mr_model.specs.Legal.{IsLegal};
ghost use Rattle.mr_one_text.specs.Bare.{bare};
ghost use Rattle.mr_one_text.specs.Room.{room};
ghost use Rattle.mr_one_text.specs.Turns.{turns};
ghost use Rattle.mr_one_text.specs.Worked as worked;

/// One entry of each kind has its turn, and stands without its flows. A history is another one than
/// that without its flows, and has other turns than with another look.
pub fn each_kind()
    ensures turns { turns worked.history ≡ worked.history_turns }
    ensures bare { bare worked.history ≡ worked.without_flows }
    ensures flows_count { worked.history ≡ worked.without_flows → ⊥ }
    ensures looks_count { turns worked.history ≡ turns worked.other_look → ⊥ }
{}

/// A legal history may take all the room that the limits leave.
pub fn all_room_taken()
    ensures legal { IsLegal worked.full_limits worked.full }
    ensures all { length worked.full ≡ room worked.full_limits }
{}

//! A worked row of the definitions.

ghost use Rattle.std.specs.Prelude.{[], ◌∷◌};
ghost use Rattle.mr_model.specs.Legal.{SettleAgrees};
ghost use Rattle.mr_kernel_rows.specs.Late.{calls, late, limits};
ghost use Rattle.mr_kernel_rows.specs.Ready.{lane_1};

/// The late packet may be settled behind the calls. It does nothing.
pub fn worked_late()
    ensures { SettleAgrees limits calls lane_1 (late ∷ []) }
{}

use crate::numbers::Failed;

/// A place that takes bytes, as standard output.
pub trait Sink {
    ghost use Rattle.std.specs.Prelude.{◌≡◌, ◌≤◌, ℕ, Option, List, OnOk, OnErr};
    ghost use Rattle.mr_base.specs.Outside.{Rose, Takes, TakesPrefix};

    // The bytes taken so far, if the sink tells.
    ghost taken: { Self → Option (List ℕ) };

    // How many calls failed; it stops at its highest value, 2^64 - 1.
    ghost faults: { Self → ℕ };

    /// Appends all bytes to those taken.
    ///
    /// # Errors
    ///
    /// [`Failed`] where not all bytes were taken; a prefix of them was appended then.
    fn put(&mut self, bytes: &[u8]) -> Result<(), Failed>
        ensures all { OnOk result (Takes (taken self.old) bytes.now (taken self.new)) }
        ensures prefix { OnErr result (TakesPrefix (taken self.old) bytes.now (taken self.new)) }
        ensures count { faults self.old ≤ faults self.new }
        ensures good { OnOk result (faults self.new ≡ faults self.old) }
        ensures fault { OnErr result (Rose (faults self.old) (faults self.new)) };
}

use crate::numbers::Failed;

/// A connection: bytes come in and are sent back.
pub trait Link {
    ghost use Rattle.std.specs.Prelude.{◌≡◌, ◌≤◌, ◌⊎◌, ℕ, Option, List, [], Ok, IfOk, OnOk, OnErr};
    ghost use Rattle.std.specs.Prelude.{IfSome, length, take};
    ghost use Rattle.mr_base.specs.Outside.{Rose, Takes, TakesPrefix, Gives};

    // The bytes that are still to come, if the link tells.
    ghost to_come: { Self → Option (List ℕ) };

    // The bytes taken so far, if the link tells.
    ghost taken: { Self → Option (List ℕ) };

    // How many calls failed; it stops at its highest value, 2^64 - 1.
    ghost faults: { Self → ℕ };

    /// Moves the next bytes to the front of `space` and gives their number, which is 0 only where
    /// no byte is to come or `space` is empty.
    ///
    /// # Errors
    ///
    /// [`Failed`] where the bytes could not be read; nothing is said of those to come then.
    fn get(&mut self, space: &mut [u8]) -> Result<usize, Failed>
        ensures at_most { IfOk result (λ n. n ≤ length space.old) }
        ensures moved { IfOk result (λ n.
            Gives (to_come self.old) (take n space.new) (to_come self.new)) }
        ensures end { result ≡ Ok 0
            → (space.old ≡ []) ⊎ IfSome (to_come self.old) (λ bytes. bytes ≡ []) }
        ensures kept { taken self.new ≡ taken self.old }
        ensures count { faults self.old ≤ faults self.new }
        ensures good { IfOk result (λ _. faults self.new ≡ faults self.old) }
        ensures fault { OnErr result (Rose (faults self.old) (faults self.new)) };

    /// Appends all bytes to those taken.
    ///
    /// # Errors
    ///
    /// [`Failed`] where not all bytes were taken; a prefix of them was appended then.
    fn put(&mut self, bytes: &[u8]) -> Result<(), Failed>
        ensures all { OnOk result (Takes (taken self.old) bytes.now (taken self.new)) }
        ensures prefix { OnErr result (TakesPrefix (taken self.old) bytes.now (taken self.new)) }
        ensures kept { to_come self.new ≡ to_come self.old }
        ensures count { faults self.old ≤ faults self.new }
        ensures good { OnOk result (faults self.new ≡ faults self.old) }
        ensures fault { OnErr result (Rose (faults self.old) (faults self.new)) };
}

use crate::numbers::Failed;
use crate::read_error::ReadError;
use std::alloc::Global;

/// A place of files, each known by a name of 1 to 255 bytes.
pub trait Store {
    ghost use Rattle.std.specs.Prelude.{◌≡◌, ◌≤◌, ◌^◌, ℕ, Option, None, IfOk, OnOk, OnErr, IfSome};
    ghost use Rattle.std.specs.Prelude.{IsErrOf, List, [], ◌∷◌, ◌++◌, length, true, false};
    ghost use Rattle.mr_base.specs.Outside.{Files, LastCall, Rose, AllStay, OthersStay, HasFile};
    ghost use Rattle.mr_base.specs.Outside.{is_failed, is_failed_read};
    ghost use Rattle.mr_base.specs.declared.store_call.StoreCall.{StoreCall};
    ghost use Rattle.mr_base.specs.declared.read_error.ReadError.TheVariants as read_error;

    // The bytes of each file by name, if the store tells.
    ghost told: { Self → Option Files };

    // How many calls failed; it stops at its highest value, 2^64 - 1.
    ghost faults: { Self → ℕ };

    // The last call: a read or a write, of which name, and whether it answered `Failed`.
    ghost last: { Self → LastCall };

    // All calls so far, for clauses alone: objects keep them in a `Log`, which takes no memory.
    ghost calls: { Self → List StoreCall };

    /// The bytes of a file.
    ///
    /// # Errors
    ///
    /// `Failed` where the file is not there or could not be read, and `Memory` where memory runs
    /// out.
    fn read(&mut self, alloc: Global, name: &str) -> Result<Vec<u8>, ReadError>
        requires named { 1 ≤ length name.now }
        requires fits { length name.now ≤ 255 }
        ensures bytes { IfOk result (λ v. HasFile (told self.old) name.now v.items) }
        ensures absent { IfSome (told self.old) (λ files.
            files name.now ≡ None → IsErrOf result read_error.Failed) }
        ensures stays { AllStay (told self.old) (told self.new) }
        ensures count { faults self.old ≤ faults self.new }
        ensures fault { IsErrOf result read_error.Failed
            → Rose (faults self.old) (faults self.new) }
        ensures good { is_failed_read result ≡ false → faults self.new ≡ faults self.old }
        ensures facts { last self.new
            ≡ record { is_read = true; name = name.now; failed = is_failed_read result } }
        ensures called { calls self.new ≡ calls self.old
            ++ record { is_read = true; name = name.now; failed = is_failed_read result } ∷ [] };

    /// Sets the bytes of a file, which may be new.
    ///
    /// # Errors
    ///
    /// [`Failed`] where the bytes could not be written; the file may then have any.
    fn write(&mut self, name: &str, bytes: &[u8]) -> Result<(), Failed>
        requires named { 1 ≤ length name.now }
        requires fits { length name.now ≤ 255 }
        ensures bytes { OnOk result (HasFile (told self.new) name.now bytes.now) }
        ensures others { OthersStay name.now (told self.old) (told self.new) }
        ensures count { faults self.old ≤ faults self.new }
        ensures fault { OnErr result (Rose (faults self.old) (faults self.new)) }
        ensures good { OnOk result (faults self.new ≡ faults self.old) }
        ensures facts { last self.new
            ≡ record { is_read = false; name = name.now; failed = is_failed result } }
        ensures called { calls self.new ≡ calls self.old
            ++ record { is_read = false; name = name.now; failed = is_failed result } ∷ [] };
}

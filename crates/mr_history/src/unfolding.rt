//! The history with each fast record as a step of its own.

ghost use Rattle.std.specs.Prelude.{◌≡◌, IfOk};
ghost use Rattle.mr_model.specs.Unfolded.{unfolded};

use crate::journal::Journal;
use crate::merging::{fast_records, merge};
use crate::store::Store;
use mr_base::Memory;
use mr_model::Step;
use std::alloc::{AllocError, Global};

impl Journal {
    /// The unfolded history: each fast record stands behind the entries that its look had seen, in
    /// settle order. One sort by looks.
    ///
    /// # Errors
    ///
    /// [`Memory`] where memory runs out.
    pub fn unfold(&self, alloc: Global) -> Result<Vec<Step>, Memory>
        ensures { IfOk result (λ steps. steps.items ≡ unfolded self.now.entries) }
    {
        match unfolded_of(alloc, &self.store) {
            Ok(steps) => Ok(steps),
            Err(_) => Err(Memory),
        }
    }
}

/// The unfolded history of the entries that are kept.
fn unfolded_of(alloc: Global, store: &Store) -> Result<Vec<Step>, AllocError>
    ensures { IfOk result (λ steps. steps.items ≡ unfolded store.now.entries) }
{
    let mut fast = fast_records(alloc, store)?;
    fast.sort_by_key(|p| p.fast.look)?;
    merge(alloc, store, fast.as_slice())
}

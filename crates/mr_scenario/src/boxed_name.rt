ghost use Rattle.std.specs.Prelude.{◌≡◌, ◌≤◌, IfOk, length};

use mr_base::FileName;
use std::alloc::{AllocError, AllocFailed, Global};
use std::marker::Model;

/// The name of a file on the heap, at most 255 bytes, which contracts see as its bytes. An item is
/// small with it.
#[derive(Debug, Drop)]
pub struct BoxedName(Box<FileName>);

impl Model for BoxedName {
    ghost use Rattle.std.specs.Prelude.{List, ℕ, box_value};

    ghost Value = { List ℕ };

    ghost view = { λ a. box_value a.0 };
}

impl BoxedName {
    /// This name.
    pub fn new(alloc: Global, name: FileName) -> Result<Self, AllocFailed<FileName>>
        ensures { IfOk result (λ r. r ≡ name) }
    {
        Ok(BoxedName(Box::new(alloc, name)?))
    }

    /// The name as a text.
    pub fn as_str(&self) -> &str
        ensures value { result.now ≡ self.now }
        ensures fits { length result.now ≤ 255 }
    {
        self.0.as_str()
    }
}

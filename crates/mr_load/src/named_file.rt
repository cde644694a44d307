//! The names of files, by which what was read of them is found.

ghost use Rattle.std.specs.Prelude.{◌≡◌, ◌≤◌, length, bytes_eq};
ghost use Rattle.std.proofs.Common.{rules};
ghost use Rattle.std.specs.Cmp.Rules.{comparing, hashing};

use mr_base::FileName;
use std::hash::{Hash, Hasher};
use std::marker::Model;

/// The name of a file, at most 255 bytes, which contracts see as its bytes.
#[derive(Debug, Drop)]
pub(crate) struct NamedFile(FileName);

impl Model for NamedFile {
    ghost use Rattle.std.specs.Prelude.{List, ℕ};

    ghost Value = { List ℕ };

    ghost view = { λ a. a.0 };
}

impl NamedFile {
    /// This name.
    pub(crate) fn new(name: &str) -> NamedFile
        requires { length name.now ≤ 255 }
        ensures { result ≡ name.now }
    {
        NamedFile(FileName::new(name))
    }

    /// The name as a text.
    pub(crate) fn as_str(&self) -> &str
        ensures value { result.now ≡ self.now }
        ensures fits { length result.now ≤ 255 }
    {
        self.0.as_str()
    }
}

impl PartialEq for NamedFile {
    ghost eq = { bytes_eq };

    ghost laws = { Prim.search (comparing, rules) };

    fn eq(&self, other: &NamedFile) -> bool {
        self.as_str() == other.as_str()
    }
}

impl Eq for NamedFile {
    ghost laws = { Prim.search (comparing, rules) };
}

impl Hash for NamedFile {
    ghost use Rattle.std.specs.Hash as fed;

    ghost hash_input = { λ k. fed.str k };

    ghost respects_eq = { Prim.search (hashing, rules) };

    fn hash<H: Hasher>(&self, state: &mut H) {
        self.as_str().hash(state);
    }
}

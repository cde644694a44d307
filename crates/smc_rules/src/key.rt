//! What names a rule or a group.

ghost use Rattle.std.proofs.Common.{rules};
ghost use Rattle.std.specs.Cmp.Rules.{comparing, hashing};

use mr_base::FileName;
use smc_conf::Prefix;
use std::hash::{Hash, Hasher};

/// The interface on which packets come, a prefix of their sources and one of their groups.
#[derive(Debug, Drop)]
pub struct Key {
    /// The name of the interface.
    pub input: FileName,
    pub source: Prefix,
    pub group: Prefix,
}

impl PartialEq for Key {
    ghost use Rattle.smc_rules.specs.Keys.{same_key};

    ghost eq = { same_key };

    ghost laws = { Prim.search (comparing, rules) };

    fn eq(&self, other: &Key) -> bool {
        self.input == other.input && self.source == other.source && self.group == other.group
    }
}

impl Eq for Key {
    ghost laws = { Prim.search (comparing, rules) };
}

impl Hash for Key {
    ghost use Rattle.std.specs.Prelude.{◌++◌};
    ghost use Rattle.std.specs.Hash as fed;

    ghost hash_input = { λ k. fed.str k.input ++ fed.u32 k.source.addr.0 ++ fed.u8 k.source.len
        ++ fed.u32 k.group.addr.0 ++ fed.u8 k.group.len };

    ghost respects_eq = { Prim.search (hashing, rules) };

    fn hash<H: Hasher>(&self, state: &mut H) {
        self.input.as_str().hash(state);
        self.source.addr.0.hash(state);
        self.source.len.hash(state);
        self.group.addr.0.hash(state);
        self.group.len.hash(state);
    }
}

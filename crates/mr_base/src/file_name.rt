ghost use Rattle.std.specs.Prelude.{◌≡◌, ◌≤◌, length, nat_eq};
ghost use Rattle.std.specs.Cmp.Lexicographic.{pointwise, nat_list_eq_equiv};
ghost use Rattle.std.specs.Cmp.{partial_equiv_from_equiv};

use arrayvec::ArrayString;
use std::alloc::AllocError;
use std::marker::Model;

/// The name of a file or a device, at most 255 bytes, which contracts see as its bytes.
#[derive(Debug, Drop)]
pub struct FileName(pub ArrayString<255>);

impl Model for FileName {
    ghost use Rattle.std.specs.Prelude.{List, ℕ};

    ghost Value = { List ℕ };

    ghost view = { λ a. a.0.bytes };
}

impl FileName {
    /// This name.
    pub fn new(name: &str) -> Self
        requires { length name.now ≤ 255 }
        ensures { result ≡ name.now }
    {
        let mut text = ArrayString::new();
        text.push_str(name);
        FileName(text)
    }

    /// The name as a text.
    pub fn as_str(&self) -> &str
        ensures value { result.now ≡ self.now }
        ensures fits { length result.now ≤ 255 }
    {
        self.0.as_str()
    }
}

impl Clone for FileName {
    ghost is_clone = { λ v w. w ≡ v };

    fn clone(&self) -> Result<Self, AllocError> {
        Ok(FileName::new(self.as_str()))
    }
}

impl PartialEq for FileName {
    ghost eq = { pointwise nat_eq };

    ghost laws = { partial_equiv_from_equiv nat_list_eq_equiv };

    fn eq(&self, other: &Self) -> bool {
        self.as_str() == other.as_str()
    }
}

impl Eq for FileName {
    ghost laws = { nat_list_eq_equiv };
}

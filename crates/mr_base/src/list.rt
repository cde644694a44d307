ghost use Rattle.std.specs.Prelude.{◌≡◌};
ghost use Rattle.std.specs.Cmp.Lexicographic.{pointwise, lists_per, lists_equiv};

use std::alloc::AllocError;
use std::marker::Model;

/// A `Vec` that contracts see as the list of its elements, also where it stands in a field.
#[derive(Debug, Drop)]
pub struct List<X>(pub Vec<X>);

impl<X> Model for List<X> {
    ghost use Rattle.std.specs.Prelude.{List as Items};
    ghost use Rattle.std.specs.Coded.{coded_list};

    ghost Value = { Items X };

    ghost coded = { coded_list X.code };

    ghost view = { λ a. a.0.items };
}

impl<X: Copy> Clone for List<X> {
    ghost is_clone = { λ v w. w ≡ v };

    fn clone(&self) -> Result<Self, AllocError> {
        Ok(List(Vec::from_slice(*self.0.allocator(), self.0.as_slice())?))
    }
}

impl<X: PartialEq> PartialEq for List<X> {
    ghost eq = { λ v w. pointwise X.eq v w };

    ghost laws = { lists_per X.laws };

    fn eq(&self, other: &Self) -> bool {
        self.0.as_slice() == other.0.as_slice()
    }
}

impl<X: Eq> Eq for List<X> {
    ghost laws = { lists_equiv X.Eq.laws };
}

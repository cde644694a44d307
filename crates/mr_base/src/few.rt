ghost use Rattle.std.specs.Prelude.{◌≡◌, ◌≤◌, [], length};
ghost use Rattle.std.specs.Cmp.Lexicographic.{pointwise, lists_per, lists_equiv};

use arrayvec::ArrayVec;
use std::alloc::AllocError;
use std::marker::Model;

/// At most N elements in place: an `ArrayVec` that contracts see as a list, also where it stands in
/// a field. It takes no memory.
#[derive(Debug, Drop)]
pub struct Few<X, const N: usize>(pub ArrayVec<X, N>);

impl<X, const N: usize> Model for Few<X, N> {
    ghost use Rattle.std.specs.Prelude.{List as Items};
    ghost use Rattle.std.specs.Coded.{coded_list};

    ghost Value = { Items X };

    ghost coded = { coded_list X.code };

    ghost view = { λ a. a.0.items };
}

impl<X: Default, const N: usize> Default for Few<X, N> {
    ghost is_default = { λ v. v ≡ [] };

    fn default() -> Self {
        Few(ArrayVec::new())
    }
}

impl<X: Copy + Default + Drop, const N: usize> Few<X, N> {
    /// The elements of a slice of at most N.
    pub fn from_slice(xs: &[X]) -> Self
        requires { length xs.now ≤ N }
        ensures { result ≡ xs.now }
    {
        match ArrayVec::try_from(xs) {
            Ok(items) => Few(items),
            Err(_) => unreachable!(),
        }
    }
}

impl<X: Copy + Default + Drop, const N: usize> Clone for Few<X, N> {
    ghost is_clone = { λ v w. w ≡ v };

    fn clone(&self) -> Result<Self, AllocError> {
        Ok(Few::from_slice(self.0.as_slice()))
    }
}

impl<X: PartialEq, const N: usize> PartialEq for Few<X, N> {
    ghost eq = { λ v w. pointwise X.eq v w };

    ghost laws = { lists_per X.laws };

    fn eq(&self, other: &Self) -> bool {
        self.0.as_slice() == other.0.as_slice()
    }
}

impl<X: Eq, const N: usize> Eq for Few<X, N> {
    ghost laws = { lists_equiv X.Eq.laws };
}

//! A history that only clauses read. It takes no memory, and its methods do nothing at run time.
ghost use Rattle.std.specs.Prelude.{◌≡◌, List, [], ◌∷◌, ◌++◌};
ghost use Rattle.std.specs.Borrow.{ftrue};

use std::marker::{Model, PhantomData};

/// Values in the order in which they were added, which clauses read as `items` and no code can
/// read.
#[derive(Drop)]
pub struct Log<A> {
    of: PhantomData<A>,
    pub ghost items: { List A },
}

impl<A> Model for Log<A> {
    ghost also_owns = { λ _. ftrue };
}

// It owns nothing.
unsafe impl<A: Send> Send for Log<A> {}

impl<A> Log<A> {
    /// An empty history.
    pub fn new() -> Log<A>
        ensures { result.items ≡ [] }
    {
        Log { of: PhantomData }
    }

    /// This history with one value more, at its end.
    pub fn with(&self, value: &A) -> Log<A>
        ensures { result.items ≡ self.now.items ++ value.now ∷ [] }
    {
        Log { of: PhantomData }
    }
}

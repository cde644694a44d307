/// A clock. It cannot fail.
pub trait Clock {
    ghost use Rattle.std.specs.Prelude.{◌≡◌, ℕ, Option, Some, List, IfSome, slice_get};
    ghost use Rattle.std.specs.Option.{option_map};
    ghost use Rattle.mr_base.specs.Outside.{later_numbers};

    // The numbers that the clock will give, one or more, if it tells. The last is given again and
    // again.
    ghost numbers: { Self → Option (List ℕ) };

    /// The time in milliseconds.
    fn now_ms(&mut self) -> u64
        ensures first { IfSome (numbers self.old) (λ ns. slice_get ns 0 ≡ Some result) }
        ensures later { numbers self.new ≡ option_map later_numbers (numbers self.old) };
}

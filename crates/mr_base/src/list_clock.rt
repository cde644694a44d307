ghost use Rattle.std.specs.Prelude.{◌≡◌, ◌<◌, Some, length};

use crate::clock::Clock;

/// A clock that gives the numbers of a list, and the last one again and again. It tells.
#[derive(Drop)]
pub struct ListClock {
    numbers: Vec<u64>,
    at: usize,
    ghost in_list: { at < length numbers.items },
}

impl ListClock {
    /// A clock that gives these numbers, one or more, in milliseconds.
    pub fn with(numbers: Vec<u64>) -> Self
        requires { 0 < length numbers.items }
        ensures { ⟦<ListClock as Clock>⟧.numbers result ≡ Some numbers.items }
    {
        ListClock { numbers, at: 0 }
    }
}

impl Clock for ListClock {
    ghost use Rattle.std.specs.Prelude.{Some, drop};

    ghost numbers = { λ c. Some (drop c.at c.numbers.items) };

    fn now_ms(&mut self) -> u64 {
        let number = self.numbers[self.at];
        if self.at + 1 < self.numbers.len() {
            self.at += 1;
        }
        number
    }
}

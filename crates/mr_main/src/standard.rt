ghost use Rattle.std.specs.Prelude.{◌≡◌, None};

use mr_base::{Failed, Sink};
use std::io;
use std::io::Write;

/// Standard output. It tells nothing of what it took.
#[derive(Drop)]
pub struct StandardOutput<'a, R: Print> {
    rt: &'a R,
    faults: u64,
}

impl<'a, R: Print> StandardOutput<'a, R> {
    pub fn new(rt: &'a R) -> Self {
        StandardOutput { rt, faults: 0 }
    }
}

impl<'a, R: Print> Sink for StandardOutput<'a, R> {
    ghost use Rattle.std.specs.Prelude.{None};

    ghost taken = { λ s. None };

    ghost faults = { λ s. s.faults };

    fn put(&mut self, bytes: &[u8]) -> Result<(), Failed> {
        match io::writer(self.rt).write_all(bytes) {
            Ok(()) => Ok(()),
            Err(_) => {
                self.faults = self.faults.saturating_add(1);
                Err(Failed)
            }
        }
    }
}

ghost use Rattle.std.specs.Prelude.{◌≡◌, ◌≤◌, Some, OnOk, OnErr, []};
ghost use Rattle.mr_base.specs.Outside.{Rose, Takes};

use crate::numbers::Failed;
use crate::sink::Sink;
use std::alloc::Global;

/// A sink in memory, which tells.
#[derive(Drop)]
pub struct MemSink {
    bytes: Vec<u8>,
    faults: u64,
}

impl MemSink {
    /// A sink that took nothing. `fails` has the numbers, from 1, of the calls that are to fail;
    /// for now it has to be empty.
    pub fn with(alloc: Global, fails: Vec<u64>) -> Self
        requires { fails.items ≡ [] }
        ensures taken { ⟦<MemSink as Sink>⟧.taken result ≡ Some [] }
        ensures faults { ⟦<MemSink as Sink>⟧.faults result ≡ 0 }
    {
        MemSink {
            bytes: Vec::new(alloc),
            faults: 0,
        }
    }

    /// The bytes taken so far.
    pub fn taken(&self) -> &[u8]
        ensures { ⟦<MemSink as Sink>⟧.taken self.now ≡ Some result.now }
    {
        self.bytes.as_slice()
    }
}

impl Sink for MemSink {
    ghost use Rattle.std.specs.Prelude.{Some};

    ghost taken = { λ s. Some s.bytes.items };

    ghost faults = { λ s. s.faults };

    /// Appends all bytes to those taken, or none where memory ran out.
    fn put(&mut self, bytes: &[u8]) -> Result<(), Failed>
        ensures all { OnOk result
            (Takes (⟦<MemSink as Sink>⟧.taken self.old) bytes.now
            (⟦<MemSink as Sink>⟧.taken self.new)) }
        ensures none { OnErr result
            (⟦<MemSink as Sink>⟧.taken self.new ≡ ⟦<MemSink as Sink>⟧.taken self.old) }
        ensures count { ⟦<MemSink as Sink>⟧.faults self.old ≤ ⟦<MemSink as Sink>⟧.faults self.new }
        ensures good { OnOk result
            (⟦<MemSink as Sink>⟧.faults self.new ≡ ⟦<MemSink as Sink>⟧.faults self.old) }
        ensures fault { OnErr result
            (Rose (⟦<MemSink as Sink>⟧.faults self.old) (⟦<MemSink as Sink>⟧.faults self.new)) }
    {
        match self.bytes.extend_from_slice(bytes) {
            Ok(()) => Ok(()),
            Err(_) => {
                self.faults = self.faults.saturating_add(1);
                Err(Failed)
            }
        }
    }
}

ghost use Rattle.std.specs.Prelude.{◌≡◌, ◌≤◌, ◌<◌, ◌-◌, Some, OnOk, OnErr, [], length, take, drop};
ghost use Rattle.std.specs.Prelude.{min};
ghost use Rattle.mr_base.specs.Outside.{Rose, Takes};

use crate::link::Link;
use crate::numbers::Failed;
use std::alloc::Global;

/// A link in memory, which tells.
#[derive(Drop)]
pub struct MemLink {
    input: Vec<u8>,
    at: usize,
    piece: u32,
    sent: Vec<u8>,
    faults: u64,
    ghost in_input: { at ≤ length input.items },
    ghost moves: { 1 ≤ piece },
}

impl MemLink {
    /// A link by which `input` is to come, at most `piece` bytes at a call. `fails` has the
    /// numbers, from 1, of the calls that are to fail; for now it has to be empty.
    pub fn with(alloc: Global, input: Vec<u8>, piece: u32, fails: Vec<u64>) -> Self
        requires moves { 1 ≤ piece }
        requires no_fails { fails.items ≡ [] }
        ensures to_come { ⟦<MemLink as Link>⟧.to_come result ≡ Some input.items }
        ensures taken { ⟦<MemLink as Link>⟧.taken result ≡ Some [] }
        ensures faults { ⟦<MemLink as Link>⟧.faults result ≡ 0 }
    {
        MemLink {
            input,
            at: 0,
            piece,
            sent: Vec::new(alloc),
            faults: 0,
        }
    }

    /// The bytes taken so far.
    pub fn taken(&self) -> &[u8]
        ensures { ⟦<MemLink as Link>⟧.taken self.now ≡ Some result.now }
    {
        self.sent.as_slice()
    }

    /// The next bytes to come, at most the piece and this many.
    fn next_bytes(&self, most: usize) -> &[u8]
        ensures { result.now
            ≡ take (min most self.now.piece) (drop self.now.at self.now.input.items) }
    {
        let (_, to_come) = self.input.split_at(self.at);
        let n = most.min(self.piece as usize).min(to_come.len());
        &to_come[..n]
    }
}

impl Link for MemLink {
    ghost use Rattle.std.specs.Prelude.{Some, drop};

    ghost to_come = { λ l. Some (drop l.at l.input.items) };

    ghost taken = { λ l. Some l.sent.items };

    ghost faults = { λ l. l.faults };

    /// Moves at most the piece, and does not fail.
    fn get(&mut self, space: &mut [u8]) -> Result<usize, Failed> {
        let bytes = self.next_bytes(space.len());
        let n = bytes.len();
        space[..n].copy_from_slice(bytes);
        self.at += n;
        Ok(n)
    }

    /// Appends all bytes to those taken, or none where memory ran out.
    fn put(&mut self, bytes: &[u8]) -> Result<(), Failed>
        ensures all { OnOk result
            (Takes (⟦<MemLink as Link>⟧.taken self.old) bytes.now
            (⟦<MemLink as Link>⟧.taken self.new)) }
        ensures none { OnErr result
            (⟦<MemLink as Link>⟧.taken self.new ≡ ⟦<MemLink as Link>⟧.taken self.old) }
        ensures kept { ⟦<MemLink as Link>⟧.to_come self.new ≡ ⟦<MemLink as Link>⟧.to_come self.old }
        ensures count { ⟦<MemLink as Link>⟧.faults self.old ≤ ⟦<MemLink as Link>⟧.faults self.new }
        ensures good { OnOk result
            (⟦<MemLink as Link>⟧.faults self.new ≡ ⟦<MemLink as Link>⟧.faults self.old) }
        ensures fault { OnErr result
            (Rose (⟦<MemLink as Link>⟧.faults self.old) (⟦<MemLink as Link>⟧.faults self.new)) }
    {
        match self.sent.extend_from_slice(bytes) {
            Ok(()) => Ok(()),
            Err(_) => {
                self.faults = self.faults.saturating_add(1);
                Err(Failed)
            }
        }
    }
}

ghost use Rattle.std.specs.Prelude.{◌≡◌, ◌≤◌, [], ◌∷◌, ◌++◌, true, false, None, IfOk, IfSome};
ghost use Rattle.std.specs.Prelude.{IsErrOf, length};
ghost use Rattle.mr_base.specs.Outside.{Rose, HasFile, AllStay, is_failed_read};
ghost use Rattle.mr_base.specs.declared.limits.TheConstants.{LONGEST_FILE};
ghost use Rattle.mr_base.specs.declared.read_error.ReadError.TheVariants as read_error;

use mr_base::{Failed, FileName, LONGEST_FILE, Log, ReadError, Store, StoreCall};
use std::alloc::Global;
use std::fs::File;
use std::io::Read;
use std::rt::Files;
use std::{fs, io};

/// The files of the folder in which the program was called. It tells nothing of what they hold.
#[derive(Drop)]
pub struct Folder<'a, R: Files + AllocGlobal> {
    rt: &'a R,
    faults: u64,
    last: StoreCall,
    calls: Log<StoreCall>,
}

impl<'a, R: Files + AllocGlobal> Folder<'a, R> {
    pub fn new(rt: &'a R) -> Self {
        Folder {
            rt,
            faults: 0,
            last: StoreCall {
                is_read: true,
                name: FileName::new(""),
                failed: false,
            },
            calls: Log::new(),
        }
    }

    /// Keeps the facts of a call, and counts it where it failed.
    fn keep(&mut self, is_read: bool, name: &str, failed: bool)
        requires { length name.now ≤ 255 }
        ensures last { self.new.last
            ≡ record { is_read = is_read; name = name.now; failed = failed } }
        ensures calls { self.new.calls.items ≡ self.old.calls.items
            ++ record { is_read = is_read; name = name.now; failed = failed } ∷ [] }
        ensures count { self.old.faults ≤ self.new.faults }
        ensures good { failed ≡ false → self.new.faults ≡ self.old.faults }
        ensures fault { failed ≡ true → Rose self.old.faults self.new.faults }
    {
        if failed {
            self.faults = self.faults.saturating_add(1);
        }
        self.last = StoreCall {
            is_read,
            name: FileName::new(name),
            failed,
        };
        self.calls = self.calls.with(&self.last);
    }

    /// The bytes of a file, read to its end or to one more than the greatest length.
    fn bytes_of(&self, alloc: Global, name: &str) -> io::Result<Vec<u8>> {
        let file = File::open(self.rt, name)?;
        let mut bytes = Vec::new(alloc);
        file.take(LONGEST_FILE + 1).read_to_end(&mut bytes)?;
        Ok(bytes)
    }
}

impl<'a, R: Files + AllocGlobal> Store for Folder<'a, R> {
    ghost use Rattle.std.specs.Prelude.{None};

    ghost told = { λ s. None };

    ghost faults = { λ s. s.faults };

    ghost last = { λ s. s.last };

    ghost calls = { λ s. s.calls.items };

    /// The bytes of a file, at most `LONGEST_FILE`; a longer one is a failed read.
    fn read(&mut self, alloc: Global, name: &str) -> Result<Vec<u8>, ReadError>
        requires { length name.now ≤ 255 }
        ensures fits { IfOk result (λ v. length v.items ≤ LONGEST_FILE) }
        ensures bytes { IfOk result (λ v.
            HasFile (⟦<Folder<'a, R> as Store>⟧.told self.old) name.now v.items) }
        ensures absent { IfSome (⟦<Folder<'a, R> as Store>⟧.told self.old) (λ files.
            files name.now ≡ None → IsErrOf result read_error.Failed) }
        ensures stays { AllStay (⟦<Folder<'a, R> as Store>⟧.told self.old)
            (⟦<Folder<'a, R> as Store>⟧.told self.new) }
        ensures count { self.old.faults ≤ self.new.faults }
        ensures good { is_failed_read result ≡ false → self.new.faults ≡ self.old.faults }
        ensures fault { IsErrOf result read_error.Failed → Rose self.old.faults self.new.faults }
        ensures facts { self.new.last
            ≡ record { is_read = true; name = name.now; failed = is_failed_read result } }
        ensures called { self.new.calls.items ≡ self.old.calls.items
            ++ record { is_read = true; name = name.now; failed = is_failed_read result } ∷ [] }
    {
        match self.bytes_of(alloc, name) {
            Ok(bytes) => {
                if bytes.len() as u64 > LONGEST_FILE {
                    self.keep(true, name, true);
                    return Err(ReadError::Failed);
                }
                self.keep(true, name, false);
                Ok(bytes)
            }
            Err(e) => {
                if e.kind() == io::ErrorKind::OutOfMemory {
                    self.keep(true, name, false);
                    return Err(ReadError::Memory);
                }
                self.keep(true, name, true);
                Err(ReadError::Failed)
            }
        }
    }

    fn write(&mut self, name: &str, bytes: &[u8]) -> Result<(), Failed> {
        let failed = fs::write(self.rt, name, bytes).is_err();
        self.keep(false, name, failed);
        if failed { Err(Failed) } else { Ok(()) }
    }
}

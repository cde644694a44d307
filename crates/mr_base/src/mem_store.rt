ghost use Rattle.std.specs.Prelude.{◌≡◌, ◌≢◌, ◌≤◌, ◌+◌, ◌-◌, ◌^◌, ◌||◌, min, true, false, Some};
ghost use Rattle.std.specs.Prelude.{None, IsNone, is_none, IfSome, IfOk, IsErrOf, MatchOption};
ghost use Rattle.std.specs.Prelude.{OnOk, OnErr, AllPairs, [], ◌∷◌, ◌++◌, length};
ghost use Rattle.mr_base.specs.Outside.{Rose, no_call, is_failed, is_failed_read, HasFile, AllStay};
ghost use Rattle.mr_base.specs.Outside.{OthersStay};
ghost use Rattle.mr_base.specs.MemStores.{bytes_of, is_to_fail, IsPlaceOf};
ghost use Rattle.mr_base.specs.declared.read_error.ReadError.TheVariants as read_error;

use crate::file_name::FileName;
use crate::log::Log;
use crate::numbers::Failed;
use crate::read_error::ReadError;
use crate::store::Store;
use crate::store_call::StoreCall;
use std::alloc::{AllocError, Global};

/// A store in memory, which tells.
#[derive(Drop)]
pub struct MemStore {
    alloc: Global,
    files: Vec<(FileName, Vec<u8>)>,
    /// The numbers, from 1, of the calls that are to fail.
    fails: Vec<u64>,
    /// How many calls were made; it stops at its highest value.
    made: u64,
    faults: u64,
    last: StoreCall,
    calls: Log<StoreCall>,
}

impl MemStore {
    /// A store of these files, whose names differ. `fails` has the numbers, from 1, of the calls
    /// that are to fail.
    pub fn with(alloc: Global, files: Vec<(FileName, Vec<u8>)>, fails: Vec<u64>) -> Self
        requires differ { AllPairs (λ a b. a.0 ≢ b.0) files.items }
        ensures told { ⟦<MemStore as Store>⟧.told result ≡ Some (bytes_of files.items) }
        ensures fails { result.fails.items ≡ fails.items }
        ensures made { result.made ≡ 0 }
        ensures faults { ⟦<MemStore as Store>⟧.faults result ≡ 0 }
        ensures last { ⟦<MemStore as Store>⟧.last result ≡ no_call }
        ensures calls { ⟦<MemStore as Store>⟧.calls result ≡ [] }
    {
        MemStore {
            alloc,
            files,
            fails,
            made: 0,
            faults: 0,
            last: StoreCall {
                is_read: true,
                name: FileName::new(""),
                failed: false,
            },
            calls: Log::new(),
        }
    }

    /// The bytes of a file, if there is one of this name.
    pub fn bytes(&self, name: &str) -> Option<&[u8]>
        ensures told { IfSome (⟦<MemStore as Store>⟧.told self.now) (λ files.
            MatchOption result (files name.now ≡ None) (λ bytes. files name.now ≡ Some bytes.now)) }
    {
        let files = self.files.as_slice();
        for file in files {
            if file.0.as_str() == name {
                return Some(file.1.as_slice());
            }
        }
        None
    }

    /// The index of a file of this name.
    fn place(&self, name: &str) -> Option<usize>
        ensures found { IfSome result (IsPlaceOf name.now self.now.files.items) }
        ensures absent { IsNone result → bytes_of self.now.files.items name.now ≡ None }
    {
        let files = self.files.as_slice();
        for i in 0..files.len() {
            if files[i].0.as_str() == name {
                return Some(i);
            }
        }
        None
    }

    /// Sets the bytes of a file, or changes nothing where memory ran out.
    fn set(&mut self, name: &str, bytes: &[u8]) -> Result<(), AllocError>
        requires { length name.now ≤ 255 }
        ensures bytes { OnOk result
            (HasFile (⟦<MemStore as Store>⟧.told self.new) name.now bytes.now) }
        ensures others { OthersStay name.now
            (⟦<MemStore as Store>⟧.told self.old) (⟦<MemStore as Store>⟧.told self.new) }
        ensures none { OnErr result (self.new.files.items ≡ self.old.files.items) }
        ensures fails { self.new.fails ≡ self.old.fails }
        ensures made { self.new.made ≡ self.old.made }
        ensures faults { self.new.faults ≡ self.old.faults }
        ensures calls { self.new.calls.items ≡ self.old.calls.items }
    {
        let copy = Vec::from_slice(self.alloc, bytes)?;
        let older = self.place(name);
        // The growth comes first, so that nothing has changed where it is refused.
        self.files.insert(0, (FileName::new(name), copy))?;
        if let Some(i) = older {
            self.files.remove(i + 1);
        }
        Ok(())
    }

    /// Whether the next call is one that is to fail.
    fn is_next_to_fail(&self) -> bool
        ensures { result ≡ is_to_fail self.now.fails.items self.now.made }
    {
        let number = self.made.saturating_add(1);
        self.fails.iter().any(|n| *n == number)
    }

    /// What the next call gives if it is a read: `None` where it is to fail or no file has the
    /// name.
    fn given(&self, name: &str) -> Option<&[u8]>
        ensures none { is_none result ≡ is_to_fail self.now.fails.items self.now.made
            || is_none (bytes_of self.now.files.items name.now) }
        ensures bytes { IfSome result (λ bytes.
            bytes_of self.now.files.items name.now ≡ Some bytes.now) }
    {
        if self.is_next_to_fail() {
            return None;
        }
        self.bytes(name)
    }

    /// Keeps the facts of a call, and counts it where it failed.
    fn keep(&mut self, is_read: bool, name: &str, failed: bool)
        requires { length name.now ≤ 255 }
        ensures files { self.new.files ≡ self.old.files }
        ensures fails { self.new.fails ≡ self.old.fails }
        ensures made { self.new.made ≡ min (self.old.made + 1) (2 ^ 64 - 1) }
        ensures last { self.new.last
            ≡ record { is_read = is_read; name = name.now; failed = failed } }
        ensures calls { self.new.calls.items ≡ self.old.calls.items
            ++ record { is_read = is_read; name = name.now; failed = failed } ∷ [] }
        ensures count { self.old.faults ≤ self.new.faults }
        ensures good { failed ≡ false → self.new.faults ≡ self.old.faults }
        ensures fault { failed ≡ true → Rose self.old.faults self.new.faults }
    {
        if failed {
            self.faults = self.faults.saturating_add(1);
        }
        self.made = self.made.saturating_add(1);
        self.last = StoreCall {
            is_read,
            name: FileName::new(name),
            failed,
        };
        self.calls = self.calls.with(&self.last);
    }
}

impl Store for MemStore {
    ghost use Rattle.std.specs.Prelude.{Some};
    ghost use Rattle.mr_base.specs.MemStores.{bytes_of};

    ghost told = { λ s. Some (bytes_of s.files.items) };

    ghost faults = { λ s. s.faults };

    ghost last = { λ s. s.last };

    ghost calls = { λ s. s.calls.items };

    /// The bytes of a file. It fails exactly where no file has the name or the call is one that is
    /// to fail.
    fn read(&mut self, alloc: Global, name: &str) -> Result<Vec<u8>, ReadError>
        requires { length name.now ≤ 255 }
        ensures bytes { IfOk result (λ v.
            HasFile (⟦<MemStore as Store>⟧.told self.old) name.now v.items) }
        ensures failed { is_failed_read result
            ≡ is_to_fail self.old.fails.items self.old.made
            || is_none (bytes_of self.old.files.items name.now) }
        ensures absent { IfSome (⟦<MemStore as Store>⟧.told self.old) (λ files.
            files name.now ≡ None → IsErrOf result read_error.Failed) }
        ensures stays { AllStay (⟦<MemStore as Store>⟧.told self.old)
            (⟦<MemStore as Store>⟧.told self.new) }
        ensures fails { self.new.fails ≡ self.old.fails }
        ensures made { self.new.made ≡ min (self.old.made + 1) (2 ^ 64 - 1) }
        ensures count { ⟦<MemStore as Store>⟧.faults self.old
            ≤ ⟦<MemStore as Store>⟧.faults self.new }
        ensures fault { IsErrOf result read_error.Failed
            → Rose (⟦<MemStore as Store>⟧.faults self.old)
            (⟦<MemStore as Store>⟧.faults self.new) }
        ensures good { is_failed_read result ≡ false
            → ⟦<MemStore as Store>⟧.faults self.new ≡ ⟦<MemStore as Store>⟧.faults self.old }
        ensures facts { ⟦<MemStore as Store>⟧.last self.new
            ≡ record { is_read = true; name = name.now; failed = is_failed_read result } }
        ensures called { ⟦<MemStore as Store>⟧.calls self.new ≡ ⟦<MemStore as Store>⟧.calls self.old
            ++ record { is_read = true; name = name.now; failed = is_failed_read result } ∷ [] }
    {
        let Some(bytes) = self.given(name) else {
            self.keep(true, name, true);
            return Err(ReadError::Failed);
        };
        match Vec::from_slice(alloc, bytes) {
            Ok(copy) => {
                self.keep(true, name, false);
                Ok(copy)
            }
            Err(_) => {
                self.keep(true, name, false);
                Err(ReadError::Memory)
            }
        }
    }

    /// Sets the bytes of a file, or changes no file where memory ran out or the call is one that is
    /// to fail.
    fn write(&mut self, name: &str, bytes: &[u8]) -> Result<(), Failed>
        requires { length name.now ≤ 255 }
        ensures bytes { OnOk result
            (HasFile (⟦<MemStore as Store>⟧.told self.new) name.now bytes.now) }
        ensures failed { is_to_fail self.old.fails.items self.old.made ≡ true
            → is_failed result ≡ true }
        ensures others { OthersStay name.now
            (⟦<MemStore as Store>⟧.told self.old) (⟦<MemStore as Store>⟧.told self.new) }
        ensures none { OnErr result
            (AllStay (⟦<MemStore as Store>⟧.told self.old) (⟦<MemStore as Store>⟧.told self.new)) }
        ensures fails { self.new.fails ≡ self.old.fails }
        ensures made { self.new.made ≡ min (self.old.made + 1) (2 ^ 64 - 1) }
        ensures count { ⟦<MemStore as Store>⟧.faults self.old
            ≤ ⟦<MemStore as Store>⟧.faults self.new }
        ensures good { OnOk result
            (⟦<MemStore as Store>⟧.faults self.new ≡ ⟦<MemStore as Store>⟧.faults self.old) }
        ensures fault { OnErr result
            (Rose (⟦<MemStore as Store>⟧.faults self.old) (⟦<MemStore as Store>⟧.faults self.new)) }
        ensures facts { ⟦<MemStore as Store>⟧.last self.new
            ≡ record { is_read = false; name = name.now; failed = is_failed result } }
        ensures called { ⟦<MemStore as Store>⟧.calls self.new ≡ ⟦<MemStore as Store>⟧.calls self.old
            ++ record { is_read = false; name = name.now; failed = is_failed result } ∷ [] }
    {
        if self.is_next_to_fail() {
            self.keep(false, name, true);
            return Err(Failed);
        }
        match self.set(name, bytes) {
            Ok(()) => {
                self.keep(false, name, false);
                Ok(())
            }
            Err(_) => {
                self.keep(false, name, true);
                Err(Failed)
            }
        }
    }
}

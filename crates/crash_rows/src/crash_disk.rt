//! A disk that stops serving after some calls, and fails one.
ghost use Rattle.std.specs.Prelude.{◌≡◌, Ok, IfOk};
ghost use Rattle.hl_base.specs.Causes.{HasCause};

use crate::contents::{Contents, Service};
use hl_base::{Disk, Failed, Memory};
use std::alloc::Global;

/// A file whose calls are kept since its last sync. Contracts learn nothing of it.
#[derive(Drop)]
pub struct CrashDisk {
    pub file: Contents,
    reach: u64,
    faults: u64,
}

impl CrashDisk {
    /// A file with these bytes, which serves calls so.
    pub fn new(alloc: Global, bytes: &[u8], service: Service) -> Result<CrashDisk, Memory> {
        Ok(CrashDisk {
            file: Contents::new(alloc, bytes, service)?,
            reach: 0,
            faults: 0,
        })
    }

    // Counts a fault, if the call failed.
    fn counted<T>(&mut self, outcome: Result<T, Failed>) -> Result<T, Failed>
        ensures value { IfOk result (λ value. outcome ≡ Ok value) }
        ensures cause { HasCause self.old.faults self.new.faults result }
        ensures same { self.new ≡ record self.old { faults = self.new.faults } }
    {
        match outcome {
            Ok(value) => Ok(value),
            Err(_) => {
                self.faults = self.faults.saturating_add(1);
                Err(Failed)
            }
        }
    }
}

impl Disk for CrashDisk {
    ghost use Rattle.std.specs.Prelude.{None, false};
    ghost use Rattle.std.proofs.Common.{rules};

    ghost seen = { λ _. None };

    ghost tells_crashes = { λ _. false };

    ghost may_leave = { λ _ _. Unit {0} };

    ghost moment = { λ _. 0 };

    ghost left_since = { λ _ _ _. Unit {0} };

    ghost reach = { λ d. d.reach };

    ghost failures = { λ d. d.faults };

    ghost unfailing_to = { λ _. None };

    ghost counts_now = { λ d t c le now. tt };

    ghost only_now = { λ d c left. tt };

    ghost unfailing = { λ d room is le. absurd (Prim.search rules) };

    fn len(&mut self) -> Result<u64, Failed> {
        let outcome = self.file.len();
        self.counted(outcome)
    }

    fn read(&mut self, at: u64, room: &mut [u8]) -> Result<usize, Failed> {
        let outcome = self.file.read(at, room);
        self.counted(outcome)
    }

    fn write_at(&mut self, at: u64, piece: &[u8]) -> Result<(), Failed> {
        self.reach = self.reach.max(at + piece.len() as u64);
        let outcome = self.file.write(at, piece);
        self.counted(outcome)
    }

    fn cut(&mut self, len: u64) -> Result<(), Failed> {
        self.reach = self.reach.max(len);
        let outcome = self.file.cut(len);
        self.counted(outcome)
    }

    fn sync(&mut self) -> Result<(), Failed> {
        let outcome = self.file.sync();
        self.counted(outcome)
    }

    fn faults(&self) -> u64 {
        self.faults
    }
}

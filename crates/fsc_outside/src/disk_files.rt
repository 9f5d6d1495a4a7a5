//! The files of the system.

ghost use Rattle.std.specs.Prelude.{◌≡◌, ◌≢◌, ◌≤◌, [], Some, None};
ghost use Rattle.fsc_outside.specs.Counts.{Rose, Counts, counts_after_got, counts_after_put};
ghost use Rattle.fsc_outside.specs.FileMap.{Holds, Replaces, KeepsOthers, IfFound};

use crate::files::{Files, Got, Put};
use fsc_base::{Bytes, Name};
use std::alloc::Global;
use std::fs::File;
use std::io;
use std::io::{ErrorKind, Read, Write};
use std::marker::Model;
use std::rt::Files as System;

/// How many bytes of a file are read at most.
const LONGEST_READ: u64 = (1 << 31) + 1;

/// The files of the system, by their paths. It doesn't tell what they hold. Contracts see it as its counts.
///
/// To it a name that is not UTF-8 is absent when it is read and a fault when it is written. A name that no file can
/// have is absent too when it is read, as is one whose folder is missing or no folder; every other error is a fault.
#[derive(Drop)]
pub struct DiskFiles<R> {
    system: R,
    alloc: Global,
    faults: u64,
    absences: u64,
}

impl<R> Model for DiskFiles<R> {
    ghost Value = { Counts };

    ghost view = { λ f. record { faults = f.faults; absences = f.absences } };
}

/// Why a file's bytes did not come.
#[derive(Clone, Copy)]
enum Trouble {
    Absent,
    Fault,
    NoMemory,
}

impl<R: System> DiskFiles<R> {
    /// The files of that system, whose bytes are read into memory of `alloc`.
    pub fn new(system: R, alloc: Global) -> DiskFiles<R>
        ensures { result ≡ record { faults = 0; absences = 0 } }
    {
        DiskFiles {
            system,
            alloc,
            faults: 0,
            absences: 0,
        }
    }
}

impl<R: System> Files for DiskFiles<R> {
    ghost contents = { λ _. None };

    ghost blamed = { λ _. [] };

    ghost fault_count = { λ f. f.faults };

    ghost absence_count = { λ f. f.absences };

    fn faults(&self) -> u64 {
        self.faults
    }

    fn absences(&self) -> u64 {
        self.absences
    }

    /// Reads the first 2^31 + 1 bytes of a file, or all of a shorter one.
    fn read(&mut self, name: &Name) -> Got
        // As of all files.
        ensures found { IfFound result (λ bytes. Holds None name.now (Some bytes)) }
        ensures absent { result ≡ Got.Absent → Holds None name.now None }
        ensures absence { result ≡ Got.Absent → Rose self.old.absences self.new.absences }
        ensures failed { result ≡ Got.Failed → Rose self.old.faults self.new.faults }
        ensures faults_counted { self.old.faults ≤ self.new.faults }
        ensures absences_counted { self.old.absences ≤ self.new.absences }

        // Exactly.
        ensures after { self.new ≡ counts_after_got self.old result }
    {
        match read_file(&self.system, self.alloc, name.as_slice()) {
            Ok(bytes) => Got::Found(bytes),
            Err(Trouble::Absent) => {
                self.absences = self.absences.saturating_add(1);
                Got::Absent
            }
            Err(Trouble::Fault) => {
                self.faults = self.faults.saturating_add(1);
                Got::Failed
            }
            Err(Trouble::NoMemory) => Got::NoMemory,
        }
    }

    /// Makes a file of these bytes, in place of the one that is there.
    fn write(&mut self, name: &Name, bytes: &[u8]) -> Put
        // As of all files.
        ensures done { result ≡ Put.Done → Replaces None None name.now bytes.now }
        ensures failed { result ≡ Put.Failed → Rose self.old.faults self.new.faults }
        ensures others { KeepsOthers None None name.now }
        ensures faults_counted { self.old.faults ≤ self.new.faults }
        ensures absences_counted { self.old.absences ≤ self.new.absences }

        // Exactly.
        ensures after { self.new ≡ counts_after_put self.old result }
        ensures never_refused { result ≢ Put.NoMemory }
    {
        match write_file(&self.system, name.as_slice(), bytes) {
            Ok(()) => Put::Done,
            Err(_) => {
                self.faults = self.faults.saturating_add(1);
                Put::Failed
            }
        }
    }
}

fn read_file<R: System>(system: &R, alloc: Global, name: &[u8]) -> Result<Bytes, Trouble> {
    let Ok(path) = str::from_utf8(name) else {
        return Err(Trouble::Absent);
    };
    match File::open(system, path) {
        Ok(file) => read_all(alloc, file),
        Err(error) => Err(trouble_in_opening(error.kind())),
    }
}

fn read_all<F: Read + Drop>(alloc: Global, file: F) -> Result<Bytes, Trouble> {
    let mut bytes = Vec::new(alloc);
    match file.take(LONGEST_READ).read_to_end(&mut bytes) {
        Ok(_) => Ok(Bytes::from_vec(bytes)),
        Err(error) if error.kind() == ErrorKind::OutOfMemory => Err(Trouble::NoMemory),
        Err(_) => Err(Trouble::Fault),
    }
}

/// A path with a NUL byte is invalid input, and one that is too long an invalid name.
fn trouble_in_opening(kind: ErrorKind) -> Trouble {
    match kind {
        ErrorKind::NotFound
        | ErrorKind::NotADirectory
        | ErrorKind::InvalidInput
        | ErrorKind::InvalidFilename => Trouble::Absent,
        ErrorKind::OutOfMemory => Trouble::NoMemory,
        _ => Trouble::Fault,
    }
}

fn write_file<R: System>(system: &R, name: &[u8], bytes: &[u8]) -> io::Result<()> {
    let Ok(path) = str::from_utf8(name) else {
        return Err(io::Error::from(ErrorKind::InvalidInput));
    };
    File::create(system, path)?.write_all(bytes)
}

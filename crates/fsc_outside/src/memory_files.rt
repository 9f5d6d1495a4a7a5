//! Files in memory.

ghost use Rattle.std.specs.Prelude.{◌≡◌, ◌≢◌, ◌⊎◌, ◌≤◌, Some, None, IfOk, OnOk, OnErr};
ghost use Rattle.std.specs.Option.{option_map};
ghost use Rattle.fsc_outside.specs.Counts.{Rose};
ghost use Rattle.fsc_outside.specs.FileMap.{file_of, Holds, Replaces, KeepsOthers, IfFound};
ghost use Rattle.fsc_outside.specs.Memory.{new_files, files_of, got_by, after_got, put_by, after_put, blaming};

use crate::fault_plan::FaultPlan;
use crate::file_table::FileTable;
use crate::files::{Files, Got, Put};
use fsc_base::{Bytes, Name, NoMemory};
use std::alloc::Global;
use std::marker::Model;

/// Files in memory. It tells them, and calls fail as its plan says, reads and writes counted together. Contracts see
/// it as a `FilesState` of `specs/`.
#[derive(Debug, Drop)]
pub struct MemFiles {
    alloc: Global,
    table: FileTable,
    blamed: Bytes,
    absences: u64,
    plan: FaultPlan,
}

impl Model for MemFiles {
    ghost use Rattle.fsc_outside.specs.Memory.{FilesState, files_state_code};

    ghost Value = { FilesState };

    ghost coded = { files_state_code };

    ghost view = { λ f. record { files = f.table; blamed = f.blamed; absences = f.absences; plan = f.plan } };
}

impl MemFiles {
    /// Files with a copy of each pair of a name and its bytes, where of several pairs with one name the last counts. The
    /// calls with the numbers in `fail` fail, counted from 1. Refused only for want of memory.
    pub fn new(alloc: Global, pairs: &[(Name, Bytes)], fail: &[u64]) -> Result<MemFiles, NoMemory>
        ensures { IfOk result (λ files. files ≡ new_files pairs.now fail.now) }
    {
        Ok(MemFiles {
            alloc,
            table: table_of(alloc, pairs)?,
            blamed: Bytes::from_vec(Vec::new(alloc)),
            absences: 0,
            plan: FaultPlan::new(alloc, fail)?,
        })
    }

    /// The bytes of the file of that name, where there is one. It counts as no call.
    pub fn get(&self, name: &Name) -> Option<&[u8]>
        ensures { option_map (λ bytes. bytes.now) result ≡ file_of self.now.files name.now }
    {
        self.table.get(name.as_slice())
    }
}

/// The files of these pairs, the last of each name.
fn table_of(alloc: Global, pairs: &[(Name, Bytes)]) -> Result<FileTable, NoMemory>
    ensures { IfOk result (λ table. table ≡ files_of pairs.now) }
{
    let mut table = FileTable::new(alloc);
    for (name, bytes) in pairs {
        table.put(alloc, name.as_slice(), bytes.as_slice())?;
    }
    Ok(table)
}

impl MemFiles {
    /// Counts a fault and keeps the name that is to be blamed, or does neither where memory is refused for the name.
    fn blame(&mut self, name: &Name) -> Result<(), NoMemory>
        ensures ok { OnOk result (self.new ≡ blaming self.old name.now) }
        ensures err { OnErr result (self.new ≡ self.old) }
        ensures never_falls { self.old.plan.faults ≤ self.new.plan.faults }
    {
        self.blamed = Bytes::from_slice(self.alloc, name.as_slice())?;
        self.plan.count_fault();
        Ok(())
    }
}

impl Files for MemFiles {
    ghost contents = { λ f. Some f.files };

    ghost blamed = { λ f. f.blamed };

    ghost fault_count = { λ f. f.plan.faults };

    ghost absence_count = { λ f. f.absences };

    fn faults(&self) -> u64 {
        self.plan.faults()
    }

    fn absences(&self) -> u64 {
        self.absences
    }

    fn read(&mut self, name: &Name) -> Got
        // As of all files.
        ensures found { IfFound result (λ bytes. Holds (Some self.old.files) name.now (Some bytes)) }
        ensures absent { result ≡ Got.Absent → Holds (Some self.old.files) name.now None }
        ensures absence { result ≡ Got.Absent → Rose self.old.absences self.new.absences }
        ensures failed { result ≡ Got.Failed → Rose self.old.plan.faults self.new.plan.faults }
        ensures blamed { result ≡ Got.Failed → self.new.blamed ≡ name.now }
        ensures blame_kept { result ≢ Got.Failed → self.new.blamed ≡ self.old.blamed }
        ensures unchanged { self.new.files ≡ self.old.files }
        ensures faults_counted { self.old.plan.faults ≤ self.new.plan.faults }
        ensures absences_counted { self.old.absences ≤ self.new.absences }

        // Exactly, where memory suffices; of a file that is not there always.
        ensures got { (result ≡ got_by self.old name.now) ⊎ (result ≡ Got.NoMemory) }
        ensures absent_told { got_by self.old name.now ≡ Got.Absent → result ≡ Got.Absent }
        ensures after { self.new ≡ after_got self.old name.now result }
    {
        if self.plan.begin_call() {
            return match self.blame(name) {
                Ok(()) => Got::Failed,
                Err(NoMemory) => Got::NoMemory,
            };
        }
        match self.table.get(name.as_slice()) {
            Some(bytes) => match Bytes::from_slice(self.alloc, bytes) {
                Ok(copy) => Got::Found(copy),
                Err(NoMemory) => Got::NoMemory,
            },
            None => {
                self.absences = self.absences.saturating_add(1);
                Got::Absent
            }
        }
    }

    fn write(&mut self, name: &Name, bytes: &[u8]) -> Put
        // As of all files.
        ensures done { result ≡ Put.Done → Replaces (Some self.old.files) (Some self.new.files) name.now bytes.now }
        ensures failed { result ≡ Put.Failed → Rose self.old.plan.faults self.new.plan.faults }
        ensures blamed { result ≡ Put.Failed → self.new.blamed ≡ name.now }
        ensures blame_kept { result ≢ Put.Failed → self.new.blamed ≡ self.old.blamed }
        ensures others { KeepsOthers (Some self.old.files) (Some self.new.files) name.now }
        ensures faults_counted { self.old.plan.faults ≤ self.new.plan.faults }
        ensures absences_counted { self.old.absences ≤ self.new.absences }

        // Exactly, where memory suffices.
        ensures put { (result ≡ put_by self.old) ⊎ (result ≡ Put.NoMemory) }
        ensures after { self.new ≡ after_put self.old name.now bytes.now result }
    {
        if self.plan.begin_call() {
            return match self.blame(name) {
                Ok(()) => Put::Failed,
                Err(NoMemory) => Put::NoMemory,
            };
        }
        match self.table.put(self.alloc, name.as_slice(), bytes) {
            Ok(()) => Put::Done,
            Err(NoMemory) => Put::NoMemory,
        }
    }
}

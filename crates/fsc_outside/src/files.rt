//! Files by name.

ghost use Rattle.std.specs.Prelude.{◌≡◌, ◌≢◌, ℕ, ◌+◌, ◌^◌, ◌<◌, ◌≤◌, List, Option, Some, None, IsSome};
ghost use Rattle.fsc_outside.specs.Counts.{Rose};
ghost use Rattle.fsc_outside.specs.FileMap.{FileMap, Holds, Replaces, KeepsOthers, IfFound};

use fsc_base::{Bytes, Name};

/// What came of reading a file.
#[derive(Debug, Drop)]
pub enum Got {
    /// All bytes of the file.
    Found(Bytes),
    /// There is no such file, and the count of absences rose.
    Absent,
    /// It could not be read, and the count of faults rose.
    Failed,
    NoMemory,
}

/// What came of writing a file.
#[derive(Clone, Copy, Debug, PartialEq, Eq)]
pub enum Put {
    /// The file has these bytes now.
    Done,
    /// The file may hold any bytes, and the count of faults rose.
    Failed,
    /// The file may hold any bytes.
    NoMemory,
}

/// Where files are read and written, each whole and by its name.
pub trait Files {
    /// The files, where the object tells them.
    ghost contents: { Self → Option FileMap };

    /// The name of the last file that could not be read or written, where the object tells its files. A call that did not
    /// fail leaves it.
    ghost blamed: { Self → List ℕ };

    /// How many calls failed so far. It stands still at 2^64 - 1.
    ghost fault_count: { Self → ℕ };

    /// How many files were looked for and not there so far. It stands still at 2^64 - 1.
    ghost absence_count: { Self → ℕ };

    /// How many calls failed so far. It never falls, and stands still at 2^64 - 1.
    fn faults(&self) -> u64
        ensures { result ≡ fault_count self.now };

    /// How many files were looked for and not there so far. It never falls, and stands still at 2^64 - 1.
    fn absences(&self) -> u64
        ensures { result ≡ absence_count self.now };

    /// Reads the file of that name. No file is changed.
    fn read(&mut self, name: &Name) -> Got
        ensures found { IfFound result (λ bytes. Holds (contents self.old) name.now (Some bytes)) }
        ensures absent { result ≡ Got.Absent → Holds (contents self.old) name.now None }
        ensures absence { result ≡ Got.Absent → Rose (absence_count self.old) (absence_count self.new) }
        ensures failed { result ≡ Got.Failed → Rose (fault_count self.old) (fault_count self.new) }
        ensures blamed { result ≡ Got.Failed → IsSome (contents self.old) → blamed self.new ≡ name.now }
        ensures blame_kept { result ≢ Got.Failed → blamed self.new ≡ blamed self.old }
        ensures unchanged { contents self.new ≡ contents self.old }
        ensures faults_counted { fault_count self.old ≤ fault_count self.new }
        ensures absences_counted { absence_count self.old ≤ absence_count self.new };

    /// Makes the bytes the whole file of that name, or leaves it with any bytes where that can't be done.
    fn write(&mut self, name: &Name, bytes: &[u8]) -> Put
        ensures done { result ≡ Put.Done → Replaces (contents self.old) (contents self.new) name.now bytes.now }
        ensures failed { result ≡ Put.Failed → Rose (fault_count self.old) (fault_count self.new) }
        ensures blamed { result ≡ Put.Failed → IsSome (contents self.old) → blamed self.new ≡ name.now }
        ensures blame_kept { result ≢ Put.Failed → blamed self.new ≡ blamed self.old }
        ensures others { KeepsOthers (contents self.old) (contents self.new) name.now }
        ensures faults_counted { fault_count self.old ≤ fault_count self.new }
        ensures absences_counted { absence_count self.old ≤ absence_count self.new };
}

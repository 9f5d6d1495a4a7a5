//! Files of which one was read already.

ghost use Rattle.std.specs.Prelude.{◌≡◌, ℕ, Some};
ghost use Rattle.std.specs.Option.{ForSome};
ghost use Rattle.fsc_outside.specs.FileMap.{file_of};

use fsc_base::{Bytes, Name};
use fsc_outside::{Files, Got, Put};
use std::marker::{Brand, PhantomData};

/// Which reference it is that was lent. A type that has it as a parameter holds that reference and no other.
pub trait Lender {
    ghost name: { ℕ };
}

impl Lender for Brand {
    ghost name = { 0 };
}

/// Files of which one was read already: the first read of that name answers the bytes that were read, with no call of the
/// files. Each other call is one of theirs.
pub struct ReadOnce<'f, 'n, F: Files, L: Lender> {
    pub files: &'f mut F,
    pub name: &'n Name,
    /// The bytes, until they are asked for or a file is written.
    pub bytes: Option<Bytes>,
    pub lender: PhantomData<L>,
    ghost lent: { files.ghost_name ≡ L.name },
    ghost held: { ForSome bytes (λ given. ForSome (F.contents files.now) (λ told. file_of told name.now ≡ Some given)) },
}

impl<F: Files, L: Lender> Files for ReadOnce<'_, '_, F, L> {
    ghost contents = { λ once. F.contents once.files.now };

    ghost blamed = { λ once. F.blamed once.files.now };

    ghost fault_count = { λ once. F.fault_count once.files.now };

    ghost absence_count = { λ once. F.absence_count once.files.now };

    fn faults(&self) -> u64 {
        self.files.faults()
    }

    fn absences(&self) -> u64 {
        self.files.absences()
    }

    fn read(&mut self, name: &Name) -> Got {
        if name.as_slice() == self.name.as_slice() {
            if let Some(bytes) = self.bytes.take() {
                return Got::Found(bytes);
            }
        }
        self.files.read(name)
    }

    fn write(&mut self, name: &Name, bytes: &[u8]) -> Put {
        self.bytes = None;
        self.files.write(name, bytes)
    }
}

/// An answer, and the reference that was lent for it.
pub struct Back<'f, F, T> {
    pub files: &'f mut F,
    pub answer: T,
}

impl<'f, F, T> Back<'f, F, T> {
    /// The answer. The reference is let go, and leaves the files as they are.
    pub fn answer(self) -> T
        ensures let_go { self.exit.0.now ≡ self.entry.files.now }
        ensures answer { result ≡ self.entry.answer }
    {
        let Back { files: _, answer } = self;
        answer
    }
}

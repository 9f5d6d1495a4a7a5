//! Why words are no request.

ghost use Rattle.std.specs.Prelude.{◌≡◌, ◌≢◌};
ghost use Rattle.clap.specs.Words.{kind_of};
ghost use Rattle.clap.specs.declared.error.kind.ErrorKind.TheVariants.{OutOfMemory};
ghost use Rattle.command_line.specs.declared.refusal.WordsNo.TheVariants as no;

use clap::Error;
use clap::error::ErrorKind;
use fsc_base::NoMemory;
use std::alloc::{AllocError, AllocFailed};

/// Why words are no request.
#[derive(Clone, Copy, Debug, PartialEq, Eq)]
pub enum WordsNo {
    /// There are more than 1,000 words, one of them is not UTF-8, or no command takes them.
    Usage,
    /// No memory was left.
    NoMemory,
}

impl From<Error> for WordsNo {
    ghost from_gives = { λ error made. made ≡ no.Usage → kind_of error ≢ OutOfMemory };

    fn from(error: Error) -> WordsNo {
        if error.kind() == ErrorKind::OutOfMemory {
            WordsNo::NoMemory
        } else {
            WordsNo::Usage
        }
    }
}

impl From<NoMemory> for WordsNo {
    ghost from_gives = { λ _ made. made ≡ no.NoMemory };

    fn from(_error: NoMemory) -> WordsNo {
        WordsNo::NoMemory
    }
}

impl From<AllocError> for WordsNo {
    ghost from_gives = { λ _ made. made ≡ no.NoMemory };

    fn from(_error: AllocError) -> WordsNo {
        WordsNo::NoMemory
    }
}

impl<T: Drop> From<AllocFailed<T>> for WordsNo {
    ghost from_gives = { λ _ made. made ≡ no.NoMemory };

    fn from(_error: AllocFailed<T>) -> WordsNo {
        WordsNo::NoMemory
    }
}

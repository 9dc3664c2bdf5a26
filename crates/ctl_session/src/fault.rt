//! Why a run stops before its end.

ghost use Rattle.std.specs.Prelude.{◌≡◌};

use thiserror::Error;

/// Why a run stops before its end.
#[derive(Clone, Copy, Debug, PartialEq, Eq, Error)]
pub enum Fault {
    /// A read failed.
    #[error("read failed")]
    Read,
    /// A write failed, or took no byte.
    #[error("write failed")]
    Write,
    /// The script has more lines than the run may read, or a line of more than 4,294,967,295 bytes.
    #[error("too many lines")]
    TooManyLines,
}

/// Why the reading of a script stops before its end.
#[derive(Clone, Copy, Debug, PartialEq, Eq)]
pub(crate) enum ReadingFault {
    ReadFailed,
    TooManyLines,
}

impl From<ReadingFault> for Fault {
    ghost use Rattle.ctl_session.specs.Faults.{run_fault};

    ghost from_gives = { λ reading fault. fault ≡ run_fault reading };

    fn from(reading: ReadingFault) -> Fault {
        match reading {
            ReadingFault::ReadFailed => Fault::Read,
            ReadingFault::TooManyLines => Fault::TooManyLines,
        }
    }
}

//! Where a script comes from.

ghost use Rattle.std.specs.Prelude.{◌≡◌, ℕ, ◌≤◌, List, Option, length, IfOk, is_err};
ghost use Rattle.std.specs.Io.KnownBytes.{ReadConsumes};
ghost use Rattle.ctl_session.specs.Streams.{counted};

use crate::failed::Failed;
use std::io::{ErrorKind, Read};

/// Where bytes come from.
pub trait Source {
    // The bytes still to come, where they are known.
    ghost remaining: { Self → Option (List ℕ) };

    // How many reads have failed.
    ghost failures: { Self → ℕ };

    fn read(&mut self, buf: &mut [u8]) -> Result<usize, Failed>
        ensures bound { IfOk result (λ n. n ≤ length buf.new) }
        ensures bytes { ReadConsumes (remaining self.old) (remaining self.new) result buf.new }
        ensures failed { failures self.new ≡ counted (is_err result) (failures self.old) };
}

/// Reads, and again where a signal broke the read off before a byte came.
fn read_unbroken<R: Read>(reader: &mut R, buf: &mut [u8]) -> Result<usize, Failed>
    ensures bound { IfOk result (λ n. n ≤ length buf.new) }
    ensures bytes { ReadConsumes (R.remaining reader.old) (R.remaining reader.new) result buf.new }
{
    for _ in 0..u64::MAX {
        match reader.read(buf) {
            Ok(n) => return Ok(n),
            Err(error) => {
                if error.kind() != ErrorKind::Interrupted {
                    return Err(Failed);
                }
            }
        }
    }
    Err(Failed)
}

/// A reader of std as a source. A read that a signal breaks off is made again, and doesn't count as failed.
pub struct FromRead<R> {
    inner: R,
    failures: u64,
}

impl<R: Read> FromRead<R> {
    pub fn new(inner: R) -> Self
        ensures { result ≡ record { inner = inner; failures = 0 } }
    {
        FromRead { inner, failures: 0 }
    }

    pub fn into_inner(self) -> R
        ensures { result ≡ self.inner }
    {
        let FromRead { inner, failures: _ } = self;
        inner
    }
}

impl<R: Read> Source for FromRead<R> {
    ghost remaining = { λ s. R.remaining s.inner };

    ghost failures = { λ s. s.failures };

    fn read(&mut self, buf: &mut [u8]) -> Result<usize, Failed> {
        match read_unbroken(&mut self.inner, buf) {
            Ok(n) => Ok(n),
            Err(failed) => {
                self.failures = self.failures.saturating_add(1);
                Err(failed)
            }
        }
    }
}

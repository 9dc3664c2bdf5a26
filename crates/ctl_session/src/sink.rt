//! Where answers go.

ghost use Rattle.std.specs.Prelude.{◌≡◌, ℕ, ◌<◌, ◌≤◌, List, Option, length, IfOk, OnErr, OnOk, is_err};
ghost use Rattle.std.specs.Io.KnownBytes.{WriteAppends, Appends};
ghost use Rattle.ctl_session.specs.Streams.{counted, WritesPart};

use crate::failed::Failed;
use std::io::{ErrorKind, Write};

/// Where bytes go.
pub trait Sink {
    // The bytes that were taken, where they are known.
    ghost taken: { Self → Option (List ℕ) };

    // How many writes have failed.
    ghost failures: { Self → ℕ };

    fn write(&mut self, buf: &[u8]) -> Result<usize, Failed>
        ensures bound { IfOk result (λ n. n ≤ length buf.now) }
        ensures some { IfOk result (λ n. 0 < length buf.now → 0 < n) }
        ensures bytes { WriteAppends (taken self.old) (taken self.new) result buf.now }
        ensures failed { failures self.new ≡ counted (is_err result) (failures self.old) };
}

/// Writes, and again where a signal broke the write off before a byte was taken.
fn write_unbroken<W: Write>(writer: &mut W, buf: &[u8]) -> Result<usize, Failed>
    ensures bound { IfOk result (λ n. n ≤ length buf.now) }
    ensures bytes { WriteAppends (W.contents writer.old) (W.contents writer.new) result buf.now }
{
    for _ in 0..u64::MAX {
        match writer.write(buf) {
            Ok(n) => return Ok(n),
            Err(error) => {
                if error.kind() != ErrorKind::Interrupted {
                    return Err(Failed);
                }
            }
        }
    }
    Err(Failed)
}

/// A writer of std as a sink. A write that a signal breaks off is made again, and doesn't count as failed.
pub struct FromWrite<W> {
    inner: W,
    failures: u64,
}

impl<W: Write> FromWrite<W> {
    pub fn new(inner: W) -> Self
        ensures { result ≡ record { inner = inner; failures = 0 } }
    {
        FromWrite { inner, failures: 0 }
    }

    pub fn into_inner(self) -> W
        ensures { result ≡ self.inner }
    {
        let FromWrite { inner, failures: _ } = self;
        inner
    }
}

impl<W: Write> Sink for FromWrite<W> {
    ghost taken = { λ s. W.contents s.inner };

    ghost failures = { λ s. s.failures };

    fn write(&mut self, buf: &[u8]) -> Result<usize, Failed> {
        match write_unbroken(&mut self.inner, buf) {
            Ok(n) if n > 0 || buf.is_empty() => Ok(n),
            _ => {
                self.failures = self.failures.saturating_add(1);
                Err(Failed)
            }
        }
    }
}

/// Writes all of a text. An `Err` leaves a part of it written, and not the whole.
pub fn write_whole<W: Sink>(writer: &mut W, text: &[u8]) -> Result<(), Failed>
    ensures ok { OnOk result (Appends (W.taken writer.old) (W.taken writer.new) text.now) }
    ensures err { OnErr result (WritesPart (W.taken writer.old) (W.taken writer.new) text.now) }
    ensures failed { W.failures writer.new ≡ counted (is_err result) (W.failures writer.old) }
{
    let mut at = 0;
    while at < text.len() {
        match writer.write(&text[at..]) {
            Ok(n) => at += n,
            Err(failed) => return Err(failed),
        }
    }
    Ok(())
}

//! The lines of a source, one at a time.

ghost use Rattle.std.specs.Prelude.{◌≡◌, ◌+◌, ◌≤◌, [], IfOk, IfErr, vec_capacity, IsSome, is_some, true, if◌then◌else◌};
ghost use Rattle.std.specs.Io.KnownBytes.{prepend_known};
ghost use Rattle.ctl_stanza.specs.Lines.{max_line};
ghost use Rattle.ctl_session.specs.Streams.{counted};
ghost use Rattle.ctl_session.specs.declared.fault.ReadingFault.TheVariants.{ReadFailed};
ghost use Rattle.ctl_session.specs.LineReading.{TakesNext, StopsInLine, StopsAfter, is_failed_read};

use crate::fault::ReadingFault;
use crate::read_ahead::{LineRead, ReadAhead};
use crate::source::Source;
use std::alloc::{AllocError, Global};

/// Reads the next line into the buffer, as much of it as a line may have, and counts its bytes. Where no further line
/// is allowed, a byte of one is a fault.
pub(crate) fn next_line<R: Source>(
    pending: &mut ReadAhead,
    reader: &mut R,
    line: &mut Vec<u8>,
    allowed: bool,
) -> Result<Option<LineRead>, ReadingFault>
    requires { max_line ≤ vec_capacity line.old }
    ensures room { max_line ≤ vec_capacity line.new }
    ensures ok { IfOk result (TakesNext (prepend_known pending.old (R.remaining reader.old))
        (prepend_known pending.new (R.remaining reader.new)) line.new.items) }
    ensures allowed { IfOk result (λ read. IsSome read → allowed ≡ true) }
    ensures fault { IfErr result (StopsInLine (prepend_known pending.old (R.remaining reader.old))
        (prepend_known pending.new (R.remaining reader.new)) allowed) }
    ensures used { IfErr result (λ fault. fault ≡ ReadFailed → pending.new ≡ []) }
    ensures failures { R.failures reader.new ≡ counted (is_failed_read result) (R.failures reader.old) }
{
    line.clear();
    let mut count = 0;
    'pieces: loop {
        match pending.fill(reader) {
            Err(_) => return Err(ReadingFault::ReadFailed),
            Ok(false) if count == 0 => return Ok(None),
            Ok(false) => {
                return Ok(Some(LineRead {
                    count,
                    newline: false,
                }));
            }
            Ok(true) => {
                let piece = pending.take_piece(line);
                if !allowed {
                    return Err(ReadingFault::TooManyLines);
                }
                if piece.count > u32::MAX - count {
                    return Err(ReadingFault::TooManyLines);
                }
                count += piece.count;
                if piece.newline {
                    return Ok(Some(LineRead {
                        count,
                        newline: true,
                    }));
                }
            }
        }
    }
}

/// The lines of a run.
#[derive(Drop)]
pub(crate) struct Lines {
    pub(crate) pending: ReadAhead,
    /// How many lines were read in this run.
    pub(crate) number: u32,
    /// How many there may be.
    pub(crate) max: u32,
    ghost within: { number ≤ max },
}

impl Lines {
    /// The lines of runs of so many at most.
    pub(crate) fn new(alloc: Global, max: u32) -> Result<Self, AllocError>
        ensures { IfOk result (λ lines. lines.max ≡ max) }
    {
        Ok(Lines {
            pending: ReadAhead::new(alloc)?,
            number: 0,
            max,
        })
    }

    /// Begins a run, which forgets what was read ahead.
    pub(crate) fn restart(&mut self)
        ensures pending { self.new.pending ≡ [] }
        ensures number { self.new.number ≡ 0 }
        ensures max { self.new.max ≡ self.old.max }
    {
        self.pending.clear();
        self.number = 0;
    }

    /// Reads the next line.
    pub(crate) fn next<R: Source>(
        &mut self,
        reader: &mut R,
        line: &mut Vec<u8>,
    ) -> Result<Option<LineRead>, ReadingFault>
        requires { max_line ≤ vec_capacity line.old }
        ensures room { max_line ≤ vec_capacity line.new }
        ensures ok { IfOk result (TakesNext (prepend_known self.old.pending (R.remaining reader.old))
            (prepend_known self.new.pending (R.remaining reader.new)) line.new.items) }
        ensures number { IfOk result (λ read. self.new.number ≡ self.old.number + (if is_some read then 1 else 0)) }
        ensures max { self.new.max ≡ self.old.max }
        ensures fault { IfErr result (StopsAfter (prepend_known self.old.pending (R.remaining reader.old))
            (prepend_known self.new.pending (R.remaining reader.new)) self.old.number self.old.max) }
        ensures used { IfErr result (λ fault. fault ≡ ReadFailed → self.new.pending ≡ []) }
        ensures failures { R.failures reader.new ≡ counted (is_failed_read result) (R.failures reader.old) }
    {
        let allowed = self.number < self.max;
        match next_line(&mut self.pending, reader, line, allowed) {
            Ok(None) => Ok(None),
            Ok(Some(read)) => {
                self.number += 1;
                Ok(Some(read))
            }
            Err(fault) => Err(fault),
        }
    }
}

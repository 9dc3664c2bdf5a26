//! Bytes read ahead of the line that is being read.

ghost use Rattle.std.specs.Prelude.{◌≡◌, ℕ, ◌+◌, ◌-◌, ◌<◌, ◌≤◌, List, [], ◌++◌, length, take, drop, IfOk, OnErr, OnOk, is_err, vec_capacity, vec_len, true, false};
ghost use Rattle.std.specs.Io.KnownBytes.{Consumes, Keeps, IsAtEnd, prepend_known};
ghost use Rattle.ctl_stanza.specs.Lines.{max_line};
ghost use Rattle.ctl_session.specs.Streams.{counted};
ghost use Rattle.ctl_session.specs.LineReading.{TakesPiece};

use crate::failed::Failed;
use crate::source::Source;
use bstr::ByteSlice;
use ctl_stanza::MAX_LINE;
use std::alloc::{AllocError, Global};
use std::marker::Model;

/// How many bytes are read ahead at most.
const PART: usize = 65_536;

/// Bytes that were read and not used yet.
#[derive(Drop)]
pub(crate) struct ReadAhead {
    part: Vec<u8>,
    start: usize,
    end: usize,
}

impl Model for ReadAhead {
    ghost Value = { List ℕ };

    ghost view = { λ p. take (p.end - p.start) (drop p.start p.part.items) };

    ghost invariant = { λ p. (p.start ≤ p.end) × (p.end ≤ 65536) × (length p.part.items ≡ 65536) };
}

impl ReadAhead {
    pub(crate) fn new(alloc: Global) -> Result<Self, AllocError>
        ensures { IfOk result (λ pending. pending ≡ []) }
    {
        let mut part = Vec::new(alloc);
        part.resize(PART, 0)?;
        Ok(ReadAhead {
            part,
            start: 0,
            end: 0,
        })
    }

    /// Forgets all bytes.
    pub(crate) fn clear(&mut self)
        ensures { self.new ≡ [] }
    {
        self.start = 0;
        self.end = 0;
    }

    /// The bytes.
    pub(crate) fn rest(&self) -> &[u8]
        ensures value { result.now ≡ self.now }
        ensures within { length result.now ≤ 65536 }
    {
        &self.part[self.start..self.end]
    }

    /// Takes out the first bytes.
    fn skip(&mut self, count: usize)
        requires { count ≤ length self.old }
        ensures { self.new ≡ drop count self.old }
    {
        self.start += count;
    }

    /// Reads the next part, where nothing is left of the last one. There is none at the end.
    pub(crate) fn refill<R: Source>(&mut self, reader: &mut R) -> Result<(), Failed>
        requires { self.old ≡ [] }
        ensures ok { OnOk result (Consumes (R.remaining reader.old) (R.remaining reader.new) self.new) }
        ensures end { OnOk result (self.new ≡ [] → IsAtEnd (R.remaining reader.new)) }
        ensures err { OnErr result (Keeps (R.remaining reader.old) (R.remaining reader.new) × (self.new ≡ [])) }
        ensures failed { R.failures reader.new ≡ counted (is_err result) (R.failures reader.old) }
    {
        match reader.read(&mut self.part) {
            Ok(n) => {
                self.start = 0;
                self.end = n;
                Ok(())
            }
            Err(failed) => {
                self.start = 0;
                self.end = 0;
                Err(failed)
            }
        }
    }

    /// Reads the next part, if nothing is left, and says whether there is a byte.
    pub(crate) fn fill<R: Source>(&mut self, reader: &mut R) -> Result<bool, Failed>
        ensures kept { Consumes (prepend_known self.old (R.remaining reader.old)) (prepend_known self.new (R.remaining reader.new)) [] }
        ensures some { IfOk result (λ some. some ≡ true → 0 < length self.new) }
        ensures end { IfOk result (λ some. some ≡ false → IsAtEnd (prepend_known self.new (R.remaining reader.new))) }
        ensures empty { OnErr result (self.new ≡ []) }
        ensures failed { R.failures reader.new ≡ counted (is_err result) (R.failures reader.old) }
    {
        if !self.rest().is_empty() {
            return Ok(true);
        }
        match self.refill(reader) {
            Ok(()) => Ok(!self.rest().is_empty()),
            Err(failed) => Err(failed),
        }
    }

    /// Takes out the bytes before the next newline, and the newline, or all bytes where there is none. The bytes go to the
    /// end of the line in the buffer, as many as a line may have.
    pub(crate) fn take_piece(&mut self, line: &mut Vec<u8>) -> LineRead
        requires room { max_line ≤ vec_capacity line.old }
        requires short { vec_len line.old ≤ max_line }
        ensures room { max_line ≤ vec_capacity line.new }
        ensures short { vec_len line.new ≤ max_line }
        ensures piece { TakesPiece self.old self.new line.old.items line.new.items result }
    {
        match self.rest().find_byte(b'\n') {
            Some(at) => {
                keep(line, &self.rest()[..at]);
                self.skip(at + 1);
                LineRead {
                    count: at as u32,
                    newline: true,
                }
            }
            None => {
                let rest = self.rest();
                let count = rest.len() as u32;
                keep(line, rest);
                self.clear();
                LineRead {
                    count,
                    newline: false,
                }
            }
        }
    }
}

/// How a line was read: how many bytes it has, and whether a newline ended it.
#[derive(Clone, Copy, Debug, PartialEq, Eq)]
pub(crate) struct LineRead {
    pub(crate) count: u32,
    pub(crate) newline: bool,
}

/// Keeps bytes of a line in the buffer, as many as there is room for.
fn keep(line: &mut Vec<u8>, piece: &[u8])
    requires room { max_line ≤ vec_capacity line.old }
    requires short { vec_len line.old ≤ max_line }
    ensures room { max_line ≤ vec_capacity line.new }
    ensures short { vec_len line.new ≤ max_line }
    ensures front { line.new.items ≡ take max_line (line.old.items ++ piece.now) }
{
    let room = MAX_LINE - line.len();
    if piece.len() <= room {
        line.extend_from_slice(piece).unwrap();
    } else {
        line.extend_from_slice(&piece[..room]).unwrap();
    }
}

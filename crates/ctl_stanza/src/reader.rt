//! Reading a control text piece by piece.

ghost use Rattle.std.specs.Prelude.{◌≡◌, ◌≤◌, ◌<◌, ◌++◌, [], ℕ, List, true, false, length, take, IfOk, IfErr, IfSome, IfNone};
ghost use Rattle.ctl_stanza.specs.declared.list_kind.ListKind.{ListKind};
ghost use Rattle.ctl_stanza.specs.Faults.{IsMemoryAtZero};
ghost use Rattle.ctl_stanza.specs.InParts.{IsReading, EndsWithGap, EndsWithNewline, HasNoGapFrom, ReadsOn, TellsOfPiece};
ghost use Rattle.ctl_stanza.specs.Text.{read_text, Reads};

use crate::fault::TextFault;
use crate::list_kind::ListKind;
use crate::reading::read_behind;
use crate::stanza::Stanza;
use std::alloc::Global;
use std::marker::Model;

/// Reads a control text of which one piece after another is at hand, so that no more of it is held than the piece, the
/// stanza that it breaks off in, and the stanzas so far. A contract sees it as these.
#[derive(Drop)]
pub struct StanzaReader {
    kind: ListKind,
    stanzas: Vec<Stanza>,
    // The number of the first line of what is left.
    line: u64,
    // What stands behind the last empty line.
    rest: Vec<u8>,
}

impl Model for StanzaReader {
    ghost use Rattle.std.specs.Prelude.{◌<◌, ◌+◌, ◌^◌, length};
    ghost use Rattle.ctl_stanza.specs.InParts.{Reading};

    ghost Value = { Reading };

    ghost view = { λ r. record { kind = r.kind; stanzas = r.stanzas.items; line = r.line; rest = r.rest.items } };

    ghost invariant = { λ r. r.line + length r.rest.items < 2 ^ 64 };
}

// Whether the byte before the one at an index is a newline, where one text stands before the other.
fn is_behind_newline(before: &[u8], text: &[u8], i: usize) -> bool
    requires { i < length text.now }
    ensures newline { result ≡ true → EndsWithNewline (before.now ++ take i text.now) }
    ensures other { result ≡ false → EndsWithNewline (before.now ++ take i text.now) → ⊥ }
{
    if i > 0 {
        return text[i - 1] == b'\n';
    }
    match before {
        [] => false,
        [.., last] => *last == b'\n',
    }
}

// How many bytes of a text stand up to its last empty line, by what stands before the text.
fn last_gap(before: &[u8], text: &[u8]) -> Option<usize>
    ensures some { IfSome result (λ at. 0 < at) }
    ensures within { IfSome result (λ at. at ≤ length text.now) }
    ensures gap { IfSome result (λ at. EndsWithGap (before.now ++ take at text.now)) }
    ensures last { IfSome result (HasNoGapFrom before.now text.now) }
    ensures none { IfNone result (HasNoGapFrom before.now text.now 0) }
{
    for i in (0..text.len()).rev() {
        if text[i] == b'\n' && is_behind_newline(before, text, i) {
            return Some(i + 1);
        }
    }
    None
}

impl StanzaReader {
    /// A reader to which no piece was given yet, for a text whose lines count from `first_line`.
    pub fn new(alloc: Global, first_line: u64, kind: ListKind) -> StanzaReader
        ensures { IsReading kind first_line [] result }
    {
        StanzaReader {
            kind,
            stanzas: Vec::new(alloc),
            line: first_line,
            rest: Vec::new(alloc),
        }
    }

    /// Goes on over the next piece of the text. A piece may break off anywhere.
    ///
    /// # Errors
    ///
    /// The fault of the text, whatever comes behind the piece: that of
    /// [`read_stanzas`](crate::read_stanzas). Where memory runs out, or lines can't be counted in 64 bits, the cause is
    /// [`Cause::Memory`](crate::Cause::Memory) and the line is 0.
    pub fn push(self, alloc: Global, piece: &[u8]) -> Result<StanzaReader, TextFault>
        ensures read { IfOk result (ReadsOn piece.now self) }
        ensures fault { IfErr result (TellsOfPiece piece.now self) }
        ensures memory { IfErr result IsMemoryAtZero }
    {
        let StanzaReader {
            kind,
            stanzas,
            line,
            rest,
        } = self;
        let mut stanzas = stanzas;
        let mut rest = rest;
        if piece.len() as u64 > u64::MAX - (line + rest.len() as u64) {
            return Err(TextFault::MEMORY);
        }
        let mut line = line;
        let mut left = piece;
        if let Some(at) = last_gap(&rest, piece) {
            let (front, behind) = piece.split_at(at);
            rest.extend_from_slice(front)?;
            line = read_behind(alloc, &mut stanzas, &rest, line, kind)?;
            rest.clear();
            left = behind;
        }
        rest.extend_from_slice(left)?;
        Ok(StanzaReader {
            kind,
            stanzas,
            line,
            rest,
        })
    }

    /// The stanzas of the text, all of whose pieces were given.
    ///
    /// # Errors
    ///
    /// Those of [`read_stanzas`](crate::read_stanzas).
    pub fn finish(self, alloc: Global) -> Result<Vec<Stanza>, TextFault>
        ensures read { (kind : ListKind) (n : ℕ) (text : List ℕ) → IsReading kind n text self → Reads result (read_text kind n text) }
        ensures memory { IfErr result IsMemoryAtZero }
    {
        let StanzaReader {
            kind,
            stanzas,
            line,
            rest,
        } = self;
        let mut stanzas = stanzas;
        read_behind(alloc, &mut stanzas, &rest, line, kind)?;
        stanzas.shrink_to_fit();
        Ok(stanzas)
    }
}

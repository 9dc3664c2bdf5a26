//! The first faulty line of a stanza.

ghost use Rattle.std.specs.Prelude.{◌≡◌, ◌+◌, ◌<◌, ◌≤◌, ◌^◌, false, length, [], None, IfOk};
ghost use Rattle.ctl_stanza.specs.Lines.{max_line, lent_lines};
ghost use Rattle.ctl_stanza.specs.LineKind.{IfName};
ghost use Rattle.ctl_stanza.specs.Faults.{body_step, continuation_cause, cause_by, first_fault};
ghost use Rattle.ctl_stanza.specs.Inside.HeldNames.{holds, HasSeenNone, AddsNameOf, HoldsNamesOf};
ghost use Rattle.ctl_stanza.specs.Inside.NameSlots.{AreTaken};

use crate::fault::{Cause, TextFault};
use crate::fields::value_len;
use crate::line_kind::{LineKind, kind_of};
use crate::lines::{MAX_LINE, is_too_long};
use crate::names_given::NamesGiven;
use crate::repeats::Repeats;
use std::alloc::{AllocError, Global};

// The cause of a continuation line, by the bytes of the body with it.
fn continuation_cause(is_first: bool, len: usize) -> Option<Cause>
    ensures { result ≡ continuation_cause is_first len }
{
    if is_first {
        Some(Cause::Line)
    } else if len > MAX_LINE {
        Some(Cause::TooLong)
    } else {
        None
    }
}

/// What the lines of a stanza so far gave: the names of their fields, and the bytes of the body that the last of them
/// belongs to.
#[derive(Drop)]
pub(crate) struct LinesSeen<'a> {
    names: NamesGiven<'a>,
    body_len: usize,
    // Whether there was no line.
    is_none: bool,
}

impl<'a> LinesSeen<'a> {
    ghost use Rattle.ctl_stanza.specs.Inside.HeldNames.{HasSeenNone};

    /// No line.
    pub(crate) fn new(alloc: Global) -> LinesSeen<'a>
        ensures { HasSeenNone result }
    {
        LinesSeen {
            names: NamesGiven::new(alloc),
            body_len: 0,
            is_none: true,
        }
    }

    /// Forgets all lines.
    pub(crate) fn clear(&mut self)
        ensures { HasSeenNone self.new }
    {
        self.names.clear();
        self.body_len = 0;
        self.is_none = true;
    }

    /// The slots of the names of the fields.
    pub(crate) fn slots(&self) -> u64
        ensures { AreTaken result (holds self.now.names) }
    {
        self.names.slots()
    }
}

/// The cause of a line of a stanza. Where there is none, the line is one of those that were seen.
pub(crate) fn line_cause<'a>(
    alloc: Global,
    repeats: Repeats,
    seen: &mut LinesSeen<'a>,
    line: &'a [u8],
    kind: LineKind,
) -> Result<Option<Cause>, AllocError>
    requires name { IfName kind line.now }
    requires body { seen.old.body_len ≤ max_line }
    ensures cause { IfOk result (λ cause.
        cause ≡ cause_by repeats (holds seen.old.names) seen.old.is_none seen.old.body_len line.now kind) }
    ensures short { IfOk result (λ cause. cause ≡ None → length line.now ≤ max_line) }
    ensures names { IfOk result (λ cause. cause ≡ None → AddsNameOf kind line.now seen.old.names seen.new.names) }
    ensures body { IfOk result (λ cause. cause ≡ None → seen.new.body_len ≡ body_step seen.old.body_len line.now kind) }
    ensures within { IfOk result (λ cause. cause ≡ None → seen.new.body_len ≤ max_line) }
    ensures some { IfOk result (λ cause. cause ≡ None → seen.new.is_none ≡ false) }
{
    if is_too_long(line) {
        return Ok(Some(Cause::TooLong));
    }
    let is_first = seen.is_none;
    seen.is_none = false;
    match kind {
        LineKind::Field(n) => {
            let name = &line[..n];
            let is_new = seen.names.add(alloc, name)?;
            if !is_new && !repeats.allow(name) {
                return Ok(Some(Cause::FieldTwice));
            }
            seen.body_len = value_len(line, n);
            Ok(None)
        }
        LineKind::Continuation => {
            seen.body_len += 1 + line.len();
            Ok(continuation_cause(is_first, seen.body_len))
        }
        LineKind::Blank => Ok(None),
        LineKind::Faulty => Ok(Some(Cause::Line)),
    }
}

/// The first faulty line of a stanza's lines, which count from `first_line`.
pub(crate) fn first_fault<'a>(
    alloc: Global,
    repeats: Repeats,
    seen: &mut LinesSeen<'a>,
    lines: &[&'a [u8]],
    first_line: u64,
) -> Result<Option<TextFault>, AllocError>
    requires lines { first_line + length lines.now < 2 ^ 64 }
    requires none { HasSeenNone seen.old }
    ensures fault { IfOk result (λ found. found ≡ first_fault repeats first_line [] (lent_lines lines.now)) }
    ensures names { IfOk result (λ found. found ≡ None → HoldsNamesOf (lent_lines lines.now) seen.new.names) }
{
    for i in 0..lines.len() {
        let line = lines[i];
        let found = line_cause(alloc, repeats, seen, line, kind_of(line))?;
        if let Some(cause) = found {
            return Ok(Some(TextFault {
                line: first_line + i as u64,
                cause,
            }));
        }
    }
    Ok(None)
}

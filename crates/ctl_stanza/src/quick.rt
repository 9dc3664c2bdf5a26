//! A quick pass over the lines of a stanza, which finds its fields, or gives up.

ghost use Rattle.std.specs.Prelude.{◌≡◌, ◌+◌, ◌<◌, ◌≤◌, ◌^◌, true, length, IfOk, IfSome};
ghost use Rattle.ctl_stanza.specs.Lines.{lines_of};
ghost use Rattle.ctl_stanza.specs.LineKind.{kind_of, IfName};
ghost use Rattle.ctl_stanza.specs.Inside.HeldFields.{IsText};
ghost use Rattle.ctl_stanza.specs.Inside.HeldNames.{HasSeenNone};
ghost use Rattle.ctl_stanza.specs.Inside.NameSlots.{AreTakenBy};
ghost use Rattle.ctl_stanza.specs.Inside.Quick.{IsPlainAnywhere, AddsAnywhere, IsCutOff, IsAccepted};

use crate::fields::{Field, value_span};
use crate::line_faults::{LinesSeen, line_cause};
use crate::line_kind::{LineKind, kind_of};
use crate::lines::{MAX_LINE, take_line};
use crate::repeats::Repeats;
use crate::walk::continued_up_to;
use ctl_relation::Span;
use std::alloc::{AllocError, Global};

/// The first stanza of a text, no line of which is faulty.
#[derive(Clone, Copy)]
pub(crate) struct Accepted<'a> {
    /// Its lines, each with a newline, which have less than 2^32 bytes.
    pub(crate) text: &'a [u8],
    pub(crate) line_count: usize,
    /// The slots of the names of its fields.
    pub(crate) names: u64,
    /// What stands behind it.
    pub(crate) behind: &'a [u8],
}

// A line of a stanza, what stands behind its newline, its index, and that of its first byte.
#[derive(Clone, Copy)]
struct LineHere<'a> {
    line: &'a [u8],
    behind: &'a [u8],
    index: usize,
    at: usize,
}

fn ends_with_newline(text: &[u8]) -> bool
    ensures { result ≡ true → IsText text.now }
{
    match text {
        [] => false,
        [.., last] => *last == b'\n',
    }
}

// The field that a line begins, whose name has `n` bytes, where its body stands in one piece and ends below 2^32.
fn plain_field(here: &LineHere, n: usize) -> Option<Field>
    requires name { n < length here.now.line.now }
    requires short { length here.now.line.now < 2 ^ 32 }
    requires text { IsText here.now.behind.now }
    requires index { here.now.index ≤ here.now.at }
    requires room { here.now.at + length here.now.line.now + length here.now.behind.now < 2 ^ 64 }
    ensures { IfSome result (IsPlainAnywhere here.now n) }
{
    let value = value_span(here.line, n);
    let Some(more) = continued_up_to(here.behind, MAX_LINE) else {
        return None;
    };
    if more > 0 && (value.end as usize) < here.line.len() {
        return None;
    }
    if here.at + here.line.len() + more > u32::MAX as usize {
        return None;
    }
    let at = here.at as u32;
    Some(Field {
        line: here.index as u32,
        name: Span {
            start: at,
            end: at + n as u32,
        },
        body: Span {
            start: at + value.start,
            end: at + value.end + more as u32,
        },
    })
}

// Adds the field that a line begins, if it is a field line. Whether that could be done.
fn add_field(fields: &mut Vec<Field>, here: &LineHere, kind: LineKind) -> Result<bool, AllocError>
    requires kind { kind ≡ kind_of here.now.line.now }
    requires name { IfName kind here.now.line.now }
    requires short { length here.now.line.now < 2 ^ 32 }
    requires text { IsText here.now.behind.now }
    requires index { here.now.index ≤ here.now.at }
    requires room { here.now.at + length here.now.line.now + length here.now.behind.now < 2 ^ 64 }
    ensures { IfOk result (λ added. added ≡ true → AddsAnywhere here.now fields.old.items fields.new.items) }
{
    let LineKind::Field(n) = kind else {
        return Ok(true);
    };
    let Some(field) = plain_field(here, n) else {
        return Ok(false);
    };
    fields.push(field)?;
    Ok(true)
}

// The stanza of so many lines, behind which this is left of the text, whose names have these slots.
fn cut_off<'a>(
    text: &'a [u8],
    left: &'a [u8],
    line_count: usize,
    names: u64,
) -> Option<Accepted<'a>>
    requires { length left.now ≤ length text.now }
    ensures cut { IfSome result (λ found. IsCutOff text.now left.now line_count found) }
    ensures names { IfSome result (λ found. found.names ≡ names) }
{
    let len = text.len() - left.len();
    if line_count == 0 || len > u32::MAX as usize {
        return None;
    }
    Some(Accepted {
        text: text.split_at(len).0,
        line_count,
        names,
        behind: left,
    })
}

/// The first stanza of a text, whose fields are then these, or None on any doubt.
pub(crate) fn accept_stanza<'a>(
    alloc: Global,
    seen: &mut LinesSeen<'a>,
    fields: &mut Vec<Field>,
    text: &'a [u8],
) -> Result<Option<Accepted<'a>>, AllocError>
    requires { HasSeenNone seen.old }
    ensures accepted { IfOk result (λ found. IfSome found (λ stanza. IsAccepted text.now stanza fields.new.items)) }
    ensures names { IfOk result (λ found. IfSome found (λ stanza. AreTakenBy (lines_of stanza.text.now) stanza.names)) }
{
    fields.clear();
    if !ends_with_newline(text) {
        return Ok(None);
    }
    let mut count: usize = 0;
    let mut left = text;
    'lines: while let Some((line, behind)) = take_line(left) {
        let kind = kind_of(line);
        if let LineKind::Blank = kind {
            break;
        }
        let found = line_cause(alloc, Repeats::Never, seen, line, kind)?;
        if let Some(_) = found {
            return Ok(None);
        }
        let here = LineHere {
            line,
            behind,
            index: count,
            at: text.len() - left.len(),
        };
        if !add_field(fields, &here, kind)? {
            return Ok(None);
        }
        count += 1;
        left = behind;
    }
    Ok(cut_off(text, left, count, seen.slots()))
}

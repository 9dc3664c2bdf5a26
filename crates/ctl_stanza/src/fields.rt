//! The fields of a stanza, by where they stand in its text.

ghost use Rattle.std.specs.Prelude.{◌≡◌, ◌+◌, ◌-◌, ◌<◌, ◌≤◌, ◌^◌, ◌∷◌, ◌++◌, ℕ, length, take, drop, option_map, IfOk, OnOk};
ghost use Rattle.std.specs.List.{prefix_len};
ghost use Rattle.std.specs.Str.{bytes_eq};
ghost use Rattle.ctl_relation.specs.Bytes.{newline};
ghost use Rattle.ctl_stanza.specs.Lines.{is_blank_byte, text_of_lines, lent_lines};
ghost use Rattle.ctl_stanza.specs.LineKind.{kind_of};
ghost use Rattle.ctl_stanza.specs.declared.line_kind.LineKind.TheVariants as kinds;
ghost use Rattle.ctl_stanza.specs.Fields.{strip_end, value_of, continues, continued, fields_of_lines, body_named, is_same_name};
ghost use Rattle.ctl_stanza.specs.Inside.HeldFields.{IsWithin, AreWithin, AreBelow, StandsAt, Grows, Shows, Adds, shown, shown_fields};
ghost use Rattle.ctl_stanza.specs.Inside.HeldFields.{loose_at, loose_bodies};

use crate::line_kind::{LineKind, kind_of};
use crate::lines::{begins_with_blank, is_blank, is_blank_byte, text_of_lines};
use ctl_relation::Span;
use std::alloc::AllocError;

/// A field of a stanza or a record: the index of its line, and where its name and its body stand in the text.
#[derive(Clone, Copy)]
pub(crate) struct Field {
    pub(crate) line: u32,
    pub(crate) name: Span,
    pub(crate) body: Span,
}

/// Whether two names of fields are the same, without regard to ASCII case.
pub(crate) fn is_same_name(name: &[u8], other: &[u8]) -> bool
    ensures { result ≡ is_same_name name.now other.now }
{
    name.eq_ignore_ascii_case(other)
}

/// How many blanks stand at the front.
pub(crate) fn blank_len(text: &[u8]) -> usize
    ensures len { result ≡ prefix_len is_blank_byte text.now }
    ensures within { result ≤ length text.now }
{
    for (i, byte) in text.iter().enumerate() {
        if !is_blank_byte(*byte) {
            return i;
        }
    }
    text.len()
}

// How long the text is without the blanks at its end.
fn stripped_len(text: &[u8]) -> usize
    ensures text { take result text.now ≡ strip_end text.now }
    ensures within { result ≤ length text.now }
{
    for i in (0..text.len()).rev() {
        if !is_blank_byte(text[i]) {
            return i + 1;
        }
    }
    0
}

/// Where the value stands in a field line.
pub(crate) fn value_span(line: &[u8], n: usize) -> Span
    requires name { n < length line.now }
    requires short { length line.now < 2 ^ 32 }
    ensures value { shown line.now result ≡ value_of n line.now }
    ensures within { IsWithin line.now result }
{
    let (_, behind) = line.split_at(n + 1);
    let (blanks, rest) = behind.split_at(blank_len(behind));
    let start = n + 1 + blanks.len();
    let end = start + stripped_len(rest);
    Span {
        start: start as u32,
        end: end as u32,
    }
}

/// The bytes of the value of a field line whose name has `n` bytes.
pub(crate) fn value_len(line: &[u8], n: usize) -> usize
    requires name { n < length line.now }
    requires short { length line.now < 2 ^ 32 }
    ensures len { result ≡ length (value_of n line.now) }
    ensures within { result ≤ length line.now }
{
    value_span(line, n).of(line).len()
}

/// Whether a line ends with a value that isn't longer.
pub(crate) fn ends_with(line: &[u8], value: &[u8]) -> bool
    requires { length value.now ≤ length line.now }
    ensures { result ≡ bytes_eq (drop (length line.now - length value.now) line.now) value.now }
{
    line.ends_with(value)
}

/// Whether a line continues the field before it.
#[tactic(auto, using(crate::proofs::LineStartLemmas::continues_is))]
pub(crate) fn continues(line: &[u8]) -> bool
    ensures { result ≡ continues (kind_of line.now) }
{
    // The name of a field line need not be gone through for this.
    begins_with_blank(line) && !is_blank(line)
}

// The bytes of the continuation lines at the front, each with the newline before it.
fn continued_len(lines: &[&[u8]]) -> usize
    requires { length (continued (lent_lines lines.now)) < 2 ^ 64 }
    ensures { result ≡ length (continued (lent_lines lines.now)) }
{
    let mut len: usize = 0;
    for i in 0..lines.len() {
        let line = lines[i];
        if !continues(line) {
            return len;
        }
        len += line.len() + 1;
    }
    len
}

// Puts a value and the continuation lines at the front behind the bytes.
fn append_body(bytes: &mut Vec<u8>, value: &[u8], lines: &[&[u8]]) -> Result<(), AllocError>
    ensures { OnOk result (bytes.new.items ≡ bytes.old.items ++ (value.now ++ continued (lent_lines lines.now))) }
{
    bytes.extend_from_slice(value)?;
    for i in 0..lines.len() {
        let line = lines[i];
        if !continues(line) {
            return Ok(());
        }
        bytes.push(b'\n')?;
        bytes.extend_from_slice(line)?;
    }
    Ok(())
}

// Where the body stands of the field that a line begins, by the lines behind it. Blanks at the end of the line stand
// between its value and the lines that continue it, though they are no part of the body: such a body is put together
// behind the text. Where there is then no place below 2^32 left, memory is said to be wanting.
fn body_span(
    bytes: &mut Vec<u8>,
    line: &[u8],
    n: usize,
    behind: &[&[u8]],
    at: u32,
) -> Result<Span, AllocError>
    requires name { n < length line.now }
    requires short { length bytes.old.items < 2 ^ 32 }
    requires stands { StandsAt bytes.old.items at (line.now ++ newline ∷ text_of_lines (lent_lines behind.now)) }
    ensures grows { OnOk result (Grows bytes.old.items bytes.new.items) }
    ensures short { OnOk result (length bytes.new.items < 2 ^ 32) }
    ensures body { IfOk result (λ span. Shows bytes.new.items span (value_of n line.now ++ continued (lent_lines behind.now))) }
    ensures loose { OnOk result (bytes.new.items ≡ bytes.old.items ++ loose_at (kinds.Field n) line.now (lent_lines behind.now)) }
{
    let value = value_span(line, n);
    let more = continued_len(behind);
    if more == 0 {
        return Ok(Span {
            start: at + value.start,
            end: at + value.end,
        });
    }
    let text = value.of(line);
    if ends_with(line, text) {
        return Ok(Span {
            start: at + (line.len() - text.len()) as u32,
            end: at + (line.len() + more) as u32,
        });
    }
    let start = bytes.len();
    append_body(bytes, text, behind)?;
    let end = bytes.len();
    if end > u32::MAX as usize {
        return Err(AllocError);
    }
    Ok(Span {
        start: start as u32,
        end: end as u32,
    })
}

// The index of a line, and where it stands in the bytes.
#[derive(Clone, Copy)]
struct LineStart {
    index: u32,
    at: u32,
}

// Adds the field that a line begins, if it is a field line, by the lines behind it.
fn add_field(
    bytes: &mut Vec<u8>,
    fields: &mut Vec<Field>,
    line: &[u8],
    behind: &[&[u8]],
    start: LineStart,
) -> Result<(), AllocError>
    requires short { length bytes.old.items < 2 ^ 32 }
    requires stands { StandsAt bytes.old.items start.at (line.now ++ newline ∷ text_of_lines (lent_lines behind.now)) }
    requires within { AreWithin bytes.old.items fields.old.items }
    ensures grows { OnOk result (Grows bytes.old.items bytes.new.items) }
    ensures short { OnOk result (length bytes.new.items < 2 ^ 32) }
    ensures fields { OnOk result (Adds bytes.new.items line.now (lent_lines behind.now) start.index
        (shown_fields bytes.old.items fields.old.items) fields.new.items) }
    ensures loose { OnOk result (bytes.new.items ≡ bytes.old.items ++ loose_at (kind_of line.now) line.now (lent_lines behind.now)) }
    ensures lines { OnOk result ((count : ℕ) → start.index < count → AreBelow count fields.old.items → AreBelow count fields.new.items) }
{
    let LineKind::Field(n) = kind_of(line) else {
        return Ok(());
    };
    let body = body_span(bytes, line, n, behind, start.at)?;
    fields.push(Field {
        line: start.index,
        name: Span {
            start: start.at,
            end: start.at + n as u32,
        },
        body,
    })?;
    Ok(())
}

/// Puts the text of the lines of a stanza without a faulty line in place of the bytes, finds their fields in it, and puts the
/// bodies behind it that don't stand in it in one piece. How long the text is. The only error is out of memory, which also
/// a place of 2^32 or more is taken for.
pub(crate) fn fields_of_lines(
    bytes: &mut Vec<u8>,
    fields: &mut Vec<Field>,
    lines: &[&[u8]],
) -> Result<u32, AllocError>
    ensures len { IfOk result (λ len. len ≡ length (text_of_lines (lent_lines lines.now))) }
    ensures short { OnOk result (length (text_of_lines (lent_lines lines.now)) < 2 ^ 32) }
    ensures fields { OnOk result (shown_fields bytes.new.items fields.new.items ≡ fields_of_lines (lent_lines lines.now)) }
    ensures within { OnOk result (AreWithin bytes.new.items fields.new.items) }
    ensures lines { OnOk result (AreBelow (length lines.now) fields.new.items) }
    ensures loose { OnOk result (bytes.new.items ≡ text_of_lines (lent_lines lines.now) ++ loose_bodies (lent_lines lines.now)) }
{
    text_of_lines(bytes, lines)?;
    let len = bytes.len();
    if len > u32::MAX as usize {
        return Err(AllocError);
    }
    fields.clear();
    let mut at: u32 = 0;
    for i in 0..lines.len() {
        let line = lines[i];
        let start = LineStart {
            index: i as u32,
            at,
        };
        add_field(bytes, fields, line, &lines[i + 1..], start)?;
        at += line.len() as u32 + 1;
    }
    bytes.shrink_to_fit();
    Ok(len as u32)
}

/// The body of the first field of a name.
pub(crate) fn body_named<'a>(fields: &[Field], text: &'a [u8], name: &[u8]) -> Option<&'a [u8]>
    requires { AreWithin text.now fields.now }
    ensures { option_map (λ body. body.now) result ≡ body_named name.now (shown_fields text.now fields.now) }
{
    for i in 0..fields.len() {
        let field = &fields[i];
        if is_same_name(field.name.of(text), name) {
            return Some(field.body.of(text));
        }
    }
    None
}

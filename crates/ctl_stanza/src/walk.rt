//! Fields of a stanza, found by walking the lines of its text.

ghost use Rattle.std.specs.Prelude.{◌≡◌, ◌<◌, ◌^◌, ◌∷◌, ◌++◌, [], length, option_map, IfSome, IfNone};
ghost use Rattle.ctl_relation.specs.Bytes.{newline};
ghost use Rattle.ctl_stanza.specs.Lines.{lines_of};
ghost use Rattle.ctl_stanza.specs.LineKind.{kind_of};
ghost use Rattle.ctl_stanza.specs.Fields.{body_named, continued, value_of, fields_of_lines, names_field};
ghost use Rattle.ctl_stanza.specs.declared.line_kind.LineKind.TheVariants.{Field};
ghost use Rattle.ctl_stanza.specs.Inside.HeldFields.{IsText, IsWalk, StandsAt, bodies_in, loose_at, loose_bodies};

use crate::fields::{continues, ends_with, is_same_name, value_span};
use crate::line_kind::{LineKind, kind_of};
use crate::lines::{begins_with_blank, take_line};

/// A field, and what is left to walk behind it.
#[derive(Drop)]
pub(crate) struct Taken<'a> {
    pub(crate) name: &'a [u8],
    pub(crate) body: &'a [u8],
    pub(crate) text: &'a [u8],
    pub(crate) loose: &'a [u8],
}

/// The bytes of the continuation lines at the front of a text, each with the newline before it. None where they are more
/// than a limit, so that those behind need not be looked through.
#[inline]
pub(crate) fn continued_up_to(text: &[u8], limit: usize) -> Option<usize>
    requires { IsText text.now }
    ensures len { IfSome result (λ len. len ≡ length (continued (lines_of text.now))) }
    ensures more { IfNone result (limit < length (continued (lines_of text.now))) }
{
    let mut len: usize = 0;
    let mut left = text;
    'lines: loop {
        // Most fields have no such line, and their next line need not be cut for this.
        if !begins_with_blank(left) {
            return Some(len);
        }
        let Some((line, behind)) = take_line(left) else {
            return Some(len);
        };
        if !continues(line) {
            return Some(len);
        }
        len += line.len() + 1;
        if len > limit {
            return None;
        }
        left = behind;
    }
}

// The bytes of the continuation lines at the front of a text, each with the newline before it.
fn continued_behind(text: &[u8]) -> usize
    requires { IsText text.now }
    ensures { result ≡ length (continued (lines_of text.now)) }
{
    match continued_up_to(text, usize::MAX) {
        Some(len) => len,
        None => unreachable!("a text has no more bytes"),
    }
}

// The body of the field that the first line of a text begins.
fn body_at<'a>(
    text: &'a [u8],
    line: &'a [u8],
    n: usize,
    behind: &'a [u8],
    loose: &'a [u8],
) -> &'a [u8]
    requires name { n < length line.now }
    requires short { length text.now < 2 ^ 32 }
    requires text { text.now ≡ line.now ++ newline ∷ behind.now }
    requires behind { IsText behind.now }
    requires loose { StandsAt loose.now 0 (loose_at (Field n) line.now (lines_of behind.now)) }
    ensures { result.now ≡ value_of n line.now ++ continued (lines_of behind.now) }
{
    let value = value_span(line, n).of(line);
    let more = continued_behind(behind);
    if more == 0 {
        return value;
    }
    if ends_with(line, value) {
        return &text[line.len() - value.len()..line.len() + more];
    }
    &loose[..value.len() + more]
}

// How many bytes the body of the field has that a line begins, if it doesn't stand in the text in one piece.
fn loose_len(line: &[u8], behind: &[u8]) -> usize
    requires short { length line.now < 2 ^ 32 }
    requires few { length behind.now < 2 ^ 32 }
    requires behind { IsText behind.now }
    ensures { result ≡ length (loose_at (kind_of line.now) line.now (lines_of behind.now)) }
{
    let LineKind::Field(n) = kind_of(line) else {
        return 0;
    };
    let value = value_span(line, n).of(line);
    let more = continued_behind(behind);
    if more == 0 || ends_with(line, value) {
        return 0;
    }
    value.len() + more
}

// The bodies that don't stand in the text in one piece, without that of the field that a line begins.
fn loose_behind<'a>(loose: &'a [u8], line: &[u8], behind: &[u8]) -> &'a [u8]
    requires short { length line.now < 2 ^ 32 }
    requires few { length behind.now < 2 ^ 32 }
    requires behind { IsText behind.now }
    requires loose { loose.now ≡ loose_at (kind_of line.now) line.now (lines_of behind.now) ++ loose_bodies (lines_of behind.now) }
    ensures { result.now ≡ loose_bodies (lines_of behind.now) }
{
    if loose.is_empty() {
        return loose;
    }
    loose.split_at(loose_len(line, behind)).1
}

// Whether a line is a field line of a name.
fn names_field(line: &[u8], name: &[u8]) -> bool
    ensures { result ≡ names_field (kind_of line.now) line.now name.now }
{
    // Most lines are known to be others by one byte.
    if line.len() <= name.len() || line[name.len()] != b':' {
        return false;
    }
    if !is_same_name(line.split_at(name.len()).0, name) {
        return false;
    }
    match kind_of(line) {
        LineKind::Field(n) => n == name.len(),
        _ => false,
    }
}

/// The body of the first field of a name.
pub(crate) fn body_in<'a>(text: &'a [u8], loose: &'a [u8], name: &[u8]) -> Option<&'a [u8]>
    requires { IsWalk text.now loose.now }
    ensures { option_map (λ body. body.now) result ≡ body_named name.now (fields_of_lines (lines_of text.now)) }
{
    let mut left = text;
    let mut others = loose;
    'lines: loop {
        let Some((line, behind)) = take_line(left) else {
            return None;
        };
        if names_field(line, name) {
            return Some(body_at(left, line, name.len(), behind, others));
        }
        others = loose_behind(others, line, behind);
        left = behind;
    }
}

/// The first field of a text.
pub(crate) fn take_field<'a>(text: &'a [u8], loose: &'a [u8]) -> Option<Taken<'a>>
    requires { IsWalk text.now loose.now }
    ensures walk { IfSome result (λ taken. IsWalk taken.text.now taken.loose.now) }
    ensures field { IfSome result (λ taken. bodies_in text.now ≡ (taken.name.now, taken.body.now) ∷ bodies_in taken.text.now) }
    ensures none { IfNone result (bodies_in text.now ≡ []) }
    ensures less { IfSome result (λ taken. length taken.text.now < length text.now) }
{
    let mut left = text;
    let mut others = loose;
    'lines: loop {
        let Some((line, behind)) = take_line(left) else {
            return None;
        };
        let rest = loose_behind(others, line, behind);
        if let LineKind::Field(n) = kind_of(line) {
            return Some(Taken {
                name: line.split_at(n).0,
                body: body_at(left, line, n, behind, others),
                text: behind,
                loose: rest,
            });
        }
        others = rest;
        left = behind;
    }
}

/// How many fields a text has.
pub(crate) fn count_fields(text: &[u8], loose: &[u8]) -> usize
    requires { IsWalk text.now loose.now }
    ensures { result ≡ length (bodies_in text.now) }
{
    let mut count: usize = 0;
    let mut left = text;
    let mut others = loose;
    'fields: loop {
        let Some(taken) = take_field(left, others) else {
            return count;
        };
        count += 1;
        left = taken.text;
        others = taken.loose;
    }
}

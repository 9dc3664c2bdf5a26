//! What a line is by itself.

ghost use Rattle.std.specs.Prelude.{◌≡◌, ◌<◌, not, length, position, IfSome, Some};
ghost use Rattle.ctl_stanza.specs.LineKind.{is_field_name_byte, kind_after_name, kind_of, IfName};

use crate::lines::{is_blank, is_blank_byte};
use ctl_relation::is_field_name_byte;

/// What a line is by itself.
#[derive(Clone, Copy)]
pub(crate) enum LineKind {
    /// Spaces and tabs alone, or nothing.
    Blank,
    /// A field line, with the length of its name.
    Field(usize),
    /// It begins with a blank, and isn't blank.
    Continuation,
    /// None of these.
    Faulty,
}

// The index of the first byte that isn't one of names.
fn name_len(line: &[u8]) -> Option<usize>
    ensures position { result ≡ position (λ b. not (is_field_name_byte b)) line.now }
    ensures within { IfSome result (λ n. n < length line.now) }
{
    for (i, byte) in line.iter().enumerate() {
        if !is_field_name_byte(*byte) {
            return Some(i);
        }
    }
    None
}

fn kind_after_name(line: &[u8], n: usize) -> LineKind
    requires { n < length line.now }
    ensures kind { result ≡ kind_after_name line.now (Some n) }
    ensures name { IfName result line.now }
{
    if n == 0 || line[n] != b':' {
        return LineKind::Faulty;
    }
    if line[0] == b'#' || line[0] == b'-' {
        return LineKind::Faulty;
    }
    LineKind::Field(n)
}

/// The kind of a line.
pub(crate) fn kind_of(line: &[u8]) -> LineKind
    ensures kind { result ≡ kind_of line.now }
    ensures name { IfName result line.now }
{
    if is_blank(line) {
        return LineKind::Blank;
    }
    if is_blank_byte(line[0]) {
        return LineKind::Continuation;
    }
    match name_len(line) {
        Some(n) => kind_after_name(line, n),
        None => LineKind::Faulty,
    }
}

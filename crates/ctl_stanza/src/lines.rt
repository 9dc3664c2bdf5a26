//! Cutting a text into lines.

ghost use Rattle.std.specs.Prelude.{◌≡◌, ◌<◌, ◌≤◌, ◌+◌, ◌∷◌, ◌++◌, [], ℕ, List, length, OnOk, IfSome, IfNone};
ghost use Rattle.ctl_relation.specs.Bytes.{newline};
ghost use Rattle.ctl_stanza.specs.Lines.{lines_of, is_too_long, is_blank_byte, is_blank, begins_with_blank, text_of_lines, lent_lines};

use bstr::ByteSlice;
use std::alloc::AllocError;

/// The most bytes of a line, its newline not counted. A longer line is a fault.
pub const MAX_LINE: usize = 1_048_576;

/// Whether a line has more bytes than a line may have.
pub(crate) fn is_too_long(line: &[u8]) -> bool
    ensures { result ≡ is_too_long line.now }
{
    line.len() > MAX_LINE
}

pub(crate) fn is_blank_byte(byte: u8) -> bool
    ensures { result ≡ is_blank_byte byte }
{
    byte == b' ' || byte == b'\t'
}

/// Whether a line has only spaces and tabs, or nothing.
pub(crate) fn is_blank(line: &[u8]) -> bool
    ensures { result ≡ is_blank line.now }
{
    for byte in line {
        if !is_blank_byte(*byte) {
            return false;
        }
    }
    true
}

/// Whether a line begins with a space or a tab.
pub(crate) fn begins_with_blank(line: &[u8]) -> bool
    ensures { result ≡ begins_with_blank line.now }
{
    match line {
        [] => false,
        [first, ..] => is_blank_byte(*first),
    }
}

/// The first line of a text, without its newline, and what stands behind it. None where the text is empty.
#[inline(always)]
pub(crate) fn take_line(text: &[u8]) -> Option<(&[u8], &[u8])>
    ensures lines { IfSome result (λ cut. lines_of text.now ≡ cut.0.now ∷ lines_of cut.1.now) }
    ensures one_line { IfSome result (λ cut. (more : List ℕ) → lines_of (cut.0.now ++ newline ∷ more) ≡ cut.0.now ∷ lines_of more) }
    ensures shorter { IfSome result (λ cut. length cut.0.now + length cut.1.now ≤ length text.now) }
    ensures less { IfSome result (λ cut. length cut.1.now < length text.now) }
    ensures first { IfSome result (λ cut. length cut.0.now < length text.now → text.now ≡ cut.0.now ++ newline ∷ cut.1.now) }
    ensures none { IfNone result (text.now ≡ []) }
{
    if text.is_empty() {
        return None;
    }
    match text.find_byte(b'\n') {
        Some(at) => Some((&text[..at], &text[at + 1..])),
        None => Some((text, &text[text.len()..])),
    }
}

/// What stands behind an empty line at the front of a text. None where there is no such line.
pub(crate) fn behind_empty_line(text: &[u8]) -> Option<&[u8]>
    ensures lines { IfSome result (λ behind. lines_of text.now ≡ [] ∷ lines_of behind.now) }
    ensures less { IfSome result (λ behind. length behind.now < length text.now) }
{
    match text {
        [b'\n', behind @ ..] => Some(behind),
        _ => None,
    }
}

/// Puts each line with a newline into a text, in place of what it had.
pub(crate) fn text_of_lines(text: &mut Vec<u8>, lines: &[&[u8]]) -> Result<(), AllocError>
    ensures { OnOk result (text.new.items ≡ text_of_lines (lent_lines lines.now)) }
{
    let mut len: usize = 0;
    for line in lines {
        len = len.saturating_add(line.len()).saturating_add(1);
    }
    text.clear();
    text.reserve_exact(len)?;
    for i in 0..lines.len() {
        text.extend_from_slice(lines[i])?;
        text.push(b'\n')?;
    }
    Ok(())
}

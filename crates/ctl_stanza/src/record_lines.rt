//! The lines of a text of preferences that aren't comments.

ghost use Rattle.std.specs.Prelude.{◌≡◌, ◌+◌, ◌<◌, ◌^◌, ◌∷◌, ◌++◌, [], length, IfOk, OnOk};
ghost use Rattle.ctl_relation.specs.Bytes.{newline};
ghost use Rattle.ctl_stanza.specs.Lines.{lines_of};
ghost use Rattle.ctl_stanza.specs.Records.{is_comment, record_lines, numbers_of, bytes_of};

use crate::lines::take_line;
use std::alloc::{AllocError, Global};

/// A text without its comment lines, and of each of its lines the number that it had.
#[derive(Drop)]
pub(crate) struct RecordLines {
    pub(crate) text: Vec<u8>,
    pub(crate) numbers: Vec<u64>,
}

fn is_comment(line: &[u8]) -> bool
    ensures { result ≡ is_comment line.now }
{
    match line {
        [] => false,
        [first, ..] => *first == b'#',
    }
}

impl RecordLines {
    // Adds a line that has this number.
    fn add(&mut self, line: &[u8], number: u64) -> Result<(), AllocError>
        ensures text { OnOk result (self.new.text.items ≡ self.old.text.items ++ (line.now ++ newline ∷ [])) }
        ensures number { OnOk result (self.new.numbers.items ≡ self.old.numbers.items ++ number ∷ []) }
    {
        self.text.extend_from_slice(line)?;
        self.text.push(b'\n')?;
        self.numbers.push(number)?;
        Ok(())
    }
}

/// The lines of a text, which count from `first_line`, that aren't comments.
pub(crate) fn record_lines(
    alloc: Global,
    text: &[u8],
    first_line: u64,
) -> Result<RecordLines, AllocError>
    requires { first_line + length (lines_of text.now) < 2 ^ 64 }
    ensures lines { IfOk result (λ lines. lines_of lines.text.items ≡ bytes_of (record_lines first_line text.now)) }
    ensures numbers { IfOk result (λ lines. lines.numbers.items ≡ numbers_of (record_lines first_line text.now)) }
{
    let mut kept = RecordLines {
        text: Vec::new(alloc),
        numbers: Vec::new(alloc),
    };
    let mut left = text;
    let mut number = first_line;
    'lines: while let Some((line, behind)) = take_line(left) {
        if !is_comment(line) {
            kept.add(line, number)?;
        }
        number += 1;
        left = behind;
    }
    Ok(kept)
}

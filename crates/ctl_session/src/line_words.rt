//! The name of a command, and lines that are none.

ghost use Rattle.std.specs.Prelude.{◌≡◌, ◌≤◌, ◌++◌, length};
ghost use Rattle.ctl_stanza.specs.Lines.{is_blank_byte as blank};
ghost use Rattle.ctl_session.specs.Script.{without_blanks, first_word, name_of, is_idle, is_dot as dot};
ghost use Rattle.ctl_session.specs.Words.{behind_word, behind_name};

pub(crate) fn is_blank(byte: u8) -> bool
    ensures { result ≡ blank byte }
{
    byte == b' ' || byte == b'\t'
}

/// The line without the blanks at its front.
pub(crate) fn skip_blanks(text: &[u8]) -> &[u8]
    ensures value { result.now ≡ without_blanks text.now }
    ensures within { length result.now ≤ length text.now }
{
    let mut rest = text;
    while let [byte, tail @ ..] = rest {
        if !is_blank(*byte) {
            break;
        }
        rest = tail;
    }
    rest
}

/// The bytes up to the next blank, and what comes after them.
pub(crate) fn take_word(text: &[u8]) -> (&[u8], &[u8])
    ensures word { result.0.now ≡ first_word text.now }
    ensures behind { result.1.now ≡ behind_word text.now }
    ensures split { text.now ≡ result.0.now ++ result.1.now }
{
    let mut at = 0;
    for byte in text {
        if is_blank(*byte) {
            break;
        }
        at += 1;
    }
    text.split_at(at)
}

/// What stands behind the name of a command.
pub(crate) fn behind_name(line: &[u8]) -> &[u8]
    ensures { result.now ≡ behind_name line.now }
{
    let (_, behind) = take_word(skip_blanks(line));
    behind
}

/// The name of a command.
pub(crate) fn name(line: &[u8]) -> &[u8]
    ensures { result.now ≡ name_of line.now }
{
    let (word, _) = take_word(skip_blanks(line));
    word
}

/// Whether a line that is not too long is no command.
pub(crate) fn is_no_command(line: &[u8]) -> bool
    ensures { result ≡ is_idle (without_blanks line.now) }
{
    match skip_blanks(line) {
        [] => true,
        [byte, ..] => *byte == b'#',
    }
}

/// Whether a line ends a body.
pub(crate) fn is_dot(line: &[u8]) -> bool
    ensures { result ≡ dot line.now }
{
    match line {
        [byte] => *byte == b'.',
        _ => false,
    }
}

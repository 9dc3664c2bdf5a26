//! Writing what commands came to.

ghost use Rattle.std.specs.Prelude.{◌≡◌, ◌+◌, ◌≤◌, ◌++◌, OnOk, OnErr, is_err, codes, length, vec_capacity};
ghost use Rattle.std.specs.Io.KnownBytes.{Appends};
ghost use Rattle.ctl_stanza.specs.Lines.{max_line};
ghost use Rattle.ctl_store.specs.Refusals.{words_of_refusal};
ghost use Rattle.ctl_session.specs.Streams.{counted, WritesPart};
ghost use Rattle.ctl_session.specs.Replies.{text_of_reply};

use crate::failed::Failed;
use crate::refusal_at::RefusalAt;
use crate::reply::Reply;
use crate::sink::{Sink, write_whole};
use ctl_store::Refusal;
use itoa::Buffer;

/// Puts the line of a refusal into a buffer that has room for a line, so that it takes no memory.
fn put_refusal(line: &mut Vec<u8>, number: &[u8], cause: &[u8])
    requires room { max_line ≤ vec_capacity line.old }
    requires short { length number.now + length cause.now ≤ 100 }
    ensures room { max_line ≤ vec_capacity line.new }
    ensures text { line.new.items ≡ codes "E: line " ++ number.now ++ codes ": " ++ cause.now ++ codes "\n" }
{
    line.clear();
    line.extend_from_slice(b"E: line ").unwrap();
    line.extend_from_slice(number).unwrap();
    line.extend_from_slice(b": ").unwrap();
    line.extend_from_slice(cause).unwrap();
    line.push(b'\n').unwrap();
}

/// The words of a refusal, which are short.
fn words_of(cause: Refusal) -> &'static [u8]
    ensures words { result.now ≡ words_of_refusal cause }
    ensures short { length result.now ≤ 40 }
{
    cause.text().as_bytes()
}

/// Writes what a command came to, in one piece. The buffer has room for a line, and what stood in it goes.
pub(crate) fn print<W: Sink>(
    writer: &mut W,
    reply: Reply,
    out: &[u8],
    line: &mut Vec<u8>,
) -> Result<(), Failed>
    requires { max_line ≤ vec_capacity line.old }
    ensures room { max_line ≤ vec_capacity line.new }
    ensures ok { OnOk result (Appends (W.taken writer.old) (W.taken writer.new) (text_of_reply reply out.now)) }
    ensures err { OnErr result (WritesPart (W.taken writer.old) (W.taken writer.new) (text_of_reply reply out.now)) }
    ensures failures { W.failures writer.new ≡ counted (is_err result) (W.failures writer.old) }
{
    match reply {
        Reply::Changed => Ok(()),
        Reply::Answered => write_whole(writer, out),
        Reply::Refused(
            RefusalAt {
                line: number,
                cause,
            },
        ) => {
            let mut digits = Buffer::new();
            put_refusal(line, digits.format(number).as_bytes(), words_of(cause));
            write_whole(writer, line)
        }
    }
}

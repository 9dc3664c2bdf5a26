//! The commands of a script, one at a time.

ghost use Rattle.std.specs.Prelude.{◌≡◌, ℕ, ◌+◌, ◌≤◌, ◌++◌, ◌∷◌, [], List, true, false, IfOk, IfErr, OnOk, take, length, vec_capacity};
ghost use Rattle.std.specs.Io.KnownBytes.{prepend_known};
ghost use Rattle.ctl_stanza.specs.Lines.{max_line};
ghost use Rattle.ctl_session.specs.Streams.{counted};
ghost use Rattle.ctl_session.specs.declared.fault.ReadingFault.TheVariants.{ReadFailed};
ghost use Rattle.ctl_session.specs.LineReading.{is_failed_read};
ghost use Rattle.ctl_session.specs.Reading.{HoldsBody, ReadsBody, ReadsHead, ReadsNext, KeepsWhatIsNeeded, StopsInBody, StopsReading};
ghost use Rattle.ctl_session.specs.State.{cache_state};

use crate::command_name::{CommandName, has_body};
use crate::fault::ReadingFault;
use crate::line_words::{is_dot, is_no_command, name};
use crate::lines::Lines;
use crate::read_ahead::LineRead;
use crate::request::{Request, let_go, read_request};
use crate::source::Source;
use ctl_index::Cache;
use ctl_stanza::MAX_LINE;
use ctl_store::Refusal;
use std::alloc::{AllocError, Global};

/// What was read of a body.
#[derive(Drop)]
pub(crate) struct Body {
    /// Its lines, each with a newline. Not all of them are there where one is too long or lines were dropped.
    pub(crate) text: Vec<u8>,
    /// The number of its first line that is too long.
    pub(crate) too_long: Option<u32>,
    /// Whether lines were dropped: memory ran out, or the command is refused whatever its body is.
    pub(crate) dropped: bool,
    /// Whether the line that ends it was there.
    pub(crate) ended: bool,
    /// Whether the input ended with it.
    pub(crate) last: bool,
}

impl Body {
    /// A body without lines.
    fn none(alloc: Global, too_long: Option<u32>, ended: bool, last: bool) -> Self
        ensures text { result.text.items ≡ [] }
        ensures too_long { result.too_long ≡ too_long }
        ensures dropped { result.dropped ≡ false }
        ensures ended { result.ended ≡ ended }
        ensures last { result.last ≡ last }
    {
        Body {
            text: Vec::new(alloc),
            too_long,
            dropped: false,
            ended,
            last,
        }
    }

    /// Adds a line, by its first bytes, as many as a line may have, and the count of all.
    fn add(&mut self, line: &[u8], count: u32, number: u32)
        ensures step { (first : ℕ) (lines : List (List ℕ)) (all : List ℕ) → HoldsBody first lines self.old → line.now ≡ take max_line all →
            count ≡ length all → number ≡ first + length lines → HoldsBody first (lines ++ all ∷ []) self.new }
        ensures dropped { self.old.dropped ≡ true → (self.new.dropped ≡ true) × (self.new.text.items ≡ self.old.text.items) }
        ensures ended { self.new.ended ≡ self.old.ended }
        ensures last { self.new.last ≡ self.old.last }
    {
        if let Some(_) = self.too_long {
            return;
        }
        if count as usize > MAX_LINE {
            self.too_long = Some(number);
            return;
        }
        if self.dropped {
            return;
        }
        if push_line(&mut self.text, line).is_err() {
            self.dropped = true;
        }
    }
}

/// Appends a line and its newline to a text.
fn push_line(text: &mut Vec<u8>, line: &[u8]) -> Result<(), AllocError>
    ensures { OnOk result (text.new.items ≡ text.old.items ++ (line.now ++ 10 ∷ [])) }
{
    text.extend_from_slice(line)?;
    text.push(b'\n')?;
    Ok(())
}

/// Reads a body, up to the line that ends it or to the end of the input, and keeps its lines or drops them.
fn read_body<R: Source>(
    alloc: Global,
    lines: &mut Lines,
    reader: &mut R,
    line: &mut Vec<u8>,
    is_kept: bool,
) -> Result<Body, ReadingFault>
    requires { max_line ≤ vec_capacity line.old }
    ensures room { max_line ≤ vec_capacity line.new }
    ensures kept { is_kept ≡ false → IfOk result (λ body. body.text.items ≡ []) }
    ensures ok { IfOk result (ReadsBody (prepend_known lines.old.pending (R.remaining reader.old))
        (prepend_known lines.new.pending (R.remaining reader.new)) lines.old.number lines.new.number) }
    ensures fault { IfErr result (StopsInBody (prepend_known lines.old.pending (R.remaining reader.old))
        (prepend_known lines.new.pending (R.remaining reader.new)) lines.old.number lines.old.max) }
    ensures used { IfErr result (λ fault. fault ≡ ReadFailed → lines.new.pending ≡ []) }
    ensures max { lines.new.max ≡ lines.old.max }
    ensures failures { R.failures reader.new ≡ counted (is_failed_read result) (R.failures reader.old) }
{
    let mut body = Body {
        text: Vec::new(alloc),
        too_long: None,
        dropped: !is_kept,
        ended: false,
        last: false,
    };
    'lines: loop {
        match lines.next(reader, line) {
            Err(fault) => return Err(fault),
            Ok(None) => {
                body.last = true;
                return Ok(body);
            }
            Ok(Some(read)) => {
                if is_dot(line) {
                    body.ended = true;
                    body.last = !read.newline;
                    return Ok(body);
                }
                body.add(line, read.count, lines.number);
                if !read.newline {
                    body.last = true;
                    return Ok(body);
                }
            }
        }
    }
}

/// Reads the next line that is a command, past blank lines and comments.
fn next_head<R: Source>(
    lines: &mut Lines,
    reader: &mut R,
    head: &mut Vec<u8>,
) -> Result<Option<LineRead>, ReadingFault>
    requires { max_line ≤ vec_capacity head.old }
    ensures room { max_line ≤ vec_capacity head.new }
    ensures ok { IfOk result (ReadsHead (prepend_known lines.old.pending (R.remaining reader.old))
        (prepend_known lines.new.pending (R.remaining reader.new)) lines.old.number lines.new.number head.new.items) }
    ensures fault { IfErr result (StopsReading (prepend_known lines.old.pending (R.remaining reader.old))
        (prepend_known lines.new.pending (R.remaining reader.new)) lines.old.number lines.old.max) }
    ensures used { IfErr result (λ fault. fault ≡ ReadFailed → lines.new.pending ≡ []) }
    ensures max { lines.new.max ≡ lines.old.max }
    ensures failures { R.failures reader.new ≡ counted (is_failed_read result) (R.failures reader.old) }
{
    'lines: loop {
        match lines.next(reader, head) {
            Err(fault) => return Err(fault),
            Ok(None) => return Ok(None),
            Ok(Some(read)) => {
                if read.count as usize > MAX_LINE {
                    return Ok(Some(read));
                }
                if !is_no_command(head) {
                    return Ok(Some(read));
                }
                if !read.newline {
                    return Ok(None);
                }
            }
        }
    }
}

/// A command that was read.
#[derive(Drop)]
pub(crate) struct CommandRead {
    /// The number of its line.
    pub(crate) number: u32,
    /// What its line asks for, or why it is refused whatever the body is.
    pub(crate) request: Result<Request, Refusal>,
    pub(crate) body: Body,
}

/// Reads the next command: what its line asks for, and its body, whose lines are dropped where the line is refused.
pub(crate) fn read_command<R: Source>(
    alloc: Global,
    cache: &Cache,
    lines: &mut Lines,
    reader: &mut R,
    line: &mut Vec<u8>,
) -> Result<Option<CommandRead>, ReadingFault>
    requires { max_line ≤ vec_capacity line.old }
    ensures room { max_line ≤ vec_capacity line.new }

    // Of a body lines are kept only where the command needs it.
    ensures kept { IfOk result KeepsWhatIsNeeded }
    ensures ok { IfOk result (ReadsNext (cache_state cache.now) (prepend_known lines.old.pending (R.remaining reader.old))
        (prepend_known lines.new.pending (R.remaining reader.new)) lines.old.number lines.new.number) }
    ensures fault { IfErr result (StopsReading (prepend_known lines.old.pending (R.remaining reader.old))
        (prepend_known lines.new.pending (R.remaining reader.new)) lines.old.number lines.old.max) }
    ensures used { IfErr result (λ fault. fault ≡ ReadFailed → lines.new.pending ≡ []) }
    ensures max { lines.new.max ≡ lines.old.max }
    ensures failures { R.failures reader.new ≡ counted (is_failed_read result) (R.failures reader.old) }
{
    let read = match next_head(lines, reader, line) {
        Err(fault) => return Err(fault),
        Ok(None) => return Ok(None),
        Ok(Some(read)) => read,
    };
    let number = lines.number;
    if read.count as usize > MAX_LINE {
        let body = Body::none(alloc, Some(number), true, !read.newline);
        let request = Err(Refusal::TooLong);
        return Ok(Some(CommandRead {
            number,
            request,
            body,
        }));
    }
    let command = CommandName::read(name(line));
    let request = read_request(alloc, cache, command, line);
    if !has_body(command) {
        let body = Body::none(alloc, None, true, !read.newline);
        return Ok(Some(CommandRead {
            number,
            request,
            body,
        }));
    }
    if !read.newline {
        let body = Body::none(alloc, None, false, true);
        return Ok(Some(CommandRead {
            number,
            request,
            body,
        }));
    }
    match read_body(alloc, lines, reader, line, request.is_ok()) {
        Err(fault) => {
            let_go(request);
            Err(fault)
        }
        Ok(body) => Ok(Some(CommandRead {
            number,
            request,
            body,
        })),
    }
}

//! What is done in a session, and what comes of it, as text.
//!
//! A session is made and dropped in one function, and all others have it lent, so that each is proved in a second or two.

use crate::asking::say_asked;
use crate::run_script;
use crate::said::Said;
use crate::shown::say_state;
use crate::texts::front;
use ctl_index::Cache;
use ctl_session::{Fault, FromRead, FromWrite, LoadFault, Session, SourceFault, Summary};
use ctl_stanza::ListKind;
use ctl_store::Limits;
use std::alloc::Global;
use std::io;
use std::io::{ErrorKind, Read, Write};

/// What is done in a session.
#[derive(Clone, Copy)]
pub enum Act<'a> {
    /// Runs a script, and shows what it writes.
    Script(&'a [u8]),
    /// Runs a script, and shows how many of its commands were accepted and refused.
    Counted(&'a [u8]),
    /// Runs what a reader gives that fails behind it.
    Broken(&'a [u8]),
    /// The same where the reader gives one byte at each call.
    ByteByByte(&'a [u8]),
    /// Runs what a reader gives again and again.
    Endless(&'a [u8]),
    /// Runs a script whose writer fails once, behind so many bytes.
    Until(&'a [u8], usize),
    /// Loads a list of this name and text.
    Load(&'a [u8], &'a [u8]),
    /// The same with a text of one's own.
    LoadText(&'a [u8], &'a [u8]),
    /// The same by a reader that gives the text.
    LoadFrom(&'a [u8], &'a [u8]),
    /// The same by a reader that fails behind the text.
    LoadBroken(&'a [u8], &'a [u8]),
    /// Shows what the store holds.
    Held,
    /// Asks a query by its words.
    Ask(&'a [&'a [u8]]),
}

/// A reader that gives up to so many of these bytes at a call, and then fails, or gives them again and again. A signal breaks
/// off each other call.
#[derive(Drop)]
struct Given<'a> {
    bytes: &'a [u8],
    left: &'a [u8],
    width: usize,
    is_endless: bool,
    is_broken_off: bool,
}

impl<'a> Given<'a> {
    fn new(bytes: &'a [u8], width: usize, is_endless: bool) -> Given<'a> {
        Given {
            bytes,
            left: bytes,
            width,
            is_endless,
            is_broken_off: false,
        }
    }
}

impl Read for Given<'_> {
    fn read(&mut self, buf: &mut [u8]) -> io::Result<usize> {
        self.is_broken_off = !self.is_broken_off;
        if self.is_broken_off {
            return Err(io::Error::from(ErrorKind::Interrupted));
        }
        if self.is_endless && self.left.is_empty() {
            self.left = self.bytes;
        }
        if self.left.is_empty() {
            return Err(io::Error::from(ErrorKind::ConnectionReset));
        }
        let mut given = front(self.left, self.width);
        let count = given.read(buf)?;
        self.left = &self.left[count.min(self.left.len())..];
        Ok(count)
    }
}

/// A writer that takes so many bytes, fails once, and then takes all. A signal breaks off each other call.
#[derive(Drop)]
struct FailingOnce {
    taken: Vec<u8>,
    before: usize,
    has_failed: bool,
    is_broken_off: bool,
}

impl Write for FailingOnce {
    fn write(&mut self, buf: &[u8]) -> io::Result<usize> {
        self.is_broken_off = !self.is_broken_off;
        if self.is_broken_off {
            return Err(io::Error::from(ErrorKind::Interrupted));
        }
        let count = if self.has_failed {
            buf.len()
        } else {
            buf.len().min(self.before.saturating_sub(self.taken.len()))
        };
        if count == 0 && !buf.is_empty() {
            self.has_failed = true;
            return Err(io::Error::from(ErrorKind::BrokenPipe));
        }
        self.taken.extend_from_slice(&buf[..count])?;
        Ok(count)
    }

    fn flush(&mut self) -> io::Result<()> {
        Ok(())
    }
}

/// The words of the fault of a run, behind a mark.
pub fn fault_words(fault: Fault) -> &'static [u8] {
    match fault {
        Fault::Read => b"! read failed\n",
        Fault::Write => b"! write failed\n",
        Fault::TooManyLines => b"! too many lines\n",
    }
}

/// The fault of a run, if it has one.
pub fn say_fault(outcome: Result<Summary, Fault>, said: &mut Said) {
    if let Err(fault) = outcome {
        said.add(fault_words(fault));
    }
}

fn say_script(session: &mut Session, script: &[u8], said: &mut Said) {
    let (outcome, written) = run_script(said.alloc(), session, script);
    said.add(&written);
    say_fault(outcome, said);
}

/// How many commands were accepted, and how many refused.
pub fn say_summary(outcome: Result<Summary, Fault>, said: &mut Said) {
    match outcome {
        Ok(summary) => {
            said.number(b"", summary.accepted as u128);
            said.number(b" accepted, ", summary.refused as u128);
            said.add(b" refused");
        }
        Err(_) => said.add(b"a fault"),
    }
}

fn say_counted(session: &mut Session, script: &[u8], said: &mut Said) {
    let (outcome, _) = run_script(said.alloc(), session, script);
    say_summary(outcome, said);
}

fn say_given(session: &mut Session, given: Given<'_>, said: &mut Said) {
    let mut reader = FromRead::new(given);
    let mut writer = FromWrite::new(Vec::<u8>::new(said.alloc()));
    let outcome = session.run(&mut reader, &mut writer);
    let _ = reader.into_inner();
    said.add(&writer.into_inner());
    say_fault(outcome, said);
}

fn say_until(session: &mut Session, script: &[u8], before: usize, said: &mut Said) {
    let mut reader = FromRead::new(script);
    let mut writer = FromWrite::new(FailingOnce {
        taken: Vec::new(said.alloc()),
        before,
        has_failed: false,
        is_broken_off: false,
    });
    let outcome = session.run(&mut reader, &mut writer);
    let _ = reader.into_inner();
    said.add(&writer.into_inner().taken);
    say_fault(outcome, said);
}

fn say_loaded(loaded: Result<(), LoadFault>, said: &mut Said) {
    match loaded {
        Ok(()) => said.add(b"loaded"),
        Err(fault) => {
            said.number(b"line ", fault.line as u128);
            said.number(b", number ", fault.cause.number() as u128);
        }
    }
}

fn say_load_text(session: &mut Session, name: &[u8], text: &[u8], said: &mut Said) {
    match Vec::from_slice(said.alloc(), text) {
        Ok(text) => say_loaded(session.load_text(name, ListKind::Packages, text), said),
        Err(_) => said.fail(),
    }
}

fn say_load_from<R: Read + Drop>(session: &mut Session, name: &[u8], reader: R, said: &mut Said) {
    let mut source = FromRead::new(reader);
    let loaded = session.load_from(name, ListKind::Packages, &mut source);
    let _ = source.into_inner();
    match loaded {
        Ok(()) => say_loaded(Ok(()), said),
        Err(SourceFault::Read) => said.add(b"! read failed"),
        Err(SourceFault::TooLong) => said.add(b"! too long"),
        Err(SourceFault::Refused(fault)) => say_loaded(Err(fault), said),
    }
}

fn say_act(session: &mut Session, act: &Act<'_>, said: &mut Said) {
    match act {
        Act::Script(script) => say_script(session, script, said),
        Act::Counted(script) => say_counted(session, script, said),
        Act::Broken(bytes) => say_given(session, Given::new(bytes, usize::MAX, false), said),
        Act::ByteByByte(bytes) => say_given(session, Given::new(bytes, 1, false), said),
        Act::Endless(bytes) => say_given(session, Given::new(bytes, usize::MAX, true), said),
        Act::Until(script, before) => say_until(session, script, *before, said),
        Act::Load(name, text) => say_loaded(session.load(name, ListKind::Packages, text), said),
        Act::LoadText(name, text) => say_load_text(session, name, text, said),
        Act::LoadFrom(name, text) => say_load_from(session, name, *text, said),
        Act::LoadBroken(name, text) => {
            say_load_from(session, name, Given::new(text, usize::MAX, false), said)
        }
        Act::Held => say_state(session.cache().store(), said),
        Act::Ask(words) => say_asked(session.cache(), words, said),
    }
}

fn say_acts(session: &mut Session, acts: &[Act<'_>], said: &mut Said) {
    for act in acts {
        say_act(session, act, said);
    }
}

/// A session over a cache of these limits, whose runs read up to so many lines.
pub fn session_of(alloc: Global, limits: Limits, max_lines: u32) -> Option<Session> {
    Session::with_lines(alloc, Cache::with_limits(alloc, limits), max_lines).ok()
}

/// A session without limits.
pub fn plain_session(alloc: Global) -> Option<Session> {
    Session::new(alloc, Cache::new(alloc)).ok()
}

/// What comes of acts in a session, if there is one.
fn came_in(alloc: Global, session: Option<Session>, acts: &[Act<'_>]) -> Said {
    let mut said = Said::new(alloc);
    match session {
        Some(mut session) => say_acts(&mut session, acts, &mut said),
        None => said.fail(),
    }
    said
}

/// What comes of acts in a new session over a cache of these limits, whose runs read up to so many lines.
pub fn came_of(alloc: Global, limits: Limits, max_lines: u32, acts: &[Act<'_>]) -> Said {
    came_in(alloc, session_of(alloc, limits, max_lines), acts)
}

/// The same without limits.
pub fn came(alloc: Global, acts: &[Act<'_>]) -> Said {
    came_in(alloc, plain_session(alloc), acts)
}

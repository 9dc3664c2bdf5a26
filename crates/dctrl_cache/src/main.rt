//! `dctrl-cache`: runs a script over a package cache in memory.
#![tactic(auto)]

ghost use Rattle.std.specs.Prelude.{◌≡◌};
ghost use Rattle.dctrl_cache.specs.declared.Failure.TheVariants.{Memory};

use clap::error::ErrorKind as WordsFault;
use ctl_index::Cache;
use ctl_session::{
    Arguments, ArgumentsFault, Fault, FromRead, FromWrite, LoadFault, Session, SourceFault,
    Summary, arguments,
};
use ctl_stanza::ListKind;
use std::alloc::{AllocError, Global};
use std::env::{self, Args};
use std::fs::File;
use std::io::{ErrorKind, Read, Write};
use std::mem;
use std::process::ExitCode;
use thiserror::Error;

/// Why the program gives up, with status 2.
#[derive(Debug, Drop, Error)]
enum Failure {
    #[error("a word is not UTF-8")]
    NotUtf8,
    #[error(transparent)]
    Words(ArgumentsFault),
    #[error("{0}: not NAME=FILE")]
    NotNameAndFile(String),
    #[error("{0}: cannot read")]
    CannotRead(String),
    #[error("{0}: line {1}: {2}")]
    TextFault(String, u64, &'static str),
    #[error("{0}: {1}")]
    Load(String, &'static str),
    #[error(transparent)]
    Run(Fault),
    #[error("out of memory")]
    Memory,
}

impl From<AllocError> for Failure {
    ghost from_gives = { λ _ failure. failure ≡ Memory };

    fn from(_error: AllocError) -> Failure {
        Failure::Memory
    }
}

/// A file has no more bytes than this.
const MAX_FILE: u64 = 4_294_967_295;

/// A text of one's own.
fn owned(rt: &HostRuntime, text: &str) -> Result<String, AllocError> {
    String::from_str(rt.alloc(), text)
}

/// How many bytes a file has, as far as it is known: of a pipe it isn't, and none are said.
fn known_len(file: &File) -> u64 {
    match file.metadata() {
        Ok(known) => known.len(),
        Err(_) => 0,
    }
}

/// A file that can be opened, and has no more than [`MAX_FILE`] bytes as far as that is known.
fn open(rt: &HostRuntime, path: &str) -> Option<File> {
    match File::open(rt, path) {
        Ok(file) if known_len(&file) <= MAX_FILE => Some(file),
        _ => None,
    }
}

/// Loads a list from a file, which is read block by block.
fn load(
    rt: &HostRuntime,
    session: &mut Session,
    name: &str,
    kind: ListKind,
    path: &str,
) -> Result<(), Failure> {
    let Some(file) = open(rt, path) else {
        return Err(Failure::CannotRead(owned(rt, path)?));
    };
    let mut source = FromRead::new(file);
    let loaded = session.load_from(name.as_bytes(), kind, &mut source);
    let _ = source.into_inner();
    match loaded {
        Ok(()) => Ok(()),
        Err(SourceFault::Read | SourceFault::TooLong) => {
            Err(Failure::CannotRead(owned(rt, path)?))
        }
        Err(SourceFault::Refused(LoadFault { line: 0, cause })) => {
            Err(Failure::Load(owned(rt, path)?, cause.text()))
        }
        Err(SourceFault::Refused(LoadFault { line, cause })) => {
            Err(Failure::TextFault(owned(rt, path)?, line, cause.text()))
        }
    }
}

/// Loads the lists that the words name: the packages lists in their order, then the status list.
fn load_lists(
    rt: &HostRuntime,
    session: &mut Session,
    lists: &[String],
    status: Option<&String>,
) -> Result<(), Failure> {
    for word in lists {
        match word.as_str().split_once('=') {
            Some((name, path)) => load(rt, session, name, ListKind::Packages, path)?,
            None => return Err(Failure::NotNameAndFile(owned(rt, word.as_str())?)),
        }
    }
    match status {
        Some(path) => load(rt, session, "status", ListKind::Status, path.as_str()),
        None => Ok(()),
    }
}

/// Runs a script from a reader to a writer, which it hands back.
fn run_script<R: Read + Drop, W: Write>(
    mut session: Session,
    reader: R,
    writer: W,
) -> (Result<Summary, Fault>, W) {
    let mut source = FromRead::new(reader);
    let mut sink = FromWrite::new(writer);
    let outcome = session.run(&mut source, &mut sink);
    let _ = source.into_inner();
    // The process ends behind this, and the system takes all its memory back at once.
    mem::forget(session);
    (outcome, sink.into_inner())
}

/// Runs a script from a reader to a writer, which is flushed at the end, after a fault too.
fn run<R: Read + Drop, W: Write + Drop>(
    session: Session,
    reader: R,
    writer: W,
) -> Result<Summary, Failure> {
    let (outcome, mut writer) = run_script(session, reader, writer);
    let flushed = writer.flush();
    match outcome {
        Err(fault) => Err(Failure::Run(fault)),
        Ok(_) if flushed.is_err() => Err(Failure::Run(Fault::Write)),
        Ok(summary) => Ok(summary),
    }
}

/// Words in a list.
fn listed(alloc: Global, given: Args) -> Result<Vec<String>, AllocError> {
    let mut words = Vec::new(alloc);
    for word in given {
        words.push(word)?;
    }
    Ok(words)
}

/// Why the words that the program was called with can't be had.
fn words_failure(kind: ErrorKind) -> Failure {
    if kind == ErrorKind::OutOfMemory {
        Failure::Memory
    } else {
        Failure::NotUtf8
    }
}

/// The words that the program was called with, its own name first.
fn given_words(rt: &HostRuntime) -> Result<Args, Failure> {
    match env::args(rt) {
        Ok(given) => Ok(given),
        Err(error) => Err(words_failure(error.kind())),
    }
}

/// The same in a list.
fn words(rt: &HostRuntime) -> Result<Vec<String>, Failure> {
    let given = given_words(rt)?;
    match listed(rt.alloc(), given) {
        Ok(words) => Ok(words),
        Err(_) => Err(Failure::Memory),
    }
}

/// The texts of words.
fn texts_of(alloc: Global, words: &[String]) -> Result<Vec<&str>, AllocError> {
    let mut texts = Vec::new(alloc);
    for word in words {
        texts.push(word.as_str())?;
    }
    Ok(texts)
}

/// Loads the lists that the words name, and runs the script, or standard input.
fn run_words(rt: &HostRuntime) -> Result<Summary, Failure> {
    let words = words(rt)?;
    let texts = texts_of(rt.alloc(), &words)?;
    let Arguments {
        lists,
        status,
        script,
    } = match arguments(rt.alloc(), &texts) {
        Ok(arguments) => arguments,
        Err(fault) => return Err(Failure::Words(fault)),
    };
    let mut session = match Session::new(rt.alloc(), Cache::new(rt.alloc())) {
        Ok(session) => session,
        Err((_cache, _error)) => return Err(Failure::Memory),
    };
    load_lists(rt, &mut session, &lists, status.as_ref())?;
    match script {
        None => run(session, rt.stdin(), rt.stdout()),
        Some(path) => match File::open(rt, path.as_str()) {
            Ok(file) => run(session, file, rt.stdout()),
            Err(_) => Err(Failure::CannotRead(path)),
        },
    }
}

/// Whether clap's text was asked for, and tells no fault.
fn was_asked_for(kind: WordsFault) -> bool {
    matches!(kind, WordsFault::DisplayHelp | WordsFault::DisplayVersion)
}

/// What stands before and behind the text of a failure. The texts of clap end their lines by themselves.
fn ends_of(failure: &Failure) -> (&'static str, &'static str) {
    match failure {
        Failure::Words(ArgumentsFault::Words(error)) if was_asked_for(error.kind()) => ("", ""),
        Failure::Words(ArgumentsFault::Words(_)) => ("dctrl-cache: ", ""),
        _ => ("dctrl-cache: ", "\n"),
    }
}

/// Tells on standard error why the program gives up.
fn tell(rt: &HostRuntime, failure: &Failure) {
    let (before, behind) = ends_of(failure);
    let _ = eprint!(rt; "{before}{failure}{behind}");
}

fn main(rt: HostRuntime) -> ExitCode {
    match run_words(&rt) {
        Ok(Summary { refused: 0, .. }) => ExitCode::SUCCESS,
        Ok(_) => ExitCode::from(1),
        Err(failure) => {
            tell(&rt, &failure);
            ExitCode::from(2)
        }
    }
}

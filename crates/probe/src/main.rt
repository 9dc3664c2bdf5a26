//! Shows what the lower crates make of the lines of standard input, for comparisons and measurements, and for rows of calls with
//! what each gives. Each line is answered at once by one line. The first argument says what the lines are, and so does a line that is such a
//! word alone, for those behind it. That line is written again, and so are empty lines and those that begin with `#`: so line N of the answers
//! is that to line N, and `paste -d '\n' stdin stdout` shows both.
//!
//! In these, bytes stand in hexadecimal digits:
//!
//! - `relation`: a relation field, which is its name, a tab, and its body; it is answered by its groups in
//!   their printed form, or by its fault. With a second argument `measure`, how much time the reading of all of them takes
//!   and how much memory their groups take is printed instead.
//! - `text`: `packages`, `status` or `records`, a tab, and a text; it is answered by its stanzas or
//!   records with all their parts, or by its fault. With one of these words as second argument the whole of standard input is
//!   one such text, and how many stanzas or records it has is printed instead; a list is read block by block, as the program
//!   reads one.
//! - `index`: the same edits of a kept cache as of a store; each is answered by `ok`, or `refused` and the number of the refusal, and then the
//!   count of tests. `limits` begins with a new cache; `views` is answered by all that the tables tell, which are made anew
//!   before that where they are stale; `packages`, with a prefix, by the names of packages that begin so; `policies` by the priorities of
//!   lists, the rows of each package with theirs, and what is chosen; `steps` by the count of tests and whether the tables are stale; and
//!   `dump` as of a store. With a second argument `measure` each edit is answered by what came of it, the count of tests and how long it took.
//! - `store`: an edit, by its name and its parts with tabs between them; it is
//!   answered by `ok`, the keys that went and came and the text of the first stanza that came, or by `foretold` and the number
//!   of the refusal that is foretold, and `refused` and the number of that which comes. `limits`, with how many stanzas and
//!   edits, begins with a new store, and `dump`, with the names of packages, is answered by all that the store holds and the
//!   marks of these packages. With a second argument `measure` each edit is answered by what came of it and how long it took,
//!   without the reading of its line.
//!
//! With `packages` or `status` as second argument of `store` or `index` the whole of standard input is one such list, which is
//! added, and how many stanzas there are is printed.
//!
//! In these, bytes stand for themselves but for escapes as Rust writes them, and `\(COUNT*BYTE)`, which is so many of one byte; each is a call, with
//! tabs between its words, and is answered by what it gives: `versions`, `names`, `fields` (relation fields), `texts` (of lists and of preferences),
//! `pins` (versions, priorities and settings of pins, preferences), `stores` and `caches`. `calls` says which calls there are of each.
#![tactic(auto)]

mod caches;
mod calls;
mod edits;
mod escapes;
mod kept;
mod measure;
mod parts;
mod policies;
mod relations;
mod said;
mod state;
mod stores;
mod texts;
mod words;
mod writing;

use anyhow::{Error, Result, bail};
use caches::say_followed;
use ctl_stanza::{ListKind, StanzaReader, TextFault};
use ctl_store::Edit;
use edits::main_list;
use kept::{Held, Kept};
use relations::say_field;
use said::{OUT_OF_MEMORY, Said};
use std::env;
use std::io::{BufRead, BufReader, Read};
use stores::say_change;
use texts::{
    TextKind, list_kind_named, read_block, say_count_of_records, say_count_of_stanzas, say_text,
    text_kind_named,
};
use words::{Form, Word, Words, read_words};
use writing::{read_all, write_line};

// How many bytes of a list are read at once.
const BLOCK: usize = 65_536;

/// What a line is.
#[derive(Clone, Copy)]
enum Subject {
    Relation,
    Text,
    Store,
    Index,
    Versions,
    Names,
    Fields,
    Texts,
    Pins,
    Stores,
    Caches,
}

/// Each subject with its name.
const SUBJECTS: &[(&str, Subject)] = &[
    ("relation", Subject::Relation),
    ("text", Subject::Text),
    ("store", Subject::Store),
    ("index", Subject::Index),
    ("versions", Subject::Versions),
    ("names", Subject::Names),
    ("fields", Subject::Fields),
    ("texts", Subject::Texts),
    ("pins", Subject::Pins),
    ("stores", Subject::Stores),
    ("caches", Subject::Caches),
];

fn subject_named(word: &str) -> Option<Subject> {
    for (name, subject) in SUBJECTS {
        if *name == word {
            return Some(*subject);
        }
    }
    None
}

/// How bytes stand in the words of a subject.
fn form_of(subject: Subject) -> Form {
    match subject {
        Subject::Relation | Subject::Text | Subject::Store | Subject::Index => Form::Hexadecimal,
        _ => Form::Plain,
    }
}

/// What the arguments ask for.
enum Asked {
    /// The answers to lines, which are at first of this subject.
    Answers(Subject),
    /// What the relation fields cost.
    Costs,
    /// What one text of this kind has.
    Count(TextKind),
    /// What a store holds, or a cache follows, of one list of this kind.
    List(Held, ListKind),
    /// How long edits take.
    Times(Held),
}

// What a store or a cache is asked for with a second argument.
fn asked_of(held: Held, word: &str) -> Option<Asked> {
    if word == "measure" {
        return Some(Asked::Times(held));
    }
    match list_kind_named(word) {
        Some(kind) => Some(Asked::List(held, kind)),
        None => None,
    }
}

fn counted(word: &str) -> Option<Asked> {
    match text_kind_named(word) {
        Some(kind) => Some(Asked::Count(kind)),
        None => None,
    }
}

// What a subject asks for with a second argument.
fn asked_by(subject: Subject, word: &str) -> Option<Asked> {
    match subject {
        Subject::Relation if word == "measure" => Some(Asked::Costs),
        Subject::Text => counted(word),
        Subject::Store => asked_of(Held::Store, word),
        Subject::Index => asked_of(Held::Cache, word),
        _ => Some(Asked::Answers(subject)),
    }
}

// What the words ask for, of which each may be missing.
fn asked_for(first: Option<&str>, second: Option<&str>) -> Option<Asked> {
    let subject = match first {
        Some(word) => subject_named(word)?,
        None => Subject::Relation,
    };
    match second {
        Some(word) => asked_by(subject, word),
        None => Some(Asked::Answers(subject)),
    }
}

fn read_arguments(rt: &HostRuntime) -> Result<Option<Asked>> {
    let mut arguments = env::args(rt)?.skip(1);
    let first = arguments.next();
    let second = arguments.next();
    Ok(asked_for(first.as_deref(), second.as_deref()))
}

// The answer to the words of a line.
fn say_words(kept: &mut Kept, subject: Subject, words: &mut Words<'_, '_>, said: &mut Said) {
    match subject {
        Subject::Relation => say_field(words, said),
        Subject::Text => say_text(words, said),
        Subject::Store => say_change(&mut kept.store, words, said),
        Subject::Index => say_followed(&mut kept.cache, words, said),
        Subject::Versions => calls::versions::say_call(words, said),
        Subject::Names => calls::names::say_call(words, said),
        Subject::Fields => calls::fields::say_call(words, said),
        Subject::Texts => calls::texts::say_call(words, said),
        Subject::Pins => calls::pins::say_call(words, said),
        Subject::Stores => calls::stores::say_call(&mut kept.store, words, said),
        Subject::Caches => calls::caches::say_call(&mut kept.cache, words, said),
    }
}

// The same, or why they are no question.
fn say_question(kept: &mut Kept, subject: Subject, words: &[Word<'_>], said: &mut Said) {
    let mut words = Words::new(said.alloc(), words);
    say_words(kept, subject, &mut words, said);
    words.end(said);
}

// The answer to a line, with escapes as Rust writes them where its words are plain.
fn say_answer(kept: &mut Kept, subject: Subject, line: &str, said: &mut Said) {
    let form = form_of(subject);
    match read_words(said.alloc(), form, line) {
        Ok(words) => say_question(kept, subject, &words, said),
        Err(_) => said.fail(OUT_OF_MEMORY),
    }
    if let Form::Plain = form {
        said.escape();
    }
}

// Whether a line is words for the reader, or empty.
fn is_heading(line: &str) -> bool {
    line.is_empty() || line.starts_with('#')
}

// Answers a line. One that names a subject, is empty or a heading is written again. The subject of the next line comes back.
fn say_line(kept: &mut Kept, subject: Subject, line: &str, said: &mut Said) -> Subject {
    let named = subject_named(line);
    if named.is_some() || is_heading(line) {
        said.add(line.as_bytes());
    } else {
        say_answer(kept, subject, line, said);
    }
    named.unwrap_or(subject)
}

fn answer_lines(rt: &HostRuntime, kept: &mut Kept, first: Subject) -> Result<()> {
    let alloc = rt.alloc();
    let mut subject = first;
    for line in BufReader::new(alloc, rt.reader())?.lines(alloc) {
        let mut said = Said::new(alloc);
        subject = say_line(kept, subject, line?.as_str(), &mut said);
        write_line(rt, said)?;
    }
    Ok(())
}

fn write_count(rt: &HostRuntime, reading: Result<StanzaReader, TextFault>) -> Result<()> {
    let mut said = Said::new(rt.alloc());
    say_count_of_stanzas(reading, &mut said);
    write_line(rt, said)
}

// A list is read block by block, as the program reads one.
fn count_stanzas(rt: &HostRuntime, kind: ListKind) -> Result<()> {
    let alloc = rt.alloc();
    let mut input = rt.reader();
    let mut block = Vec::new(alloc);
    block.resize(BLOCK, 0)?;
    let mut reading = Ok(StanzaReader::new(alloc, 1, kind));
    for _ in 0..u32::MAX {
        let count = input.read(&mut block)?;
        if count == 0 {
            return write_count(rt, reading);
        }
        reading = read_block(alloc, reading, &block[..count]);
    }
    bail!("the list has too many blocks")
}

fn count_records(rt: &HostRuntime) -> Result<()> {
    let text = read_all(rt)?;
    let mut said = Said::new(rt.alloc());
    say_count_of_records(&text, &mut said);
    write_line(rt, said)
}

fn count_parts(rt: &HostRuntime, kind: TextKind) -> Result<()> {
    match kind {
        TextKind::List(kind) => count_stanzas(rt, kind),
        TextKind::Records => count_records(rt),
    }
}

// The edit that adds standard input as the list `main`.
fn read_main_list(rt: &HostRuntime, kind: ListKind) -> Result<Edit> {
    let text = read_all(rt)?;
    match main_list(rt.alloc(), &text, kind) {
        Ok(edit) => Ok(edit),
        Err(why) => Err(Error::msg(why)),
    }
}

fn keep_list(rt: &HostRuntime, kept: &mut Kept, held: Held, kind: ListKind) -> Result<()> {
    let edit = read_main_list(rt, kind)?;
    if kept.make(held, edit).is_err() {
        bail!("an edit that is refused");
    }
    let mut said = Said::new(rt.alloc());
    kept.say_counts(held, &mut said);
    write_line(rt, said)
}

fn answer(rt: &HostRuntime, kept: &mut Kept, asked: Asked) -> Result<()> {
    match asked {
        Asked::Answers(subject) => answer_lines(rt, kept, subject),
        Asked::Costs => measure::measure(rt, &measure::read_fields(rt)?),
        Asked::Count(kind) => count_parts(rt, kind),
        Asked::List(held, kind) => keep_list(rt, kept, held, kind),
        Asked::Times(held) => measure::measure_edits(rt, kept, held),
    }
}

// With a new store and a new cache, which are dropped here alone.
fn answer_anew(rt: &HostRuntime, asked: Asked) -> Result<()> {
    let mut kept = Kept::new(rt.alloc());
    answer(rt, &mut kept, asked)
}

fn main(rt: HostRuntime) -> Result<()> {
    match read_arguments(&rt)? {
        Some(asked) => answer_anew(&rt, asked),
        None => bail!("words that ask for nothing that is known"),
    }
}

//! Tables of worked scripts, each with its name and with what it writes.
//!
//! A table is a text. An entry of it is a head line, a script, a line `=>`, and what the script writes. The head line begins
//! with one of these, and goes on with the name of the entry:
//!
//! - `-- ` An entry on an empty session, or behind the front of the table.
//! - `-+ ` A step: its script goes on behind that of the entry above, in one run, and its text is what comes to that text.
//! - `-> ` A step in a new run of the session of the entry above. Lines count from 1 again.
//!
//! Behind what is written a line that begins with `? ` asks for something else, and what follows is the answer.

use super::answer::say_answer;
use crate::run_script;
use crate::runs::{plain_session, say_fault, session_of};
use crate::said::Said;
use crate::tables::{agree, is_newline, joined, rows_of, same};
use ctl_session::{Fault, Session, Summary};
use ctl_store::Limits;
use std::alloc::Global;
use std::process::Abort;

/// A script that stands before each entry of a table, and what it writes.
#[derive(Clone, Copy)]
pub struct Front<'a> {
    pub script: &'a [u8],
    pub text: &'a [u8],
}

impl Front<'_> {
    /// No script.
    pub const NONE: Front<'static> = Front {
        script: b"",
        text: b"",
    };
}

/// What a session has room for.
#[derive(Clone, Copy)]
pub struct Room {
    pub limits: Limits,
    pub max_lines: u32,
}

/// Room for two stanzas and five edits.
pub const TWO_STANZAS: Room = Room {
    limits: Limits {
        stanzas: 2,
        edits: 5,
    },
    max_lines: u32::MAX,
};

/// What the next line of an entry belongs to.
#[derive(Clone, Copy, PartialEq, Eq)]
enum Part {
    Script,
    Text,
    Answers,
}

/// An entry of a table, as far as it was read.
#[derive(Drop)]
struct Entry {
    name: Said,
    /// The scripts of the runs before.
    before: Said,
    /// The script of this run, with that of the steps before.
    script: Said,
    /// What this run writes.
    text: Said,
    /// What is asked behind it, with the answers.
    answers: Said,
    part: Part,
}

/// Text of these bytes.
fn said_of(alloc: Global, text: &[u8]) -> Said {
    let mut said = Said::new(alloc);
    said.add(text);
    said
}

impl Entry {
    /// An entry without a name, which has the front alone.
    fn new(alloc: Global, front: Front<'_>) -> Entry {
        Entry {
            name: Said::new(alloc),
            before: Said::new(alloc),
            script: said_of(alloc, front.script),
            text: said_of(alloc, front.text),
            answers: Said::new(alloc),
            part: Part::Text,
        }
    }

    /// Begins a step of a name.
    fn step(&mut self, name: &[u8]) {
        self.name.clear();
        self.name.add(name);
        self.answers.clear();
        self.part = Part::Script;
    }

    /// Ends the run, so that what follows stands in a new one.
    fn end_run(&mut self) {
        self.before.add(self.script.shown());
        self.script.clear();
        self.text.clear();
    }

    /// The part to which a line belongs that is no head line, and no end of a script.
    fn part_of(&self, line: &[u8]) -> Part {
        if self.part == Part::Text && line.starts_with(b"? ") {
            Part::Answers
        } else {
            self.part
        }
    }

    /// Takes a line in that is no head line.
    fn add(&mut self, line: &[u8]) {
        if self.part == Part::Script && line == b"=>".as_slice() {
            self.part = Part::Text;
            return;
        }
        self.part = self.part_of(line);
        match self.part {
            Part::Script => self.script.all(&[line, b"\n"]),
            Part::Text => self.text.all(&[line, b"\n"]),
            Part::Answers => self.answers.all(&[line, b"\n"]),
        }
    }

    /// Compares what comes of the entry with what is wanted. Without a name there is no entry.
    fn judge(&self, rt: &(impl Abort + AllocGlobal), room: Option<Room>) {
        let name = self.name.shown();
        if name.is_empty() {
            return;
        }
        agree(rt, name, self.part == Part::Script, false);
        let wanted = joined(rt.alloc(), self.text.shown(), self.answers.shown(), b"");
        same(
            rt,
            name,
            came(rt.alloc(), room, self).shown(),
            wanted.shown(),
        );
    }
}

/// The answers to all that is asked.
fn say_answers(session: &Session, outcome: Result<Summary, Fault>, asked: &[u8], said: &mut Said) {
    for line in asked.split(is_newline) {
        if let Some(question) = line.strip_prefix(b"? ") {
            say_answer(session, outcome, question, said);
        }
    }
}

/// What the last run of an entry writes in a session, and the answers to what is asked.
fn say_entry(session: &mut Session, entry: &Entry, said: &mut Said) {
    let _ = run_script(said.alloc(), session, entry.before.shown());
    let (outcome, written) = run_script(said.alloc(), session, entry.script.shown());
    said.add(&written);
    say_fault(outcome, said);
    say_answers(session, outcome, entry.answers.shown(), said);
}

fn session_within(alloc: Global, room: Option<Room>) -> Option<Session> {
    match room {
        None => plain_session(alloc),
        Some(room) => session_of(alloc, room.limits, room.max_lines),
    }
}

fn came(alloc: Global, room: Option<Room>, entry: &Entry) -> Said {
    let mut said = Said::new(alloc);
    match session_within(alloc, room) {
        Some(mut session) => say_entry(&mut session, entry, &mut said),
        None => said.fail(),
    }
    said
}

/// A head line of an entry, and the name behind its mark.
#[derive(Clone, Copy)]
enum Head<'a> {
    /// An entry begins.
    Entry(&'a [u8]),
    /// A step in the same run.
    Step(&'a [u8]),
    /// A step in a new run.
    Run(&'a [u8]),
}

/// The head line that a line is, if it is one.
fn head_of(line: &[u8]) -> Option<Head<'_>> {
    match line {
        [b'-', b'-', b' ', name @ ..] => Some(Head::Entry(name)),
        [b'-', b'+', b' ', name @ ..] => Some(Head::Step(name)),
        [b'-', b'>', b' ', name @ ..] => Some(Head::Run(name)),
        _ => None,
    }
}

/// Begins an entry or a step.
fn begin(alloc: Global, front: Front<'_>, head: Head<'_>, entry: &mut Entry) {
    match head {
        Head::Entry(name) => {
            *entry = Entry::new(alloc, front);
            entry.step(name);
        }
        Head::Step(name) => entry.step(name),
        Head::Run(name) => {
            entry.end_run();
            entry.step(name);
        }
    }
}

/// Takes a line of a table in. Where it begins an entry the one above is judged.
fn take(
    rt: &(impl Abort + AllocGlobal),
    front: Front<'_>,
    room: Option<Room>,
    line: &[u8],
    entry: &mut Entry,
) {
    match head_of(line) {
        Some(head) => {
            entry.judge(rt, room);
            begin(rt.alloc(), front, head, entry);
        }
        None => entry.add(line),
    }
}

fn each(rt: &(impl Abort + AllocGlobal), front: Front<'_>, room: Option<Room>, table: &[u8]) {
    agree(rt, table, table.starts_with(b"\n-"), true);
    let mut entry = Entry::new(rt.alloc(), front);
    for line in rows_of(rt, table).split(is_newline) {
        take(rt, front, room, line, &mut entry);
    }
    entry.judge(rt, room);
}

/// Judges each entry of a table.
pub fn each_is_so(rt: &(impl Abort + AllocGlobal), table: &[u8]) {
    each(rt, Front::NONE, None, table);
}

/// The same where each entry stands behind a script.
pub fn each_is_so_behind(rt: &(impl Abort + AllocGlobal), front: Front<'_>, table: &[u8]) {
    each(rt, front, None, table);
}

/// The same where a session has less room.
pub fn each_is_so_within(rt: &(impl Abort + AllocGlobal), room: Room, table: &[u8]) {
    each(rt, Front::NONE, Some(room), table);
}

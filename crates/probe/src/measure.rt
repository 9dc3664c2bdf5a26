//! How much time and memory the reading of fields takes, and how much time edits of a store and of a cache take.

use crate::edits::edit_named;
use crate::kept::{Held, Kept};
use crate::said::Said;
use crate::words::{Form, Words, read_words};
use crate::writing::write_line;
use anyhow::{Context, Error, Result};
use ctl_relation::{FieldKind, Relations, parse_relations};
use ctl_store::Edit;
use std::alloc::{AllocError, Global};
use std::fs;
use std::io::{BufRead, BufReader};
use std::rt::Files;
use std::time::Instant;

const PAGE: u64 = 4096;

/// A relation field: which one, and its body.
#[derive(Drop)]
pub struct Field {
    pub kind: FieldKind,
    pub body: Vec<u8>,
}

// How many bytes of memory the process has in use.
fn resident<R: Files + AllocGlobal>(rt: &R) -> Result<u64> {
    let text = fs::read_to_string(rt, "/proc/self/statm")?;
    let word = text
        .as_str()
        .split_whitespace()
        .nth(1)
        .context("no second word in statm")?;
    let pages = word.parse::<u64>()?;
    Ok(pages.saturating_mul(PAGE))
}

// What each field is read to. A field that is at fault is left out.
fn read_all<'a>(alloc: Global, fields: &'a [Field]) -> Result<Vec<Relations<'a>>, AllocError> {
    let mut read = Vec::with_capacity(alloc, fields.len())?;
    for field in fields {
        if let Ok(relations) = parse_relations(alloc, &field.body, field.kind) {
            read.push(relations)?;
        }
    }
    Ok(read)
}

fn atom_count(relations: &[Relations<'_>]) -> u64 {
    let mut count: u64 = 0;
    for field in relations {
        for group in field.groups() {
            count = count.saturating_add(group.len() as u64);
        }
    }
    count
}

// What came of an edit, the count of tests of a cache, and the nanoseconds that the edit took.
fn say_times(kept: &Kept, held: Held, is_refused: bool, nanoseconds: u128, said: &mut Said) {
    said.add(if is_refused { b" refused" } else { b" ok" });
    if let Held::Cache = held {
        said.number(b" tests ", kept.cache.steps());
    }
    said.number(b" nanoseconds ", nanoseconds);
}

// Makes an edit of this name, and prints what comes of it.
fn measure_made(
    rt: &HostRuntime,
    kept: &mut Kept,
    held: Held,
    word: &str,
    edit: Edit,
) -> Result<()> {
    let start = Instant::now(rt);
    let is_refused = kept.make(held, edit).is_err();
    let nanoseconds = start?.elapsed(rt)?.as_nanos();
    let mut said = Said::new(rt.alloc());
    said.add(word.as_bytes());
    say_times(kept, held, is_refused, nanoseconds, &mut said);
    write_line(rt, said)
}

// The same of the edit of the words of a line.
fn measure_words(
    rt: &HostRuntime,
    kept: &mut Kept,
    held: Held,
    words: &mut Words<'_, '_>,
) -> Result<()> {
    let word = words.word();
    match edit_named(words, word) {
        Some(edit) => measure_made(rt, kept, held, word, edit),
        None => Err(Error::msg(words.fault().unwrap_or("a line that is no edit"))),
    }
}

fn measure_line(rt: &HostRuntime, kept: &mut Kept, held: Held, line: &str) -> Result<()> {
    let words = read_words(rt.alloc(), Form::Hexadecimal, line)?;
    measure_words(rt, kept, held, &mut Words::new(rt.alloc(), &words))
}

/// Makes the edits of standard input in a new store or a new cache, and prints a line for each.
pub fn measure_edits(rt: &HostRuntime, kept: &mut Kept, held: Held) -> Result<()> {
    let alloc = rt.alloc();
    for line in BufReader::new(alloc, rt.reader())?.lines(alloc) {
        measure_line(rt, kept, held, line?.as_str())?;
    }
    Ok(())
}

// The field that words give, which are its name and its body.
fn field_of(words: &mut Words<'_, '_>) -> Result<Field> {
    let kind = words.field_kind();
    let body = words.kept().into_vec();
    match words.fault() {
        None => Ok(Field { kind, body }),
        Some(why) => Err(Error::msg(why)),
    }
}

// The field of a line.
fn read_field(alloc: Global, line: &str) -> Result<Field> {
    let words = read_words(alloc, Form::Hexadecimal, line)?;
    field_of(&mut Words::new(alloc, &words))
}

/// All lines of standard input as relation fields.
pub fn read_fields(rt: &HostRuntime) -> Result<Vec<Field>> {
    let alloc = rt.alloc();
    let mut fields = Vec::new(alloc);
    for line in BufReader::new(alloc, rt.reader())?.lines(alloc) {
        fields.push(read_field(alloc, line?.as_str())?)?;
    }
    Ok(fields)
}

/// Prints how many of the fields are read and their atoms, and how many bytes and nanoseconds they took.
pub fn measure(rt: &HostRuntime, fields: &[Field]) -> Result<()> {
    let before = resident(rt)?;
    let start = Instant::now(rt)?;
    let read = read_all(rt.alloc(), fields)?;
    let nanoseconds = start.elapsed(rt)?.as_nanos();
    let after = resident(rt)?;
    let mut said = Said::new(rt.alloc());
    said.number(b"fields ", read.len() as u128);
    said.number(b" atoms ", atom_count(&read) as u128);
    said.number(b" bytes ", after.saturating_sub(before) as u128);
    said.number(b" nanoseconds ", nanoseconds);
    write_line(rt, said)
}

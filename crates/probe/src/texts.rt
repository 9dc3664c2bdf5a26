//! Texts of lists, and what they are read to.

use crate::parts::{say_record, say_stanza};
use crate::said::Said;
use crate::words::Words;
use ctl_stanza::{
    ListKind, Record, Stanza, StanzaReader, TextFault, lines_take_bytes, read_records, read_stanzas,
};
use std::alloc::Global;

/// What a text is.
#[derive(Clone, Copy)]
pub enum TextKind {
    List(ListKind),
    Records,
}

/// The kind of list of a name.
pub fn list_kind_named(word: &str) -> Option<ListKind> {
    match word {
        "packages" => Some(ListKind::Packages),
        "status" => Some(ListKind::Status),
        _ => None,
    }
}

/// The kind of text of a name.
pub fn text_kind_named(word: &str) -> Option<TextKind> {
    match word {
        "records" => Some(TextKind::Records),
        _ => list_kind_named(word).map(TextKind::List),
    }
}

fn say_fault(fault: TextFault, said: &mut Said) {
    said.number(b"fault ", fault.line as u128);
    said.number(b" ", fault.cause.number() as u128);
}

fn say_stanzas(stanzas: &[Stanza], said: &mut Said) {
    for stanza in stanzas {
        say_stanza(stanza, said);
    }
}

fn say_records(records: &[Record], said: &mut Said) {
    for record in records {
        say_record(record, said);
    }
}

fn say_list(kind: ListKind, text: &[u8], said: &mut Said) {
    lines_take_bytes();
    match read_stanzas(said.alloc(), text, 1, kind) {
        Ok(stanzas) => say_stanzas(&stanzas, said),
        Err(fault) => say_fault(fault, said),
    }
}

fn say_text_of_records(text: &[u8], said: &mut Said) {
    lines_take_bytes();
    match read_records(said.alloc(), text, 1) {
        Ok(records) => say_records(&records, said),
        Err(fault) => say_fault(fault, said),
    }
}

/// Goes on over the next block of a list, unless it has a fault before it.
pub fn read_block(
    alloc: Global,
    reading: Result<StanzaReader, TextFault>,
    block: &[u8],
) -> Result<StanzaReader, TextFault> {
    match reading {
        Ok(reader) => reader.push(alloc, block),
        Err(fault) => Err(fault),
    }
}

// The stanzas of a list all of whose blocks were read.
fn stanzas_of(
    alloc: Global,
    reading: Result<StanzaReader, TextFault>,
) -> Result<Vec<Stanza>, TextFault> {
    match reading {
        Ok(reader) => reader.finish(alloc),
        Err(fault) => Err(fault),
    }
}

/// How many stanzas a list has all of whose blocks were read, or its fault.
pub fn say_count_of_stanzas(reading: Result<StanzaReader, TextFault>, said: &mut Said) {
    match stanzas_of(said.alloc(), reading) {
        Ok(stanzas) => said.number(b"", stanzas.len() as u128),
        Err(fault) => say_fault(fault, said),
    }
}

/// How many records a text has, or its fault.
pub fn say_count_of_records(text: &[u8], said: &mut Said) {
    lines_take_bytes();
    match read_records(said.alloc(), text, 1) {
        Ok(records) => said.number(b"", records.len() as u128),
        Err(fault) => say_fault(fault, said),
    }
}

/// What a text is read to.
pub fn say_text(words: &mut Words<'_, '_>, said: &mut Said) {
    match text_kind_named(words.word()) {
        Some(TextKind::List(kind)) => say_list(kind, words.bytes(), said),
        Some(TextKind::Records) => say_text_of_records(words.bytes(), said),
        None => said.fail("a kind that is not known"),
    }
}

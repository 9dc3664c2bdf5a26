//! Texts of lists and of preferences: their stanzas and records, the parts of these, and faults.

use crate::said::{OUT_OF_MEMORY, Said};
use crate::words::Words;
use ctl_relation::{FieldKind, Offer};
use ctl_stanza::{
    Cause, ListKind, Record, RecordsBeforeFault, Stanza, TextFault, lines_take_bytes, read_records,
    read_records_before_fault, read_stanzas,
};

const CAUSES: &[Cause] = &[
    Cause::TooLong,
    Cause::Line,
    Cause::FieldTwice,
    Cause::Missing,
    Cause::Name,
    Cause::Version,
    Cause::Relation,
    Cause::Priority,
    Cause::Form,
    Cause::Memory,
];

fn cause_name(cause: Cause) -> &'static [u8] {
    match cause {
        Cause::TooLong => b"TooLong",
        Cause::Line => b"Line",
        Cause::FieldTwice => b"FieldTwice",
        Cause::Missing => b"Missing",
        Cause::Name => b"Name",
        Cause::Version => b"Version",
        Cause::Relation => b"Relation",
        Cause::Priority => b"Priority",
        Cause::Form => b"Form",
        Cause::Memory => b"Memory",
    }
}

// Each cause with its number, on a line.
fn say_causes(said: &mut Said) {
    for cause in CAUSES {
        said.add(cause_name(*cause));
        said.number(b" ", cause.number() as u128);
        said.add(b"\n");
    }
}

/// A fault in words.
pub fn say_fault(fault: TextFault, said: &mut Said) {
    said.number(b"line ", fault.line as u128);
    said.all(&[b": ", cause_name(fault.cause)]);
}

fn say_count(stanzas: usize, said: &mut Said) {
    said.number(b"", stanzas as u128);
    said.add(b" stanzas");
}

// How many stanzas a list has, or its fault.
fn say_list(words: &mut Words<'_, '_>, said: &mut Said) {
    let kind = words.list_kind();
    let first_line = words.number() as u64;
    lines_take_bytes();
    match read_stanzas(words.alloc(), words.bytes(), first_line, kind) {
        Ok(stanzas) => say_count(stanzas.len(), said),
        Err(fault) => say_fault(fault, said),
    }
}

// The fields of a stanza, each in brackets, and how many there are.
fn say_fields(stanza: &Stanza, said: &mut Said) {
    for (name, body) in stanza.fields() {
        said.all(&[b"[", name, b"=", body, b"]"]);
    }
    said.number(b" ", stanza.fields().size_hint().0 as u128);
}

// The groups of a field in their printed form, each behind `&`.
fn say_groups(stanza: &Stanza, kind: FieldKind, said: &mut Said) {
    for group in stanza.groups(kind) {
        said.add(b"&");
        said.group(&group);
    }
}

// An offer in brackets.
fn say_offer(offer: &Offer, said: &mut Said) {
    match offer.version() {
        Some(version) => said.all(&[b"[", offer.name(), b"=", version.text(), b"]"]),
        None => said.all(&[b"[", offer.name(), b"]"]),
    }
}

// The offers of a stanza, and how many atoms Provides has.
fn say_offers(stanza: &Stanza, said: &mut Said) {
    for offer in stanza.offers() {
        say_offer(offer, said);
    }
    said.number(b" ", stanza.provides().len() as u128);
}

fn version_words(stanza: &Stanza) -> &[u8] {
    match stanza.version() {
        Some(version) => version.text(),
        None => b"no version",
    }
}

fn say_field(stanza: &Stanza, words: &mut Words<'_, '_>, said: &mut Said) {
    said.add(stanza.field(words.bytes()).unwrap_or(b"no such field"));
}

// Whether a stanza is live, and of which kind of list it is.
fn live_words(stanza: &Stanza) -> &'static [u8] {
    match (stanza.is_live(), stanza.kind()) {
        (true, ListKind::Packages) => b"a live package",
        (true, ListKind::Status) => b"live in a status list",
        (false, ListKind::Packages) => b"a package that isn't live",
        (false, ListKind::Status) => b"not live in a status list",
    }
}

// A part of a stanza by its name.
fn say_part(stanza: &Stanza, words: &mut Words<'_, '_>, said: &mut Said) {
    match words.word() {
        "text" => said.add(stanza.text()),
        "package" => said.add(stanza.package()),
        "version" => said.add(version_words(stanza)),
        "field" => say_field(stanza, words, said),
        "fields" => say_fields(stanza, said),
        "groups" => say_groups(stanza, words.field_kind(), said),
        "offers" => say_offers(stanza, said),
        "live" => said.add(live_words(stanza)),
        _ => said.fail("a part that is not known"),
    }
}

// Parts of the only stanza of a list, each with a bar behind it.
fn say_parts(stanzas: &[Stanza], words: &mut Words<'_, '_>, said: &mut Said) {
    let [stanza] = stanzas else {
        return said.fail("not one stanza");
    };
    for _ in 0..u64::MAX {
        if words.is_over() {
            break;
        }
        say_part(stanza, words, said);
        said.add(b"|");
    }
}

fn say_stanza(words: &mut Words<'_, '_>, said: &mut Said) {
    let kind = words.list_kind();
    lines_take_bytes();
    match read_stanzas(words.alloc(), words.bytes(), 1, kind) {
        Ok(stanzas) => say_parts(&stanzas, words, said),
        Err(_) => said.fail("a list with a fault"),
    }
}

// A record, on a line: the number of its first line, how many fields it has, and these with the numbers of their lines, in brackets.
fn say_record(record: &Record, said: &mut Said) {
    said.number(b"", record.first_line() as u128);
    said.number(b", ", record.fields().size_hint().0 as u128);
    said.add(b" fields: ");
    for (name, body, line) in record.fields() {
        said.number(b"[", line as u128);
        said.all(&[b" ", name, b"=", body, b"]"]);
    }
    said.add(b"\n");
}

fn say_each_record(records: &[Record], said: &mut Said) {
    for record in records {
        say_record(record, said);
    }
}

// The records of a text, or its fault.
fn say_records(words: &mut Words<'_, '_>, said: &mut Said) {
    let first_line = words.number() as u64;
    lines_take_bytes();
    match read_records(words.alloc(), words.bytes(), first_line) {
        Ok(records) => say_each_record(&records, said),
        Err(fault) => say_fault(fault, said),
    }
}

fn say_records_and_fault(read: &RecordsBeforeFault, said: &mut Said) {
    say_each_record(&read.records, said);
    if let Some(fault) = read.fault {
        say_fault(fault, said);
    }
}

// The records of a text before its fault, and the fault.
fn say_before_fault(words: &mut Words<'_, '_>, said: &mut Said) {
    lines_take_bytes();
    match read_records_before_fault(words.alloc(), words.bytes(), 1) {
        Ok(read) => say_records_and_fault(&read, said),
        Err(_) => said.fail(OUT_OF_MEMORY),
    }
}

/// What a call gives that is asked for by words:
///
/// - `list`, a kind, the number of the first line and a text: how many stanzas it has, or its fault;
/// - `stanza`, a kind, a text with one stanza, and parts: each part, with a bar behind it;
/// - `records`, the number of the first line and a text: the records, a line for each, or the fault;
/// - `records-before-fault`, a text: the records before its fault, and the fault;
/// - `causes`: the causes of faults with their numbers.
pub fn say_call(words: &mut Words<'_, '_>, said: &mut Said) {
    match words.word() {
        "list" => say_list(words, said),
        "stanza" => say_stanza(words, said),
        "records" => say_records(words, said),
        "records-before-fault" => say_before_fault(words, said),
        "causes" => say_causes(said),
        _ => said.fail("a call of texts that is not known"),
    }
}

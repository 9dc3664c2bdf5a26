//! Calls of a store.

use crate::calls::keys::{stanza_key, stanza_sign};
use crate::calls::plans::{Told, say_late, say_made, say_planned};
use crate::calls::store_views::{say_numbers, say_view};
use crate::edits::edit_named;
use crate::said::Said;
use crate::words::Words;
use ctl_store::{Edit, Limits, Refusal, Store};

const REFUSALS: &[Refusal] = &[
    Refusal::Command,
    Refusal::Usage,
    Refusal::Unended,
    Refusal::TooLong,
    Refusal::Line,
    Refusal::FieldTwice,
    Refusal::Missing,
    Refusal::Name,
    Refusal::Version,
    Refusal::Relation,
    Refusal::ListExists,
    Refusal::NoList,
    Refusal::StatusExists,
    Refusal::NoStanza,
    Refusal::OneStanza,
    Refusal::NoMark,
    Refusal::NoPin,
    Refusal::Priority,
    Refusal::Filter,
    Refusal::Pattern,
    Refusal::Full,
    Refusal::Memory,
    Refusal::Form,
];

// Each refusal with its number, on a line.
fn say_refusals(said: &mut Said) {
    for refusal in REFUSALS {
        said.number(b"", refusal.number() as u128);
        said.all(&[b" ", refusal.text().as_bytes(), b"\n"]);
    }
}

// The greatest limits.
fn say_most(said: &mut Said) {
    said.number(b"", Limits::MOST.stanzas as u128);
    said.number(b" stanzas, ", Limits::MOST.edits as u128);
    said.add(b" edits");
}

fn edit_of(words: &mut Words<'_, '_>) -> Option<Edit> {
    let word = words.word();
    edit_named(words, word)
}

// The edit of the words behind those of another.
fn say_late_behind(store: &mut Store, other: Edit, words: &mut Words<'_, '_>, said: &mut Said) {
    if let Some(edit) = edit_of(words) {
        say_late(store, other, edit, said);
    }
}

fn say_late_of(store: &mut Store, words: &mut Words<'_, '_>, said: &mut Said) {
    if let Some(other) = edit_of(words) {
        say_late_behind(store, other, words, said);
    }
}

// Something of the plan of the edit that the words ask for.
fn say_plan_of(store: &mut Store, words: &mut Words<'_, '_>, told: Told, said: &mut Said) {
    if let Some(edit) = edit_of(words) {
        say_planned(store, edit, told, said);
    }
}

// Makes the edit of a line whose first word is this.
fn say_edited(store: &mut Store, word: &str, words: &mut Words<'_, '_>, said: &mut Said) {
    if let Some(edit) = edit_named(words, word) {
        say_made(store, edit, said);
    }
}

// Begins with a new store of these limits.
fn begin(store: &mut Store, limits: Limits, said: &mut Said) {
    *store = Store::with_limits(said.alloc(), limits);
    say_numbers(store, said);
}

// What needs no store, or an edit.
fn say_other(store: &mut Store, word: &str, words: &mut Words<'_, '_>, said: &mut Said) {
    match word {
        "most" => say_most(said),
        "sign" => said.add(stanza_sign(words)),
        "refusals" => say_refusals(said),
        _ => say_edited(store, word, words, said),
    }
}

/// What a call gives that is asked for by words:
///
/// - `limits`, numbers of stanzas and of edits: the numbers of a new store of these limits; `new`: of one without; `most`: the greatest;
/// - `show`, and a view;
/// - an edit: the keys that are handed back; `plan`, an edit: what is planned; `plan-finds`, a key, an edit: the plan's stanza of the key;
/// - `late`, an edit, and one that is refused before it: this one as it comes back, and what comes of both;
/// - `touched`, an edit: the names that it touches;
/// - `sign`, two keys: how they are ordered; `refusals`: all with their numbers.
pub fn say_call(store: &mut Store, words: &mut Words<'_, '_>, said: &mut Said) {
    match words.word() {
        "new" => begin(store, Limits::MOST, said),
        "limits" => begin(store, words.limits(), said),
        "show" => say_view(store, words, said),
        "plan-finds" => {
            let key = stanza_key(words);
            say_plan_of(store, words, Told::Stanza(key), said)
        }
        "late" => say_late_of(store, words, said),
        "plan" => say_plan_of(store, words, Told::Parts, said),
        "touched" => say_plan_of(store, words, Told::Names, said),
        word => say_other(store, word, words, said),
    }
}

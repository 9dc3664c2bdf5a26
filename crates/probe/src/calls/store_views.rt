//! What a store holds, asked in plain words.

use crate::calls::keys::stanza_key;
use crate::calls::pins::{say_priority, say_setting};
use crate::said::{OUT_OF_MEMORY, Said};
use crate::words::Words;
use ctl_relation::Version;
use ctl_stanza::ListKind;
use ctl_store::{ListClass, StanzaKey, Store};
use std::alloc::{AllocError, Global};

/// The numbers of what it holds, and its limits.
pub fn say_numbers(store: &Store, said: &mut Said) {
    let counts = store.counts();
    let limits = store.limits();
    said.number(b"", counts.stanzas as u128);
    said.number(b" of ", limits.stanzas as u128);
    said.number(b" stanzas, ", counts.edits as u128);
    said.number(b" of ", limits.edits as u128);
    said.add(b" edits");
}

// The list and the text of the stanza of a key, if there is one.
fn say_found(store: &Store, key: StanzaKey, said: &mut Said) {
    match store.find(key) {
        Some(stanza) => said.all(&[store.list_of(key), b" ", stanza.text()]),
        None => said.add(b"none\n"),
    }
}

// Each key with its list and its stanza.
fn say_keys(store: &Store, said: &mut Said) {
    for key in store.keys() {
        said.key(b"#", key);
        said.add(b" ");
        say_found(store, key, said);
    }
}

// Each key with the package of its stanza.
fn say_entries(store: &Store, said: &mut Said) {
    for (key, stanza) in store.entries() {
        said.key(b"#", key);
        said.add(stanza.package());
    }
}

// The names and versions of the stanzas of a list, with their keys.
fn keys_by_name<'a>(
    alloc: Global,
    store: &'a Store,
    list: &[u8],
) -> Result<Vec<(&'a [u8], Option<&'a Version>, StanzaKey)>, AllocError> {
    let mut places = Vec::new(alloc);
    for key in store.stanzas(list) {
        if let Some(stanza) = store.find(key) {
            places.push((stanza.package(), stanza.version(), key))?;
        }
    }
    Ok(places)
}

// Keys in the order of names and versions.
fn say_by_name(mut places: Vec<(&[u8], Option<&Version>, StanzaKey)>, said: &mut Said) {
    places.sort_unstable();
    for (_, _, key) in &places {
        said.key(b"#", *key);
    }
}

// The keys of a list, in the order of its stanzas, and then by name and version.
fn say_keys_of(store: &Store, list: &[u8], said: &mut Said) {
    said.add(b"in order ");
    for key in store.stanzas(list) {
        said.key(b"#", key);
    }
    said.add(b", by name ");
    match keys_by_name(said.alloc(), store, list) {
        Ok(places) => say_by_name(places, said),
        Err(_) => said.fail(OUT_OF_MEMORY),
    }
    said.add(b".");
}

/// The word for a kind of list.
pub fn kind_words(kind: ListKind) -> &'static [u8] {
    match kind {
        ListKind::Packages => b"packages",
        ListKind::Status => b"status",
    }
}

/// The word for a class, behind a space.
pub fn class_words(class: ListClass) -> &'static [u8] {
    match class {
        ListClass::Plain => b" plain",
        ListClass::NotAutomatic => b" notauto",
        ListClass::ButAutomatic => b" butauto",
    }
}

// The kind of a list, and its kind and its class, by the two calls.
fn say_list(store: &Store, name: &[u8], said: &mut Said) {
    match store.kind(name) {
        Some(kind) => said.add(kind_words(kind)),
        None => said.add(b"no list"),
    }
    match store.list(name) {
        Some((kind, class)) => said.all(&[b", ", kind_words(kind), class_words(class)]),
        None => said.add(b", no list"),
    }
}

// Each list with its kind and class, and a semicolon behind it.
fn say_lists(store: &Store, said: &mut Said) {
    for (name, kind, class) in store.lists() {
        said.all(&[name, b" "]);
        said.all(&[kind_words(kind), class_words(class), b";"]);
    }
}

fn mark_words<'a>(store: &'a Store, package: &[u8]) -> &'a [u8] {
    match store.mark(package) {
        Some(Some(version)) => version.text(),
        Some(None) => b"none",
        None => b"no mark",
    }
}

fn say_pins(store: &Store, said: &mut Said) {
    for (selector, priority) in store.pins() {
        say_setting(selector, priority, said);
    }
}

fn say_pins_of(store: &Store, package: &[u8], said: &mut Said) {
    for (selector, priority) in store.pins_of(package) {
        say_setting(selector, priority, said);
    }
}

// The priority of the first pin.
fn say_first_pin(store: &Store, said: &mut Said) {
    match store.pins().next() {
        Some((_, priority)) => said.priority(b"", priority),
        None => said.add(b"none"),
    }
}

fn say_serial(serial: Option<u32>, said: &mut Said) {
    match serial {
        Some(serial) => said.number(b"", serial as u128),
        None => said.add(b"none"),
    }
}

// What a store holds of a list or of a package.
fn say_view_of(store: &Store, view: &str, name: &[u8], said: &mut Said) {
    match view {
        "keys-of" => say_keys_of(store, name, said),
        "list" => say_list(store, name, said),
        "serial" => say_serial(store.serial(name), said),
        "mark" => said.add(mark_words(store, name)),
        "pins-of" => say_pins_of(store, name, said),
        "general-pin" => say_priority(store.general_pin(name), said),
        _ => said.fail("a view of stores that is not known"),
    }
}

/// What a store holds, by words:
///
/// - `numbers`: how many stanzas and edits, and the limits of both;
/// - `keys`: each with its list and its stanza; `entries`: each with its package;
/// - `find`, a key: the list and the text of its stanza; `keys-of`, a list: the keys of its stanzas, and these by name;
/// - `lists`: each with its kind and class; `target`: the target release;
/// - `list`, a name: its kind, and its kind and class; `serial`, a list: its serial number;
/// - `mark`, a package: its mark; `pins` and `first-pin`: all pin settings, and the priority of the first;
/// - `pins-of`, a package: its specific ones; `general-pin`, a list: the priority of the general one.
pub fn say_view(store: &Store, words: &mut Words<'_, '_>, said: &mut Said) {
    match words.word() {
        "numbers" => say_numbers(store, said),
        "keys" => say_keys(store, said),
        "entries" => say_entries(store, said),
        "find" => say_found(store, stanza_key(words), said),
        "lists" => say_lists(store, said),
        "target" => said.add(store.target().unwrap_or(b"none")),
        "pins" => say_pins(store, said),
        "first-pin" => say_first_pin(store, said),
        view => say_view_of(store, view, words.bytes(), said),
    }
}

//! What a store holds, as text.

use crate::said::Said;
use ctl_relation::Version;
use ctl_stanza::ListKind;
use ctl_store::{ListClass, Store};

fn kind_name(kind: ListKind) -> &'static [u8] {
    match kind {
        ListKind::Packages => b" packages ",
        ListKind::Status => b" status ",
    }
}

fn class_name(class: ListClass) -> &'static [u8] {
    match class {
        ListClass::Plain => b"plain\n",
        ListClass::NotAutomatic => b"notauto\n",
        ListClass::ButAutomatic => b"butauto\n",
    }
}

/// The texts of the stanzas of a list, with a bar behind each.
fn say_texts(store: &Store, list: &[u8], said: &mut Said) {
    for key in store.stanzas(list) {
        said.all(&[store.stanza(key).text(), b"|"]);
    }
}

/// Each list with its kind, its class and its stanzas.
fn say_lists(store: &Store, said: &mut Said) {
    for (name, kind, class) in store.lists() {
        said.all(&[b"list ", name]);
        said.all(&[kind_name(kind), class_name(class)]);
        say_texts(store, name, said);
    }
}

fn say_mark(name: &[u8], mark: Option<Option<&Version>>, said: &mut Said) {
    match mark {
        Some(Some(version)) => said.all(&[b"mark ", name, b" ", version.text(), b"\n"]),
        Some(None) => said.all(&[b"mark ", name, b" none\n"]),
        None => (),
    }
}

/// All pins, a line for each.
pub fn say_pins(store: &Store, said: &mut Said) {
    for (selector, priority) in store.pins() {
        said.pin(selector, priority);
    }
}

fn say_target(store: &Store, said: &mut Said) {
    if let Some(target) = store.target() {
        said.all(&[b"target ", target, b"\n"]);
    }
}

/// How many stanzas are present, and how many edits were accepted, on a line.
pub fn say_counts(store: &Store, said: &mut Said) {
    let counts = store.counts();
    said.number(b"", counts.stanzas as u128);
    said.number(b" stanzas, ", counts.edits as u128);
    said.add(b" edits\n");
}

/// The lists, the marks of the packages `a`, `b` and `c`, the pins, the target release and the counts, a line for each and
/// stanzas as they are.
pub fn say_state(store: &Store, said: &mut Said) {
    say_lists(store, said);
    say_mark(b"a", store.mark(b"a"), said);
    say_mark(b"b", store.mark(b"b"), said);
    say_mark(b"c", store.mark(b"c"), said);
    say_pins(store, said);
    say_target(store, said);
    say_counts(store, said);
}

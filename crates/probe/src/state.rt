//! What a store holds, as text.

use crate::calls::store_views::{class_words, kind_words};
use crate::said::Said;
use crate::words::Words;
use ctl_relation::Version;
use ctl_store::{Selector, Store};

// The keys of the stanzas of a list, each with the stanza's text.
fn say_stanzas(store: &Store, name: &[u8], said: &mut Said) {
    for key in store.stanzas(name) {
        said.key(b" ", key);
        said.word(b"=", store.stanza(key).text());
        said.word(b"@", store.list_of(key));
    }
}

fn say_lists(store: &Store, said: &mut Said) {
    for (name, kind, class) in store.lists() {
        said.word(b" list ", name);
        said.all(&[b" ", kind_words(kind), class_words(class)]);
        say_stanzas(store, name, said);
    }
}

fn say_mark(name: &[u8], mark: Option<Option<&Version>>, said: &mut Said) {
    match mark {
        Some(Some(version)) => {
            said.word(b" mark ", name);
            said.word(b"=", version.text());
        }
        Some(None) => said.word(b" none ", name),
        None => (),
    }
}

// The marks of the packages that the words name.
fn say_marks(store: &Store, words: &mut Words<'_, '_>, said: &mut Said) {
    for _ in 0..u64::MAX {
        if words.is_over() {
            break;
        }
        let name = words.bytes();
        say_mark(name, store.mark(name), said);
    }
}

fn say_selector(selector: &Selector, said: &mut Said) {
    match selector {
        Selector::Version { package, version } => {
            said.word(b" version ", package.as_slice());
            said.word(b" ", version.text());
        }
        Selector::Release {
            package: Some(package),
            list,
        } => {
            said.word(b" release ", package.as_slice());
            said.word(b" ", list.as_slice());
        }
        Selector::Release {
            package: None,
            list,
        } => said.word(b" release - ", list.as_slice()),
    }
}

fn say_pins(store: &Store, said: &mut Said) {
    for (selector, priority) in store.pins() {
        say_selector(selector, said);
        said.priority(b" ", priority);
    }
}

fn say_target(store: &Store, said: &mut Said) {
    if let Some(target) = store.target() {
        said.word(b" target ", target);
    }
}

fn say_numbers(store: &Store, said: &mut Said) {
    let counts = store.counts();
    let limits = store.limits();
    said.number(b" counts ", counts.stanzas as u128);
    said.number(b" ", counts.edits as u128);
    said.number(b" limits ", limits.stanzas as u128);
    said.number(b" ", limits.edits as u128);
}

/// The lists, the marks of the packages that the words name, the pin settings, the target release and the numbers.
pub fn say_state(store: &Store, words: &mut Words<'_, '_>, said: &mut Said) {
    said.add(b"state");
    say_lists(store, said);
    say_marks(store, words, said);
    say_pins(store, said);
    say_target(store, said);
    say_numbers(store, said);
}

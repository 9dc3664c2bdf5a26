//! The policy of packages: the rows of each, and what is chosen of it.

ghost use Rattle.std.specs.Prelude.{◌≡◌, false};
ghost use Rattle.std.specs.List.{AllByRecursion};
ghost use Rattle.ctl_store.specs.Keys.{AreHeld};
ghost use Rattle.ctl_store.specs.Store.{keyed_of};

use crate::said::Said;
use ctl_index::Cache;
use ctl_policy::{Chosen, NewestFirst, list_priority, row_priority, specific_pin};
use ctl_store::{StanzaKey, Store};

// A name with the leads of its installed row and its candidate.
fn say_chosen(mark: &[u8], name: &[u8], chosen: Chosen, said: &mut Said) {
    said.word(mark, name);
    said.lead(b":", chosen.installed);
    said.lead(b":", chosen.candidate);
}

// The keys of a row, the first behind `=` and others behind `+`.
fn say_keys(keys: &[StanzaKey], said: &mut Said) {
    if let [first, rest @ ..] = keys {
        said.key(b"=", *first);
        said.keys(b"+", rest);
    }
}

// A row: the keys of its stanzas, and its priority, with `!` behind that of a specific pin.
fn say_row(store: &Store, name: &[u8], keys: &[StanzaKey], said: &mut Said)
    requires { AreHeld keys.now (keyed_of store.now).lists }
{
    said.add(b" row");
    say_keys(keys, said);
    said.priority(b":", row_priority(store, name, keys));
    if specific_pin(store, name, keys).is_some() {
        said.add(b"!");
    }
}

fn say_rows(store: &Store, name: &[u8], rows: NewestFirst<'_>, said: &mut Said)
    requires { AllByRecursion (λ keys. AreHeld keys (keyed_of store.now).lists) rows }
{
    let mut left = rows;
    'rows: while let Some(keys) = left.next() {
        say_row(store, name, keys, said);
    }
}

fn say_package(cache: &Cache, name: &[u8], said: &mut Said)
    requires { cache.now.stale ≡ false }
{
    say_chosen(b" package=", name, cache.chosen(name), said);
    say_rows(cache.store(), name, cache.row_keys(name), said);
}

// The lists, with the priority of each.
fn say_priorities(store: &Store, said: &mut Said) {
    for (list, _, _) in store.lists() {
        said.word(b" list=", list);
        if let Some(priority) = list_priority(store, list) {
            said.priority(b":", priority);
        }
    }
}

/// The lists with their priorities, each package with its rows, and the map of what is chosen.
pub fn say_policies(cache: &Cache, said: &mut Said)
    requires { cache.now.stale ≡ false }
{
    said.add(b"policies");
    say_priorities(cache.store(), said);
    for name in cache.packages() {
        say_package(cache, name, said);
    }
    for (name, chosen) in cache.candidates() {
        say_chosen(b" chosen=", name, chosen, said);
    }
}

//! Changes of a store, and what comes of them.

use crate::edits::edit_named;
use crate::said::Said;
use crate::state::say_state;
use crate::words::Words;
use ctl_store::{Edit, Limits, Plan, Refusal, Store};

// The text of the first stanza that comes.
fn say_first(plan: &Plan, said: &mut Said) {
    if let Some((key, _)) = plan.added().split_first() {
        said.word(b"=", plan.stanza(*key).text());
    }
}

fn say_refusal(word: &[u8], why: Refusal, said: &mut Said) {
    said.number(word, why.number() as u128);
    said.add(b" ");
}

// Where an edit is foretold to be refused, why.
fn say_foretold(store: &Store, edit: &Edit, said: &mut Said) {
    if let Err(why) = store.check(edit) {
        say_refusal(b"foretold ", why, said);
    }
}

// The keys of a plan.
fn say_plan(plan: &Plan, said: &mut Said) {
    said.add(b"ok");
    said.keys(b" -", plan.removed());
    said.keys(b" +", plan.added());
    say_first(plan, said);
}

// Changes the store by an edit.
fn say_outcome(store: &mut Store, edit: Edit, said: &mut Said) {
    match store.prepare(edit) {
        Ok(plan) => {
            say_plan(&plan, said);
            store.commit(plan);
        }
        Err((_, why)) => say_refusal(b"refused ", why, said),
    }
}

/// Makes an edit, where the store accepts it.
pub fn change(store: &mut Store, edit: Edit) -> Result<(), Refusal> {
    match store.prepare(edit) {
        Ok(plan) => {
            store.commit(plan);
            Ok(())
        }
        Err((_, why)) => Err(why),
    }
}

// Begins with a new store.
fn begin(store: &mut Store, limits: Limits, said: &mut Said) {
    *store = Store::with_limits(said.alloc(), limits);
    said.add(b"new");
}

fn say_edited(store: &mut Store, word: &str, words: &mut Words<'_, '_>, said: &mut Said) {
    if let Some(edit) = edit_named(words, word) {
        say_foretold(store, &edit, said);
        say_outcome(store, edit, said);
    }
}

/// Changes the store by a line, or shows what it holds.
pub fn say_change(store: &mut Store, words: &mut Words<'_, '_>, said: &mut Said) {
    match words.word() {
        "limits" => begin(store, words.limits(), said),
        "dump" => say_state(store, words, said),
        word => say_edited(store, word, words, said),
    }
}

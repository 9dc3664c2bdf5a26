//! What is asked behind a script: how many commands it had, and what its session then holds.

ghost use Rattle.std.specs.Prelude.{◌≡◌, false};

use crate::runs::say_summary;
use crate::said::Said;
use crate::shown::{say_counts, say_pins, say_state};
use ctl_index::{Cache, ClauseKey};
use ctl_relation::Version;
use ctl_session::{Fault, Session, Summary};
use ctl_stanza::Stanza;
use ctl_store::{StanzaKey, Store};

fn version_text(version: Option<&Version>) -> &[u8] {
    match version {
        Some(version) => version.text(),
        None => b"-",
    }
}

/// The package of a stanza, and its version.
fn say_stanza(stanza: &Stanza, said: &mut Said) {
    said.all(&[
        stanza.package(),
        b" ",
        version_text(stanza.version()),
        b"\n",
    ]);
}

/// The stanzas of a list in their order, each behind its key: the serial of the list, and its own in the list.
fn say_stanzas(store: &Store, list: &[u8], said: &mut Said) {
    for key in store.stanzas(list) {
        said.key(b"", key);
        said.add(b" ");
        match store.find(key) {
            Some(stanza) => say_stanza(stanza, said),
            None => said.add(b"no stanza\n"),
        }
    }
}

fn say_of_store(store: &Store, question: &[u8], said: &mut Said) {
    if let Some(list) = question.strip_prefix(b"stanzas ") {
        return say_stanzas(store, list, said);
    }
    match question {
        b"counts" => say_counts(store, said),
        b"held" => say_state(store, said),
        b"pins" => say_pins(store, said),
        _ => said.add(b"no such question\n"),
    }
}

/// A clause by the package of its stanza, its field and the place of its group, and then a number.
fn say_clause(store: &Store, key: ClauseKey, number: u128, said: &mut Said) {
    match store.find(key.stanza) {
        Some(stanza) => said.add(stanza.package()),
        None => said.add(b"no stanza"),
    }
    said.all(&[b" ", key.field.printed_name()]);
    said.number(b" ", key.group as u128);
    said.number(b": ", number);
    said.add(b"\n");
}

/// The number that is told of a clause where it is asked.
fn asked_number(cache: &Cache, key: ClauseKey) -> u128
    requires { cache.now.stale ≡ false }
{
    match cache.counters().get(key) {
        Some(_) => cache.satisfiers(key),
        None => 0,
    }
}

/// The number of each clause that is kept.
fn say_kept(cache: &Cache, said: &mut Said)
    requires { cache.now.stale ≡ false }
{
    for (key, kept) in cache.counters().iter() {
        say_clause(cache.store(), key, kept, said);
    }
}

/// The number of each clause that is told if it is asked.
fn say_told(cache: &Cache, said: &mut Said)
    requires { cache.now.stale ≡ false }
{
    for (key, _) in cache.counters().iter() {
        say_clause(cache.store(), key, asked_number(cache, key), said);
    }
}

/// A word, and the text of a stanza.
fn say_lead(word: &[u8], store: &Store, lead: Option<StanzaKey>, said: &mut Said) {
    said.add(word);
    match lead {
        Some(key) => match store.find(key) {
            Some(stanza) => said.all(&[stanza.text(), b"\n"]),
            None => said.add(b"no stanza\n"),
        },
        None => said.add(b"(none)\n"),
    }
}

/// What is installed of each name, and its candidate, as they are kept.
fn say_candidates(cache: &Cache, said: &mut Said)
    requires { cache.now.stale ≡ false }
{
    for (name, chosen) in cache.candidates() {
        said.all(&[name, b"\n"]);
        say_lead(b"Installed: ", cache.store(), chosen.installed, said);
        say_lead(b"Candidate:\n", cache.store(), chosen.candidate, said);
    }
}

fn say_steps(cache: &Cache, said: &mut Said) {
    said.number(b"", cache.steps());
    said.add(b"\n");
}

fn say_of_cache(cache: &Cache, question: &[u8], said: &mut Said) {
    if cache.is_stale() {
        return said.add(b"stale\n");
    }
    match question {
        b"steps" => say_steps(cache, said),
        b"counters" => say_kept(cache, said),
        b"satisfiers" => say_told(cache, said),
        b"candidates" => say_candidates(cache, said),
        _ => say_of_store(cache.store(), question, said),
    }
}

fn say_summary_line(outcome: Result<Summary, Fault>, said: &mut Said) {
    say_summary(outcome, said);
    said.add(b"\n");
}

/// The question, on a line, and its answer.
pub fn say_answer(
    session: &Session,
    outcome: Result<Summary, Fault>,
    question: &[u8],
    said: &mut Said,
) {
    said.all(&[b"? ", question, b"\n"]);
    match question {
        b"summary" => say_summary_line(outcome, said),
        _ => say_of_cache(session.cache(), question, said),
    }
}

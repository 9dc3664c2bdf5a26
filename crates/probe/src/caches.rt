//! Edits of a kept cache, and what it tells after them.

ghost use Rattle.std.specs.Prelude.{◌≡◌, false};

use crate::calls::cache_tables::say_clause;
use crate::edits::edit_named;
use crate::parts::say_version;
use crate::policies::say_policies;
use crate::said::{OUT_OF_MEMORY, Said};
use crate::state::say_state;
use crate::words::Words;
use ctl_index::{Cache, PackageNames};
use ctl_store::{Edit, Limits, Refusal};

fn say_names(cache: &Cache, said: &mut Said)
    requires { cache.now.stale ≡ false }
{
    for name in cache.names() {
        said.word(b" name=", name);
    }
}

// The offers of a name: the name, the key of the stanza, and the version or `-`.
fn say_offers(cache: &Cache, name: &[u8], said: &mut Said)
    requires { cache.now.stale ≡ false }
{
    for (key, offer) in cache.offers(name) {
        said.word(b" offer=", name);
        said.key(b":", key);
        say_version(offer.version(), said);
    }
}

// The atoms that name a name: the name, and the key of the atom.
fn say_namers(cache: &Cache, name: &[u8], said: &mut Said)
    requires { cache.now.stale ≡ false }
{
    for key in cache.namers(name) {
        said.word(b" namer=", name);
        said.add(b":");
        say_clause(b".", key.stanza, key.field, key.group, said);
        said.number(b".", key.atom as u128);
    }
}

fn say_by_name(cache: &Cache, said: &mut Said)
    requires { cache.now.stale ≡ false }
{
    for name in cache.names() {
        say_offers(cache, name, said);
        say_namers(cache, name, said);
    }
}

fn say_counters(cache: &Cache, said: &mut Said)
    requires { cache.now.stale ≡ false }
{
    for (key, number) in cache.counters().iter() {
        said.add(b" counter=");
        say_clause(b".", key.stanza, key.field, key.group, said);
        said.number(b":", number);
    }
}

fn say_unmet(cache: &Cache, said: &mut Said)
    requires { cache.now.stale ≡ false }
{
    for key in cache.unmet_clauses() {
        said.add(b" unmet=");
        say_clause(b".", key.stanza, key.field, key.group, said);
    }
}

fn say_each(names: PackageNames<'_>, said: &mut Said) {
    for name in names {
        said.word(b" ", name);
    }
}

// The names of packages that begin with a prefix.
fn say_packages(cache: &Cache, prefix: &[u8], said: &mut Said)
    requires { cache.now.stale ≡ false }
{
    said.add(b"packages");
    match cache.package_names(prefix) {
        Ok(names) => say_each(names, said),
        Err(_) => said.fail(OUT_OF_MEMORY),
    }
}

// All that the tables tell.
fn say_views(cache: &Cache, said: &mut Said)
    requires { cache.now.stale ≡ false }
{
    said.add(b"views");
    say_names(cache, said);
    say_by_name(cache, said);
    say_counters(cache, said);
    say_unmet(cache, said);
}

// The same, where the tables are not stale or could be made anew; else `stale`.
fn say_recovered(cache: &mut Cache, said: &mut Said) {
    if cache.recover().is_err() || cache.is_stale() {
        said.add(b"stale");
    } else {
        say_views(cache, said);
    }
}

fn say_kept_policies(cache: &Cache, said: &mut Said) {
    if cache.is_stale() {
        said.add(b"stale");
    } else {
        say_policies(cache, said);
    }
}

fn say_packages_of_word(cache: &Cache, words: &mut Words<'_, '_>, said: &mut Said) {
    let prefix = words.bytes();
    if cache.is_stale() {
        said.add(b"stale");
    } else {
        say_packages(cache, prefix, said);
    }
}

/// Makes an edit. A stale cache refuses it as it does where there is no memory.
pub fn apply(cache: &mut Cache, edit: Edit) -> Result<(), Refusal> {
    if cache.is_stale() {
        return Err(Refusal::Memory);
    }
    cache.apply(edit)
}

// What comes of an edit, and the count of tests after it.
fn say_outcome(cache: &mut Cache, edit: Edit, said: &mut Said) {
    match apply(cache, edit) {
        Ok(()) => said.add(b"ok"),
        Err(why) => said.number(b"refused ", why.number() as u128),
    }
    said.number(b" ", cache.steps());
}

// The count of tests, and whether the tables are stale.
fn say_steps(cache: &Cache, said: &mut Said) {
    said.number(b"steps ", cache.steps());
    if cache.is_stale() {
        said.add(b" stale");
    }
}

// Begins with a new cache.
fn begin(cache: &mut Cache, limits: Limits, said: &mut Said) {
    *cache = Cache::with_limits(said.alloc(), limits);
    said.add(b"new");
}

fn say_edited(cache: &mut Cache, word: &str, words: &mut Words<'_, '_>, said: &mut Said) {
    if let Some(edit) = edit_named(words, word) {
        say_outcome(cache, edit, said);
    }
}

/// Begins with a new cache, changes it by a line, or shows what it tells.
pub fn say_followed(cache: &mut Cache, words: &mut Words<'_, '_>, said: &mut Said) {
    match words.word() {
        "limits" => begin(cache, words.limits(), said),
        "views" => say_recovered(cache, said),
        "policies" => say_kept_policies(cache, said),
        "packages" => say_packages_of_word(cache, words, said),
        "steps" => say_steps(cache, said),
        "dump" => say_state(cache.store(), words, said),
        word => say_edited(cache, word, words, said),
    }
}

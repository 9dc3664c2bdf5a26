//! Calls of a kept cache.

ghost use Rattle.std.specs.Prelude.{◌≡◌, false};

use crate::calls::cache_rows::{
    say_all_rows, say_candidates, say_chosen, say_each_row, say_known, say_leads, say_name_view,
    say_names_with_rows, say_row_of,
};
use crate::calls::cache_tables::{
    say_counters, say_namers, say_names, say_names_from, say_offers, say_packages, say_satisfiers,
    say_tables, say_unmet,
};
use crate::calls::keys::{atom_sign, clause_key, clause_sign};
use crate::calls::store_views::say_numbers;
use crate::edits::edit_named;
use crate::said::{OUT_OF_MEMORY, Said};
use crate::words::Words;
use ctl_index::Cache;
use ctl_store::{Edit, Limits};

// Makes an edit: how many tests it took, behind why it is refused if it is.
fn say_made(cache: &mut Cache, edit: Edit, said: &mut Said)
    requires { cache.old.stale ≡ false }
{
    let before = cache.steps();
    if let Err(why) = cache.apply(edit) {
        said.all(&[why.text().as_bytes(), b" "]);
    }
    said.number(b"+", cache.steps().saturating_sub(before));
}

fn say_recovered(cache: &mut Cache, said: &mut Said) {
    let before = cache.steps();
    if cache.recover().is_err() {
        said.fail(OUT_OF_MEMORY);
    }
    said.number(b"+", cache.steps().saturating_sub(before));
}

// What stands under a name.
fn say_view_of(cache: &Cache, view: &str, name: &[u8], said: &mut Said)
    requires { cache.now.stale ≡ false }
{
    match view {
        "names-from" => say_names_from(cache, name, said),
        "packages" => say_packages(cache, name, said),
        "offers" => say_offers(cache, name, said),
        "namers" => say_namers(cache, name, said),
        "rows" => say_each_row(cache.row_keys(name), said),
        "leads" => say_leads(cache, name, said),
        "name" => say_name_view(cache, name, said),
        "chosen" => say_chosen(cache, name, said),
        "known" => say_known(cache, name, said),
        _ => said.fail("a view of caches that is not known"),
    }
}

// The lead of a version of a name, or its row.
fn say_of_version(cache: &Cache, is_lead: bool, words: &mut Words<'_, '_>, said: &mut Said)
    requires { cache.now.stale ≡ false }
{
    let name = words.bytes();
    match words.version() {
        Some(version) if is_lead => said.lead(b" ", cache.lead(name, &version)),
        Some(version) => say_row_of(cache, name, &version, said),
        None => (),
    }
}

// What is asked of a cache with words behind.
fn say_asked(cache: &Cache, view: &str, words: &mut Words<'_, '_>, said: &mut Said)
    requires { cache.now.stale ≡ false }
{
    match view {
        "satisfiers" => say_satisfiers(cache, clause_key(words), said),
        "lead" => say_of_version(cache, true, words, said),
        "row" => say_of_version(cache, false, words, said),
        _ => say_view_of(cache, view, words.bytes(), said),
    }
}

// What a cache tells of its tables.
fn say_table(cache: &Cache, view: &str, words: &mut Words<'_, '_>, said: &mut Said)
    requires { cache.now.stale ≡ false }
{
    match view {
        "names" => say_names(cache, said),
        "counters" => say_counters(cache, said),
        "unmet" => say_unmet(cache, said),
        "tables" => say_tables(cache, said),
        _ => say_asked(cache, view, words, said),
    }
}

// Something of what a cache tells.
fn say_view(cache: &Cache, words: &mut Words<'_, '_>, said: &mut Said)
    requires { cache.now.stale ≡ false }
{
    match words.word() {
        "all-rows" => say_all_rows(cache, said),
        "candidates" => say_candidates(cache, said),
        "names-with-rows" => say_names_with_rows(cache, said),
        "steps" => said.number(b"", cache.steps()),
        "numbers" => say_numbers(cache.store(), said),
        view => say_table(cache, view, words, said),
    }
}

fn say_edited(cache: &mut Cache, word: &str, words: &mut Words<'_, '_>, said: &mut Said)
    requires { cache.old.stale ≡ false }
{
    if let Some(edit) = edit_named(words, word) {
        say_made(cache, edit, said);
    }
}

fn say_fresh(cache: &mut Cache, word: &str, words: &mut Words<'_, '_>, said: &mut Said) {
    if cache.is_stale() {
        said.fail("a stale cache");
    } else if word == "show" {
        say_view(cache, words, said);
    } else {
        say_edited(cache, word, words, said);
    }
}

// Begins with a new cache of these limits.
fn begin(cache: &mut Cache, limits: Limits, said: &mut Said) {
    *cache = Cache::with_limits(said.alloc(), limits);
    say_numbers(cache.store(), said);
}

/// What a call gives that is asked for by words:
///
/// - `limits`, numbers of stanzas and of edits: the numbers of a new cache of these limits; `new`: of one without;
/// - an edit: how many tests it took, and why it is refused if it is; `recover`: how many that took;
/// - `show`, `names`, `packages` of a prefix, `offers` and `namers` of a name, `satisfiers` of a clause, `counters`, `unmet`, and `tables`, which are
///   all of these; `rows`, `name`, `chosen` and `known` of a name, `all-rows`, `names-with-rows`, `candidates`; `row` and `lead` of a name
///   and a version; `steps`, and the `numbers` of the store;
/// - `clause-sign`, `atom-sign`, two keys: how they are ordered.
pub fn say_call(cache: &mut Cache, words: &mut Words<'_, '_>, said: &mut Said) {
    match words.word() {
        "new" => begin(cache, Limits::MOST, said),
        "limits" => begin(cache, words.limits(), said),
        "recover" => say_recovered(cache, said),
        "clause-sign" => said.add(clause_sign(words)),
        "atom-sign" => said.add(atom_sign(words)),
        word => say_fresh(cache, word, words, said),
    }
}

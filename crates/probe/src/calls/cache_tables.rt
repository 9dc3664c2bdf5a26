//! What the tables of a kept cache tell, in plain words. What comes in any order is shown in order.

ghost use Rattle.std.specs.Prelude.{◌≡◌, false};

use crate::said::{OUT_OF_MEMORY, Said};
use ctl_index::{AtomKey, Cache, ClauseKey, Namers, PackageNames};
use ctl_relation::{FieldKind, Offer, Version};
use ctl_store::StanzaKey;
use std::alloc::{AllocError, Global};

/// A clause: its stanza's key, its field and the place of its group, each of the two behind a mark.
pub fn say_clause(mark: &[u8], stanza: StanzaKey, field: FieldKind, group: u32, said: &mut Said) {
    said.key(b"", stanza);
    said.add(mark);
    said.add(field.printed_name());
    said.number(mark, group as u128);
}

/// The names that are known, each behind a space.
pub fn say_names(cache: &Cache, said: &mut Said)
    requires { cache.now.stale ≡ false }
{
    for name in cache.names() {
        said.all(&[b" ", name]);
    }
}

fn say_each(names: PackageNames<'_>, said: &mut Said) {
    for name in names {
        said.all(&[b" ", name]);
    }
}

/// The names that are known and not before a prefix, each behind a space.
pub fn say_names_from(cache: &Cache, prefix: &[u8], said: &mut Said)
    requires { cache.now.stale ≡ false }
{
    match cache.names_from(prefix) {
        Err(_) => said.fail(OUT_OF_MEMORY),
        Ok(names) => {
            for name in names {
                said.all(&[b" ", name]);
            }
        }
    }
}

/// The names of packages that begin with a prefix, each behind a space.
pub fn say_packages(cache: &Cache, prefix: &[u8], said: &mut Said)
    requires { cache.now.stale ≡ false }
{
    match cache.package_names(prefix) {
        Ok(names) => say_each(names, said),
        Err(_) => said.fail(OUT_OF_MEMORY),
    }
}

fn version_words(version: Option<&Version>) -> &[u8] {
    match version {
        Some(version) => version.text(),
        None => b"-",
    }
}

/// An offer: its stanza's key, its name, and its version or `-`.
fn offer_words(alloc: Global, key: StanzaKey, offer: &Offer) -> Result<Vec<u8>, &'static str> {
    let mut said = Said::new(alloc);
    said.key(b"", key);
    said.all(&[b" ", offer.name(), b" ", version_words(offer.version())]);
    said.into_bytes()
}

/// The words of each offer of a name.
fn offers_of(alloc: Global, cache: &Cache, name: &[u8]) -> Result<Vec<Vec<u8>>, &'static str>
    requires { cache.now.stale ≡ false }
{
    let mut offers = Vec::new(alloc);
    for (key, offer) in cache.offers(name) {
        let words = offer_words(alloc, key, offer)?;
        if offers.push(words).is_err() {
            return Err(OUT_OF_MEMORY);
        }
    }
    Ok(offers)
}

/// Words in their order, each with a semicolon behind it.
fn say_in_order(mut offers: Vec<Vec<u8>>, said: &mut Said) {
    offers.sort_unstable();
    for words in &offers {
        said.all(&[words, b";"]);
    }
}

/// The offers of a name, in the order of their words, each with a semicolon behind it.
pub fn say_offers(cache: &Cache, name: &[u8], said: &mut Said)
    requires { cache.now.stale ≡ false }
{
    match offers_of(said.alloc(), cache, name) {
        Ok(offers) => say_in_order(offers, said),
        Err(why) => said.fail(why),
    }
}

fn say_atom_keys(mut atoms: Vec<AtomKey>, said: &mut Said) {
    atoms.sort_unstable();
    for key in &atoms {
        say_clause(b" ", key.stanza, key.field, key.group, said);
        said.number(b" ", key.atom as u128);
        said.add(b";");
    }
}

/// Atoms in the order of their keys, each with a semicolon behind it: its clause, and its place in the group.
pub fn say_atoms(namers: Namers<'_>, said: &mut Said) {
    let collected: Result<Vec<AtomKey>, AllocError> = namers.collect(said.alloc());
    match collected {
        Ok(atoms) => say_atom_keys(atoms, said),
        Err(_) => said.fail(OUT_OF_MEMORY),
    }
}

/// The atoms that name a name.
pub fn say_namers(cache: &Cache, name: &[u8], said: &mut Said)
    requires { cache.now.stale ≡ false }
{
    say_atoms(cache.namers(name), said);
}

/// Each clause with its number, in order, each with a semicolon behind it.
pub fn say_counters(cache: &Cache, said: &mut Said)
    requires { cache.now.stale ≡ false }
{
    for (key, number) in cache.counters().iter() {
        say_clause(b" ", key.stanza, key.field, key.group, said);
        said.number(b": ", number);
        said.add(b";");
    }
}

/// The clauses that no offer meets, in order, each with a semicolon behind it.
pub fn say_unmet(cache: &Cache, said: &mut Said)
    requires { cache.now.stale ≡ false }
{
    for key in cache.unmet_clauses() {
        say_clause(b" ", key.stanza, key.field, key.group, said);
        said.add(b";");
    }
}

/// The number of a clause, or that there is none.
pub fn say_satisfiers(cache: &Cache, clause: ClauseKey, said: &mut Said)
    requires { cache.now.stale ≡ false }
{
    match cache.counters().get(clause) {
        Some(_) => said.number(b"", cache.satisfiers(clause)),
        None => said.add(b"no clause"),
    }
}

fn say_by_name(cache: &Cache, said: &mut Said)
    requires { cache.now.stale ≡ false }
{
    for name in cache.names() {
        said.all(&[name, b":"]);
        say_offers(cache, name, said);
        say_namers(cache, name, said);
        said.add(b"\n");
    }
}

/// All that the tables of a cache tell: a line for each name that is known, with its offers and the atoms that name it; a line of the
/// clauses with their numbers; and a line of those that no offer meets.
pub fn say_tables(cache: &Cache, said: &mut Said)
    requires { cache.now.stale ≡ false }
{
    say_by_name(cache, said);
    say_counters(cache, said);
    said.add(b"\n");
    say_unmet(cache, said);
    said.add(b"\n");
}

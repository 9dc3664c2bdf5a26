//! What a kept cache tells of the rows of names, and of what is chosen of them, in plain words.

ghost use Rattle.std.specs.Prelude.{◌≡◌, false};

use crate::calls::cache_tables::say_atoms;
use crate::calls::pins::say_priority;
use crate::said::Said;
use ctl_index::Cache;
use ctl_policy::{Chosen, NewestFirst};
use ctl_relation::Version;
use ctl_store::StanzaKey;

/// The keys of a row, each behind a space, and a semicolon.
fn say_keys(keys: &[StanzaKey], said: &mut Said) {
    said.keys(b" ", keys);
    said.add(b";");
}

/// Rows, in their order.
pub fn say_each_row(rows: NewestFirst<'_>, said: &mut Said) {
    for keys in rows {
        say_keys(keys, said);
    }
}

/// The rows of all names, newest first, and a slash behind those of each name.
pub fn say_all_rows(cache: &Cache, said: &mut Said)
    requires { cache.now.stale ≡ false }
{
    for rows in cache.all_rows() {
        say_each_row(rows, said);
        said.add(b"/");
    }
}

fn say_is_known(is_known: bool, said: &mut Said) {
    said.add(if is_known { b"known" } else { b"unknown" });
}

/// What stands under a name: whether it is known, its rows, and the atoms that name it.
pub fn say_name_view(cache: &Cache, name: &[u8], said: &mut Said)
    requires { cache.now.stale ≡ false }
{
    let view = cache.name_view(name);
    say_is_known(view.is_known(), said);
    say_each_row(view.rows(), said);
    say_atoms(view.namers(), said);
}

/// The leads of the rows of a name, newest first.
pub fn say_leads(cache: &Cache, name: &[u8], said: &mut Said)
    requires { cache.now.stale ≡ false }
{
    for lead in cache.rows(name) {
        said.key(b" ", lead);
    }
}

fn say_sources(cache: &Cache, lead: StanzaKey, said: &mut Said)
    requires { cache.now.stale ≡ false }
{
    for list in cache.sources(lead) {
        said.all(&[b" ", list]);
    }
}

/// The keys of the row of a version of a name, its priority, and the lists that hold it.
pub fn say_row_of(cache: &Cache, name: &[u8], version: &Version, said: &mut Said)
    requires { cache.now.stale ≡ false }
{
    let row = cache.row(name, version);
    say_keys(row, said);
    said.add(b" ");
    say_priority(cache.priority(name, version), said);
    if let Some(lead) = row.first() {
        say_sources(cache, *lead, said);
    }
}

fn say_choice(name: &[u8], chosen: Chosen, said: &mut Said) {
    said.add(name);
    said.lead(b" ", chosen.installed);
    said.lead(b" ", chosen.candidate);
    said.add(b";");
}

/// What is chosen of a name, by the one call and by the two.
pub fn say_chosen(cache: &Cache, name: &[u8], said: &mut Said)
    requires { cache.now.stale ≡ false }
{
    say_choice(name, cache.chosen(name), said);
    said.lead(b" ", cache.installed(name));
    said.lead(b" ", cache.candidate(name));
}

/// All that is chosen, in the order of names.
pub fn say_candidates(cache: &Cache, said: &mut Said)
    requires { cache.now.stale ≡ false }
{
    for (name, chosen) in cache.candidates() {
        say_choice(name, chosen, said);
    }
}

/// The names that have a row, each behind a space.
pub fn say_names_with_rows(cache: &Cache, said: &mut Said)
    requires { cache.now.stale ≡ false }
{
    for name in cache.packages() {
        said.all(&[b" ", name]);
    }
}

/// Whether a name is known, and whether it has a row.
pub fn say_known(cache: &Cache, name: &[u8], said: &mut Said)
    requires { cache.now.stale ≡ false }
{
    say_is_known(cache.is_known(name), said);
    said.add(if cache.has_row(name) {
        b" with a row"
    } else {
        b" without a row"
    });
}

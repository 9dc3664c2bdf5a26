//! Calls of the rows of names, and of what is chosen of a name.

use crate::made::{given, version};
use crate::said::Said;
use crate::tables::{agree, same};
use ctl_policy::{Rows, choose, read_rows};
use ctl_relation::Version;
use ctl_store::{StanzaKey, Store};
use std::alloc::{AllocError, Global};
use std::test::Fail;

fn key(stanza: u64) -> StanzaKey {
    StanzaKey { list: 0, stanza }
}

fn put(rows: &mut Rows, version: &Version, stanza: u64, said: &mut Said) {
    if rows.put(version, key(stanza)).is_err() {
        said.fail();
    }
}

/// Whether there are rows, and the keys of a version, its lead last.
fn say_keys(rows: &Rows, version: &Version, said: &mut Said) {
    said.add(if rows.is_empty() { b"no row" } else { b"rows" });
    for key in rows.keys(version) {
        said.key(b" ", *key);
    }
    if let Some(lead) = rows.lead(version) {
        said.key(b", lead ", lead);
    }
    said.add(b"\n");
}

/// Puts keys under two texts of equal versions, and takes them out.
fn say_followed(rows: &mut Rows, one: &Version, other: &Version, said: &mut Said) {
    say_keys(rows, one, said);
    put(rows, other, 2, said);
    put(rows, one, 1, said);
    say_keys(rows, other, said);
    rows.take(other, key(1));
    say_keys(rows, one, said);
    rows.take(one, key(2));
    say_keys(rows, one, said);
}

fn say_rows(alloc: Global, one: &Version, other: &Version, said: &mut Said) {
    let mut rows = Rows::new(alloc);
    say_followed(&mut rows, one, other, said);
}

#[test]
fn rows_follow_keys(rt: HostRuntime) -> Result<(), Fail> {
    let one = given(version(rt.alloc(), "1.0"))?;
    let other = given(version(rt.alloc(), "1.0-0"))?;
    let mut said = Said::new(rt.alloc());
    say_rows(rt.alloc(), &one, &other, &mut said);
    same(
        &rt,
        b"rows",
        said.shown(),
        b"no row\nrows 0.1 0.2, lead 0.1\nrows 0.2, lead 0.2\nno row\n",
    );
    Ok(())
}

/// Whether nothing is chosen of a name.
fn chooses_nothing(alloc: Global, store: &Store, name: &[u8]) -> Result<bool, AllocError> {
    let rows = read_rows(alloc, store, name)?;
    let chosen = choose(store, name, &rows);
    Ok(chosen.installed.is_none() && chosen.candidate.is_none())
}

#[test]
fn of_a_name_without_rows_nothing_is_chosen(rt: HostRuntime) -> Result<(), Fail> {
    let store = Store::new(rt.alloc());
    let is_none = chooses_nothing(rt.alloc(), &store, b"foo")?;
    agree(&rt, b"foo", is_none, true);
    Ok(())
}

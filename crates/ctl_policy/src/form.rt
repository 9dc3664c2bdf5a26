//! The forms in which the rows of one name are held.

ghost use Rattle.std.specs.Prelude.{◌≡◌, ◌&&◌, ℕ, List, None, is_some, IfOk, OnOk, OnErr};
ghost use Rattle.std.specs.Bool.{OnTrue, OnFalse};
ghost use Rattle.std.specs.Ordering.{is_eq};
ghost use Rattle.ctl_relation.specs.Version.{version_cmp};
ghost use Rattle.ctl_store.specs.Keys.{key_is};
ghost use Rattle.ctl_policy.specs.Keys.{or_none};
ghost use Rattle.ctl_policy.specs.Inside.HeldRows.{row_in_map, one_at, form_at, form_with, form_without, IsFormed};

use crate::by_version::{ByVersion, put_version, take_version};
use ctl_relation::Version;
use ctl_store::StanzaKey;
use std::alloc::{AllocError, Global};
use std::collections::BTreeMap;
use std::slice;

/// The rows of a name. Most names have one row of one stanza, for which there is no map.
#[derive(Drop)]
pub enum Form {
    Empty,
    One(Version, StanzaKey),
    Many(ByVersion),
}

// A map of the row of one stanza.
fn mapped(alloc: Global, version: &Version, key: StanzaKey) -> Result<ByVersion, AllocError>
    ensures { IfOk result (λ rows. (v : List ℕ) → row_in_map rows v ≡ one_at version.now key v) }
{
    let mut rows = BTreeMap::new(alloc);
    put_version(alloc, &mut rows, version, key)?;
    Ok(rows)
}

// A map of the rows of two stanzas.
fn grown(
    alloc: Global,
    there: &Version,
    other: StanzaKey,
    version: &Version,
    key: StanzaKey,
) -> Result<ByVersion, AllocError>
    ensures { IfOk result (λ rows. (v : List ℕ) → row_in_map rows v ≡ form_with version.now key (one_at there.now other) v) }
{
    let mut rows = mapped(alloc, there, other)?;
    put_version(alloc, &mut rows, version, key)?;
    Ok(rows)
}

/// Puts a key under its version.
pub(crate) fn put_in_form(
    alloc: Global,
    form: &mut Form,
    version: &Version,
    key: StanzaKey,
) -> Result<(), AllocError>
    requires { IsFormed form.old }
    ensures ok { OnOk result ((v : List ℕ) → form_at form.new v ≡ form_with version.now key (form_at form.old) v) }
    ensures err { OnErr result ((v : List ℕ) → form_at form.new v ≡ form_at form.old v) }
{
    let grown = match form {
        Form::Empty => Form::One(version.try_clone(alloc)?, key),
        Form::One(there, other) => Form::Many(grown(alloc, there, *other, version, key)?),
        Form::Many(rows) => return put_version(alloc, rows, version, key),
    };
    *form = grown;
    Ok(())
}

// Whether the one stanza is that of a version and a key.
fn is_one(there: &Version, other: StanzaKey, version: &Version, key: StanzaKey) -> bool
    ensures { result ≡ (is_eq (version_cmp version.now there.now) && key_is key other) }
{
    version == there && other == key
}

// Takes a key out from under its version, or tells that no row is left then.
fn take_and_tell(form: &mut Form, version: &Version, key: StanzaKey) -> bool
    requires { IsFormed form.old }
    ensures gone { OnTrue result ((v : List ℕ) → form_without version.now key (form_at form.old) v ≡ None) }
    ensures stays { OnFalse result ((v : List ℕ) → form_at form.new v ≡ form_without version.now key (form_at form.old) v) }
{
    match form {
        Form::Empty => false,
        Form::One(there, other) => is_one(there, *other, version, key),
        Form::Many(rows) => {
            take_version(rows, version, key);
            rows.is_empty()
        }
    }
}

/// Takes a key out from under its version. It takes no memory.
pub(crate) fn take_from_form(form: &mut Form, version: &Version, key: StanzaKey)
    requires { IsFormed form.old }
    ensures { (v : List ℕ) → form_at form.new v ≡ form_without version.now key (form_at form.old) v }
{
    if take_and_tell(form, version, key) {
        *form = Form::Empty;
    }
}

fn keys_in_map<'a>(map: &'a ByVersion, version: &Version) -> &'a [StanzaKey]
    ensures { result.now ≡ or_none (row_in_map map.now version.now) }
{
    match map.get(version) {
        Some(keys) => keys,
        None => &[],
    }
}

/// The keys of a version, in order; none where there is no row of it.
pub(crate) fn keys_in_form<'a>(form: &'a Form, version: &Version) -> &'a [StanzaKey]
    ensures { result.now ≡ or_none (form_at form.now version.now) }
{
    match form {
        Form::Empty => &[],
        Form::One(there, key) => {
            if there == version {
                slice::from_ref(key)
            } else {
                &[]
            }
        }
        Form::Many(map) => keys_in_map(map, version),
    }
}

/// Whether there is a row of a version.
pub(crate) fn has_row(form: &Form, version: &Version) -> bool
    ensures { result ≡ is_some (form_at form.now version.now) }
{
    match form {
        Form::Empty => false,
        Form::One(there, _) => there == version,
        Form::Many(map) => map.contains_key(version),
    }
}

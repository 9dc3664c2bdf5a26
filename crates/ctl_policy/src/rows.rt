//! The rows of one name.

ghost use Rattle.std.specs.Prelude.{◌≡◌, [], map, List, ℕ, None, OnOk, OnErr};
ghost use Rattle.std.specs.Bool.{OnTrue, OnFalse};
ghost use Rattle.std.specs.FinMap as fin;
ghost use Rattle.std.specs.List.{list_any};
ghost use Rattle.ctl_store.specs.Keys.{AreRising};
ghost use Rattle.ctl_policy.specs.Rows.{has_list, is_of_list, keys_at, lead_at, keys_of_row, newest_first};
ghost use Rattle.ctl_policy.specs.Inside.HeldRows.{rows_of_form, IsOrderedForm};
ghost use Rattle.ctl_policy.specs.Kept.{HasPut, HasTaken, HasSame};

use crate::form::{Form, keys_in_form, put_in_form, take_from_form};
use crate::newest::NewestFirst;
use ctl_relation::Version;
use ctl_store::StanzaKey;
use std::alloc::{AllocError, Global};
use std::marker::Model;

/// The rows of a name: for each version the keys of its stanzas, in order. Equal versions are one row. One row of one
/// stanza takes no memory beside its own.
#[derive(Drop)]
pub struct Rows {
    alloc: Global,
    form: Form,
}

impl Model for Rows {
    ghost use Rattle.ctl_policy.specs.Rows.{Rows as RowsByVersion};
    ghost use Rattle.ctl_policy.specs.Inside.HeldRows.{rows_code, rows_of_form, IsFormed};

    ghost Value = { RowsByVersion };

    ghost coded = { rows_code };

    ghost view = { λ rows. rows_of_form rows.form };

    ghost invariant = { λ rows. IsFormed rows.form };
}

// That the keys of a map rise.
fn order_of(form: &Form)
    ensures { IsOrderedForm form.now }
{
    match form {
        Form::Empty => {}
        Form::One(_, _) => {}
        Form::Many(map) => {
            map.len();
        }
    }
}

fn is_bare(form: &Form) -> bool
    requires { IsOrderedForm form.now }
    ensures none { OnTrue result (newest_first (rows_of_form form.now) ≡ []) }
    ensures some { OnFalse result (newest_first (rows_of_form form.now) ≡ [] → ⊥) }
{
    match form {
        Form::Empty => true,
        Form::One(_, _) => false,
        Form::Many(map) => map.is_empty(),
    }
}

// Whether one of these keys is that of a stanza of a list.
fn are_any_of(keys: &[StanzaKey], list: u32) -> bool
    ensures { result ≡ list_any (is_of_list list) keys.now }
{
    keys.iter().any(|key| key.list == list)
}

impl Rows {
    /// No rows. It takes no memory.
    pub fn new(alloc: Global) -> Rows
        ensures { (version : List ℕ) → fin.get result version ≡ None }
    {
        Rows {
            alloc,
            form: Form::Empty,
        }
    }

    /// Puts the key of a stanza under its version. One that stands there already stays. Where memory is refused every row
    /// is as before.
    pub fn put(&mut self, version: &Version, key: StanzaKey) -> Result<(), AllocError>
        ensures ok { OnOk result (HasPut version.now key self.old self.new) }
        ensures err { OnErr result (HasSame self.old self.new) }
    {
        put_in_form(self.alloc, &mut self.form, version, key)
    }

    /// Takes the key of a stanza out from under its version, and the row with the last of its keys. It takes no memory.
    pub fn take(&mut self, version: &Version, key: StanzaKey)
        ensures { HasTaken version.now key self.old self.new }
    {
        take_from_form(&mut self.form, version, key);
    }

    /// The form in which they are held.
    pub(crate) fn form(&self) -> &Form
        ensures rows { rows_of_form result.now ≡ self.now }
        ensures ordered { IsOrderedForm result.now }
    {
        order_of(&self.form);
        &self.form
    }

    /// Whether there is no row.
    pub fn is_empty(&self) -> bool
        ensures none { OnTrue result (newest_first self.now ≡ []) }
        ensures some { OnFalse result (newest_first self.now ≡ [] → ⊥) }
    {
        is_bare(self.form())
    }

    /// The rows, newest first: the keys of the stanzas of each.
    pub fn iter(&self) -> NewestFirst<'_>
        ensures { result ≡ map keys_of_row (newest_first self.now) }
    {
        NewestFirst::new(self.form())
    }

    /// Whether one of the rows has the key of a stanza of the list with this serial number.
    pub fn has_list(&self, list: u32) -> bool
        ensures { result ≡ has_list list self.now }
    {
        self.iter().any(|keys| are_any_of(keys, list))
    }

    /// The keys of the stanzas of a version, in order; none where there is no row of it.
    pub fn keys(&self, version: &Version) -> &[StanzaKey]
        ensures keys { result.now ≡ keys_at self.now version.now }
        ensures order { AreRising result.now }
    {
        keys_in_form(&self.form, version)
    }

    /// The lead of a version, if there is a row of it.
    pub fn lead(&self, version: &Version) -> Option<StanzaKey>
        ensures { result ≡ lead_at self.now version.now }
    {
        self.keys(version).first().copied()
    }
}

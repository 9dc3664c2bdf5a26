//! Looking for the fields of one stanza by their names.

ghost use Rattle.std.specs.Prelude.{◌≡◌, ◌∷◌, [], ℕ, List, OnOk, IfOk, option_map};
ghost use Rattle.std.specs.Option.{option_or};
ghost use Rattle.ctl_stanza.specs.Content.{body_of, named_bodies};
ghost use Rattle.ctl_filter.specs.Grep.{entry_among};
ghost use Rattle.ctl_filter.specs.Inside.Values.{lent_entry};
ghost use Rattle.ctl_filter.specs.Inside.FieldTable.{IsTableOf, entry_under};

use crate::searching::lowered;
use ctl_stanza::Stanza;
use std::alloc::{AllocError, Global};
use std::collections::BTreeMap;
use std::marker::Model;

/// The first field of a name, as the stanza spells it, and its body.
pub(crate) fn entry_named<'a>(stanza: &'a Stanza, name: &[u8]) -> Option<(&'a [u8], &'a [u8])>
    ensures { option_map lent_entry result ≡ entry_among name.now (named_bodies stanza.now) }
{
    'fields: for (spelled, body) in stanza.fields() {
        if spelled.eq_ignore_ascii_case(name) {
            return Some((spelled, body));
        }
    }
    None
}

/// The fields of a stanza under their names in small letters: of each name the first.
#[derive(Drop)]
struct FieldTable<'a> {
    fields: BTreeMap<Vec<u8>, (&'a [u8], &'a [u8])>,
}

// Puts a field under its name, unless one of that name stands there.
fn put_field<'a>(
    alloc: Global,
    fields: &mut BTreeMap<Vec<u8>, (&'a [u8], &'a [u8])>,
    spelled: &'a [u8],
    body: &'a [u8],
) -> Result<(), AllocError>
    ensures { OnOk result ((name : List ℕ) → entry_under name fields.new
        ≡ option_or (entry_under name fields.old) (entry_among name ((spelled.now, body.now) ∷ []))) }
{
    let name = lowered(alloc, spelled)?;
    if !fields.contains_key(name.as_slice()) {
        fields.insert(name, (spelled, body))?;
    }
    Ok(())
}

fn table_of<'a>(alloc: Global, stanza: &'a Stanza) -> Result<FieldTable<'a>, AllocError>
    ensures { IfOk result (λ table. IsTableOf table.fields (named_bodies stanza.now)) }
{
    let mut fields = BTreeMap::new(alloc);
    'fields: for (spelled, body) in stanza.fields() {
        put_field(alloc, &mut fields, spelled, body)?;
    }
    Ok(FieldTable { fields })
}

// How many fields are looked for in a stanza from which on a table of its fields pays.
const NAMES_FOR_A_TABLE: usize = 48;

/// What finds the fields of a stanza, seen as the stanza: where many are looked for, by a table.
#[derive(Drop)]
pub(crate) struct Finder<'a> {
    alloc: Global,
    stanza: &'a Stanza,
    table: Option<FieldTable<'a>>,
}

impl<'a> Model for Finder<'a> {
    ghost use Rattle.std.specs.Prelude.{IfSome};
    ghost use Rattle.ctl_stanza.specs.Content.{Content, named_bodies};
    ghost use Rattle.ctl_filter.specs.Inside.FieldTable.{IsTableOf};

    ghost Value = { Content };

    ghost view = { λ finder. finder.stanza.now };

    ghost invariant = { λ finder. IfSome finder.table (λ table. IsTableOf table.fields (named_bodies finder.stanza.now)) };
}

impl<'a> Finder<'a> {
    /// What finds so many fields of a stanza.
    pub(crate) fn new(
        alloc: Global,
        stanza: &'a Stanza,
        names: usize,
    ) -> Result<Finder<'a>, AllocError>
        ensures { IfOk result (λ finder. finder ≡ stanza.now) }
    {
        let table = if names < NAMES_FOR_A_TABLE {
            None
        } else {
            Some(table_of(alloc, stanza)?)
        };
        Ok(Finder {
            alloc,
            stanza,
            table,
        })
    }

    /// The stanza.
    pub(crate) fn stanza(&self) -> &'a Stanza
        ensures { result.now ≡ self.now }
    {
        self.stanza
    }

    /// The first field of a name, as the stanza spells it, and its body.
    pub(crate) fn entry(&self, name: &[u8]) -> Result<Option<(&'a [u8], &'a [u8])>, AllocError>
        ensures { IfOk result (λ entry. option_map lent_entry entry ≡ entry_among name.now (named_bodies self.now)) }
    {
        match &self.table {
            Some(table) => Ok(table.find(self.alloc, name)?),
            None => Ok(entry_named(self.stanza, name)),
        }
    }

    /// The body of the field of a name.
    #[tactic(auto, using(crate::proofs::FieldTableLemmas::body_among))]
    pub(crate) fn body(&self, name: &[u8]) -> Result<Option<&'a [u8]>, AllocError>
        ensures { IfOk result (λ body. option_map (λ body. body.now) body ≡ body_of self.now name.now) }
    {
        match &self.table {
            Some(table) => Ok(body_of_entry(table.find(self.alloc, name)?)),
            None => Ok(self.stanza.field(name)),
        }
    }
}

fn body_of_entry<'a>(entry: Option<(&'a [u8], &'a [u8])>) -> Option<&'a [u8]>
    ensures { option_map (λ body. body.now) result ≡ option_map (λ entry. entry.1) (option_map lent_entry entry.entry) }
{
    match entry {
        Some((_, body)) => Some(body),
        None => None,
    }
}

impl<'a> FieldTable<'a> {
    fn find(&self, alloc: Global, name: &[u8]) -> Result<Option<(&'a [u8], &'a [u8])>, AllocError>
        ensures { IfOk result (λ entry. option_map lent_entry entry ≡ entry_under name.now self.now.fields) }
    {
        let name = lowered(alloc, name)?;
        match self.fields.get(name.as_slice()) {
            Some(entry) => Ok(Some(*entry)),
            None => Ok(None),
        }
    }
}

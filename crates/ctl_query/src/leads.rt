//! The leads of rows, found in a store by their keys.

ghost use Rattle.std.specs.Prelude.{◌≡◌, ◌∷◌, [], IfSome, IfNone, flat_map, option_copied, option_map};
ghost use Rattle.std.specs.Option.{option_to_list};
ghost use Rattle.ctl_store.specs.Store.{keyed_of};
ghost use Rattle.ctl_policy.specs.Rows.{version_under};
ghost use Rattle.ctl_policy.specs.Priority.{world_of};
ghost use Rattle.ctl_query.specs.Leads.{keyed_lead, keyed_stanza, lent_lead};
ghost use Rattle.ctl_query.specs.Packages.{stanza_under, lead_in};

use ctl_policy::NewestFirst;
use ctl_relation::Version;
use ctl_stanza::Stanza;
use ctl_store::{StanzaKey, Store};
use std::marker::Model;

/// The stanza of a key, if there is one.
pub(crate) fn stanza_under(store: &Store, key: Option<StanzaKey>) -> Option<&Stanza>
    ensures { option_copied result ≡ stanza_under (world_of store.now) key }
{
    match key {
        Some(key) => store.find(key),
        None => None,
    }
}

/// The lead of a row, which has these stanzas.
pub(crate) fn lead_in<'a>(store: &'a Store, row: &[StanzaKey]) -> Option<&'a Stanza>
    ensures { option_copied result ≡ lead_in (world_of store.now) row.now }
{
    stanza_under(store, row.first().copied())
}

/// The version of the stanza of a key, if there is one.
pub(crate) fn version_under(store: &Store, key: Option<StanzaKey>) -> Option<&Version>
    ensures { option_copied result ≡ version_under (keyed_of store.now).lists key }
{
    match key {
        Some(key) => match store.find(key) {
            Some(stanza) => stanza.version(),
            None => None,
        },
        None => None,
    }
}

// ---- of rows, one after another

/// The stanza of a key under it, if there is one.
pub(crate) fn keyed_stanza(store: &Store, key: StanzaKey) -> Option<(StanzaKey, &Stanza)>
    ensures { option_to_list (option_map lent_lead result) ≡ keyed_stanza (world_of store.now) key }
{
    match store.find(key) {
        Some(stanza) => Some((key, stanza)),
        None => None,
    }
}

// The lead of a row, which has these stanzas, under its key.
fn keyed_lead<'a>(store: &'a Store, row: &[StanzaKey]) -> Option<(StanzaKey, &'a Stanza)>
    ensures { option_to_list (option_map lent_lead result) ≡ keyed_lead (world_of store.now) row.now }
{
    match row.first() {
        Some(key) => keyed_stanza(store, *key),
        None => None,
    }
}

// The first lead that rows have; behind it those rows are left that follow its own.
fn next_lead<'a>(store: &'a Store, rows: &mut NewestFirst<'a>) -> Option<(StanzaKey, &'a Stanza)>
    ensures some { IfSome result (λ lead. flat_map (keyed_lead (world_of store.now)) rows.old
        ≡ lent_lead lead ∷ flat_map (keyed_lead (world_of store.now)) rows.new) }
    ensures none { IfNone result (flat_map (keyed_lead (world_of store.now)) rows.old ≡ []) }
    ensures ended { IfNone result (flat_map (keyed_lead (world_of store.now)) rows.new ≡ []) }
{
    'rows: while let Some(row) = rows.next() {
        if let Some(lead) = keyed_lead(store, row) {
            return Some(lead);
        }
    }
    None
}

/// The leads of rows, each under its key, in the order of the rows.
#[derive(Drop)]
pub(crate) struct Leads<'a> {
    store: &'a Store,
    // The rows that are left.
    rows: NewestFirst<'a>,
}

impl<'a> Model for Leads<'a> {
    ghost use Rattle.std.specs.Prelude.{List, flat_map};
    ghost use Rattle.ctl_store.specs.Entries.{Entry};
    ghost use Rattle.ctl_policy.specs.Priority.{world_of};
    ghost use Rattle.ctl_query.specs.Leads.{keyed_lead};

    ghost Value = { List Entry };

    ghost view = { λ it. flat_map (keyed_lead (world_of it.store.now)) it.rows };
}

impl<'a> Leads<'a> {
    /// The leads of these rows.
    pub(crate) fn new(store: &'a Store, rows: NewestFirst<'a>) -> Leads<'a>
        ensures { result ≡ flat_map (keyed_lead (world_of store.now)) rows.entry }
    {
        Leads { store, rows }
    }
}

impl<'a> Iterator for Leads<'a> {
    ghost use Rattle.std.specs.Iterator.{YieldsFirstBy, item_count};

    ghost next_gives = { YieldsFirstBy (λ item. (item.0, item.1.now)) (λ rest. rest) };

    ghost remaining = { item_count (λ rest. rest) };

    type Item = (StanzaKey, &'a Stanza);

    fn next(&mut self) -> Option<(StanzaKey, &'a Stanza)> {
        next_lead(self.store, &mut self.rows)
    }
}

//! The rows of all names, lent in order.

ghost use Rattle.std.specs.Prelude.{◌≡◌, ℕ, List, false, map};
ghost use Rattle.std.specs.List.{AllByRecursion};
ghost use Rattle.ctl_store.specs.Keys.{AreHeld};
ghost use Rattle.ctl_store.specs.Store.{keyed_of, state_of};
ghost use Rattle.ctl_policy.specs.Rows.{rows_named, newest_first, keys_of_row};
ghost use Rattle.ctl_index.specs.Names.{known_names};
ghost use Rattle.ctl_index.specs.Work.{stanzas_of_state};

use crate::cache::Cache;
use crate::name_entries::NameEntries;
use crate::rows::rows_are_defined;
use ctl_policy::{NewestFirst, rows_are_held, rows_are_shown};
use std::marker::Model;

/// The rows of each known name, by [`Cache::all_rows`], in the order of the names.
#[derive(Drop)]
pub struct AllRows<'a> {
    // What is left of the names, with what stands under them.
    entries: NameEntries<'a>,
}

impl<'a> Model for AllRows<'a> {
    ghost use Rattle.std.specs.Prelude.{List, map};
    ghost use Rattle.ctl_store.specs.declared.stanza_key.StanzaKey.{StanzaKey};
    ghost use Rattle.ctl_index.specs.Inside.TablesViews.{entry_rows};

    ghost Value = { List (List (List StanzaKey)) };

    ghost view = { λ it. map entry_rows it.entries };
}

impl<'a> Iterator for AllRows<'a> {
    ghost use Rattle.std.specs.Iterator.{YieldsFirst, item_count};

    ghost next_gives = { YieldsFirst (λ rest. rest) };

    ghost remaining = { item_count (λ rest. rest) };

    type Item = NewestFirst<'a>;

    fn next(&mut self) -> Option<NewestFirst<'a>> {
        match self.entries.next() {
            Some((_, named)) => Some(named.own.rows.iter()),
            None => None,
        }
    }
}

impl Cache {
    /// The rows of each known name, newest first, in the order of the names. A name without a row has none.
    pub fn all_rows(&self) -> AllRows<'_>
        requires { self.now.stale ≡ false }
        ensures rows { result ≡ map (λ (name : List ℕ). map keys_of_row (newest_first (rows_named name
            (keyed_of self.now.store).lists))) (known_names (stanzas_of_state (state_of self.now.store))) }
        ensures held { AllByRecursion (λ rows. AllByRecursion (λ row. AreHeld row (keyed_of self.now.store).lists) rows) result }
    {
        rows_are_defined();
        rows_are_shown();
        rows_are_held();
        // That the keys rise is said here.
        let _counts = self.store.counts();
        AllRows {
            entries: self.tables.names.entries(),
        }
    }
}

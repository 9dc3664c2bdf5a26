//! All stanzas of a store, lent in order without their keys.

ghost use Rattle.std.specs.Prelude.{◌≡◌, ◌<◌, ◌^◌, length};
ghost use Rattle.ctl_store.specs.Entries.{stanzas_in_order};
ghost use Rattle.ctl_store.specs.Store.{state_of};

use ctl_stanza::Stanza;
use ctl_store::{Entries, Store};
use std::marker::Model;

/// All stanzas of a store, in order.
#[derive(Drop)]
pub(crate) struct Stanzas<'a> {
    entries: Entries<'a>,
}

impl<'a> Model for Stanzas<'a> {
    ghost use Rattle.std.specs.Prelude.{List};
    ghost use Rattle.ctl_stanza.specs.Content.{Content};
    ghost use Rattle.ctl_filter.specs.Inside.Values.{without_keys};

    ghost Value = { List Content };

    ghost view = { λ it. without_keys it.entries };
}

// How many they are.
#[tactic(auto, using(crate::proofs::StanzaLemmas::stanzas_counted))]
fn stanza_count(store: &Store) -> u32
    ensures { result ≡ length (stanzas_in_order (state_of store.now).lists) }
{
    store.counts().stanzas
}

/// All stanzas of a store, list by list, live or not.
#[tactic(auto, using(crate::proofs::StanzaLemmas::plain_entries))]
pub(crate) fn stanzas_of(store: &Store) -> Stanzas<'_>
    ensures stanzas { result ≡ stanzas_in_order (state_of store.now).lists }
    ensures few { length result < 2 ^ 32 }
{
    // That they are fewer than 2^32 is said here.
    let _count = stanza_count(store);
    Stanzas {
        entries: store.entries(),
    }
}

impl<'a> Iterator for Stanzas<'a> {
    ghost use Rattle.std.specs.Iterator.{YieldsFirstRef, item_count};

    ghost next_gives = { YieldsFirstRef (λ rest. rest) };

    ghost remaining = { item_count (λ rest. rest) };

    type Item = &'a Stanza;

    fn next(&mut self) -> Option<&'a Stanza> {
        let (_, stanza) = self.entries.next()?;
        Some(stanza)
    }
}

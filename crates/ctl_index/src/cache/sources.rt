//! The sources of a row.

ghost use Rattle.std.specs.Prelude.{◌≡◌, ◌∷◌, [], IfSome, IfNone};
ghost use Rattle.ctl_store.specs.Keys.{AreHeld};
ghost use Rattle.ctl_store.specs.Store.{keyed_of};
ghost use Rattle.ctl_policy.specs.Rows.{sources_of};
ghost use Rattle.ctl_index.specs.RowsTold.{sources_among};

use ctl_policy::is_source;
use ctl_store::{Lists, StanzaKey, Store};
use std::marker::Model;

/// The names of the lists that hold a stanza of a row, by [`Cache::sources`](crate::Cache::sources), in the order of lists.
#[derive(Drop)]
pub struct Sources<'a> {
    store: &'a Store,
    keys: &'a [StanzaKey],
    lists: Lists<'a>,
}

impl<'a> Model for Sources<'a> {
    ghost use Rattle.std.specs.Prelude.{ℕ, List};
    ghost use Rattle.ctl_store.specs.Keys.{AreHeld};
    ghost use Rattle.ctl_store.specs.Store.{keyed_of};
    ghost use Rattle.ctl_index.specs.RowsTold.{sources_among};

    ghost Value = { List (List ℕ) };

    ghost view = { λ it. sources_among it.keys.now (keyed_of it.store.now).lists it.lists };

    ghost invariant = { λ it. AreHeld it.keys.now (keyed_of it.store.now).lists };
}

impl<'a> Sources<'a> {
    /// The sources of a row of these stanzas.
    pub(crate) fn new(store: &'a Store, keys: &'a [StanzaKey]) -> Sources<'a>
        requires { AreHeld keys.now (keyed_of store.now).lists }
        ensures { result ≡ sources_of keys.now (keyed_of store.now).lists }
    {
        Sources {
            store,
            keys,
            lists: store.lists(),
        }
    }
}

// The next list that holds one of these stanzas.
fn next_source<'a>(
    store: &'a Store,
    keys: &'a [StanzaKey],
    lists: &mut Lists<'a>,
) -> Option<&'a [u8]>
    requires { AreHeld keys.now (keyed_of store.now).lists }
    ensures some { IfSome result (λ list. sources_among keys.now (keyed_of store.now).lists lists.old
        ≡ list.now ∷ sources_among keys.now (keyed_of store.now).lists lists.new) }
    ensures none { IfNone result (sources_among keys.now (keyed_of store.now).lists lists.old ≡ []) }
    ensures ended { IfNone result (lists.new ≡ []) }
{
    'lists: while let Some((list, _, _)) = lists.next() {
        if is_source(store, list, keys) {
            return Some(list);
        }
    }
    None
}

impl<'a> Iterator for Sources<'a> {
    ghost use Rattle.std.specs.Iterator.{YieldsFirstBy, item_count};

    ghost next_gives = { YieldsFirstBy (λ item. item.now) (λ rest. rest) };

    ghost remaining = { item_count (λ rest. rest) };

    type Item = &'a [u8];

    fn next(&mut self) -> Option<&'a [u8]> {
        next_source(self.store, self.keys, &mut self.lists)
    }
}

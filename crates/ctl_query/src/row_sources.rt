//! The lists that hold a row, by the keys of its stanzas.

ghost use Rattle.std.specs.Prelude.{◌≡◌, ◌∷◌, [], Some, IfSome, IfNone, option_copied};
ghost use Rattle.ctl_store.specs.Store.{keyed_of};
ghost use Rattle.ctl_store.specs.Keys.{AreHeld, AreRising};
ghost use Rattle.ctl_policy.specs.Rows.{is_called, sources_of};
ghost use Rattle.ctl_query.specs.Inside.RowSources.{holders_behind};

use ctl_store::{StanzaKey, Store};
use std::marker::Model;

/// The names of the lists that hold a stanza of a row, in the order of lists. Its keys stand in that order, so that each list
/// follows the one of the key before, and no other list is looked at.
#[derive(Drop)]
pub(crate) struct RowSources<'a> {
    store: &'a Store,
    // The keys that are left, and the list of those before them.
    keys: &'a [StanzaKey],
    last: Option<&'a [u8]>,
}

impl<'a> Model for RowSources<'a> {
    ghost use Rattle.std.specs.Prelude.{ℕ, List, option_copied};
    ghost use Rattle.ctl_store.specs.Store.{keyed_of};
    ghost use Rattle.ctl_store.specs.Keys.{AreHeld};
    ghost use Rattle.ctl_query.specs.Inside.RowSources.{holders_behind};

    ghost Value = { List (List ℕ) };

    ghost view = { λ it. holders_behind (keyed_of it.store.now).lists (option_copied it.last) it.keys.now };

    ghost invariant = { λ it. AreHeld it.keys.now (keyed_of it.store.now).lists };
}

/// A list, and the keys that are left behind the first of its own.
#[derive(Drop)]
struct NextList<'a> {
    list: &'a [u8],
    behind: &'a [StanzaKey],
}

// Whether the last list, if there is one, has this name.
fn is_called(list: &[u8], last: Option<&[u8]>) -> bool
    ensures { result ≡ is_called list.now (option_copied last.entry) }
{
    match last {
        Some(last) => last == list,
        None => false,
    }
}

// The first list of these keys that isn't the last one.
fn next_list<'a>(
    store: &'a Store,
    keys: &'a [StanzaKey],
    last: Option<&[u8]>,
) -> Option<NextList<'a>>
    requires { AreHeld keys.now (keyed_of store.now).lists }
    ensures some { IfSome result (λ next. holders_behind (keyed_of store.now).lists (option_copied last.entry) keys.now
        ≡ next.list.now ∷ holders_behind (keyed_of store.now).lists (Some next.list.now) next.behind.now) }
    ensures held { IfSome result (λ next. AreHeld next.behind.now (keyed_of store.now).lists) }
    ensures none { IfNone result (holders_behind (keyed_of store.now).lists (option_copied last.entry) keys.now ≡ []) }
{
    let mut left = keys;
    'keys: while let Some((key, behind)) = left.split_first() {
        let list = store.list_of(*key);
        if !is_called(list, last) {
            return Some(NextList { list, behind });
        }
        left = behind;
    }
    None
}

impl<'a> RowSources<'a> {
    /// The sources of a row, which has these stanzas.
    pub(crate) fn new(store: &'a Store, row: &'a [StanzaKey]) -> RowSources<'a>
        requires held { AreHeld row.now (keyed_of store.now).lists }
        requires rising { AreRising row.now }
        ensures { result ≡ sources_of row.now (keyed_of store.now).lists }
    {
        // That all keys rise, and that no name stands twice among the lists, is said here.
        let _counts = store.counts();
        let _lists = store.lists();
        RowSources {
            store,
            keys: row,
            last: None,
        }
    }
}

impl<'a> Iterator for RowSources<'a> {
    ghost use Rattle.std.specs.Iterator.{YieldsFirstBy, item_count};

    ghost next_gives = { YieldsFirstBy (λ item. item.now) (λ rest. rest) };

    ghost remaining = { item_count (λ rest. rest) };

    type Item = &'a [u8];

    fn next(&mut self) -> Option<&'a [u8]> {
        match next_list(self.store, self.keys, self.last) {
            Some(next) => {
                self.keys = next.behind;
                self.last = Some(next.list);
                Some(next.list)
            }
            None => {
                self.keys = &[];
                None
            }
        }
    }
}

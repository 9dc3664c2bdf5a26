//! The stanzas of a store with their keys, lent in order.

ghost use Rattle.std.specs.Prelude.{◌≡◌, ◌++◌, ◌∷◌, IfSome, IfNone, []};
ghost use Rattle.ctl_store.specs.Inside.HeldPieces.{joined, ArePieces};
ghost use Rattle.ctl_store.specs.Entries.{slots_under, entries_of, entry_keys};
ghost use Rattle.ctl_store.specs.Store.{lists_of};

use crate::held_list::HeldList;
use crate::slots::Slot;
use crate::stanza_key::StanzaKey;
use ctl_relation::Bytes;
use ctl_stanza::Stanza;
use std::marker::Model;

/// The stanzas of a list with their keys, in order.
#[derive(Drop)]
pub(crate) struct ListEntries<'a> {
    list: u32,
    // What is left of a piece, and the pieces after it.
    slots: &'a [Slot],
    pieces: &'a [Vec<Slot>],
}

impl<'a> Model for ListEntries<'a> {
    ghost use Rattle.std.specs.Prelude.{List, ◌++◌};
    ghost use Rattle.ctl_store.specs.Inside.HeldPieces.{joined, ArePieces};
    ghost use Rattle.ctl_store.specs.Entries.{Entry, slots_under};

    ghost Value = { List Entry };

    ghost view = { λ it. slots_under it.list (it.slots.now ++ joined it.pieces.now) };

    ghost invariant = { λ it. ArePieces it.pieces.now };
}

impl<'a> ListEntries<'a> {
    /// The slots in pieces of a list of this serial.
    pub(crate) fn new(list: u32, pieces: &'a [Vec<Slot>]) -> ListEntries<'a>
        requires { ArePieces pieces.now }
        ensures { result ≡ slots_under list (joined pieces.now) }
    {
        ListEntries {
            list,
            slots: &[],
            pieces,
        }
    }
}

impl<'a> Iterator for ListEntries<'a> {
    ghost use Rattle.std.specs.Iterator.{YieldsFirstBy, item_count};

    ghost next_gives = { YieldsFirstBy (λ item. (item.0, item.1.now)) (λ rest. rest) };

    ghost remaining = { item_count (λ rest. rest) };

    type Item = (StanzaKey, &'a Stanza);

    fn next(&mut self) -> Option<(StanzaKey, &'a Stanza)> {
        if self.slots.is_empty() {
            let (piece, pieces) = self.pieces.split_first()?;
            self.slots = piece;
            self.pieces = pieces;
        }
        let (slot, rest) = self.slots.split_first()?;
        self.slots = rest;
        let key = StanzaKey {
            list: self.list,
            stanza: slot.serial(),
        };
        Some((key, slot.stanza()))
    }
}

/// All stanzas of a store with their keys, by [`Store::entries`](crate::Store::entries), in order.
#[derive(Drop)]
pub struct Entries<'a> {
    // What is left of a list, and the lists after it.
    entries: ListEntries<'a>,
    lists: ctl_ordered::Entries<'a, Bytes, HeldList>,
}

impl<'a> Model for Entries<'a> {
    ghost use Rattle.std.specs.Prelude.{List, map, ◌++◌};
    ghost use Rattle.ctl_store.specs.Entries.{Entry, entries_of};
    ghost use Rattle.ctl_store.specs.Store.{lists_of};

    ghost Value = { List Entry };

    ghost view = { λ it. it.entries ++ entries_of (lists_of it.lists) };
}

impl<'a> Entries<'a> {
    /// Those of these lists.
    pub(super) fn new(lists: ctl_ordered::Entries<'a, Bytes, HeldList>) -> Entries<'a>
        ensures { result ≡ entries_of (lists_of lists.entry) }
    {
        Entries {
            entries: ListEntries::new(0, &[]),
            lists,
        }
    }
}

// Takes the first stanza of some lists. What is left of its list takes the place of no stanzas.
fn take_first<'a>(
    entries: &mut ListEntries<'a>,
    lists: &mut ctl_ordered::Entries<'a, Bytes, HeldList>,
) -> Option<(StanzaKey, &'a Stanza)>
    requires { entries.old ≡ [] }
    ensures some { IfSome result (λ e. entries_of (lists_of lists.old)
        ≡ (e.0, e.1.now) ∷ (entries.new ++ entries_of (lists_of lists.new))) }
    ensures none { IfNone result (entries_of (lists_of lists.old) ≡ []) }
    ensures ended { IfNone result (entries.new ++ entries_of (lists_of lists.new) ≡ []) }
{
    'lists: while let Some((_, list)) = lists.next() {
        *entries = list.entries();
        match entries.next() {
            Some(entry) => return Some(entry),
            None => {}
        }
    }
    None
}

impl<'a> Iterator for Entries<'a> {
    ghost use Rattle.std.specs.Iterator.{YieldsFirstBy, item_count};

    ghost next_gives = { YieldsFirstBy (λ item. (item.0, item.1.now)) (λ rest. rest) };

    ghost remaining = { item_count (λ rest. rest) };

    type Item = (StanzaKey, &'a Stanza);

    fn next(&mut self) -> Option<(StanzaKey, &'a Stanza)> {
        match self.entries.next() {
            Some(entry) => Some(entry),
            None => take_first(&mut self.entries, &mut self.lists),
        }
    }
}

/// The keys of stanzas, by [`Store::keys`](crate::Store::keys) or [`Store::stanzas`](crate::Store::stanzas), in order.
#[derive(Drop)]
pub struct Keys<'a> {
    entries: Entries<'a>,
}

impl<'a> Model for Keys<'a> {
    ghost use Rattle.std.specs.Prelude.{List};
    ghost use Rattle.ctl_store.specs.declared.stanza_key.StanzaKey.{StanzaKey};
    ghost use Rattle.ctl_store.specs.Entries.{entry_keys};

    ghost Value = { List StanzaKey };

    ghost view = { λ it. entry_keys it.entries };
}

impl<'a> Keys<'a> {
    /// The keys of these stanzas.
    pub(super) fn new(entries: Entries<'a>) -> Keys<'a>
        ensures { result ≡ entry_keys entries.entry }
    {
        Keys { entries }
    }

    /// The keys of these stanzas of a list.
    pub(crate) fn of_list(entries: ListEntries<'a>) -> Keys<'a>
        ensures { result ≡ entry_keys entries.entry }
    {
        Keys::new(Entries {
            entries,
            lists: ctl_ordered::Entries::none(),
        })
    }
}

impl<'a> Iterator for Keys<'a> {
    ghost use Rattle.std.specs.Iterator.{YieldsFirst, item_count};

    ghost next_gives = { YieldsFirst (λ rest. rest) };

    ghost remaining = { item_count (λ rest. rest) };

    type Item = StanzaKey;

    fn next(&mut self) -> Option<StanzaKey> {
        let (next_key, _) = self.entries.next()?;
        Some(next_key)
    }
}

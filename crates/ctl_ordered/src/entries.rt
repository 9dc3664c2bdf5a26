//! The entries of an ordered map, lent or given back.

ghost use Rattle.std.specs.Prelude.{◌≡◌, []};

use crate::slot::Slot;
use indexmap::map::{IntoIter, Slice};
use std::marker::Model;

/// The entries of an [`Ordered`](crate::Ordered), in the order in which their keys were first set.
#[derive(Drop)]
pub struct Entries<'a, K, V> {
    pub(crate) slots: Slice<'a, u64, Slot<K, V>>,
}

impl<'a, K, V> Model for Entries<'a, K, V> {
    ghost use Rattle.std.specs.Prelude.{List};
    ghost use Rattle.ctl_ordered.specs.Slots.{entries_of};

    ghost Value = { List (K × V) };

    ghost view = { λ it. entries_of it.slots };
}

impl<'a, K, V> Entries<'a, K, V> {
    /// No entries.
    pub fn none() -> Entries<'a, K, V>
        ensures { result ≡ [] }
    {
        Entries {
            slots: Slice::new(),
        }
    }
}

impl<'a, K, V> Iterator for Entries<'a, K, V> {
    ghost use Rattle.std.specs.Iterator.{YieldsFirstBy, item_count};

    ghost next_gives = { YieldsFirstBy (λ item. (item.0.now, item.1.now)) (λ rest. rest) };

    ghost remaining = { item_count (λ rest. rest) };

    type Item = (&'a K, &'a V);

    fn next(&mut self) -> Option<(&'a K, &'a V)> {
        'skip: while let Some(((_, slot), rest)) = self.slots.split_first() {
            self.slots = rest;
            if let Some(entry) = slot.entry() {
                return Some(entry);
            }
        }
        None
    }
}

/// The entries of an [`Ordered`](crate::Ordered) that is given up, in the order in which their keys were first set.
#[derive(Drop)]
pub struct IntoEntries<K, V> {
    pub(crate) slots: IntoIter<u64, Slot<K, V>>,
}

impl<K, V> Model for IntoEntries<K, V> {
    ghost use Rattle.std.specs.Prelude.{List};
    ghost use Rattle.ctl_ordered.specs.Slots.{entries_of};

    ghost Value = { List (K × V) };

    ghost view = { λ it. entries_of it.slots };
}

impl<K: Drop, V: Drop> Iterator for IntoEntries<K, V> {
    ghost use Rattle.std.specs.Iterator.{YieldsFirst, item_count};

    ghost next_gives = { YieldsFirst (λ rest. rest) };

    ghost remaining = { item_count (λ rest. rest) };

    type Item = (K, V);

    fn next(&mut self) -> Option<(K, V)> {
        'skip: while let Some((_, slot)) = self.slots.next() {
            if let Slot::Entry(key, value) = slot {
                return Some((key, value));
            }
        }
        None
    }
}

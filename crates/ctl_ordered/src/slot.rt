//! Slots, in which entries stand.

ghost use Rattle.std.specs.Prelude.{◌≡◌, option_copied};
ghost use Rattle.std.specs.Borrow.{sem};
ghost use Rattle.std.specs.Option.{option_map, option_copied_mut};

use crate::wanted::Wanted;
use std::cmp::Ordering;

/// An entry, or the hole that one left.
#[derive(Drop)]
pub(crate) enum Slot<K, V> {
    Entry(K, V),
    Hole,
}

impl<K, V> Slot<K, V> {
    ghost use Rattle.ctl_ordered.specs.SlotLends.{LendsEntry};
    ghost use Rattle.ctl_ordered.specs.Slots.{entry_of, value_of, is_entry};

    pub(crate) fn is_entry(&self) -> bool
        ensures { result ≡ is_entry self.now }
    {
        match self {
            Slot::Entry(_, _) => true,
            Slot::Hole => false,
        }
    }

    pub(crate) fn entry(&self) -> Option<(&K, &V)>
        ensures { option_map (λ e. (e.0.now, e.1.now)) result ≡ entry_of self.now }
    {
        match self {
            Slot::Entry(key, value) => Some((key, value)),
            Slot::Hole => None,
        }
    }

    pub(crate) fn value(&self) -> Option<&V>
        ensures { option_copied result ≡ value_of self.now }
    {
        match self {
            Slot::Entry(_, value) => Some(value),
            Slot::Hole => None,
        }
    }

    pub(crate) fn value_mut(&mut self) -> Option<&mut V>
        ensures* writes_back { sem 𝓛 (LendsEntry K.row V.row self.entry result) }
        ensures value { option_copied_mut result ≡ value_of self.old }
    {
        match self {
            Slot::Entry(_, value) => Some(value),
            Slot::Hole => None,
        }
    }
}

impl<K: Ord, V> Slot<K, V> {
    ghost use Rattle.ctl_ordered.specs.Ordered.{slot_cmp};

    /// How the key stands to the one that is wanted. A hole stands before each.
    pub(crate) fn order_of<Q: Wanted<K>>(&self, wanted: Q) -> Ordering
        ensures { result ≡ slot_cmp K.cmp self.now (Q.wanted wanted) }
    {
        match self {
            Slot::Entry(key, _) => wanted.order_of(key),
            Slot::Hole => Ordering::Less,
        }
    }
}

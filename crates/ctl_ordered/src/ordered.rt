//! Maps in the order of insertion.

ghost use Rattle.std.specs.Prelude.{◌≡◌, ◌<◌, ◌+◌, ◌^◌, ◌++◌, ◌∷◌, [], None, OnOk, length, option_copied, option_map, nat_eq, filter};
ghost use Rattle.std.specs.Borrow.{sem};
ghost use Rattle.std.specs.Option.{option_copied_mut};
ghost use Rattle.std.specs.List.{IsDistinct};
ghost use Rattle.std.specs.Map.{keys_of, lookup, set_value};
ghost use Rattle.indexmap.specs.IndexMap.{insert_entry, shift_remove_entry};
ghost use Rattle.ctl_ordered.specs.declared.slot.Slot.TheVariants.{Hole};
ghost use Rattle.ctl_ordered.specs.Slots.{is_entry};
ghost use Rattle.ctl_ordered.specs.Ordered.{cut_filled, entries, next_put, filled_serial, filled_put};

use crate::entries::{Entries, IntoEntries};
use crate::search::{end_below, look_up};
use crate::slot::Slot;
use crate::wanted::Wanted;
use indexmap::IndexMap;
use std::alloc::{AllocError, Global};
use std::collections::VecDeque;
use std::marker::Model;

// With fewer slots than so many, no room is kept for more.
const FEW: usize = 8;

/// Values by key, in the order in which the keys were first set. No key stands twice.
///
/// A key is found in the log of their number. What comes or goes moves the serials on that side of it in the order where there
/// are fewer, eight bytes each, and no entry. An entry that goes leaves a hole, and the holes go once they are more than the
/// entries. No hash of a key is taken, so that no choice of keys makes a search long.
///
/// Each entry has a serial number. It keeps it, and none is given twice, so that who keeps the serial of an entry finds it
/// with no search for its key.
///
/// A contract sees the entries in order under their serials, the next serial, and the room: how many more go in with no
/// memory.
#[derive(Drop)]
pub struct Ordered<K: Ord, V> {
    slots: IndexMap<u64, Slot<K, V>>,
    // The serials of the entries in the order of their keys.
    order: VecDeque<u64>,
    next: u64,
}

impl<K: Ord, V> Model for Ordered<K, V> {
    ghost use Rattle.std.specs.Prelude.{◌-◌};
    ghost use Rattle.std.specs.VecDeque.{deque_capacity, deque_len};
    ghost use Rattle.indexmap.specs.IndexMap.{spare};
    ghost use Rattle.ctl_ordered.specs.Slots.{filled_of};
    ghost use Rattle.ctl_ordered.specs.Ordered.{room_of, OrderedEntries, IsOrdered};

    ghost Value = { OrderedEntries K V };

    ghost view = { λ o. record {
      filled = filled_of o.slots.entries;
      next = o.next;
      room = room_of (spare o.slots) (deque_capacity o.order - deque_len o.order) o.next;
    } };

    ghost invariant = { λ o. IsOrdered K.eq K.cmp o.slots.entries o.order.items o.next };
}

impl<K: Ord + Drop, V: Drop> Ordered<K, V> {
    ghost use Rattle.ctl_ordered.specs.Lends.{LendsValue};

    /// No entries. It takes no memory.
    pub fn new(alloc: Global) -> Self
        ensures filled { result.filled ≡ [] }
        ensures next { result.next ≡ 0 }
    {
        Ordered {
            slots: IndexMap::new(alloc),
            order: VecDeque::new(alloc),
            next: 0,
        }
    }

    /// Makes room for one entry more, while a serial is left: fewer than 2⁶⁴ - 1 new keys were put.
    pub fn reserve_one(&mut self) -> Result<(), AllocError>
        requires { self.old.next + 1 < 2 ^ 64 }
        ensures filled { self.new.filled ≡ self.old.filled }
        ensures next { self.new.next ≡ self.old.next }
        ensures ok { OnOk result (0 < self.new.room) }
    {
        self.slots.reserve(1)?;
        self.order.reserve(1)
    }

    /// The value of a key.
    pub fn get<Q: Wanted<K>>(&self, wanted: Q) -> Option<&V>
        ensures { option_copied result ≡ lookup (K.eq (Q.wanted wanted)) (entries self.now) }
    {
        match look_up(&self.slots, &self.order, wanted) {
            (_, Some(serial)) => match self.slots.get(&serial) {
                Some(slot) => slot.value(),
                None => None,
            },
            (_, None) => None,
        }
    }

    /// The serial of a key.
    pub fn serial_of<Q: Wanted<K>>(&self, wanted: Q) -> Option<u64>
        ensures { result ≡ filled_serial (K.eq (Q.wanted wanted)) self.now.filled }
    {
        let (_, serial) = look_up(&self.slots, &self.order, wanted);
        serial
    }

    /// The serial that the next new key is given.
    pub fn next_serial(&self) -> u64
        ensures { result ≡ self.now.next }
    {
        self.next
    }

    /// The entry of a serial.
    pub fn at(&self, serial: u64) -> Option<(&K, &V)>
        ensures { option_map (λ entry. (entry.0.now, entry.1.now)) result ≡ lookup (nat_eq serial) self.now.filled }
    {
        match self.slots.get(&serial) {
            Some(slot) => slot.entry(),
            None => None,
        }
    }

    /// The value of a key, to be changed in its place.
    pub fn get_mut<Q: Wanted<K>>(&mut self, wanted: Q) -> Option<&mut V>
        ensures* writes_back { sem 𝓛 (LendsValue K.row V.row K.Ord self.entry (K.eq (Q.wanted wanted)) result) }
        ensures value { option_copied_mut result ≡ lookup (K.eq (Q.wanted wanted)) (entries self.old) }
    {
        match look_up(&self.slots, &self.order, wanted) {
            (_, Some(serial)) => match self.slots.get_mut(&serial) {
                Some(slot) => slot.value_mut(),
                None => None,
            },
            (_, None) => None,
        }
    }

    /// The entries, in order.
    pub fn iter(&self) -> Entries<'_, K, V>
        ensures entries { result ≡ entries self.now }
        ensures each_once { IsDistinct K.eq (keys_of (entries self.now)) }
        ensures few { length (entries self.now) < 2 ^ 63 }
    {
        Entries {
            slots: self.slots.as_slice(),
        }
    }

    /// The entries, in order, which are given back.
    pub fn into_entries(self) -> IntoEntries<K, V>
        ensures { result ≡ entries self }
    {
        let Ordered { slots, .. } = self;
        IntoEntries {
            slots: slots.into_iter(),
        }
    }

    // A new entry goes last.
    fn push(&mut self, key: K, value: V)
        requires room { 0 < self.old.room }
        requires new { lookup (K.eq key) (entries self.old) ≡ None }
        ensures entries { entries self.new ≡ insert_entry K.eq (entries self.old) key value }
        ensures filled { self.new.filled ≡ self.old.filled ++ (self.old.next, (key, value)) ∷ [] }
        ensures next { self.new.next ≡ self.old.next + 1 }
    {
        let serial = self.next;
        let at = end_below(&self.slots, &self.order, &key);
        match self.order.insert(at, serial) {
            Ok(_) => {}
            Err(_) => unreachable!(),
        }
        match self.slots.insert(serial, Slot::Entry(key, value)) {
            Ok(_) => {}
            Err(_) => unreachable!(),
        }
        trim(&mut self.slots);
        self.next += 1;
    }

    /// Sets a key's value, in the room that [`reserve_one`](Ordered::reserve_one) made. A key that is there keeps its place,
    /// and a new one goes last.
    pub fn put(&mut self, key: K, value: V)
        requires { 0 < self.old.room }
        ensures entries { entries self.new ≡ insert_entry K.eq (entries self.old) key value }
        // a key that is there keeps its serial
        ensures filled { self.new.filled ≡ filled_put (lookup (K.eq key) (entries self.old)) (K.eq key) self.old key value }
        ensures next { self.new.next ≡ next_put (lookup (K.eq key) (entries self.old)) self.old }
    {
        match self.get_mut(&key) {
            Some(place) => {
                *place = value;
            }
            None => self.push(key, value),
        }
    }

    /// Takes an entry out, if it is there. The others keep their order.
    pub fn remove<Q: Wanted<K>>(&mut self, wanted: Q)
        ensures entries { entries self.new ≡ shift_remove_entry (K.eq (Q.wanted wanted)) (entries self.old) }
        ensures filled { self.new.filled ≡ cut_filled (K.eq (Q.wanted wanted)) self.old.filled }
        ensures next { self.new.next ≡ self.old.next }
        // no key stood twice, so that none like it is left
        ensures each_once { IsDistinct K.eq (keys_of (entries self.old)) }
    {
        match look_up(&self.slots, &self.order, wanted) {
            (at, Some(serial)) => {
                self.order.remove(at);
                empty_slot(&mut self.slots, serial);
                self.squeeze();
            }
            (_, None) => {}
        }
    }

    // The holes go once they are more than the entries.
    fn squeeze(&mut self)
        ensures filled { self.new.filled ≡ self.old.filled }
        ensures next { self.new.next ≡ self.old.next }
    {
        if self.slots.len() / 2 > self.order.len() {
            drop_holes(&mut self.slots);
        }
    }
}

// Gives back the room for more of a map of few slots, which makes room for seven at once.
fn trim<K: Drop, V: Drop>(slots: &mut IndexMap<u64, Slot<K, V>>)
    ensures { slots.new.entries ≡ slots.old.entries }
{
    if slots.len() < FEW {
        slots.shrink_to_fit();
    }
}

// The slot of a serial is a hole from now on.
fn empty_slot<K: Drop, V: Drop>(slots: &mut IndexMap<u64, Slot<K, V>>, serial: u64)
    ensures { slots.new.entries ≡ set_value (nat_eq serial) slots.old.entries Hole }
{
    match slots.get_mut(&serial) {
        Some(slot) => {
            *slot = Slot::Hole;
        }
        None => {}
    }
}

// The holes go.
fn drop_holes<K: Drop, V: Drop>(slots: &mut IndexMap<u64, Slot<K, V>>)
    ensures { slots.new.entries ≡ filter (λ slot. is_entry slot.1) slots.old.entries }
{
    slots.retain(|_, slot| slot.is_entry());
}

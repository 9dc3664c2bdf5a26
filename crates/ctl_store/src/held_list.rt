//! The stanzas of one list.

ghost use Rattle.std.specs.Prelude.{◌≡◌, ◌<◌, ◌≤◌, ◌+◌, ◌-◌, ◌^◌, ℕ, [], Option, Some, OnOk, IfOk, map, min, length, vec_len, is_some, nat_eq, option_copied};
ghost use Rattle.std.specs.Map.{lookup};
ghost use Rattle.std.specs.Option.{option_to_list};
ghost use Rattle.std.specs.Vec.{vec_capacity};
ghost use Rattle.ctl_store.specs.Step.{place};
ghost use Rattle.ctl_store.specs.Slots.{by_name_and_version, placed_slot, put_slot, next_after_put, remove_slot};
ghost use Rattle.ctl_store.specs.Orders.{boxed_slots};
ghost use Rattle.ctl_store.specs.Inside.HeldPieces.{most_in_piece, joined, room_at_end};
ghost use Rattle.ctl_store.specs.Keys.{keys_of, found_key};
ghost use Rattle.ctl_store.specs.Entries.{entries_in};
ghost use Rattle.ctl_store.specs.Store.{keyed_list};
ghost use Rattle.ctl_store.specs.Plans.{Fits, HasRoomInList};

use crate::fronts::Placed;
use crate::list_class::ListClass;
use crate::order::{look_up, sort_placed};
use crate::pieces::{Pieces, Spot};
use crate::slots::{Slot, slot_at, slot_of};
use crate::stanza_key::StanzaKey;
use crate::store::{Keys, ListEntries};
use ctl_relation::Version;
use ctl_stanza::{ListKind, Stanza};
use std::alloc::{AllocError, Global};
use std::cell::Cell;
use std::marker::Model;

/// The stanzas of one list, in the order in which they stand, and an entry of each in the order of names and versions. A
/// contract sees the slots and the room for more.
#[derive(Drop)]
pub(crate) struct HeldList {
    serial: u32,
    kind: ListKind,
    class: ListClass,
    next: u64,
    slots: Pieces<Slot>,
    order: Pieces<Placed>,
    // Where the edit that was last checked, prepared or made is in the order. A commit follows its prepare, and edits of one
    // stanza follow each other, and one look beside that spot is cheaper than a search. It may be out of date or past the
    // end: nothing rests on it.
    last: Cell<Spot>,
}

impl Model for HeldList {
    ghost use Rattle.std.specs.Prelude.{length};
    ghost use Rattle.ctl_store.specs.Slots.{HasOrder};
    ghost use Rattle.ctl_store.specs.Inside.HeldPieces.{joined, room_of_last};
    ghost use Rattle.ctl_store.specs.Store.{HeldList};

    ghost Value = { HeldList };

    ghost view = { λ s. record {
      serial = s.serial;
      kind = s.kind;
      class = s.class;
      next = s.next;
      slots = joined s.slots.pieces;
      room = room_of_last s.slots.ready;
      order_room = room_of_last s.order.ready;
    } };

    ghost invariant = { λ s. HasOrder (joined s.slots.pieces) s.next (joined s.order.pieces) };
}

/// A list that is made: its kind, its class and its stanzas, with the room for them.
#[derive(Drop)]
pub(crate) struct NewList {
    pub(crate) kind: ListKind,
    pub(crate) class: ListClass,
    pub(crate) stanzas: Vec<Box<Stanza>>,
    pub(crate) room: ListRoom,
}

/// The room for a new list: for its entries of the order while they are sorted, for its slots, and for the order that stays.
#[derive(Drop)]
pub(crate) struct ListRoom {
    placed: Vec<Placed>,
    slots: Pieces<Slot>,
    order: Pieces<Placed>,
}

impl Model for ListRoom {
    ghost use Rattle.std.specs.Vec.{vec_capacity};
    ghost use Rattle.ctl_store.specs.Inside.HeldPieces.{room_at_end};
    ghost use Rattle.ctl_store.specs.Plans.{ListRoom};
    ghost use Rattle.ctl_store.specs.Inside.Sound.{IsBare};

    ghost Value = { ListRoom };

    ghost view = { λ r. record { serials = vec_capacity r.placed; slots = room_at_end r.slots; order = room_at_end r.order } };

    ghost invariant = { λ r. IsBare r.placed r.slots r.order };
}

impl ListRoom {
    /// No room. It takes no memory.
    pub(crate) fn new(alloc: Global) -> ListRoom {
        ListRoom {
            placed: Vec::new(alloc),
            slots: Pieces::new(alloc),
            order: Pieces::new(alloc),
        }
    }

    /// The room for a list of so many stanzas.
    pub(crate) fn with_capacity(alloc: Global, stanzas: usize) -> Result<ListRoom, AllocError>
        ensures { IfOk result (λ room. Fits stanzas room) }
    {
        Ok(ListRoom {
            placed: Vec::with_capacity(alloc, stanzas)?,
            slots: Pieces::with_capacity(alloc, stanzas)?,
            order: Pieces::with_capacity(alloc, stanzas)?,
        })
    }
}

// The stanzas as slots under the serials from 0 on, and their entries of the order as they stand, in the room that is there.
fn fill_slots(slots: &mut Pieces<Slot>, placed: &mut Vec<Placed>, stanzas: Vec<Box<Stanza>>) -> u64
    requires none { slots.old.pieces ≡ [] }
    requires room { vec_len stanzas ≤ room_at_end slots.old }
    requires none_placed { placed.old.items ≡ [] }
    requires placed_room { vec_len stanzas ≤ vec_capacity placed.old }
    ensures slots { joined slots.new.pieces ≡ boxed_slots stanzas.items }
    ensures placed { placed.new.items ≡ map placed_slot (boxed_slots stanzas.items) }
    ensures next { result ≡ vec_len stanzas }
{
    let mut serial = 0;
    for stanza in stanzas {
        match placed.push(Placed::new(serial, &stanza)) {
            Ok(()) => {}
            Err(_) => unreachable!(),
        }
        slots.push(Slot::new(serial, stanza));
        serial += 1;
    }
    serial
}

impl HeldList {
    /// A list of these stanzas, for which there is room. The order comes by one sort: each entry put in its place would
    /// look for that place.
    pub(crate) fn new(serial: u32, list: NewList) -> HeldList
        requires { Fits (vec_len list.stanzas) list.room }
        ensures serial { result.serial ≡ serial }
        ensures kind { result.kind ≡ list.kind }
        ensures class { result.class ≡ list.class }
        ensures next { result.next ≡ vec_len list.stanzas }
        ensures slots { result.slots ≡ boxed_slots list.stanzas.items }
    {
        let NewList {
            kind,
            class,
            stanzas,
            room,
        } = list;
        let ListRoom {
            mut placed,
            mut slots,
            mut order,
        } = room;
        let next = fill_slots(&mut slots, &mut placed, stanzas);
        sort_placed(slots.as_slice(), &mut placed);
        order.extend(placed);
        slots.forget_room();
        order.forget_room();
        HeldList {
            serial,
            kind,
            class,
            next,
            slots,
            order,
            last: Cell::new(Spot { piece: 0, at: 0 }),
        }
    }

    /// The serial of the list.
    pub(crate) fn serial(&self) -> u32
        ensures { result ≡ self.now.serial }
    {
        self.serial
    }

    pub(crate) fn kind(&self) -> ListKind
        ensures { result ≡ self.now.kind }
    {
        self.kind
    }

    pub(crate) fn class(&self) -> ListClass
        ensures { result ≡ self.now.class }
    {
        self.class
    }

    /// The keys of its stanzas, in order.
    pub(crate) fn keys(&self) -> Keys<'_>
        ensures { result ≡ keys_of (keyed_list self.now) }
    {
        Keys::of_list(self.entries())
    }

    /// Its stanzas with their keys, in order.
    pub(crate) fn entries(&self) -> ListEntries<'_>
        ensures { result ≡ entries_in (keyed_list self.now) }
    {
        ListEntries::new(self.serial, self.slots.as_slice())
    }

    /// The stanza of a serial.
    pub(crate) fn stanza(&self, serial: u64) -> Option<&Stanza>
        ensures { option_copied result ≡ lookup (λ k. nat_eq k serial) self.now.slots }
    {
        match slot_of(self.slots.as_slice(), serial) {
            Some(slot) => Some(slot.stanza()),
            None => None,
        }
    }

    /// The key of the first stanza of this name and an equal version. The next look-up tries the spot that this one found
    /// first, so that an edit of what was asked for here needs no second search.
    pub(crate) fn found_key(&self, name: &[u8], version: Option<&Version>) -> Option<StanzaKey>
        ensures key { option_to_list result ≡ found_key name.now (option_copied version.entry) (keyed_list self.now) }
        ensures found { is_some result ≡ is_some (place (by_name_and_version name.now (option_copied version.entry)) self.now.slots) }
    {
        let (slots, order) = (self.slots.as_slice(), self.order.as_slice());
        let (order_spot, place) = look_up(slots, order, self.last.get(), name, version);
        self.last.set(order_spot);
        match place {
            Some(spot) => Some(StanzaKey {
                list: self.serial,
                stanza: slot_at(slots, spot).serial(),
            }),
            None => None,
        }
    }

    /// The serial of its next new stanza.
    pub(crate) fn next(&self) -> u64
        ensures { result ≡ self.now.next }
    {
        self.next
    }

    /// Makes the room for one stanza more.
    pub(crate) fn reserve_one(&mut self, alloc: Global) -> Result<(), AllocError>
        ensures same { keyed_list self.new ≡ keyed_list self.old }
        ensures ok { OnOk result (HasRoomInList self.new) }
    {
        self.slots.reserve_one(alloc)?;
        self.order.reserve_one(alloc)
    }

    /// Puts a stanza in the place of the first of its name and version, else last.
    pub(crate) fn put(&mut self, stanza: Box<Stanza>)
        requires room { HasRoomInList self.old }
        requires below { self.old.next + 1 < 2 ^ 64 }
        ensures serial { self.new.serial ≡ self.old.serial }
        ensures kind { self.new.kind ≡ self.old.kind }
        ensures class { self.new.class ≡ self.old.class }
        ensures slots { self.new.slots ≡ put_slot stanza.value self.old.next self.old.slots }
        ensures next { self.new.next ≡ next_after_put stanza.value self.old.next self.old.slots }
    {
        let (slots, order) = (self.slots.as_slice(), self.order.as_slice());
        let (order_spot, place) = look_up(
            slots,
            order,
            self.last.get(),
            stanza.package(),
            stanza.version(),
        );
        self.last.set(order_spot);
        match place {
            Some(spot) => self.slots.replace(spot, stanza),
            None => {
                self.order
                    .insert(order_spot, Placed::new(self.next, &stanza));
                self.slots.push(Slot::new(self.next, stanza));
                self.next += 1;
            }
        }
        self.slots.forget_room();
        self.order.forget_room();
    }

    /// Takes the first stanza of this name and an equal version out.
    pub(crate) fn remove(&mut self, name: &[u8], version: Option<&Version>)
        ensures serial { self.new.serial ≡ self.old.serial }
        ensures kind { self.new.kind ≡ self.old.kind }
        ensures class { self.new.class ≡ self.old.class }
        ensures slots { self.new.slots ≡ remove_slot name.now (option_copied version.entry) self.old.slots }
        ensures next { self.new.next ≡ self.old.next }
    {
        let (slots, order) = (self.slots.as_slice(), self.order.as_slice());
        let (order_spot, place) = look_up(slots, order, self.last.get(), name, version);
        self.last.set(order_spot);
        if let Some(spot) = place {
            self.order.remove(order_spot);
            self.slots.remove(spot);
        }
    }
}

//! The store.

ghost use Rattle.std.specs.Prelude.{◌≡◌};
ghost use Rattle.ctl_store.specs.State.{empty_state};
ghost use Rattle.ctl_store.specs.Limits.{limits_that_count};
ghost use Rattle.ctl_store.specs.Store.{state_of};
ghost use Rattle.ctl_store.specs.declared.limits.Limits.{Limits};

mod checking;
mod committing;
mod entries;
mod preparing;
mod views;

use crate::held_list::HeldList;
use crate::limits::Limits;
use crate::pin_table::PinTable;
use ctl_ordered::Ordered;
use ctl_relation::{Bytes, Version};
pub(crate) use entries::ListEntries;
pub use entries::{Entries, Keys};
use std::alloc::Global;
use std::marker::Model;
pub use views::{Lists, Pins};

/// Lists of stanzas, marks of packages, pin settings and a target release. It is changed by one edit at a time:
/// [`prepare`](Store::prepare) accepts it and takes all memory, and [`commit`](Store::commit) makes it.
#[derive(Drop)]
pub struct Store {
    alloc: Global,
    lists: Ordered<Bytes, HeldList>,
    marks: Ordered<Bytes, Option<Version>>,
    pins: PinTable,
    target: Option<Bytes>,
    next_list: u32,
    // How many of the lists are status lists, so that none is looked for.
    statuses: u32,
    stanzas: u32,
    edits: u32,
    limits: Limits,
}

impl Model for Store {
    ghost use Rattle.ctl_ordered.specs.Ordered.{entries};
    ghost use Rattle.ctl_store.specs.Store.{Held};
    ghost use Rattle.ctl_store.specs.Inside.Sound.{IsSound};

    ghost Value = { Held };

    ghost view = { λ s. record {
      lists = entries s.lists;
      lists_room = s.lists.room;
      marks = entries s.marks;
      marks_room = s.marks.room;
      pins = s.pins.pins;
      pins_room = s.pins.room;
      target = s.target;
      next_list = s.next_list;
      edits = s.edits;
      limits = s.limits;
    } };

    ghost invariant = { λ s.
        IsSound s.lists.filled s.lists.next s.next_list s.statuses s.stanzas s.edits s.limits s.marks.next s.pins.next };
}

impl Store {
    /// An empty store. It takes no memory.
    pub fn new(alloc: Global) -> Store
        ensures state { state_of result ≡ empty_state }
        ensures limits { result.limits ≡ limits_that_count (record { stanzas = 4294967295; edits = 4294967295 }) }
    {
        Store::with_limits(alloc, Limits::MOST)
    }

    /// An empty store with these limits, or those of [`Limits::MOST`] where they are smaller.
    pub fn with_limits(alloc: Global, limits: Limits) -> Store
        ensures state { state_of result ≡ empty_state }
        ensures limits { result.limits ≡ limits_that_count limits }
    {
        Store {
            alloc,
            lists: Ordered::new(alloc),
            marks: Ordered::new(alloc),
            pins: PinTable::new(alloc),
            target: None,
            next_list: 0,
            statuses: 0,
            stanzas: 0,
            edits: 0,
            limits: Limits {
                stanzas: limits.stanzas.min(Limits::MOST.stanzas),
                edits: limits.edits.min(Limits::MOST.edits),
            },
        }
    }
}

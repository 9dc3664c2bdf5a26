//! A store and a cache, of which edits are made.

use crate::caches::apply;
use crate::said::Said;
use crate::stores::change;
use ctl_index::Cache;
use ctl_store::{Edit, Refusal, Store};
use std::alloc::Global;

/// Which of the two.
#[derive(Clone, Copy)]
pub enum Held {
    Store,
    Cache,
}

/// What edits are made of.
#[derive(Drop)]
pub struct Kept {
    pub store: Store,
    pub cache: Cache,
}

impl Kept {
    /// A new store and a new cache.
    pub fn new(alloc: Global) -> Kept {
        Kept {
            store: Store::new(alloc),
            cache: Cache::new(alloc),
        }
    }

    /// Makes an edit.
    pub fn make(&mut self, held: Held, edit: Edit) -> Result<(), Refusal> {
        match held {
            Held::Store => change(&mut self.store, edit),
            Held::Cache => apply(&mut self.cache, edit),
        }
    }

    /// How many stanzas there are, and the count of tests of a cache.
    pub fn say_counts(&self, held: Held, said: &mut Said) {
        match held {
            Held::Store => said.number(b"stanzas ", self.store.counts().stanzas as u128),
            Held::Cache => {
                said.number(b"stanzas ", self.cache.store().counts().stanzas as u128);
                said.number(b" tests ", self.cache.steps());
            }
        }
    }
}

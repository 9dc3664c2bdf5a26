//! The two trees of names: of short names, which stand in the keys themselves, and of longer ones.

ghost use Rattle.std.specs.Prelude.{◌≡◌, ℕ, List, None, Some, is_some, IfOk, OnOk, OnErr, option_copied, option_map, if◌then◌else◌};
ghost use Rattle.std.specs.BTreeMap.{get};
ghost use Rattle.std.specs.Borrow.{sem};
ghost use Rattle.std.specs.Cmp.Lexicographic.{slice_cmp};
ghost use Rattle.std.specs.Ordering.{nat_cmp};
ghost use Rattle.ctl_store.specs.Store.{keyed_of};
ghost use Rattle.ctl_policy.specs.Chosen.{at_bytes};
ghost use Rattle.ctl_policy.specs.Rows.{AreRowsOf};
ghost use Rattle.std.specs.Option.{option_copied_mut};
ghost use Rattle.std.specs.Str.{bytes_eq};
ghost use Rattle.ctl_index.specs.Inside.NameMap.{AreApart};

use crate::choosing::{choose_long, choose_short};
use crate::long_map::LongMap;
use crate::named::Named;
use crate::named_box::NamedBox;
use crate::short_map::ShortMap;
use crate::short_name::ShortName;
use ctl_store::Store;
use std::alloc::{AllocError, Global};
use std::collections::BTreeMap;

/// What stands under each name.
#[derive(Drop)]
pub(crate) struct NameMap {
    pub(crate) short: ShortMap,
    pub(crate) long: LongMap,
    ghost apart: { AreApart short.tree long.tree },
}

impl NameMap {
    ghost use Rattle.ctl_index.specs.declared.named.Named.{Named as NamedHeld};
    ghost use Rattle.ctl_index.specs.Inside.TablesChosen.{chosen_anew};
    ghost use Rattle.ctl_index.specs.Inside.TablesByName.{at_name, named_own, HoldsNothing, IsSetAt, HasSameNames, LendsNamed};

    /// No names. It takes no memory.
    pub(crate) fn new(alloc: Global) -> NameMap
        ensures { HoldsNothing result }
    {
        NameMap {
            short: ShortMap {
                tree: BTreeMap::new(alloc),
            },
            long: LongMap {
                tree: BTreeMap::new(alloc),
            },
        }
    }

    /// What stands under a name, if anything does.
    pub(crate) fn get(&self, name: &[u8]) -> Option<&Named>
        ensures { option_copied result ≡ at_name self.now name.now }
    {
        match ShortName::of(name) {
            Some(short) => match self.short.tree.get(&short) {
                Some(boxed) => Some(boxed.get()),
                None => None,
            },
            None => match self.long.tree.get(name) {
                Some(boxed) => Some(boxed.get()),
                None => None,
            },
        }
    }

    /// The same, to be changed.
    pub(crate) fn get_mut(&mut self, name: &[u8]) -> Option<&mut Named>
        ensures* writes_back { sem 𝓛 (LendsNamed self.entry name.now result) }
        ensures value { option_copied_mut result ≡ at_name self.old name.now }
    {
        match ShortName::of(name) {
            Some(short) => self.short.get_mut(&short),
            None => self.long.get_mut(name),
        }
    }

    /// This stands under a name from now on. Where memory runs out all is as before.
    pub(crate) fn insert(
        &mut self,
        alloc: Global,
        name: &[u8],
        named: Named,
    ) -> Result<(), AllocError>
        ensures ok { OnOk result (IsSetAt name.now self.old self.new (Some named)) }
        ensures err { OnErr result (HasSameNames self.old self.new) }
    {
        match ShortName::of(name) {
            Some(short) => {
                let boxed = NamedBox::new(alloc, named)?;
                self.short.tree.insert(short, boxed)?;
            }
            None => {
                let key = Vec::from_slice(alloc, name)?;
                let boxed = NamedBox::new(alloc, named)?;
                self.long.tree.insert(key, boxed)?;
            }
        }
        Ok(())
    }

    /// Chooses anew for the names that have a row with a stanza of a list, or for all. It takes no memory.
    pub(crate) fn choose(&mut self, store: &Store, list: Option<u32>)
        requires { (q : List ℕ) (v : NamedHeld) → at_name self.old q ≡ Some v
            → AreRowsOf (named_own v).rows q (keyed_of store.now).lists }
        ensures { (q : List ℕ) → at_name self.new q ≡ option_map (chosen_anew store.now list q) (at_name self.old q) }
    {
        choose_short(store, list, &mut self.short.tree);
        choose_long(store, list, &mut self.long.tree);
    }

    /// How many names there are.
    pub(crate) fn len(&self) -> usize {
        self.short.tree.len().saturating_add(self.long.tree.len())
    }

    /// Nothing stands under a name from now on.
    pub(crate) fn remove(&mut self, name: &[u8])
        ensures { IsSetAt name.now self.old self.new None }
    {
        match ShortName::of(name) {
            Some(short) => {
                self.short.tree.remove(&short);
            }
            None => {
                self.long.tree.remove(name);
            }
        }
    }
}

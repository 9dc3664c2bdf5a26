//! What stands under longer names.

ghost use Rattle.std.specs.Prelude.{◌≡◌, OnSome};
ghost use Rattle.std.specs.Borrow.{LendsSo, sem};
ghost use Rattle.std.specs.BTreeMap.{IsUnchanged, WritesThrough, keys};
ghost use Rattle.std.specs.Cmp.Lexicographic.{slice_cmp};
ghost use Rattle.std.specs.Option.{option_copied_mut};
ghost use Rattle.std.specs.Ordering.{nat_cmp};
ghost use Rattle.ctl_policy.specs.Chosen.{at_bytes};
ghost use Rattle.ctl_index.specs.contracts.named.Named.{the_row as named_row};
ghost use Rattle.ctl_index.specs.contracts.long_map.LongMap.{the_row};

use crate::named::Named;
use crate::named_box::NamedBox;
use std::collections::BTreeMap;

/// What stands under each name that is no short one.
#[derive(Drop)]
pub(crate) struct LongMap {
    pub(crate) tree: BTreeMap<Vec<u8>, NamedBox>,
}

impl LongMap {
    /// What stands under a name, to be changed.
    pub(crate) fn get_mut(&mut self, name: &[u8]) -> Option<&mut Named>
        ensures* writes_back { sem 𝓛 (LendsSo the_row named_row self.entry result
            (λ n named. (keys n.tree ≡ keys self.entry.now.tree)
            × OnSome result (WritesThrough (λ x y. slice_cmp nat_cmp x.items y.items) (λ k. slice_cmp nat_cmp name.now k.items)
            self.entry.now.tree named n.tree))
            (λ n. IsUnchanged self.entry.now.tree n.tree)) }
        ensures value { option_copied_mut result ≡ at_bytes self.old.tree name.now }
    {
        match self.tree.get_mut(name) {
            Some(boxed) => boxed.get_mut(),
            None => None,
        }
    }
}

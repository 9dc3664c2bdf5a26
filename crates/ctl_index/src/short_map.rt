//! What stands under short names.

ghost use Rattle.std.specs.Prelude.{◌≡◌, OnSome};
ghost use Rattle.std.specs.Borrow.{LendsSo, sem};
ghost use Rattle.std.specs.BTreeMap.{IsUnchanged, WritesThrough, get, keys};
ghost use Rattle.std.specs.Cmp.Lexicographic.{slice_cmp};
ghost use Rattle.std.specs.Option.{option_copied_mut};
ghost use Rattle.std.specs.Ordering.{nat_cmp};
ghost use Rattle.ctl_index.specs.contracts.named.Named.{the_row as named_row};
ghost use Rattle.ctl_index.specs.contracts.short_map.ShortMap.{the_row};

use crate::named::Named;
use crate::named_box::NamedBox;
use crate::short_name::ShortName;
use std::collections::BTreeMap;

/// What stands under each short name.
#[derive(Drop)]
pub(crate) struct ShortMap {
    pub(crate) tree: BTreeMap<ShortName, NamedBox>,
}

impl ShortMap {
    /// What stands under a name, to be changed.
    pub(crate) fn get_mut(&mut self, name: &ShortName) -> Option<&mut Named>
        ensures* writes_back { sem 𝓛 (LendsSo the_row named_row self.entry result
            (λ n named. (keys n.tree ≡ keys self.entry.now.tree)
            × OnSome result (WritesThrough (slice_cmp nat_cmp) (slice_cmp nat_cmp name.now) self.entry.now.tree named n.tree))
            (λ n. IsUnchanged self.entry.now.tree n.tree)) }
        ensures value { option_copied_mut result ≡ get (slice_cmp nat_cmp) self.old.tree name.now }
    {
        match self.tree.get_mut(name) {
            Some(boxed) => boxed.get_mut(),
            None => None,
        }
    }
}

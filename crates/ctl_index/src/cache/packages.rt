//! The names from a prefix on, and those of packages, lent in order.

ghost use Rattle.std.specs.Prelude.{◌≡◌, ◌∷◌, ◌&&◌, [], ℕ, List, IfOk, IfSome, IfNone, true, false, nat_eq};
ghost use Rattle.std.specs.List.{AllByRecursion, list_any, starts_with};
ghost use Rattle.std.specs.List.Sorted.{IsStrictlySortedBy};
ghost use Rattle.std.specs.Cmp.Lexicographic.{slice_cmp};
ghost use Rattle.std.specs.Ordering.{nat_cmp, is_le};
ghost use Rattle.std.specs.Str.{bytes_eq};
ghost use Rattle.ctl_store.specs.Store.{state_of};
ghost use Rattle.ctl_index.specs.Names.{is_package, known_names};
ghost use Rattle.ctl_index.specs.Inside.NameMap.{entry_names};
ghost use Rattle.ctl_index.specs.Inside.TablesViews.{packages_with, AreFrom};
ghost use Rattle.ctl_index.specs.Work.{stanzas_of_state};

use crate::cache::{Cache, Names};
use crate::name_entries::NameEntries;
use crate::named::has_own;
use std::alloc::AllocError;
use std::marker::Model;

/// The names of packages that begin with a prefix, by [`Cache::package_names`], in the order of their bytes.
#[derive(Drop)]
pub struct PackageNames<'a> {
    prefix: Vec<u8>,
    // What is left of the names from the prefix on.
    entries: NameEntries<'a>,
}

impl<'a> Model for PackageNames<'a> {
    ghost use Rattle.std.specs.Prelude.{ℕ, List};
    ghost use Rattle.ctl_index.specs.Inside.NameMap.{entry_names};
    ghost use Rattle.ctl_index.specs.Inside.TablesViews.{packages_with, AreFrom};

    ghost Value = { List (List ℕ) };

    ghost view = { λ it. packages_with it.prefix.items it.entries };

    ghost invariant = { λ it. AreFrom it.prefix.items (entry_names it.entries) };
}

// Takes the names up to the next one that begins with the prefix and is that of a package. Behind a name that doesn't begin
// with the prefix none does, for they are in order.
fn next_package<'a>(prefix: &[u8], entries: &mut NameEntries<'a>) -> Option<&'a [u8]>
    requires { AreFrom prefix.now (entry_names entries.old) }
    ensures some { IfSome result (λ name. packages_with prefix.now entries.old ≡ name.now ∷ packages_with prefix.now entries.new) }
    ensures none { IfNone result (packages_with prefix.now entries.old ≡ []) }
    ensures ended { IfNone result (packages_with prefix.now entries.new ≡ []) }
    ensures from { AreFrom prefix.now (entry_names entries.new) }
{
    'names: while let Some((name, named)) = entries.next() {
        if !name.starts_with(prefix) {
            return None;
        }
        if has_own(named) {
            return Some(name);
        }
    }
    None
}

impl<'a> Iterator for PackageNames<'a> {
    ghost use Rattle.std.specs.Iterator.{YieldsFirstBy, item_count};

    ghost next_gives = { YieldsFirstBy (λ item. item.now) (λ rest. rest) };

    ghost remaining = { item_count (λ rest. rest) };

    type Item = &'a [u8];

    fn next(&mut self) -> Option<&'a [u8]> {
        next_package(&self.prefix, &mut self.entries)
    }
}

impl Cache {
    /// The names that are known and not before a prefix, in the order of their bytes. Those that begin with the prefix come
    /// first.
    ///
    /// # Errors
    ///
    /// Out of memory, of which it takes as much as the prefix has bytes.
    pub fn names_from(&self, prefix: &[u8]) -> Result<Names<'_>, AllocError>
        requires { self.now.stale ≡ false }
        // each once
        ensures order { IfOk result (λ names. IsStrictlySortedBy (slice_cmp nat_cmp) names) }
        ensures from { IfOk result (λ names. AllByRecursion (λ name. is_le (slice_cmp nat_cmp prefix.now name) ≡ true) names) }
        ensures members { IfOk result (λ names. (name : List ℕ) → starts_with nat_eq name prefix.now ≡ true
            → list_any (bytes_eq name) names ≡ list_any (bytes_eq name) (known_names (stanzas_of_state (state_of self.now.store)))) }
        ensures only { IfOk result (λ names. (name : List ℕ) → list_any (bytes_eq name) names ≡ true
            → list_any (bytes_eq name) (known_names (stanzas_of_state (state_of self.now.store))) ≡ true) }
    {
        let prefix = Vec::from_slice(self.alloc, prefix)?;
        let left = self.tables.names.entries_from(&prefix);
        Ok(Names::new(left))
    }

    /// The names of packages that begin with a prefix, in the order of their bytes: those that a live stanza is of.
    ///
    /// # Errors
    ///
    /// Out of memory, of which it takes as much as the prefix has bytes.
    pub fn package_names(&self, prefix: &[u8]) -> Result<PackageNames<'_>, AllocError>
        requires { self.now.stale ≡ false }
        // each once
        ensures order { IfOk result (λ names. IsStrictlySortedBy (slice_cmp nat_cmp) names) }
        ensures members { IfOk result (λ names. (name : List ℕ) → list_any (bytes_eq name) names
            ≡ (starts_with nat_eq name prefix.now && is_package (stanzas_of_state (state_of self.now.store)) name)) }
    {
        let prefix = Vec::from_slice(self.alloc, prefix)?;
        let entries = self.tables.names.entries_from(&prefix);
        Ok(PackageNames { prefix, entries })
    }
}

//! Names with what stands under them, lent in order.

ghost use Rattle.std.specs.Prelude.{◌≡◌, ℕ, List, [], true, is_some, nat_eq, map, unwrap_or, MatchOption};
ghost use Rattle.std.specs.List.{starts_with};
ghost use Rattle.std.specs.List.Sorted.{IsStrictlySortedBy};
ghost use Rattle.std.specs.Cmp.Lexicographic.{slice_cmp};
ghost use Rattle.std.specs.Ordering.{nat_cmp, is_lt};
ghost use Rattle.ctl_index.specs.Inside.NameMap.{entry_names, found_in, left_short, long_entry, merged};
ghost use Rattle.ctl_index.specs.Inside.TablesByName.{at_name};
ghost use Rattle.ctl_index.specs.Inside.TablesViews.{AreFrom};

use crate::name_map::NameMap;
use crate::named::Named;
use crate::named_box::NamedBox;
use crate::short_name::ShortName;
use std::collections::btree_map;
use std::marker::Model;

/// Names with what stands under them, by [`NameMap::entries`], in the order of their bytes.
#[derive(Drop)]
pub(crate) struct NameEntries<'a> {
    // The next of each tree, and what is left of it behind. Of short names there are none where none can begin with a prefix.
    next_short: Option<(&'a ShortName, &'a NamedBox)>,
    short: Option<btree_map::Range<'a, ShortName, NamedBox>>,
    next_long: Option<(&'a Vec<u8>, &'a NamedBox)>,
    long: btree_map::Range<'a, Vec<u8>, NamedBox>,
}

impl<'a> Model for NameEntries<'a> {
    ghost use Rattle.std.specs.Coded.{codes};
    ghost use Rattle.std.specs.Prelude.{List};
    ghost use Rattle.ctl_policy.specs.Inside.HeldRows.{rows_code};
    ghost use Rattle.ctl_index.specs.Inside.NameMap.{NamedEntry, merged, left_short, left_long};

    ghost Value = { List NamedEntry };

    ghost coded = { Prim.hlevel (codes, rows_code) };

    ghost view = { λ it. merged (left_short it.next_short it.short) (left_long it.next_long it.long) };
}

impl<'a> Iterator for NameEntries<'a> {
    ghost use Rattle.std.specs.Iterator.{YieldsFirstBy, item_count};

    ghost next_gives = { YieldsFirstBy (λ item. (item.0.now, item.1.now)) (λ rest. rest) };

    ghost remaining = { item_count (λ rest. rest) };

    type Item = (&'a [u8], &'a Named);

    fn next(&mut self) -> Option<(&'a [u8], &'a Named)> {
        match self.next_short {
            Some((short, boxed)) if is_before(short, self.next_long) => {
                self.next_short = next_of(&mut self.short);
                Some((short.as_slice(), boxed.get()))
            }
            _ => {
                let (long, boxed) = self.next_long?;
                self.next_long = self.long.next();
                Some((long.as_slice(), boxed.get()))
            }
        }
    }
}

// Whether a short name comes before the next of the longer ones, or none of these is left.
fn is_before(short: &ShortName, next_long: Option<(&Vec<u8>, &NamedBox)>) -> bool
    ensures { MatchOption next_long.entry (result ≡ true) (λ e. result ≡ is_lt (slice_cmp nat_cmp short.now e.0.now.items)) }
{
    match next_long {
        Some((long, _)) => short.as_slice() < long.as_slice(),
        None => true,
    }
}

// The next of the short names, where there are any.
fn next_of<'a>(
    short: &mut Option<btree_map::Range<'a, ShortName, NamedBox>>,
) -> Option<(&'a ShortName, &'a NamedBox)>
    ensures { left_short result short.new ≡ unwrap_or short.old [] }
{
    match short {
        Some(range) => range.next(),
        None => None,
    }
}

impl<'a> NameEntries<'a> {
    // Those of a part of each tree, and of short names of none where none can begin with a prefix.
    fn new(
        mut short: Option<btree_map::Range<'a, ShortName, NamedBox>>,
        mut long: btree_map::Range<'a, Vec<u8>, NamedBox>,
    ) -> NameEntries<'a>
        ensures { result ≡ merged (unwrap_or short.entry []) (map long_entry long.entry) }
    {
        NameEntries {
            next_short: next_of(&mut short),
            short,
            next_long: long.next(),
            long,
        }
    }
}

impl NameMap {
    /// All names with what stands under them, in the order of their bytes.
    pub(crate) fn entries(&self) -> NameEntries<'_>
        ensures order { IsStrictlySortedBy (slice_cmp nat_cmp) (entry_names result) }
        ensures found { (q : List ℕ) → found_in result q ≡ at_name self.now q }
    {
        NameEntries::new(Some(self.short.tree.range(..)), self.long.tree.range(..))
    }

    /// The names from a prefix on with what stands under them, in the order of their bytes: all that begin with it are among them.
    pub(crate) fn entries_from(&self, prefix: &Vec<u8>) -> NameEntries<'_>
        ensures order { AreFrom prefix.now.items (entry_names result) }
        ensures found { (q : List ℕ) → starts_with nat_eq q prefix.now.items ≡ true → found_in result q ≡ at_name self.now q }
        ensures only { (q : List ℕ) → is_some (found_in result q) ≡ true → found_in result q ≡ at_name self.now q }
    {
        let short = match ShortName::of(prefix) {
            Some(first) => Some(self.short.tree.range(&first..)),
            None => None,
        };
        NameEntries::new(short, self.long.tree.range(prefix..))
    }
}

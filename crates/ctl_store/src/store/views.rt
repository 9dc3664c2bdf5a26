//! What a store holds, lent.

ghost use Rattle.std.specs.Prelude.{◌≡◌, ◌+◌, ℕ, true, IfSome, IsSome, Some, map, option_map, option_copied};
ghost use Rattle.std.specs.FinMap as fin;
ghost use Rattle.ctl_store.specs.State.{stanza_count, shown_lists, stanzas_named};
ghost use Rattle.ctl_store.specs.Keys.{all_in, all_keys, AreRising, AreHeld, stanza_at, holder_of};
ghost use Rattle.ctl_store.specs.Followed.{under};
ghost use Rattle.ctl_store.specs.Kinds.{KeepKinds};
ghost use Rattle.ctl_store.specs.Named.{at_name};
ghost use Rattle.ctl_store.specs.Step.{has_status};
ghost use Rattle.ctl_store.specs.Pins.{general_pin, own_settings, AreDistinct};
ghost use Rattle.std.specs.List.{IsDistinct};
ghost use Rattle.std.specs.Map.{keys_of as names_of};
ghost use Rattle.std.specs.Str.{bytes_eq};
ghost use Rattle.ctl_store.specs.Entries.{entry_keys, entries_of, AreAt};
ghost use Rattle.ctl_store.specs.Store.{state_of, keyed_of, lists_of};
ghost use Rattle.ctl_store.specs.declared.limits.Counts.{Counts};
ghost use Rattle.ctl_store.specs.declared.stanza_key.StanzaKey.{StanzaKey};

use crate::held_list::HeldList;
use crate::limits::{Counts, Limits};
use crate::list_class::ListClass;
use crate::lists::entry_of;
use crate::name::Name;
use crate::pin_table::PackagePins;
use crate::selector::Selector;
use crate::stanza_key::StanzaKey;
use crate::store::{Entries, Keys, ListEntries, Store};
use ctl_relation::{Bytes, Version};
use ctl_stanza::{ListKind, Stanza};
use std::marker::Model;

/// The lists of a store, by [`Store::lists`]: their names, kinds and classes, in order.
#[derive(Drop)]
pub struct Lists<'a> {
    entries: ctl_ordered::Entries<'a, Bytes, HeldList>,
}

impl<'a> Model for Lists<'a> {
    ghost use Rattle.std.specs.Prelude.{ℕ, List, map};
    ghost use Rattle.ctl_stanza.specs.declared.list_kind.ListKind.{ListKind};
    ghost use Rattle.ctl_store.specs.declared.list_class.ListClass.{ListClass};

    ghost Value = { List (List ℕ × ListKind × ListClass) };

    ghost view = { λ it. map (λ e. (e.0, e.1.kind, e.1.class)) it.entries };
}

impl<'a> Iterator for Lists<'a> {
    ghost use Rattle.std.specs.Iterator.{YieldsFirstBy, item_count};

    ghost next_gives = { YieldsFirstBy (λ item. (item.0.now, item.1, item.2)) (λ rest. rest) };

    ghost remaining = { item_count (λ rest. rest) };

    type Item = (&'a [u8], ListKind, ListClass);

    fn next(&mut self) -> Option<(&'a [u8], ListKind, ListClass)> {
        let (name, list) = self.entries.next()?;
        Some((name.as_slice(), list.kind(), list.class()))
    }
}

/// The pin settings of a store, by [`Store::pins`]: selectors with priorities, in order.
#[derive(Drop)]
pub struct Pins<'a> {
    pub(crate) entries: ctl_ordered::Entries<'a, Selector, i16>,
}

impl<'a> Model for Pins<'a> {
    ghost use Rattle.std.specs.Prelude.{List, ℤ};
    ghost use Rattle.ctl_store.specs.declared.selector.Selector.{Selector};

    ghost Value = { List (Selector × ℤ) };

    ghost view = { λ it. it.entries };
}

impl<'a> Iterator for Pins<'a> {
    ghost use Rattle.std.specs.Iterator.{YieldsFirstBy, item_count};

    ghost next_gives = { YieldsFirstBy (λ item. (item.0.now, item.1)) (λ rest. rest) };

    ghost remaining = { item_count (λ rest. rest) };

    type Item = (&'a Selector, i16);

    fn next(&mut self) -> Option<(&'a Selector, i16)> {
        let (selector, priority) = self.entries.next()?;
        Some((selector, *priority))
    }
}

impl Store {
    /// The names, kinds and classes of the lists, in the order in which they were added.
    pub fn lists(&self) -> Lists<'_>
        ensures lists { result ≡ shown_lists (state_of self.now).lists }
        // no name stands twice
        ensures distinct { IsDistinct bytes_eq (names_of (state_of self.now).lists) }
        // the stanzas of each list are of its kind
        ensures kinds { KeepKinds (state_of self.now).lists }
    {
        let entries = self.lists.iter();
        Lists { entries }
    }

    /// Whether one of the lists is a status list. The lists aren't walked: status lists are counted.
    pub fn has_status(&self) -> bool
        ensures { result ≡ has_status (state_of self.now).lists }
    {
        self.statuses > 0
    }

    /// The kind of a list, if there is a list of this name.
    #[tactic(auto, using(crate::proofs::ListedLemmas::at_name_held))]
    pub fn kind(&self, list: &[u8]) -> Option<ListKind>
        ensures { result ≡ option_map (λ l. l.kind) (at_name list.now (state_of self.now).lists) }
    {
        Some(self.lists.get(Name { bytes: list })?.kind())
    }

    /// The kind and the class of a list, if there is a list of this name.
    #[tactic(auto, using(crate::proofs::ListedLemmas::at_name_held))]
    pub fn list(&self, name: &[u8]) -> Option<(ListKind, ListClass)>
        ensures { result ≡ option_map (λ l. (l.kind, l.class)) (at_name name.now (state_of self.now).lists) }
    {
        let listed = self.lists.get(Name { bytes: name })?;
        Some((listed.kind(), listed.class()))
    }

    /// The serial of a list, which its keys have, if there is a list of this name.
    #[tactic(auto, using(crate::proofs::ListedLemmas::at_name_lists))]
    pub fn serial(&self, list: &[u8]) -> Option<u32>
        ensures { result ≡ option_map (λ l. l.serial) (at_name list.now (keyed_of self.now).lists) }
    {
        Some(self.lists.get(Name { bytes: list })?.serial())
    }

    /// All stanzas with their keys, list by list and stanza by stanza.
    pub fn entries(&self) -> Entries<'_>
        ensures entries { result ≡ entries_of (keyed_of self.now).lists }
        // each stands under its key
        ensures stanzas { AreAt result (keyed_of self.now).lists }
        // the keys rise
        ensures order { AreRising (entry_keys result) }
    {
        Entries::new(self.lists.iter())
    }

    /// The keys of all stanzas, list by list and stanza by stanza.
    pub fn keys(&self) -> Keys<'_>
        ensures keys { result ≡ all_keys (keyed_of self.now).lists }
        // those of all stanzas, each with its stanza
        ensures entries { result ≡ entry_keys (entries_of (keyed_of self.now).lists) }
        ensures stanzas { AreAt (entries_of (keyed_of self.now).lists) (keyed_of self.now).lists }
        // they rise
        ensures order { AreRising result }
    {
        Keys::new(self.entries())
    }

    /// The keys of the stanzas of a list, in order. Of a list that is not there it has none.
    #[tactic(auto, using(crate::proofs::ListedLemmas::at_name_lists))]
    pub fn stanzas(&self, list: &[u8]) -> Keys<'_>
        ensures keys { result ≡ all_in list.now (keyed_of self.now).lists }
        ensures held { AreHeld result (keyed_of self.now).lists }
        ensures stanzas { map (λ key. stanza_at key (keyed_of self.now).lists) result
            ≡ map Some (stanzas_named list.now (state_of self.now).lists) }
    {
        match self.lists.get(Name { bytes: list }) {
            Some(listed) => listed.keys(),
            None => Keys::of_list(ListEntries::new(0, &[])),
        }
    }

    /// The stanza of a key, which is one of the store.
    pub fn stanza(&self, key: StanzaKey) -> &Stanza
        requires { IsSome (stanza_at key (keyed_of self.now).lists) }
        ensures { Some result.now ≡ stanza_at key (keyed_of self.now).lists }
    {
        match self.find(key) {
            Some(stanza) => stanza,
            None => unreachable!(),
        }
    }

    /// The stanza of a key, if it is one of the store.
    pub fn find(&self, key: StanzaKey) -> Option<&Stanza>
        ensures stanza { option_copied result ≡ stanza_at key (keyed_of self.now).lists }
        ensures entry { option_copied result ≡ under key (entries_of (keyed_of self.now).lists) }
    {
        match entry_of(&self.lists, key.list) {
            Some((_, listed)) => listed.stanza(key.stanza),
            None => None,
        }
    }

    // The name, the kind and the class of the list of a key, which is one of the store. They are those of each key of its list.
    fn holder(&self, key: StanzaKey) -> (&[u8], ListKind, ListClass)
        requires { IsSome (stanza_at key (keyed_of self.now).lists) }
        ensures name { Some result.0.now ≡ holder_of key (keyed_of self.now).lists }
        ensures kind { Some result.1 ≡ option_map (λ x. x.kind) (stanza_at key (keyed_of self.now).lists) }
        ensures names { (k : StanzaKey) → k.list ≡ key.list → IsSome (stanza_at k (keyed_of self.now).lists)
            → holder_of k (keyed_of self.now).lists ≡ Some result.0.now }
        ensures kinds { (k : StanzaKey) → k.list ≡ key.list → IfSome (stanza_at k (keyed_of self.now).lists) (λ x. x.kind ≡ result.1) }
        ensures kind_named { option_map (λ l. l.kind) (at_name result.0.now (state_of self.now).lists) ≡ Some result.1 }
        ensures class_named { option_map (λ l. l.class) (at_name result.0.now (state_of self.now).lists) ≡ Some result.2 }
    {
        // That no name stands twice is said here.
        let _entries = self.lists.iter();
        match entry_of(&self.lists, key.list) {
            Some((name, listed)) => (name, listed.kind(), listed.class()),
            None => unreachable!(),
        }
    }

    /// The name of the list of a key, which is one of the store.
    pub fn list_of(&self, key: StanzaKey) -> &[u8]
        requires { IsSome (stanza_at key (keyed_of self.now).lists) }
        ensures name { Some result.now ≡ holder_of key (keyed_of self.now).lists }
        // so it is for each key of the list
        ensures each { (k : StanzaKey) → k.list ≡ key.list → IsSome (stanza_at k (keyed_of self.now).lists)
            → holder_of k (keyed_of self.now).lists ≡ Some result.now }
    {
        self.holder(key).0
    }

    /// The name, the kind and the class of the list of a key, which is one of the store. No name is looked for.
    pub fn list_with(&self, key: StanzaKey) -> (&[u8], ListKind, ListClass)
        requires { IsSome (stanza_at key (keyed_of self.now).lists) }
        ensures name { Some result.0.now ≡ holder_of key (keyed_of self.now).lists }
        ensures kind { option_map (λ l. l.kind) (at_name result.0.now (state_of self.now).lists) ≡ Some result.1 }
        ensures class { option_map (λ l. l.class) (at_name result.0.now (state_of self.now).lists) ≡ Some result.2 }
        // the name is that of each key of the list
        ensures each { (k : StanzaKey) → k.list ≡ key.list → IsSome (stanza_at k (keyed_of self.now).lists)
            → holder_of k (keyed_of self.now).lists ≡ Some result.0.now }
    {
        self.holder(key)
    }

    /// The kind of the list of a key, which is one of the store. It is that of its stanza, which isn't looked at.
    pub fn kind_of(&self, key: StanzaKey) -> ListKind
        requires { IsSome (stanza_at key (keyed_of self.now).lists) }
        ensures kind { Some result ≡ option_map (λ x. x.kind) (stanza_at key (keyed_of self.now).lists) }
        // so it is for each key of the list
        ensures each { (k : StanzaKey) → k.list ≡ key.list → IfSome (stanza_at k (keyed_of self.now).lists) (λ x. x.kind ≡ result) }
    {
        self.holder(key).1
    }

    /// The mark of a package: a version, or none; or no mark.
    #[tactic(auto, using(crate::proofs::ListedLemmas::get_at_name))]
    pub fn mark(&self, name: &[u8]) -> Option<Option<&Version>>
        ensures { option_map (λ mark. option_copied mark) result ≡ fin.get (state_of self.now).marks name.now }
    {
        match self.marks.get(Name { bytes: name }) {
            Some(Some(version)) => Some(Some(version)),
            Some(None) => Some(None),
            None => None,
        }
    }

    /// The pin settings, in the order in which their selectors were first set.
    pub fn pins(&self) -> Pins<'_>
        ensures pins { result ≡ (state_of self.now).pins }
        // no selector stands twice
        ensures distinct { AreDistinct result }
    {
        self.pins.iter()
    }

    /// The priority of the general pin on a list, if there is one, as of `Package: *` with `Pin: release a=NAME`. The list
    /// need not be there.
    pub fn general_pin(&self, list: &[u8]) -> Option<i16>
        ensures { result ≡ general_pin list.now (state_of self.now).pins }
    {
        self.pins.general(list)
    }

    /// The specific pins of a package, in the order in which their selectors were first set. They are found in the log of the
    /// number of all pins, and so is each of them.
    pub fn pins_of<'a>(&'a self, name: &'a [u8]) -> PackagePins<'a>
        ensures { result ≡ own_settings name.now (state_of self.now).pins }
    {
        self.pins.of(name)
    }

    /// The name of the list that is the target release, which need not be there.
    pub fn target(&self) -> Option<&[u8]>
        ensures { option_copied result ≡ (state_of self.now).target }
    {
        Some(self.target.as_ref()?.as_slice())
    }

    /// How many stanzas it holds, and how many edits it has accepted. The keys of its stanzas rise in the order of its
    /// lists and of the stanzas in them.
    pub fn counts(&self) -> Counts
        ensures counts { result ≡ record { stanzas = stanza_count (state_of self.now).lists; edits = (state_of self.now).edits } }
        ensures order { AreRising (all_keys (keyed_of self.now).lists) }
    {
        Counts {
            stanzas: self.stanzas,
            edits: self.edits,
        }
    }

    /// The limits that count.
    pub fn limits(&self) -> Limits
        ensures { result ≡ self.now.limits }
    {
        self.limits
    }
}

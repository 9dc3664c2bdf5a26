//! What a cache tells: its store, and, where it isn't stale, what stands in its tables, lent.

ghost use Rattle.std.specs.Prelude.{◌≡◌, ℕ, List, Some, IsSome, false, length, map, option_map};
ghost use Rattle.std.specs.List.Sorted.{IsPermutation};
ghost use Rattle.ctl_relation.specs.Parts.{OfferParts};
ghost use Rattle.ctl_store.specs.declared.stanza_key.StanzaKey.{StanzaKey};
ghost use Rattle.ctl_store.specs.Keys.{AreHeld};
ghost use Rattle.ctl_store.specs.Store.{keyed_of, state_of};
ghost use Rattle.ctl_index.specs.Clauses.{clause_at, number_at, unmet_clauses, number_among};
ghost use Rattle.ctl_index.specs.HeldCache.{standing};
ghost use Rattle.ctl_index.specs.Inside.NameMap.{entry_names};
ghost use Rattle.ctl_index.specs.Names.{known_names, namers_named, with_name};
ghost use Rattle.ctl_index.specs.Offers.{offers_named};
ghost use Rattle.ctl_index.specs.Inside.TablesOrder.{namer_key, kept_namer};
ghost use Rattle.ctl_index.specs.Inside.TablesViews.{offering};
ghost use Rattle.ctl_index.specs.Work.{stanzas_of_state};

use crate::cache::Cache;
use crate::clause_numbers::ClauseNumbers;
use crate::keys::{AtomKey, ClauseKey, NamingAtom, OfferKey};
use crate::name_entries::NameEntries;
use crate::pending_store::{PendingStore, offer_at};
use crate::unmet_set::UnmetClauses;
use ctl_relation::{Atom, Offer};
use ctl_store::{StanzaKey, Store};
use std::marker::Model;

/// The names that are known, by [`Cache::names`], in the order of their bytes.
#[derive(Drop)]
pub struct Names<'a> {
    // What is left of the names, with what stands under them.
    entries: NameEntries<'a>,
}

impl<'a> Model for Names<'a> {
    ghost use Rattle.std.specs.Prelude.{ℕ, List};
    ghost use Rattle.ctl_index.specs.Inside.NameMap.{entry_names};

    ghost Value = { List (List ℕ) };

    ghost view = { λ it. entry_names it.entries };
}

impl<'a> Names<'a> {
    /// The names of these entries.
    pub(crate) fn new(entries: NameEntries<'a>) -> Names<'a>
        ensures { result ≡ entry_names entries.entry }
    {
        Names { entries }
    }
}

impl<'a> Iterator for Names<'a> {
    ghost use Rattle.std.specs.Iterator.{YieldsFirstBy, item_count};

    ghost next_gives = { YieldsFirstBy (λ item. item.now) (λ rest. rest) };

    ghost remaining = { item_count (λ rest. rest) };

    type Item = &'a [u8];

    fn next(&mut self) -> Option<&'a [u8]> {
        match self.entries.next() {
            Some((name, _)) => Some(name),
            None => None,
        }
    }
}

/// The offers of a name, by [`Cache::offers`], each with the key of its stanza.
#[derive(Drop)]
pub struct Offers<'a> {
    store: &'a Store,
    keys: &'a [OfferKey],
}

impl<'a> Model for Offers<'a> {
    ghost use Rattle.std.specs.Prelude.{List, map};
    ghost use Rattle.ctl_relation.specs.Parts.{OfferParts};
    ghost use Rattle.ctl_store.specs.declared.stanza_key.StanzaKey.{StanzaKey};
    ghost use Rattle.ctl_index.specs.Inside.TablesViews.{offer_found, AreFound};

    ghost Value = { List (StanzaKey × OfferParts) };

    ghost view = { λ it. map (offer_found it.store.now) it.keys.now };

    ghost invariant = { λ it. AreFound it.store.now it.keys.now };
}

impl<'a> Iterator for Offers<'a> {
    ghost use Rattle.std.specs.Iterator.{YieldsFirstBy, item_count};

    ghost next_gives = { YieldsFirstBy (λ item. (item.0, item.1.now)) (λ rest. rest) };

    ghost remaining = { item_count (λ rest. rest) };

    type Item = (StanzaKey, &'a Offer);

    fn next(&mut self) -> Option<(StanzaKey, &'a Offer)> {
        let (key, rest) = self.keys.split_first()?;
        let pending = PendingStore {
            store: self.store,
            plan: None,
        };
        match offer_at(&pending, *key) {
            Some(offer) => {
                self.keys = rest;
                Some((key.stanza.key(), offer))
            }
            None => unreachable!(),
        }
    }
}

/// The stanzas that offer a name, by [`NameView::offering`](crate::NameView::offering).
#[derive(Drop)]
pub struct Offering<'a> {
    keys: &'a [OfferKey],
}

impl<'a> Model for Offering<'a> {
    ghost use Rattle.std.specs.Prelude.{List};
    ghost use Rattle.ctl_store.specs.declared.stanza_key.StanzaKey.{StanzaKey};
    ghost use Rattle.ctl_index.specs.Inside.TablesViews.{offering};

    ghost Value = { List StanzaKey };

    ghost view = { λ it. offering it.keys.now };
}

impl<'a> Offering<'a> {
    /// The stanzas of the offers of these keys.
    pub(crate) fn new(keys: &'a [OfferKey]) -> Offering<'a>
        ensures { result ≡ offering keys.now }
    {
        Offering { keys }
    }
}

impl<'a> Iterator for Offering<'a> {
    ghost use Rattle.std.specs.Iterator.{YieldsFirst, item_count};

    ghost next_gives = { YieldsFirst (λ rest. rest) };

    ghost remaining = { item_count (λ rest. rest) };

    type Item = StanzaKey;

    fn next(&mut self) -> Option<StanzaKey> {
        let (key, rest) = self.keys.split_first()?;
        self.keys = rest;
        Some(key.stanza.key())
    }
}

/// The atoms that name a name, by [`Cache::namers`].
#[derive(Drop)]
pub struct Namers<'a> {
    namers: &'a [NamingAtom],
}

impl<'a> Model for Namers<'a> {
    ghost use Rattle.std.specs.Prelude.{List, map};
    ghost use Rattle.ctl_index.specs.declared.keys.AtomKey.{AtomKey};
    ghost use Rattle.ctl_index.specs.Inside.TablesOrder.{namer_key};

    ghost Value = { List AtomKey };

    ghost view = { λ it. map namer_key it.namers.now };
}

impl<'a> Namers<'a> {
    /// The atoms of these namers.
    pub(crate) fn new(namers: &'a [NamingAtom]) -> Namers<'a>
        ensures { result ≡ map namer_key namers.now }
    {
        Namers { namers }
    }
}

impl<'a> Iterator for Namers<'a> {
    ghost use Rattle.std.specs.Iterator.{YieldsFirst, item_count};

    ghost next_gives = { YieldsFirst (λ rest. rest) };

    ghost remaining = { item_count (λ rest. rest) };

    type Item = AtomKey;

    fn next(&mut self) -> Option<AtomKey> {
        let (namer, rest) = self.namers.split_first()?;
        self.namers = rest;
        Some(namer.key())
    }
}

/// An atom that names a name, by [`KeptNamers`]: its key, and what is kept of it.
#[derive(Drop)]
pub struct KeptNamer<'a> {
    namer: &'a NamingAtom,
}

impl<'a> Model for KeptNamer<'a> {
    ghost use Rattle.ctl_index.specs.Names.{KeptNamer as KeyAndKept};
    ghost use Rattle.ctl_index.specs.Inside.TablesOrder.{kept_namer};

    ghost Value = { KeyAndKept };

    ghost view = { λ n. kept_namer n.namer.now };
}

impl<'a> KeptNamer<'a> {
    /// The key of the atom.
    pub fn key(&self) -> AtomKey
        ensures { result ≡ self.now.0 }
    {
        self.namer.key()
    }

    /// The atom with this name, if it is kept.
    pub fn atom(&self, name: &'a [u8]) -> Option<Atom<'a>>
        ensures { result ≡ option_map (with_name name.now) self.now.1 }
    {
        self.namer.kept.atom(name)
    }

    /// The same atom once more.
    pub fn copied(&self) -> KeptNamer<'a>
        ensures { result ≡ self.now }
    {
        KeptNamer { namer: self.namer }
    }
}

/// The atoms that name a name, each with what is kept of it, by [`NameView::kept_namers`](crate::NameView::kept_namers).
#[derive(Drop)]
pub struct KeptNamers<'a> {
    namers: &'a [NamingAtom],
}

impl<'a> Model for KeptNamers<'a> {
    ghost use Rattle.std.specs.Prelude.{List, map};
    ghost use Rattle.ctl_index.specs.Names.{KeptNamer as KeyAndKept};
    ghost use Rattle.ctl_index.specs.Inside.TablesOrder.{kept_namer};

    ghost Value = { List KeyAndKept };

    ghost view = { λ it. map kept_namer it.namers.now };
}

impl<'a> KeptNamers<'a> {
    /// The atoms of these namers.
    pub(crate) fn new(namers: &'a [NamingAtom]) -> KeptNamers<'a>
        ensures { result ≡ map kept_namer namers.now }
    {
        KeptNamers { namers }
    }

    /// How many are left.
    pub fn len(&self) -> usize
        ensures { result ≡ length self.now }
    {
        self.namers.len()
    }
}

impl<'a> Iterator for KeptNamers<'a> {
    ghost use Rattle.std.specs.Iterator.{YieldsFirst, item_count};

    ghost next_gives = { YieldsFirst (λ rest. rest) };

    ghost remaining = { item_count (λ rest. rest) };

    type Item = KeptNamer<'a>;

    fn next(&mut self) -> Option<KeptNamer<'a>> {
        let (namer, rest) = self.namers.split_first()?;
        self.namers = rest;
        Some(KeptNamer { namer })
    }
}

impl Cache {
    /// The store.
    pub fn store(&self) -> &Store
        ensures { result.now ≡ self.now.store }
    {
        &self.store
    }

    /// Whether an edit found no memory in the middle, so that the tables are to be made anew.
    pub fn is_stale(&self) -> bool
        ensures { result ≡ self.now.stale }
    {
        self.stale
    }

    /// How many tests of an offer against an atom were made by [`apply`](Cache::apply) and [`recover`](Cache::recover).
    pub fn steps(&self) -> u128
        ensures { result ≡ self.now.steps }
    {
        self.tables.steps.count()
    }

    /// The names that are known, in the order of their bytes, each once: those that are offered, and those that an atom names.
    pub fn names(&self) -> Names<'_>
        requires { self.now.stale ≡ false }
        ensures { result ≡ known_names (stanzas_of_state (state_of self.now.store)) }
    {
        let entries = self.tables.names.entries();
        Names { entries }
    }

    /// The offers of a name, in any order.
    pub fn offers(&self, name: &[u8]) -> Offers<'_>
        requires { self.now.stale ≡ false }
        ensures offers { IsPermutation (offers_named name.now (standing self.now.store)) result }
        ensures held { AreHeld (map (λ offer. offer.0) result) (keyed_of self.now.store).lists }
    {
        // That the keys rise is said here.
        let _counts = self.store.counts();
        Offers {
            store: &self.store,
            keys: self.tables.names.offers(name),
        }
    }

    /// The atoms of the eight fields that name a name, in any order.
    pub fn namers(&self, name: &[u8]) -> Namers<'_>
        requires { self.now.stale ≡ false }
        ensures namers { IsPermutation (namers_named name.now (standing self.now.store)) result }
        ensures held { AreHeld (map (λ key. key.stanza) result) (keyed_of self.now.store).lists }
    {
        // That the keys rise is said here.
        let _counts = self.store.counts();
        Namers::new(self.tables.names.namers(name))
    }

    /// The number of a clause, which is one of the store: how many pairs of one of its atoms and an offer meet.
    #[tactic(auto, using(crate::proofs::ViewLemmas::has_number))]
    pub fn satisfiers(&self, clause: ClauseKey) -> u128
        requires fresh { self.now.stale ≡ false }
        requires clause { IsSome (clause_at clause (standing self.now.store)) }
        ensures { Some result ≡ number_at clause (standing self.now.store) }
    {
        match self.tables.counters.numbers().get(clause) {
            Some(number) => number,
            None => unreachable!(),
        }
    }

    /// The clauses that no offer meets, in order.
    pub fn unmet_clauses(&self) -> UnmetClauses<'_>
        requires { self.now.stale ≡ false }
        ensures { result ≡ unmet_clauses (standing self.now.store) }
    {
        // That the keys rise is said here.
        let _counts = self.store.counts();
        self.tables.counters.unmet().iter()
    }

    /// The number of each clause.
    pub fn counters(&self) -> &ClauseNumbers
        requires { self.now.stale ≡ false }
        ensures { (k : ClauseKey) → number_among result.now k ≡ number_at k (standing self.now.store) }
    {
        self.tables.counters.numbers()
    }
}

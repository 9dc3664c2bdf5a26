//! The number of each clause.

ghost use Rattle.std.specs.Prelude.{◌≡◌, ◌-◌, ℕ, [], None, Some, OnOk, true, false, option_map, if◌then◌else◌};
ghost use Rattle.std.specs.Bool.{OnTrue};
ghost use Rattle.std.specs.Ordering.{is_eq};
ghost use Rattle.ctl_store.specs.Keys.{key_is};
ghost use Rattle.ctl_index.specs.Clauses.{clause_cmp, number_among};
ghost use Rattle.ctl_index.specs.Inside.TablesCounters.{counted_up};
ghost use Rattle.ctl_index.specs.Inside.ClauseNumbers.{number_at_place, place_of};
ghost use Rattle.ctl_index.specs.declared.keys.ClauseKey.{ClauseKey};

use crate::clause_number::ClauseNumber;
use crate::keys::ClauseKey;
use crate::packed_key::PackedKey;
use crate::stanza_numbers::{ClausePlace, StanzaNumbers};
use ctl_store::StanzaKey;
use std::alloc::{AllocError, Global};
use std::collections::{BTreeMap, btree_map};
use std::marker::Model;

/// The number of each clause, by [`Cache::counters`](crate::Cache::counters).
///
/// Those of one stanza stand side by side, so that a stanza that comes is one entry of a tree, and not one for each of its clauses.
#[derive(Drop)]
pub struct ClauseNumbers {
    alloc: Global,
    stanzas: BTreeMap<PackedKey, StanzaNumbers>,
}

impl Model for ClauseNumbers {
    ghost use Rattle.std.specs.BTreeMap.{IsOrdered};
    ghost use Rattle.ctl_store.specs.Keys.{key_cmp};
    ghost use Rattle.ctl_index.specs.Inside.TablesCounters.{Numbers};
    ghost use Rattle.ctl_index.specs.Inside.ClauseNumbers.{all_numbered};

    ghost Value = { Numbers };

    ghost view = { λ c. all_numbered c.stanzas.entries };

    ghost invariant = { λ c. IsOrdered key_cmp c.stanzas };
}

impl ClauseNumbers {
    /// No clause. It takes no memory.
    pub(crate) fn new(alloc: Global) -> ClauseNumbers
        ensures { result ≡ [] }
    {
        ClauseNumbers {
            alloc,
            stanzas: BTreeMap::new(alloc),
        }
    }

    /// No clause from now on.
    pub(crate) fn clear(&mut self)
        ensures { self.new ≡ [] }
    {
        self.stanzas.clear();
    }

    /// The number of a clause, if it is there.
    pub fn get(&self, clause: ClauseKey) -> Option<u128>
        ensures { result ≡ number_among self.now clause }
    {
        match self.stanzas.get(&PackedKey::new(clause.stanza)) {
            Some(numbers) => numbers.get(ClausePlace::of(clause)),
            None => None,
        }
    }

    /// The clause, if it is there, counts one more. It tells what it counted before.
    pub(crate) fn raise(&mut self, clause: ClauseKey) -> Option<u128>
        ensures before { result ≡ number_among self.old clause }
        ensures after { (k : ClauseKey) → number_among self.new k
            ≡ option_map (counted_up (if is_eq (clause_cmp clause k) then 1 else 0)) (number_among self.old k) }
    {
        match self.stanzas.get_mut(&PackedKey::new(clause.stanza)) {
            Some(numbers) => numbers.raise(ClausePlace::of(clause)),
            None => None,
        }
    }

    /// The clause, if it is there, counts one less. It tells what it counted before.
    pub(crate) fn lower(&mut self, clause: ClauseKey) -> Option<u128>
        ensures before { result ≡ number_among self.old clause }
        ensures after { (k : ClauseKey) → number_among self.new k
            ≡ option_map (λ n. n - (if is_eq (clause_cmp clause k) then 1 else 0)) (number_among self.old k) }
    {
        match self.stanzas.get_mut(&PackedKey::new(clause.stanza)) {
            Some(numbers) => numbers.lower(ClausePlace::of(clause)),
            None => None,
        }
    }

    // Whether the last stanza that has a number is before this one.
    fn ends_before(&self, stanza: StanzaKey) -> bool
        ensures { OnTrue result ((k : ClauseKey) → key_is k.stanza stanza ≡ true → number_among self.now k ≡ None) }
    {
        match self.stanzas.last_key_value() {
            Some((last, _)) => last.cmp(&PackedKey::new(stanza)).is_lt(),
            None => false,
        }
    }

    /// The clauses of a stanza go, and are told. Those of a stanza that comes mostly stand behind all, and need not be looked for.
    pub(crate) fn take(&mut self, stanza: StanzaKey) -> StanzaNumbers
        ensures told { (k : ClauseKey) → key_is k.stanza stanza ≡ true → number_among self.old k ≡ number_at_place (place_of k) result }
        ensures gone { (k : ClauseKey) → number_among self.new k
            ≡ (if key_is k.stanza stanza then None else number_among self.old k) }
    {
        if self.ends_before(stanza) {
            return StanzaNumbers::none(self.alloc);
        }
        let Some(numbers) = self.stanzas.remove(&PackedKey::new(stanza)) else {
            return StanzaNumbers::none(self.alloc);
        };
        numbers
    }

    /// A stanza has these numbers from now on.
    pub(crate) fn put(
        &mut self,
        stanza: StanzaKey,
        numbers: StanzaNumbers,
    ) -> Result<(), AllocError>
        ensures { OnOk result ((k : ClauseKey) → number_among self.new k
            ≡ (if key_is k.stanza stanza then number_at_place (place_of k) numbers else number_among self.old k)) }
    {
        self.stanzas.insert(PackedKey::new(stanza), numbers)?;
        Ok(())
    }

    /// Each clause with its number.
    pub fn iter(&self) -> NumberedClauses<'_>
        ensures { result ≡ self.now }
    {
        NumberedClauses {
            stanzas: self.stanzas.iter(),
            stanza: StanzaKey { list: 0, stanza: 0 },
            clauses: &[],
        }
    }
}

/// Clauses with their numbers, by [`ClauseNumbers::iter`].
#[derive(Drop)]
pub struct NumberedClauses<'a> {
    stanzas: btree_map::Iter<'a, PackedKey, StanzaNumbers>,
    // Those that are left of this stanza come before those of the others.
    stanza: StanzaKey,
    clauses: &'a [(ClausePlace, ClauseNumber)],
}

impl<'a> Model for NumberedClauses<'a> {
    ghost use Rattle.std.specs.Prelude.{List, ℕ, ◌++◌};
    ghost use Rattle.ctl_index.specs.declared.keys.ClauseKey.{ClauseKey};
    ghost use Rattle.ctl_index.specs.Inside.ClauseNumbers.{all_numbered, clauses_numbered};

    ghost Value = { List (ClauseKey × ℕ) };

    ghost view = { λ it. clauses_numbered it.stanza it.clauses.now ++ all_numbered it.stanzas };
}

impl<'a> Iterator for NumberedClauses<'a> {
    ghost use Rattle.std.specs.Iterator.{YieldsFirst, item_count};

    ghost next_gives = { YieldsFirst (λ rest. rest) };

    ghost remaining = { item_count (λ rest. rest) };

    type Item = (ClauseKey, u128);

    fn next(&mut self) -> Option<(ClauseKey, u128)> {
        'stanzas: loop {
            if let Some((clause, rest)) = self.clauses.split_first() {
                self.clauses = rest;
                return Some((clause.0.clause(self.stanza), clause.1.get()));
            }
            let (stanza, numbers) = self.stanzas.next()?;
            self.stanza = stanza.key();
            self.clauses = numbers.as_slice();
        }
    }
}

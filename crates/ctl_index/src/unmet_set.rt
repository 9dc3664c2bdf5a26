//! The clauses at 0.

ghost use Rattle.std.specs.Prelude.{◌≡◌, true, false, OnOk, OnErr, if◌then◌else◌};
ghost use Rattle.std.specs.BTreeMap.{get, IsOrdered as IsInOrder};
ghost use Rattle.std.specs.BTreeSet.{contains, IsOrdered};
ghost use Rattle.std.specs.Ordering.{is_eq};
ghost use Rattle.ctl_index.specs.Clauses.{clause_cmp};
ghost use Rattle.ctl_index.specs.declared.keys.ClauseKey.{ClauseKey};

use crate::keys::ClauseKey;
use crate::packed_clause::PackedClause;
use std::alloc::{AllocError, Global};
use std::collections::{BTreeMap, btree_map};
use std::marker::Model;

// Up to how many places a clause that leaves keeps its own.
const MOST_PLACES: usize = 32_768;

/// The clauses that stand at 0, in order.
///
/// One that leaves keeps its place, which says so, unless there are very many places. Where a package goes that twenty thousand
/// others depend on, and comes again, so many clauses come and leave: that no node of the tree is made and freed for them takes a
/// fifth less time.
#[derive(Drop)]
pub(crate) struct UnmetSet {
    // Whether each clause that has a place is at 0.
    places: BTreeMap<PackedClause, bool>,
}

impl Model for UnmetSet {
    ghost use Rattle.std.specs.BTreeMap.{IsOrdered};
    ghost use Rattle.std.specs.BTreeSet.{BTreeSet};
    ghost use Rattle.ctl_index.specs.declared.keys.ClauseKey.{ClauseKey};
    ghost use Rattle.ctl_index.specs.Clauses.{clause_cmp};
    ghost use Rattle.ctl_index.specs.Inside.UnmetSet.{unmet_of};

    ghost Value = { BTreeSet ClauseKey };

    ghost view = { λ s. unmet_of s.places };

    ghost invariant = { λ s. IsOrdered clause_cmp s.places };
}

impl UnmetSet {
    /// No clause. It takes no memory.
    pub(crate) fn new(alloc: Global) -> UnmetSet
        ensures { (k : ClauseKey) → contains clause_cmp result k ≡ false }
    {
        UnmetSet {
            places: BTreeMap::new(alloc),
        }
    }

    /// No clause from now on.
    pub(crate) fn clear(&mut self)
        ensures { (k : ClauseKey) → contains clause_cmp self.new k ≡ false }
    {
        self.places.clear();
    }

    /// A clause comes.
    pub(crate) fn insert(&mut self, key: PackedClause) -> Result<(), AllocError>
        ensures ok { OnOk result ((k : ClauseKey) → contains clause_cmp self.new k
            ≡ (if is_eq (clause_cmp key k) then true else contains clause_cmp self.old k)) }
        ensures err { OnErr result (self.new ≡ self.old) }
    {
        let _ = self.places.insert(key, true)?;
        Ok(())
    }

    // A clause leaves, if it is there, and its place stays.
    fn keep_place(&mut self, key: PackedClause)
        ensures { (k : ClauseKey) → contains clause_cmp self.new k
            ≡ (if is_eq (clause_cmp key k) then false else contains clause_cmp self.old k) }
    {
        match self.places.get_mut(&key) {
            Some(is_unmet) => *is_unmet = false,
            None => {}
        }
    }

    /// A clause leaves, if it is there: it counts more than 0.
    pub(crate) fn leave(&mut self, key: PackedClause)
        ensures { (k : ClauseKey) → contains clause_cmp self.new k
            ≡ (if is_eq (clause_cmp key k) then false else contains clause_cmp self.old k) }
    {
        if self.places.len() < MOST_PLACES {
            self.keep_place(key);
        } else {
            self.remove(key);
        }
    }

    /// A clause leaves, if it is there, and no place is kept for it.
    pub(crate) fn remove(&mut self, key: PackedClause)
        ensures { (k : ClauseKey) → contains clause_cmp self.new k
            ≡ (if is_eq (clause_cmp key k) then false else contains clause_cmp self.old k) }
    {
        let _ = self.places.remove(&key);
    }

    /// A clause comes or leaves. Most that leave here are above all that have a place, and need not be looked for.
    #[tactic(auto, using(crate::proofs::CounterLemmas::marked_already))]
    pub(crate) fn mark(&mut self, key: PackedClause, is_unmet: bool) -> Result<(), AllocError>
        ensures ok { OnOk result ((k : ClauseKey) → contains clause_cmp self.new k
            ≡ (if is_eq (clause_cmp key k) then is_unmet else contains clause_cmp self.old k)) }
        ensures err { OnErr result (self.new ≡ self.old) }
    {
        if is_unmet {
            return self.insert(key);
        }
        match self.places.last_key_value() {
            Some((last, _)) => {
                if last.cmp(&key).is_ge() {
                    self.leave(key);
                }
            }
            None => {}
        }
        Ok(())
    }

    /// Those that are there, in order.
    pub(crate) fn iter(&self) -> UnmetClauses<'_>
        ensures keys { result ≡ self.now.keys }
        ensures ordered { IsOrdered clause_cmp self.now }
    {
        UnmetClauses {
            places: self.places.iter(),
        }
    }
}

/// The clauses that no offer meets, by [`Cache::unmet_clauses`](crate::Cache::unmet_clauses), in order.
#[derive(Drop)]
pub struct UnmetClauses<'a> {
    places: btree_map::Iter<'a, PackedClause, bool>,
}

impl<'a> Model for UnmetClauses<'a> {
    ghost use Rattle.std.specs.Prelude.{List};
    ghost use Rattle.ctl_index.specs.declared.keys.ClauseKey.{ClauseKey};
    ghost use Rattle.ctl_index.specs.Inside.UnmetSet.{unmet_keys};

    ghost Value = { List ClauseKey };

    ghost view = { λ it. unmet_keys it.places };
}

impl<'a> Iterator for UnmetClauses<'a> {
    ghost use Rattle.std.specs.Iterator.{YieldsFirst, item_count};

    ghost next_gives = { YieldsFirst (λ rest. rest) };

    ghost remaining = { item_count (λ rest. rest) };

    type Item = ClauseKey;

    fn next(&mut self) -> Option<ClauseKey> {
        'places: while let Some((key, at_zero)) = self.places.next() {
            if *at_zero {
                return Some(key.key());
            }
        }
        None
    }
}

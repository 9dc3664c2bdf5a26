//! What an answer is asked of: a cache that isn't stale, and what stands in it under names.

ghost use Rattle.std.specs.Prelude.{◌≡◌, ◌&&◌, ℕ, List, IfOk, IfSome, IsSome, Some, true, false, map};
ghost use Rattle.std.specs.List.{All, AllByRecursion};
ghost use Rattle.std.specs.Cmp.Lexicographic.{slice_cmp};
ghost use Rattle.std.specs.List.Sorted.{IsPermutation, IsStrictlySortedBy};
ghost use Rattle.std.specs.Ordering.{nat_cmp, is_le};
ghost use Rattle.ctl_store.specs.Store.{keyed_of};
ghost use Rattle.ctl_store.specs.Entries.{Entry};
ghost use Rattle.ctl_store.specs.Followed.{under};
ghost use Rattle.ctl_store.specs.Keys.{AreHeld, AreRising};
ghost use Rattle.ctl_index.specs.Clauses.{clause_at, number_at, unmet_clauses};
ghost use Rattle.ctl_index.specs.HeldCache.{standing};
ghost use Rattle.ctl_index.specs.LeadKeys.{lead_keys};
ghost use Rattle.ctl_index.specs.Names.{is_package, namers_named, kept_namers_named};
ghost use Rattle.ctl_index.specs.Offers.{offers_named};
ghost use Rattle.ctl_policy.specs.Candidate.{candidate_of};
ghost use Rattle.ctl_policy.specs.Chosen.{choice_in};
ghost use Rattle.ctl_policy.specs.Priority.{world_of};
ghost use Rattle.ctl_policy.specs.Rows.{keys_of_row, lead_at, newest_first, rows_named};
ghost use Rattle.ctl_query.specs.Inside.AskedNames.{IsLookedUp, names_asked};
ghost use Rattle.ctl_query.specs.Interest.{offering_named};
ghost use Rattle.ctl_query.specs.Leads.{leads_named};
ghost use Rattle.ctl_query.specs.NameSet.{is_among};
ghost use Rattle.ctl_query.specs.PackageNames.{begins_with};
ghost use Rattle.ctl_query.specs.Packages.{has_row, is_installed, is_known, names_known, packages_of, rows_of, stanzas_of};

use crate::leads::Leads;
use ctl_index::{
    AllRows, Cache, ClauseKey, NameView, Namers, Names, Offers, PackageNames, Packages,
    UnmetClauses,
};
use ctl_policy::{NewestFirst, rows_are_classes};
use ctl_relation::{Bytes, Version};
use ctl_store::{StanzaKey, Store};
use std::alloc::{AllocError, Global};
use std::marker::Model;

/// A name that is asked for, with what stands under it, so that it is looked up once.
#[derive(Drop)]
pub(crate) struct AskedName<'a> {
    pub(crate) name: &'a [u8],
    pub(crate) view: NameView<'a>,
}

/// A cache that isn't stale, seen as what is held in it, and what gives an answer its memory.
#[derive(Drop)]
pub(crate) struct Asking<'a> {
    alloc: Global,
    cache: &'a Cache,
}

impl<'a> Model for Asking<'a> {
    ghost use Rattle.std.specs.Prelude.{◌≡◌, false};
    ghost use Rattle.ctl_store.specs.Store.{Held};

    ghost Value = { Held };

    ghost view = { λ asking. asking.cache.now.store };

    ghost invariant = { λ asking. asking.cache.now.stale ≡ false };
}

impl<'a> Asking<'a> {
    /// What is asked of this cache.
    pub(crate) fn new(alloc: Global, cache: &'a Cache) -> Asking<'a>
        requires { cache.now.stale ≡ false }
        ensures { result ≡ cache.now.store }
    {
        Asking { alloc, cache }
    }

    /// What gives an answer its memory.
    pub(crate) fn alloc(&self) -> Global {
        self.alloc
    }

    /// The store of the cache.
    pub(crate) fn store(&self) -> &'a Store
        ensures { result.now ≡ self.now }
    {
        self.cache.store()
    }

    /// The names that have a row, in the order of their bytes.
    pub(crate) fn packages(&self) -> Packages<'a>
        ensures { result ≡ packages_of (world_of self.now) }
    {
        rows_are_classes();
        self.cache.packages()
    }

    /// The names of packages that begin with a prefix, in the order of their bytes. No other name is looked at.
    pub(crate) fn package_names(&self, prefix: &[u8]) -> Result<PackageNames<'a>, AllocError>
        ensures order { IfOk result (λ names. IsStrictlySortedBy (slice_cmp nat_cmp) names) }
        ensures members { IfOk result (λ names. (name : List ℕ) → is_among names name
            ≡ (begins_with prefix.now name && is_package (stanzas_of (world_of self.now)) name)) }
    {
        self.cache.package_names(prefix)
    }

    /// The names that are known and not before a prefix, in the order of their bytes. Those that begin with it come first.
    pub(crate) fn names_from(&self, prefix: &[u8]) -> Result<Names<'a>, AllocError>
        ensures order { IfOk result (λ names. IsStrictlySortedBy (slice_cmp nat_cmp) names) }
        ensures from { IfOk result (λ names. AllByRecursion (λ name. is_le (slice_cmp nat_cmp prefix.now name) ≡ true) names) }
        ensures members { IfOk result (λ names. (name : List ℕ) → begins_with prefix.now name ≡ true
            → is_among names name ≡ is_among (names_known (world_of self.now)) name) }
    {
        self.cache.names_from(prefix)
    }

    /// The rows of a name, newest first.
    #[tactic(auto, unfolding(crate::specs::Packages::rows_of))]
    pub(crate) fn rows(&self, name: &[u8]) -> NewestFirst<'a>
        ensures rows { result ≡ rows_of (world_of self.now) name.now }
        ensures held { AllByRecursion (λ row. AreHeld row (keyed_of self.now).lists) result }
    {
        self.cache.row_keys(name)
    }

    /// The leads of the rows of a name, newest first, each under its key.
    pub(crate) fn leads(&self, name: &[u8]) -> Leads<'a>
        ensures leads { result ≡ leads_named (world_of self.now) name.now }
        ensures found { AllByRecursion (λ (e : Entry). under e.0 (standing self.now) ≡ Some e.1) result }
    {
        Leads::new(self.store(), self.rows(name))
    }

    /// What stands under a name, of which it is looked up once.
    #[tactic(auto, unfolding(crate::specs::Packages::is_known, crate::specs::Packages::rows_of))]
    pub(crate) fn view(&self, name: &[u8]) -> NameView<'a>
        ensures known { result.is_known ≡ is_known (world_of self.now) name.now }
        ensures rows { result.rows ≡ rows_of (world_of self.now) name.now }
        ensures held { AllByRecursion (λ row. AreHeld row (keyed_of self.now).lists) result.rows }
        ensures rising { AllByRecursion AreRising result.rows }
        ensures offering { IsPermutation (offering_named self.now name.now) result.offering }
        ensures kept { IsPermutation (kept_namers_named name.now (standing self.now)) result.kept_namers }
        ensures chosen { result.chosen ≡ choice_in name.now (world_of self.now) }
    {
        rows_are_classes();
        // That all keys rise is said here.
        let _counts = self.cache.store().counts();
        self.cache.name_view(name)
    }

    /// Whether a name has a row.
    pub(crate) fn has_row(&self, name: &[u8]) -> bool
        ensures { result ≡ has_row (world_of self.now) name.now }
    {
        self.cache.has_row(name)
    }

    /// Whether a row of a name is installed.
    pub(crate) fn is_installed(&self, name: &[u8]) -> bool
        ensures { result ≡ is_installed (world_of self.now) name.now }
    {
        self.cache.installed(name).is_some()
    }

    /// The lead of the candidate of a name.
    pub(crate) fn candidate(&self, name: &[u8]) -> Option<StanzaKey>
        ensures { result ≡ candidate_of name.now (world_of self.now) }
    {
        self.cache.candidate(name)
    }

    /// The lead of the row of a name whose version is equal to this one, if there is one.
    pub(crate) fn lead(&self, name: &[u8], version: &Version) -> Option<StanzaKey>
        ensures { result ≡ lead_at (rows_named name.now (keyed_of self.now).lists) version.now }
    {
        self.cache.lead(name, version)
    }

    /// The offers of a name, in any order.
    pub(crate) fn offers(&self, name: &[u8]) -> Offers<'a>
        ensures offers { IsPermutation (offers_named name.now (standing self.now)) result }
        ensures held { AreHeld (map (λ offer. offer.0) result) (keyed_of self.now).lists }
    {
        self.cache.offers(name)
    }

    /// The atoms of the eight fields that name a name, in any order.
    pub(crate) fn namers(&self, name: &[u8]) -> Namers<'a>
        ensures namers { IsPermutation (namers_named name.now (standing self.now)) result }
    {
        self.cache.namers(name)
    }

    /// The rows of each known name, newest first, in the order of the names.
    pub(crate) fn all_rows(&self) -> AllRows<'a>
        ensures { result ≡ map (λ (name : List ℕ). map keys_of_row (newest_first (rows_named name (keyed_of self.now).lists)))
            (names_known (world_of self.now)) }
    {
        self.cache.all_rows()
    }

    /// The keys of the leads of all rows, name by name, and of each the newest first, where the cache keeps them.
    pub(crate) fn kept_leads(&self) -> Option<&'a [StanzaKey]>
        ensures { IfSome result (λ leads. leads.now ≡ lead_keys self.now) }
    {
        self.cache.kept_leads()
    }

    /// The clauses that no offer meets, in order.
    pub(crate) fn unmet_clauses(&self) -> UnmetClauses<'a>
        ensures { result ≡ unmet_clauses (standing self.now) }
    {
        self.cache.unmet_clauses()
    }

    /// The number of a clause, which is one of the store: how many pairs of one of its atoms and an offer meet.
    pub(crate) fn satisfiers(&self, clause: ClauseKey) -> u128
        requires { IsSome (clause_at clause (standing self.now)) }
        ensures { Some result ≡ number_at clause (standing self.now) }
    {
        self.cache.satisfiers(clause)
    }
}

// A name with what stands under it.
fn asked_of<'a>(asking: &Asking<'a>, name: &'a [u8]) -> AskedName<'a>
    ensures name { result.name.now ≡ name.now }
    ensures looked_up { IsLookedUp asking.now result }
{
    let view = asking.view(name);
    AskedName { name, view }
}

/// Names with what stands under each.
pub(crate) fn look_up<'a>(
    asking: &Asking<'a>,
    names: &'a [Bytes],
) -> Result<Vec<AskedName<'a>>, AllocError>
    ensures names { IfOk result (λ asked. names_asked asked.items ≡ names.now) }
    ensures looked_up { IfOk result (λ asked. All (IsLookedUp asking.now) asked.items) }
{
    let mut asked = Vec::with_capacity(asking.alloc(), names.len())?;
    for name in names {
        asked.push(asked_of(asking, name.as_slice()))?;
    }
    Ok(asked)
}

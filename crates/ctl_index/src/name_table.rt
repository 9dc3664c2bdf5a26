//! The table of names: who offers each name, the atoms that name it, its rows, and what is chosen of them.

ghost use Rattle.std.specs.Prelude.{◌≡◌, ◌≤◌, ◌<◌, ◌^◌, ◌∷◌, ◌++◌, ◌+◌, ◌-◌, ℕ, [], List, None, Some, OnOk, IfOk, IfSome, IfNone, is_some, option_copied, option_map, true, nat_eq, if◌then◌else◌};
ghost use Rattle.std.specs.Cmp.Lexicographic.{slice_cmp};
ghost use Rattle.std.specs.FinMap as fin;
ghost use Rattle.std.specs.Ordering.{nat_cmp};
ghost use Rattle.std.specs.List.{sum_by, starts_with};
ghost use Rattle.std.specs.List.Sorted.{IsStrictlySortedBy};
ghost use Rattle.std.specs.Str.{bytes_eq};
ghost use Rattle.ctl_store.specs.Store.{keyed_of};
ghost use Rattle.ctl_policy.specs.Chosen.{choice_in, no_choice};
ghost use Rattle.ctl_policy.specs.Kept.{HasPut, HasTaken, OthersStay};
ghost use Rattle.ctl_policy.specs.Priority.{world_of};
ghost use Rattle.ctl_policy.specs.Rows.{AreRowsOf};
ghost use Rattle.ctl_index.specs.Clauses.{number_among};
ghost use Rattle.ctl_index.specs.Inside.TablesByName.{at_name, HoldsNothing, offers_under, namers_under, own_under, rows_under, chosen_under, AreUsed, is_used, named_namers, named_offers, named_own};
ghost use Rattle.ctl_index.specs.Inside.TablesChosen.{AreRenewed, HasSameRows, are_asked};
ghost use Rattle.ctl_index.specs.Inside.TablesPending.{atom_met, atom_tested, missing};
ghost use Rattle.ctl_index.specs.Inside.NameMap.{entry_names, found_in};
ghost use Rattle.ctl_index.specs.Inside.TablesCounters.{less_by};
ghost use Rattle.ctl_index.specs.Inside.TablesViews.{AreFrom};
ghost use Rattle.ctl_index.specs.Inside.TablesOrder.{namer_of, namer_stanza, offer_stanza, without_if};
ghost use Rattle.ctl_index.specs.Inside.TablesCounters.{counted_up};
ghost use Rattle.ctl_index.specs.Inside.TablesTests.{offer_hits, offer_tested};
ghost use Rattle.ctl_index.specs.Work.{more_by};
ghost use Rattle.ctl_index.specs.declared.keys.ClauseKey.{ClauseKey};

use crate::counters::Counters;
use crate::counting::{count_tested, count_there, lower_clauses, raise_clauses};
use crate::kept_choice::KeptChoice;
use crate::key_list::KeyList;
use crate::keys::{AtomKey, KeyedOffer, NamingAtom, OfferKey};
use crate::name_entries::NameEntries;
use crate::name_map::NameMap;
use crate::named::{ChosenRows, Named, is_used};
use crate::offer_list::OfferList;
use crate::pending_store::{Going, PendingStore};
use ctl_policy::{Rows, choose, names_with_rows_are_kept, rows_are_shown};
use ctl_relation::{Atom, FieldKind, Offer, Steps, Version};
use ctl_store::{StanzaKey, Store};
use std::alloc::{AllocError, Global};

/// The offers, the namers and the rows of each name with what is chosen of them, names under which nothing stands left out.
#[derive(Drop)]
pub(crate) struct NameTable {
    alloc: Global,
    map: NameMap,
    ghost used: { AreUsed map },
}

impl NameTable {
    /// No names. It takes no memory.
    pub(crate) fn new(alloc: Global) -> NameTable
        ensures { HoldsNothing result.map }
    {
        NameTable {
            alloc,
            map: NameMap::new(alloc),
        }
    }

    /// The names, in the order of their bytes, with what stands under them.
    pub(crate) fn entries(&self) -> NameEntries<'_>
        ensures order { IsStrictlySortedBy (slice_cmp nat_cmp) (entry_names result) }
        ensures found { (q : List ℕ) → found_in result q ≡ at_name self.now.map q }
        ensures used { AreUsed self.now.map }
    {
        self.map.entries()
    }

    /// The names from a prefix on, in the order of their bytes, with what stands under them. All that begin with the prefix are
    /// among them.
    pub(crate) fn entries_from(&self, prefix: &Vec<u8>) -> NameEntries<'_>
        ensures order { AreFrom prefix.now.items (entry_names result) }
        ensures found { (q : List ℕ) → starts_with nat_eq q prefix.now.items ≡ true → found_in result q ≡ at_name self.now.map q }
        ensures only { (q : List ℕ) → is_some (found_in result q) ≡ true → found_in result q ≡ at_name self.now.map q }
        ensures used { AreUsed self.now.map }
    {
        self.map.entries_from(prefix)
    }

    /// The offers of a name.
    pub(crate) fn offers(&self, name: &[u8]) -> &[OfferKey]
        ensures { result.now ≡ offers_under self.now.map name.now }
    {
        match self.map.get(name) {
            Some(named) => named.offers.as_slice(),
            None => &[],
        }
    }

    /// The atoms that name a name.
    pub(crate) fn namers(&self, name: &[u8]) -> &[NamingAtom]
        ensures { result.now ≡ namers_under self.now.map name.now }
    {
        match self.map.get(name) {
            Some(named) => named.namers.as_slice(),
            None => &[],
        }
    }

    /// The rows of a name, if it is there.
    pub(crate) fn rows(&self, name: &[u8]) -> Option<&Rows>
        ensures some { IfSome result (λ rows. rows.now ≡ rows_under self.now.map name.now) }
        ensures none { IfNone result (rows_under self.now.map name.now ≡ fin.empty) }
    {
        match self.map.get(name) {
            Some(named) => Some(&named.own.rows),
            None => None,
        }
    }

    /// Whether anything stands under a name.
    pub(crate) fn contains(&self, name: &[u8]) -> bool
        ensures there { result ≡ is_some (at_name self.now.map name.now) }
        ensures used { AreUsed self.now.map }
    {
        self.map.get(name).is_some()
    }

    /// What stands under a name, if anything does.
    pub(crate) fn get(&self, name: &[u8]) -> Option<&Named>
        ensures entry { option_copied result ≡ at_name self.now.map name.now }
        ensures used { AreUsed self.now.map }
    {
        self.map.get(name)
    }

    /// How many names there are.
    pub(crate) fn len(&self) -> usize {
        self.map.len()
    }

    // What stands under a name that isn't there yet.
    fn insert(&mut self, name: &[u8], named: Named) -> Result<(), AllocError>
        requires { is_used named ≡ true }
        ensures offers { OnOk result ((q : List ℕ) → offers_under self.new.map q
            ≡ (if bytes_eq name.now q then named_offers named else offers_under self.old.map q)) }
        ensures namers { OnOk result ((q : List ℕ) → namers_under self.new.map q
            ≡ (if bytes_eq name.now q then named_namers named else namers_under self.old.map q)) }
        ensures rows { OnOk result ((q : List ℕ) → own_under self.new.map q
            ≡ (if bytes_eq name.now q then named_own named else own_under self.old.map q)) }
    {
        self.map.insert(self.alloc, name, named)
    }

    /// An offer comes: it is listed, and tested against the clauses that name it.
    pub(crate) fn put_offer(
        &mut self,
        pending: &PendingStore<'_>,
        coming: KeyedOffer<'_>,
        counters: &mut Counters,
        steps: &mut Steps,
    ) -> Result<(), AllocError>
        ensures offers { OnOk result ((q : List ℕ) (f : OfferKey → ℕ) → sum_by f (offers_under self.new.map q)
            ≡ sum_by f (offers_under self.old.map q) + (if bytes_eq coming.entry.offer.now.name q then f coming.entry.key else 0)) }
        ensures namers { OnOk result ((q : List ℕ) → namers_under self.new.map q ≡ namers_under self.old.map q) }
        ensures rows { OnOk result ((q : List ℕ) → own_under self.new.map q ≡ own_under self.old.map q) }
        ensures counts { OnOk result ((k : ClauseKey) → number_among counters.new.numbers k
            ≡ option_map (counted_up (offer_hits pending.now (namers_under self.old.map) coming.entry.offer.now k))
            (number_among counters.old.numbers k)) }
        ensures steps { OnOk result (steps.new
            ≡ more_by (offer_tested pending.now (namers_under self.old.map) coming.entry.offer.now) steps.old) }
        ensures most { steps.new ≤ more_by (offer_tested pending.now (namers_under self.old.map) coming.entry.offer.now) steps.old }
        ensures least { steps.old ≤ steps.new }
    {
        let _count = steps.count();
        match self.map.get_mut(coming.offer.name()) {
            Some(named) => {
                named.offers.put(coming.key)?;
                raise_clauses(
                    pending,
                    coming.offer,
                    named.namers.as_slice(),
                    counters,
                    steps,
                );
                Ok(())
            }
            None => {
                let named = Named {
                    offers: OfferList::of_one(self.alloc, coming.key),
                    namers: KeyList::new(self.alloc),
                    own: ChosenRows::none(self.alloc),
                };
                self.insert(coming.offer.name(), named)
            }
        }
    }

    /// An atom comes: it is listed, and where its group is a clause, tested against the offers of its name. It tells how
    /// many meet it.
    pub(crate) fn put_atom(
        &mut self,
        pending: &PendingStore<'_>,
        key: AtomKey,
        atom: &Atom<'_>,
        steps: &mut Steps,
    ) -> Result<usize, AllocError>
        requires { sum_by (missing pending.now atom.now.name) (offers_under self.old.map atom.now.name) ≡ 0 }
        ensures namers { OnOk result ((q : List ℕ) (f : NamingAtom → ℕ) → sum_by f (namers_under self.new.map q)
            ≡ sum_by f (namers_under self.old.map q) + (if bytes_eq atom.now.name q then f (namer_of key atom.now) else 0)) }
        ensures offers { OnOk result ((q : List ℕ) → offers_under self.new.map q ≡ offers_under self.old.map q) }
        ensures rows { OnOk result ((q : List ℕ) → own_under self.new.map q ≡ own_under self.old.map q) }
        ensures met { IfOk result (λ met. met ≡ atom_met pending.now key.field atom.now (offers_under self.old.map atom.now.name)) }
        ensures few { IfOk result (λ met. met < 2 ^ 64) }
        ensures steps { OnOk result (steps.new
            ≡ more_by (atom_tested pending.now key.field (offers_under self.old.map atom.now.name)) steps.old) }
        ensures most { steps.new ≤ more_by (atom_tested pending.now key.field (offers_under self.old.map atom.now.name)) steps.old }
        ensures least { steps.old ≤ steps.new }
    {
        let _count = steps.count();
        match self.map.get_mut(atom.name()) {
            Some(named) => {
                named.namers.put(NamingAtom::new(key, atom))?;
                Ok(count_there(pending, key.field, atom, named.offers.as_slice(), steps))
            }
            None => {
                let named = Named {
                    offers: OfferList::new(self.alloc),
                    namers: KeyList::of_one(self.alloc, NamingAtom::new(key, atom))?,
                    own: ChosenRows::none(self.alloc),
                };
                self.insert(atom.name(), named)?;
                Ok(0)
            }
        }
    }

    /// An atom goes, with all other atoms of the span that name its name; where its group is a clause, it is tested against
    /// the offers of its name.
    pub(crate) fn take_atom(
        &mut self,
        going: &Going<'_>,
        field: FieldKind,
        atom: &Atom<'_>,
        steps: &mut Steps,
    )
        ensures namers { (q : List ℕ) → namers_under self.new.map q
            ≡ without_if namer_stanza going.now.span (bytes_eq atom.now.name q) (namers_under self.old.map q) }
        ensures offers { (q : List ℕ) → offers_under self.new.map q ≡ offers_under self.old.map q }
        ensures rows { (q : List ℕ) → own_under self.new.map q ≡ own_under self.old.map q }
        ensures steps { steps.new ≡ more_by (atom_tested going.now.pending field (offers_under self.old.map atom.now.name)) steps.old }
    {
        let _count = steps.count();
        let Some(named) = self.map.get_mut(atom.name()) else {
            return;
        };
        let _ = count_tested(&going.pending, field, atom, named.offers.as_slice(), steps);
        named.namers.take(going.span);
        if !is_used(named) {
            self.map.remove(atom.name());
        }
    }

    /// An offer goes, with all other offers of its name of the span. It is tested against the clauses that name it.
    pub(crate) fn take_offer(
        &mut self,
        going: &Going<'_>,
        offer: &Offer,
        counters: &mut Counters,
        steps: &mut Steps,
    ) -> Result<(), AllocError>
        ensures offers { OnOk result ((q : List ℕ) → offers_under self.new.map q
            ≡ without_if offer_stanza going.now.span (bytes_eq offer.now.name q) (offers_under self.old.map q)) }
        ensures namers { OnOk result ((q : List ℕ) → namers_under self.new.map q ≡ namers_under self.old.map q) }
        ensures rows { OnOk result ((q : List ℕ) → own_under self.new.map q ≡ own_under self.old.map q) }
        ensures counts { OnOk result ((k : ClauseKey) → number_among counters.new.numbers k
            ≡ less_by (offer_hits going.now.pending (namers_under self.old.map) offer.now k) (number_among counters.old.numbers k)) }
        ensures steps { OnOk result (steps.new
            ≡ more_by (offer_tested going.now.pending (namers_under self.old.map) offer.now) steps.old) }
        ensures most { steps.new ≤ more_by (offer_tested going.now.pending (namers_under self.old.map) offer.now) steps.old }
        ensures least { steps.old ≤ steps.new }
    {
        let _count = steps.count();
        let Some(named) = self.map.get_mut(offer.name()) else {
            return Ok(());
        };
        lower_clauses(
            &going.pending,
            offer,
            named.namers.as_slice(),
            counters,
            steps,
        )?;
        named.offers.take(going.span);
        if !is_used(named) {
            self.map.remove(offer.name());
        }
        Ok(())
    }

    /// A row gets the key of a stanza: that of its version, under the name of its package.
    pub(crate) fn put_row(
        &mut self,
        name: &[u8],
        version: &Version,
        key: StanzaKey,
    ) -> Result<(), AllocError>
        ensures row { OnOk result (HasPut version.now key (rows_under self.old.map name.now) (rows_under self.new.map name.now)) }
        ensures others { OnOk result (OthersStay name.now (rows_under self.old.map) (rows_under self.new.map)) }
        ensures chosen { OnOk result ((q : List ℕ) → chosen_under self.new.map q ≡ chosen_under self.old.map q) }
        ensures offers { OnOk result ((q : List ℕ) → offers_under self.new.map q ≡ offers_under self.old.map q) }
        ensures namers { OnOk result ((q : List ℕ) → namers_under self.new.map q ≡ namers_under self.old.map q) }
    {
        match self.map.get_mut(name) {
            Some(named) => named.own.rows.put(version, key),
            None => {
                let mut rows = Rows::new(self.alloc);
                rows.put(version, key)?;
                let named = Named {
                    offers: OfferList::new(self.alloc),
                    namers: KeyList::new(self.alloc),
                    own: ChosenRows::of_rows(rows),
                };
                self.insert(name, named)
            }
        }
    }

    /// A row loses the key of a stanza, and goes with its last.
    pub(crate) fn take_row(&mut self, name: &[u8], version: &Version, key: StanzaKey)
        ensures row { HasTaken version.now key (rows_under self.old.map name.now) (rows_under self.new.map name.now) }
        ensures others { OthersStay name.now (rows_under self.old.map) (rows_under self.new.map) }
        ensures chosen { (q : List ℕ) → chosen_under self.new.map q ≡ chosen_under self.old.map q }
        ensures offers { (q : List ℕ) → offers_under self.new.map q ≡ offers_under self.old.map q }
        ensures namers { (q : List ℕ) → namers_under self.new.map q ≡ namers_under self.old.map q }
    {
        let Some(named) = self.map.get_mut(name) else {
            return;
        };
        named.own.rows.take(version, key);
        if !is_used(named) {
            self.map.remove(name);
        }
    }

    /// Chooses anew for a name, after an edit of the store. It takes no memory.
    pub(crate) fn choose(&mut self, store: &Store, name: &[u8])
        requires { AreRowsOf (rows_under self.old.map name.now) name.now (keyed_of store.now).lists }
        ensures chosen { (q : List ℕ) → chosen_under self.new.map q
            ≡ (if bytes_eq name.now q then choice_in name.now (world_of store.now) else chosen_under self.old.map q) }
        ensures stays { HasSameRows self.old.map self.new.map }
    {
        rows_are_shown();
        names_with_rows_are_kept();
        let Some(named) = self.map.get_mut(name) else {
            return;
        };
        named.own.chosen = KeptChoice::new(choose(store, name, &named.own.rows));
        if !is_used(named) {
            self.map.remove(name);
        }
    }

    /// Chooses anew for the names that have a row with a stanza of a list, or for all, after an edit of the store. It takes no
    /// memory.
    pub(crate) fn choose_for(&mut self, store: &Store, list: Option<u32>)
        requires rows { (q : List ℕ) → AreRowsOf (rows_under self.old.map q) q (keyed_of store.now).lists }
        // for all names alone where nothing is chosen yet
        requires none { list ≡ None → (q : List ℕ) → chosen_under self.old.map q ≡ no_choice }
        ensures chosen { AreRenewed (λ q. are_asked list (rows_under self.old.map q)) (world_of store.now)
            (chosen_under self.old.map) (chosen_under self.new.map) }
        ensures stays { HasSameRows self.old.map self.new.map }
    {
        rows_are_shown();
        names_with_rows_are_kept();
        self.map.choose(store, list);
    }
}

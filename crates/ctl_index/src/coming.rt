//! Stanzas come: their offers and their rows first, and then their atoms, so that a pair of their own is tested once.

ghost use Rattle.std.specs.Prelude.{◌≡◌, ◌∷◌, [], ◌+◌, ◌≤◌, ◌<◌, ◌^◌, ℕ, List, OnOk, IfOk, Some, length, option_map, if◌then◌else◌};
ghost use Rattle.std.specs.List.{All, sum_by};
ghost use Rattle.ctl_relation.specs.Bounds.{atom_count};
ghost use Rattle.ctl_index.specs.Clauses.{clause_at};
ghost use Rattle.ctl_index.specs.Inside.TablesByName.{offers_under, namers_under, own_under};
ghost use Rattle.ctl_index.specs.Inside.TablesCounters.{counted_up};
ghost use Rattle.ctl_index.specs.Inside.TablesWaiting.{told};
ghost use Rattle.ctl_index.specs.Inside.TablesFit.{IsWholeAt};
ghost use Rattle.ctl_index.specs.Inside.TablesHeld.{HasTested, TestsAtMost, chosen_in, namers_in, number_in, number_told, offers_in, own_in, rows_in};
ghost use Rattle.ctl_index.specs.Inside.TablesIndexed.{atom_named, keyed_offers_from, namers_sum, offer_named, offers_sum};
ghost use Rattle.ctl_index.specs.Inside.TablesLoaded.{ComeApart, all_hits, group_named, number_with};
ghost use Rattle.ctl_index.specs.Inside.TablesPending.{AreThere, entries_seen, seen};
ghost use Rattle.ctl_index.specs.Inside.TablesRows.{AreRowsPut};
ghost use Rattle.ctl_index.specs.Inside.TablesTests.{all_tested, atoms_tested, atoms_tested_at, fields_tested, group_met, group_tested, groups_tested, is_clause, offers_tested, offers_tested_at};
ghost use Rattle.ctl_index.specs.Names.{keyed_atoms, keyed_group, keyed_groups, naming_fields};
ghost use Rattle.ctl_index.specs.Offers.{contents, offers_among};
ghost use Rattle.ctl_index.specs.Work.{more_by};
ghost use Rattle.ctl_index.specs.declared.keys.NamingAtom.{NamingAtom};
ghost use Rattle.ctl_stanza.specs.Content.{groups_of};

use crate::counters::Counters;
use crate::keys::{AtomKey, ClauseKey, KeyedOffer, OfferKey};
use crate::name_table::NameTable;
use crate::packed_key::PackedKey;
use crate::pending_store::{PendingStore, stanza_at};
use crate::rows::put_row_at;
use crate::tables::Tables;
use ctl_relation::{FieldKind, Group, Groups, Offer, Steps};
use ctl_stanza::Stanza;
use ctl_store::StanzaKey;
use std::alloc::AllocError;

// What a stanza offers.
fn put_offers_of(
    pending: &PendingStore<'_>,
    key: StanzaKey,
    offers: &[Offer],
    tables: &mut Tables,
) -> Result<(), AllocError>
    requires { length offers.now < 2 ^ 32 }
    ensures offers { OnOk result ((q : List ℕ) (f : OfferKey → ℕ) → sum_by f (offers_in tables.new q)
        ≡ sum_by f (offers_in tables.old q) + sum_by (offer_named q f) (keyed_offers_from key 0 offers.now)) }
    ensures namers { OnOk result (namers_in tables.new ≡ namers_in tables.old) }
    ensures rows { OnOk result (own_in tables.new ≡ own_in tables.old) }
    ensures counts { OnOk result ((k : ClauseKey) → number_in tables.new k
        ≡ option_map (counted_up (all_hits pending.now (namers_in tables.old) offers.now k)) (number_in tables.old k)) }
    ensures steps { OnOk result (HasTested (all_tested pending.now (namers_in tables.old) offers.now) tables.old tables.new) }
    ensures most { TestsAtMost (all_tested pending.now (namers_in tables.old) offers.now) tables.old tables.new }
    ensures least { tables.old.steps ≤ tables.new.steps }
{
    let _count = tables.steps.count();
    for i in 0..offers.len() {
        let key = OfferKey {
            stanza: PackedKey::new(key),
            place: i as u32,
        };
        let coming = KeyedOffer {
            key,
            offer: &offers[i],
        };
        let counters = &mut tables.counters;
        let steps = &mut tables.steps;
        tables.names.put_offer(pending, coming, counters, steps)?;
    }
    Ok(())
}

// What the stanza under a key offers, if there is one.
fn put_offers_at(
    pending: &PendingStore<'_>,
    key: StanzaKey,
    tables: &mut Tables,
) -> Result<(), AllocError>
    ensures whole { OnOk result (IsWholeAt (seen pending.now) key) }
    ensures offers { OnOk result ((q : List ℕ) (f : OfferKey → ℕ) → sum_by f (offers_in tables.new q)
        ≡ sum_by f (offers_in tables.old q) + offers_sum q f (entries_seen pending.now (key ∷ []))) }
    ensures namers { OnOk result (namers_in tables.new ≡ namers_in tables.old) }
    ensures rows { OnOk result (own_in tables.new ≡ own_in tables.old) }
    ensures counts { OnOk result ((k : ClauseKey) → number_in tables.new k
        ≡ option_map (counted_up
        (all_hits pending.now (namers_in tables.old) (offers_among (contents (entries_seen pending.now (key ∷ [])))) k))
        (number_in tables.old k)) }
    ensures steps { OnOk result (HasTested (offers_tested_at pending.now (namers_in tables.old) key) tables.old tables.new) }
    ensures most { TestsAtMost (offers_tested_at pending.now (namers_in tables.old) key) tables.old tables.new }
    ensures least { tables.old.steps ≤ tables.new.steps }
{
    let _count = tables.steps.count();
    match stanza_at(pending, key) {
        Some(stanza) => {
            // That the stanza has no fault is said here.
            let _kind = stanza.kind();
            put_offers_of(pending, key, stanza.offers(), tables)
        }
        None => Ok(()),
    }
}

/// What the stanzas under these keys offer, and their rows. An offer is listed, and tested against the clauses that name it. The key
/// of a stanza comes into its row right behind its offers: a later pass would fetch the stanza and its name once more.
pub(crate) fn put_offers_and_rows(
    pending: &PendingStore<'_>,
    keys: &[StanzaKey],
    tables: &mut Tables,
) -> Result<(), AllocError>
    ensures whole { OnOk result (All (IsWholeAt (seen pending.now)) keys.now) }
    ensures offers { OnOk result ((q : List ℕ) (f : OfferKey → ℕ) → sum_by f (offers_in tables.new q)
        ≡ sum_by f (offers_in tables.old q) + offers_sum q f (entries_seen pending.now keys.now)) }
    ensures namers { OnOk result (namers_in tables.new ≡ namers_in tables.old) }
    ensures rows { OnOk result (AreRowsPut (entries_seen pending.now keys.now) (rows_in tables.old) (rows_in tables.new)) }
    ensures chosen { OnOk result (chosen_in tables.new ≡ chosen_in tables.old) }
    ensures counts { OnOk result ((k : ClauseKey) → number_in tables.new k
        ≡ option_map (counted_up
        (all_hits pending.now (namers_in tables.old) (offers_among (contents (entries_seen pending.now keys.now))) k))
        (number_in tables.old k)) }
    ensures steps { OnOk result (HasTested (offers_tested pending.now (namers_in tables.old) keys.now) tables.old tables.new) }
    ensures most { TestsAtMost (offers_tested pending.now (namers_in tables.old) keys.now) tables.old tables.new }
    ensures least { tables.old.steps ≤ tables.new.steps }
{
    let _count = tables.steps.count();
    for key in keys {
        put_offers_at(pending, *key, tables)?;
        put_row_at(pending, *key, &mut tables.names)?;
    }
    Ok(())
}

// The atoms of a group. It tells how many offers meet them, where the group is a clause.
fn put_group(
    pending: &PendingStore<'_>,
    clause: ClauseKey,
    group: &Group<'_>,
    names: &mut NameTable,
    steps: &mut Steps,
) -> Result<u128, AllocError>
    requires short { length group.now < 2 ^ 32 }
    requires there { AreThere pending.now (offers_under names.old.map) }
    ensures namers { OnOk result ((q : List ℕ) (f : NamingAtom → ℕ) → sum_by f (namers_under names.new.map q)
        ≡ sum_by f (namers_under names.old.map q)
        + sum_by (atom_named q f) (keyed_group clause.stanza clause.field clause.group 0 group.now)) }
    ensures offers { OnOk result (offers_under names.new.map ≡ offers_under names.old.map) }
    ensures rows { OnOk result (own_under names.new.map ≡ own_under names.old.map) }
    ensures met { IfOk result (λ met. met ≡ group_met pending.now clause.field (offers_under names.old.map) group.now) }
    ensures few { IfOk result (λ met. met < 2 ^ 96) }
    ensures steps { OnOk result (steps.new
        ≡ more_by (group_tested pending.now clause.field (offers_under names.old.map) group.now) steps.old) }
    ensures most { steps.new ≤ more_by (group_tested pending.now clause.field (offers_under names.old.map) group.now) steps.old }
    ensures least { steps.old ≤ steps.new }
{
    let _count = steps.count();
    let mut met: u128 = 0;
    let mut place = 0;
    for atom in group.atoms() {
        let key = AtomKey {
            stanza: clause.stanza,
            field: clause.field,
            group: clause.group,
            atom: place,
        };
        met += names.put_atom(pending, key, &atom, steps)? as u128;
        place += 1;
    }
    Ok(met)
}

// The counter of a group with this number, where the group is a clause, comes to those that are entered or wait to be.
fn list_clause(counters: &mut Counters, clause: ClauseKey, number: u128) -> Result<(), AllocError>
    requires { number < 2 ^ 96 }
    ensures { OnOk result ((k : ClauseKey) → told counters.new.waiting counters.new.numbers k
        ≡ (if is_clause clause k then Some number else told counters.old.waiting counters.old.numbers k)) }
{
    if clause.field.is_wanted() {
        counters.wait(clause, number)?;
    }
    Ok(())
}

#[tactic(auto, using(crate::proofs::ClauseLemmas::groups_start))]
fn put_groups(
    pending: &PendingStore<'_>,
    key: StanzaKey,
    field: FieldKind,
    groups: Groups<'_>,
    tables: &mut Tables,
) -> Result<(), AllocError>
    requires count { length groups < 2 ^ 32 }
    requires few { atom_count groups < 2 ^ 32 }
    requires there { AreThere pending.now (offers_in tables.old) }
    ensures namers { OnOk result ((q : List ℕ) (f : NamingAtom → ℕ) → sum_by f (namers_in tables.new q)
        ≡ sum_by f (namers_in tables.old q) + sum_by (atom_named q f) (keyed_groups key field 0 groups.entry)) }
    ensures offers { OnOk result (offers_in tables.new ≡ offers_in tables.old) }
    ensures rows { OnOk result (own_in tables.new ≡ own_in tables.old) }
    ensures counts { OnOk result ((k : ClauseKey) → number_told tables.new k
        ≡ number_with pending.now (offers_in tables.old) field (group_named key field groups.entry k) (number_told tables.old k)) }
    ensures steps { OnOk result (HasTested (groups_tested pending.now field (offers_in tables.old) groups.entry) tables.old tables.new) }
    ensures most { TestsAtMost (groups_tested pending.now field (offers_in tables.old) groups.entry) tables.old tables.new }
    ensures least { tables.old.steps ≤ tables.new.steps }
{
    let _count = tables.steps.count();
    let mut place = 0;
    for group in groups {
        let clause = ClauseKey {
            stanza: key,
            field,
            group: place,
        };
        let met = put_group(
            pending,
            clause,
            &group,
            &mut tables.names,
            &mut tables.steps,
        )?;
        list_clause(&mut tables.counters, clause, met)?;
        place += 1;
    }
    Ok(())
}

// The groups of one field.
fn put_field(
    pending: &PendingStore<'_>,
    key: StanzaKey,
    stanza: &Stanza,
    field: FieldKind,
    tables: &mut Tables,
) -> Result<(), AllocError>
    requires { AreThere pending.now (offers_in tables.old) }
    ensures namers { OnOk result ((q : List ℕ) (f : NamingAtom → ℕ) → sum_by f (namers_in tables.new q)
        ≡ sum_by f (namers_in tables.old q) + sum_by (atom_named q f) (keyed_groups key field 0 (groups_of field stanza.now))) }
    ensures offers { OnOk result (offers_in tables.new ≡ offers_in tables.old) }
    ensures rows { OnOk result (own_in tables.new ≡ own_in tables.old) }
    ensures counts { OnOk result ((k : ClauseKey) → number_told tables.new k
        ≡ number_with pending.now (offers_in tables.old) field (group_named key field (groups_of field stanza.now) k)
        (number_told tables.old k)) }
    ensures steps { OnOk result (HasTested (groups_tested pending.now field (offers_in tables.old)
        (groups_of field stanza.now)) tables.old tables.new) }
    ensures most { TestsAtMost (groups_tested pending.now field (offers_in tables.old) (groups_of field stanza.now)) tables.old tables.new }
    ensures least { tables.old.steps ≤ tables.new.steps }
{
    let groups = stanza.groups(field);
    put_groups(pending, key, field, groups, tables)
}

// The groups of the eight fields.
fn put_fields(
    pending: &PendingStore<'_>,
    key: StanzaKey,
    stanza: &Stanza,
    fields: &[FieldKind],
    tables: &mut Tables,
) -> Result<(), AllocError>
    requires fields { fields.now ≡ naming_fields }
    requires there { AreThere pending.now (offers_in tables.old) }
    ensures namers { OnOk result ((q : List ℕ) (f : NamingAtom → ℕ) → sum_by f (namers_in tables.new q)
        ≡ sum_by f (namers_in tables.old q) + sum_by (atom_named q f) (keyed_atoms (key, stanza.now))) }
    ensures offers { OnOk result (offers_in tables.new ≡ offers_in tables.old) }
    ensures rows { OnOk result (own_in tables.new ≡ own_in tables.old) }
    ensures counts { OnOk result ((k : ClauseKey) → number_told tables.new k
        ≡ number_with pending.now (offers_in tables.old) k.field (clause_at k ((key, stanza.now) ∷ [])) (number_told tables.old k)) }
    ensures steps { OnOk result (HasTested (fields_tested pending.now (offers_in tables.old) fields.now stanza.now) tables.old tables.new) }
    ensures most { TestsAtMost (fields_tested pending.now (offers_in tables.old) fields.now stanza.now) tables.old tables.new }
    ensures least { tables.old.steps ≤ tables.new.steps }
{
    let _count = tables.steps.count();
    for field in fields {
        put_field(pending, key, stanza, *field, tables)?;
    }
    Ok(())
}

// The atoms of the stanza under a key, if there is one.
fn put_atoms_at(
    pending: &PendingStore<'_>,
    key: StanzaKey,
    tables: &mut Tables,
) -> Result<(), AllocError>
    requires { AreThere pending.now (offers_in tables.old) }
    ensures namers { OnOk result ((q : List ℕ) (f : NamingAtom → ℕ) → sum_by f (namers_in tables.new q)
        ≡ sum_by f (namers_in tables.old q) + namers_sum q f (entries_seen pending.now (key ∷ []))) }
    ensures offers { OnOk result (offers_in tables.new ≡ offers_in tables.old) }
    ensures rows { OnOk result (own_in tables.new ≡ own_in tables.old) }
    ensures counts { OnOk result ((k : ClauseKey) → number_told tables.new k
        ≡ number_with pending.now (offers_in tables.old) k.field (clause_at k (entries_seen pending.now (key ∷ [])))
        (number_told tables.old k)) }
    ensures steps { OnOk result (HasTested (atoms_tested_at pending.now (offers_in tables.old) key) tables.old tables.new) }
    ensures most { TestsAtMost (atoms_tested_at pending.now (offers_in tables.old) key) tables.old tables.new }
    ensures least { tables.old.steps ≤ tables.new.steps }
{
    let _count = tables.steps.count();
    match stanza_at(pending, key) {
        Some(stanza) => put_fields(pending, key, stanza, FieldKind::eight(), tables),
        None => Ok(()),
    }
}

// The atoms of the stanzas under these keys, and the clauses that come with them, which wait to be entered.
fn list_atoms(
    pending: &PendingStore<'_>,
    keys: &[StanzaKey],
    tables: &mut Tables,
) -> Result<(), AllocError>
    requires { AreThere pending.now (offers_in tables.old) }
    ensures namers { OnOk result ((q : List ℕ) (f : NamingAtom → ℕ) → sum_by f (namers_in tables.new q)
        ≡ sum_by f (namers_in tables.old q) + namers_sum q f (entries_seen pending.now keys.now)) }
    ensures offers { OnOk result (offers_in tables.new ≡ offers_in tables.old) }
    ensures rows { OnOk result (own_in tables.new ≡ own_in tables.old) }
    ensures counts { OnOk result (ComeApart pending.now keys.now → (k : ClauseKey) → number_told tables.new k
        ≡ number_with pending.now (offers_in tables.old) k.field (clause_at k (entries_seen pending.now keys.now))
        (number_told tables.old k)) }
    ensures steps { OnOk result (HasTested (atoms_tested pending.now (offers_in tables.old) keys.now) tables.old tables.new) }
    ensures most { TestsAtMost (atoms_tested pending.now (offers_in tables.old) keys.now) tables.old tables.new }
    ensures least { tables.old.steps ≤ tables.new.steps }
{
    let _count = tables.steps.count();
    for key in keys {
        put_atoms_at(pending, *key, tables)?;
    }
    Ok(())
}

/// The atoms of the stanzas under these keys, whose offers are listed. They are listed, and each clause comes with the number of
/// listed offers that meet its atoms.
pub(crate) fn put_atoms(
    pending: &PendingStore<'_>,
    keys: &[StanzaKey],
    tables: &mut Tables,
) -> Result<(), AllocError>
    requires { AreThere pending.now (offers_in tables.old) }
    ensures namers { OnOk result ((q : List ℕ) (f : NamingAtom → ℕ) → sum_by f (namers_in tables.new q)
        ≡ sum_by f (namers_in tables.old q) + namers_sum q f (entries_seen pending.now keys.now)) }
    ensures offers { OnOk result (offers_in tables.new ≡ offers_in tables.old) }
    ensures rows { OnOk result (own_in tables.new ≡ own_in tables.old) }
    ensures counts { OnOk result (ComeApart pending.now keys.now → (k : ClauseKey) → number_in tables.new k
        ≡ number_with pending.now (offers_in tables.old) k.field
        (clause_at k (entries_seen pending.now keys.now)) (number_in tables.old k)) }
    ensures steps { OnOk result (HasTested (atoms_tested pending.now (offers_in tables.old) keys.now) tables.old tables.new) }
    ensures most { TestsAtMost (atoms_tested pending.now (offers_in tables.old) keys.now) tables.old tables.new }
    ensures least { tables.old.steps ≤ tables.new.steps }
{
    tables.counters.let_none_wait();
    list_atoms(pending, keys, tables)?;
    tables.counters.enter_waiting()?;
    Ok(())
}

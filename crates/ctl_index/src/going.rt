//! Stanzas go: their atoms first, and then their offers, so that a pair of their own is tested once.

ghost use Rattle.std.specs.Prelude.{◌≡◌, ◌≤◌, ℕ, List, OnOk, None, if◌then◌else◌};
ghost use Rattle.std.specs.List.{list_any, sum_by};
ghost use Rattle.ctl_index.specs.Inside.TablesByName.{offers_under, namers_under, own_under};
ghost use Rattle.ctl_index.specs.Inside.TablesCounters.{less_by};
ghost use Rattle.ctl_index.specs.Inside.TablesHeld.{HasTested, TestsAtMost, namers_in, number_in, offers_in, own_in};
ghost use Rattle.ctl_index.specs.Inside.TablesLeft.{has_namer, has_namer_at, has_namer_in, has_offer, has_offer_at, hits_at, is_stanza_at};
ghost use Rattle.ctl_index.specs.Inside.TablesLoaded.{all_hits};
ghost use Rattle.ctl_index.specs.Inside.TablesOrder.{namer_stanza, offer_stanza, without_if};
ghost use Rattle.ctl_index.specs.Inside.TablesTests.{all_tested, atoms_tested, atoms_tested_at, fields_tested, group_tested, groups_tested, offers_tested, offers_tested_at};
ghost use Rattle.ctl_index.specs.Work.{more_by};
ghost use Rattle.ctl_index.specs.declared.keys.ClauseKey.{ClauseKey};
ghost use Rattle.ctl_stanza.specs.Content.{groups_of};

use crate::name_table::NameTable;
use crate::pending_store::{Going, stanza_at};
use crate::tables::Tables;
use ctl_relation::{FieldKind, Group, Groups, Offer, Steps};
use ctl_stanza::Stanza;
use ctl_store::StanzaKey;
use std::alloc::AllocError;

// The atoms of a group.
fn take_group(
    going: &Going<'_>,
    field: FieldKind,
    group: &Group<'_>,
    names: &mut NameTable,
    steps: &mut Steps,
)
    ensures namers { (q : List ℕ) → namers_under names.new.map q
        ≡ without_if namer_stanza going.now.span (has_namer q group.now) (namers_under names.old.map q) }
    ensures offers { offers_under names.new.map ≡ offers_under names.old.map }
    ensures rows { own_under names.new.map ≡ own_under names.old.map }
    ensures steps { steps.new ≡ more_by (group_tested going.now.pending field (offers_under names.old.map) group.now) steps.old }
{
    let _count = steps.count();
    for atom in group.atoms() {
        names.take_atom(going, field, &atom, steps);
    }
}

fn take_groups(going: &Going<'_>, field: FieldKind, groups: Groups<'_>, tables: &mut Tables)
    ensures namers { (q : List ℕ) → namers_in tables.new q
        ≡ without_if namer_stanza going.now.span (list_any (has_namer q) groups.entry) (namers_in tables.old q) }
    ensures offers { offers_in tables.new ≡ offers_in tables.old }
    ensures rows { own_in tables.new ≡ own_in tables.old }
    ensures counts { number_in tables.new ≡ number_in tables.old }
    ensures steps { HasTested (groups_tested going.now.pending field (offers_in tables.old) groups.entry) tables.old tables.new }
{
    let _count = tables.steps.count();
    for group in groups {
        take_group(going, field, &group, &mut tables.names, &mut tables.steps);
    }
}

// The groups of one field.
fn take_field(going: &Going<'_>, stanza: &Stanza, field: FieldKind, tables: &mut Tables)
    ensures namers { (q : List ℕ) → namers_in tables.new q
        ≡ without_if namer_stanza going.now.span (has_namer_in q stanza.now field) (namers_in tables.old q) }
    ensures offers { offers_in tables.new ≡ offers_in tables.old }
    ensures rows { own_in tables.new ≡ own_in tables.old }
    ensures counts { number_in tables.new ≡ number_in tables.old }
    ensures steps { HasTested (groups_tested going.now.pending field (offers_in tables.old)
        (groups_of field stanza.now)) tables.old tables.new }
{
    let groups = stanza.groups(field);
    take_groups(going, field, groups, tables);
}

// The groups of these fields.
fn take_fields(going: &Going<'_>, stanza: &Stanza, fields: &[FieldKind], tables: &mut Tables)
    ensures namers { (q : List ℕ) → namers_in tables.new q
        ≡ without_if namer_stanza going.now.span (list_any (has_namer_in q stanza.now) fields.now) (namers_in tables.old q) }
    ensures offers { offers_in tables.new ≡ offers_in tables.old }
    ensures rows { own_in tables.new ≡ own_in tables.old }
    ensures counts { number_in tables.new ≡ number_in tables.old }
    ensures steps { HasTested (fields_tested going.now.pending (offers_in tables.old) fields.now stanza.now) tables.old tables.new }
{
    let _count = tables.steps.count();
    for field in fields {
        take_field(going, stanza, *field, tables);
    }
}

// The atoms of the stanza under a key, if there is one.
fn take_atoms_at(going: &Going<'_>, key: StanzaKey, tables: &mut Tables)
    ensures namers { (q : List ℕ) → namers_in tables.new q
        ≡ without_if namer_stanza going.now.span (has_namer_at going.now.pending q key) (namers_in tables.old q) }
    ensures offers { offers_in tables.new ≡ offers_in tables.old }
    ensures rows { own_in tables.new ≡ own_in tables.old }
    ensures counts { (k : ClauseKey) → number_in tables.new k
        ≡ (if is_stanza_at going.now.pending k.stanza key then None else number_in tables.old k) }
    ensures steps { HasTested (atoms_tested_at going.now.pending (offers_in tables.old) key) tables.old tables.new }
{
    let _count = tables.steps.count();
    match stanza_at(&going.pending, key) {
        Some(stanza) => {
            take_fields(going, stanza, FieldKind::eight(), tables);
            tables.counters.remove(key);
        }
        None => {}
    }
}

/// The atoms of the stanzas under these keys, which are those of the span. They are tested against the offers of their names, and
/// the numbers of the clauses go, stanza by stanza.
pub(crate) fn take_atoms(going: &Going<'_>, keys: &[StanzaKey], tables: &mut Tables)
    ensures namers { (q : List ℕ) → namers_in tables.new q
        ≡ without_if namer_stanza going.now.span (list_any (has_namer_at going.now.pending q) keys.now) (namers_in tables.old q) }
    ensures offers { offers_in tables.new ≡ offers_in tables.old }
    ensures rows { own_in tables.new ≡ own_in tables.old }
    ensures counts { (k : ClauseKey) → number_in tables.new k
        ≡ (if list_any (is_stanza_at going.now.pending k.stanza) keys.now then None else number_in tables.old k) }
    ensures steps { HasTested (atoms_tested going.now.pending (offers_in tables.old) keys.now) tables.old tables.new }
{
    let _count = tables.steps.count();
    for key in keys {
        take_atoms_at(going, *key, tables);
    }
}

// What a stanza offers.
fn take_offers_of(
    going: &Going<'_>,
    offers: &[Offer],
    tables: &mut Tables,
) -> Result<(), AllocError>
    ensures offers { OnOk result ((q : List ℕ) → offers_in tables.new q
        ≡ without_if offer_stanza going.now.span (has_offer q offers.now) (offers_in tables.old q)) }
    ensures namers { OnOk result (namers_in tables.new ≡ namers_in tables.old) }
    ensures rows { OnOk result (own_in tables.new ≡ own_in tables.old) }
    ensures counts { OnOk result ((k : ClauseKey) → number_in tables.new k
        ≡ less_by (all_hits going.now.pending (namers_in tables.old) offers.now k) (number_in tables.old k)) }
    ensures steps { OnOk result (HasTested (all_tested going.now.pending (namers_in tables.old) offers.now) tables.old tables.new) }
    ensures most { TestsAtMost (all_tested going.now.pending (namers_in tables.old) offers.now) tables.old tables.new }
    ensures least { tables.old.steps ≤ tables.new.steps }
{
    let _count = tables.steps.count();
    for offer in offers {
        let counters = &mut tables.counters;
        let steps = &mut tables.steps;
        tables.names.take_offer(going, offer, counters, steps)?;
    }
    Ok(())
}

// What the stanza under a key offers, if there is one.
fn take_offers_at(going: &Going<'_>, key: StanzaKey, tables: &mut Tables) -> Result<(), AllocError>
    ensures offers { OnOk result ((q : List ℕ) → offers_in tables.new q
        ≡ without_if offer_stanza going.now.span (has_offer_at going.now.pending q key) (offers_in tables.old q)) }
    ensures namers { OnOk result (namers_in tables.new ≡ namers_in tables.old) }
    ensures rows { OnOk result (own_in tables.new ≡ own_in tables.old) }
    ensures counts { OnOk result ((k : ClauseKey) → number_in tables.new k
        ≡ less_by (hits_at going.now.pending (namers_in tables.old) k key) (number_in tables.old k)) }
    ensures steps { OnOk result (HasTested (offers_tested_at going.now.pending (namers_in tables.old) key) tables.old tables.new) }
    ensures most { TestsAtMost (offers_tested_at going.now.pending (namers_in tables.old) key) tables.old tables.new }
    ensures least { tables.old.steps ≤ tables.new.steps }
{
    let _count = tables.steps.count();
    match stanza_at(&going.pending, key) {
        Some(stanza) => take_offers_of(going, stanza.offers(), tables),
        None => Ok(()),
    }
}

/// What the stanzas under these keys offer, which are those of the span. It is tested against the clauses that name it.
pub(crate) fn take_offers(
    going: &Going<'_>,
    keys: &[StanzaKey],
    tables: &mut Tables,
) -> Result<(), AllocError>
    ensures offers { OnOk result ((q : List ℕ) → offers_in tables.new q
        ≡ without_if offer_stanza going.now.span (list_any (has_offer_at going.now.pending q) keys.now) (offers_in tables.old q)) }
    ensures namers { OnOk result (namers_in tables.new ≡ namers_in tables.old) }
    ensures rows { OnOk result (own_in tables.new ≡ own_in tables.old) }
    ensures counts { OnOk result ((k : ClauseKey) → number_in tables.new k
        ≡ less_by (sum_by (hits_at going.now.pending (namers_in tables.old) k) keys.now) (number_in tables.old k)) }
    ensures steps { OnOk result (HasTested (offers_tested going.now.pending (namers_in tables.old) keys.now) tables.old tables.new) }
    ensures most { TestsAtMost (offers_tested going.now.pending (namers_in tables.old) keys.now) tables.old tables.new }
    ensures least { tables.old.steps ≤ tables.new.steps }
{
    let _count = tables.steps.count();
    for key in keys {
        take_offers_at(going, *key, tables)?;
    }
    Ok(())
}

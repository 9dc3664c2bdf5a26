//! The answer to `showpkg`.

ghost use Rattle.std.specs.Prelude.{◌≡◌, ◌++◌, ◌∷◌, [], OnOk, IfOk, IfSome, codes, false, flat_map};
ghost use Rattle.std.specs.List.{All, AllByRecursion};
ghost use Rattle.std.specs.List.Sorted.{IsPermutation};
ghost use Rattle.ctl_store.specs.Store.{keyed_of};
ghost use Rattle.ctl_store.specs.Keys.{AreHeld, AreRising};
ghost use Rattle.ctl_index.specs.HeldCache.{standing};
ghost use Rattle.ctl_index.specs.Names.{kept_namers_named};
ghost use Rattle.ctl_policy.specs.Priority.{world_of};
ghost use Rattle.ctl_policy.specs.Rows.{sources_of};
ghost use Rattle.ctl_query.specs.Inside.AskedNames.{IsLookedUp, names_asked};
ghost use Rattle.ctl_query.specs.Interest.{offering_named};
ghost use Rattle.ctl_query.specs.Leads.{leads_of};
ghost use Rattle.ctl_query.specs.LeadTable.{AreEnough};
ghost use Rattle.ctl_query.specs.NameSet.{lent_names};
ghost use Rattle.ctl_query.specs.Packages.{rows_of, of_rows, of_all_rows, told_of_row};
ghost use Rattle.ctl_query.specs.ShowPackage.{source_mark, version_line, naming_lines, relation_lines, entry_lines};
ghost use Rattle.ctl_query.specs.ShowPackage.{providing_lines, show_package_one, show_package_text};
ghost use Rattle.ctl_filter.specs.Texts.{line};
ghost use Rattle.ctl_query.specs.Texts.{if_known};

use crate::ahead::look_ahead_at_names;
use crate::askers::AskerTable;
use crate::asking::{AskedName, Asking, look_up};
use crate::interest::{packages_providing, stanzas_are_found};
use crate::lead_atoms::{append_atoms, list_atoms};
use crate::lead_lines::{append_entry_lines, append_providing_lines, append_relation_lines};
use crate::lead_table::LeadTable;
use crate::leads::Leads;
use crate::policy::row_version;
use crate::row_sources::RowSources;
use crate::text::append_unknown;
use ctl_filter::{append_line, append_parts};
use ctl_index::Offering;
use ctl_policy::{NewestFirst, rows_are_classes};
use ctl_relation::Bytes;
use ctl_store::{StanzaKey, Store};
use std::alloc::AllocError;

// ---- its versions

/// Appends the lists that hold a row, which has these stanzas.
fn append_sources(store: &Store, row: &[StanzaKey], out: &mut Vec<u8>) -> Result<(), AllocError>
    requires held { AreHeld row.now (keyed_of store.now).lists }
    requires rising { AreRising row.now }
    ensures { OnOk result (out.new.items ≡ out.old.items ++ flat_map source_mark (sources_of row.now (keyed_of store.now).lists)) }
{
    'lists: for list in RowSources::new(store, row) {
        append_parts(out, &[b" (", list, b")"])?;
    }
    Ok(())
}

/// Appends a row with the lists that hold it.
#[tactic(auto, unfolding(ctl_filter::specs::Texts::line))]
fn append_version(store: &Store, row: &[StanzaKey], out: &mut Vec<u8>) -> Result<(), AllocError>
    requires held { AreHeld row.now (keyed_of store.now).lists }
    requires rising { AreRising row.now }
    ensures { OnOk result (out.new.items ≡ out.old.items ++ version_line (world_of store.now) row.now) }
{
    out.extend_from_slice(row_version(store, row))?;
    append_sources(store, row, out)?;
    out.extend_from_slice(b"\n")?;
    Ok(())
}

// ---- who names it

/// Appends the atoms that name a name, by a table of leads: each is gone to by its key, and no name is looked for.
fn append_by_atoms(
    asking: &Asking<'_>,
    table: &AskerTable<'_>,
    asked: &AskedName<'_>,
    out: &mut Vec<u8>,
) -> Result<(), AllocError>
    requires enough { AreEnough asking.now asked.now.name.now table.now }
    requires namers { IsPermutation (kept_namers_named asked.now.name.now (standing asking.now)) asked.now.view.kept_namers }
    ensures { OnOk result (out.new.items ≡ out.old.items ++ of_all_rows (world_of asking.now) (naming_lines asked.now.name.now)) }
{
    rows_are_classes();
    stanzas_are_found(asking);
    let atoms = list_atoms(asking.alloc(), table.table(), asked.view.kept_namers())?;
    append_atoms(table, asked.name, &atoms, out)?;
    Ok(())
}

/// Appends the atoms that name a name: by a table of all leads if there is one, else those of the packages with such an atom are
/// enough.
fn append_naming(
    asking: &Asking<'_>,
    table: Option<&AskerTable<'_>>,
    asked: &AskedName<'_>,
    out: &mut Vec<u8>,
) -> Result<(), AllocError>
    requires leads { IfSome table (λ table. table.now ≡ leads_of (world_of asking.now)) }
    requires namers { IsPermutation (kept_namers_named asked.now.name.now (standing asking.now)) asked.now.view.kept_namers }
    ensures { OnOk result (out.new.items ≡ out.old.items ++ of_all_rows (world_of asking.now) (naming_lines asked.now.name.now)) }
{
    match table {
        Some(table) => append_by_atoms(asking, table, asked, out),
        None => {
            let table = AskerTable::new(asking.alloc(), LeadTable::of_askers(asking, asked.name)?)?;
            append_by_atoms(asking, &table, asked, out)
        }
    }
}

// ---- who provides it

fn append_providing_leads(
    asking: &Asking<'_>,
    name: &[u8],
    asker: &[u8],
    out: &mut Vec<u8>,
) -> Result<(), AllocError>
    ensures { OnOk result (out.new.items ≡ out.old.items ++ of_rows (world_of asking.now) (providing_lines name.now) asker.now) }
{
    'leads: for (_, lead) in asking.leads(asker) {
        append_providing_lines(name, lead, out)?;
    }
    Ok(())
}

fn append_each_providing(
    asking: &Asking<'_>,
    name: &[u8],
    askers: &[&[u8]],
    out: &mut Vec<u8>,
) -> Result<(), AllocError>
    ensures { OnOk result (out.new.items ≡ out.old.items
        ++ flat_map (of_rows (world_of asking.now) (providing_lines name.now)) (lent_names askers.now)) }
{
    for asker in askers {
        append_providing_leads(asking, name, asker, out)?;
    }
    Ok(())
}

/// Appends the entries of Provides with a name. The packages with entries of Provides that offer it are enough.
fn append_providing(
    asking: &Asking<'_>,
    offering: Offering<'_>,
    name: &[u8],
    out: &mut Vec<u8>,
) -> Result<(), AllocError>
    requires offering { IsPermutation (offering_named asking.now name.now) offering }
    ensures { OnOk result (out.new.items ≡ out.old.items ++ of_all_rows (world_of asking.now) (providing_lines name.now)) }
{
    rows_are_classes();
    stanzas_are_found(asking);
    let askers = packages_providing(asking.alloc(), asking.store(), offering)?;
    append_each_providing(asking, name, &askers, out)?;
    Ok(())
}

// ---- all of it, heading by heading

fn show_versions(
    asking: &Asking<'_>,
    rows: NewestFirst<'_>,
    out: &mut Vec<u8>,
) -> Result<(), AllocError>
    requires held { AllByRecursion (λ row. AreHeld row (keyed_of asking.now).lists) rows }
    requires rising { AllByRecursion AreRising rows }
    ensures { OnOk result (out.new.items ≡ out.old.items ++ (line (codes "Versions:" ∷ [])
        ++ (flat_map (version_line (world_of asking.now)) rows.entry ++ line []))) }
{
    out.extend_from_slice(b"Versions:\n")?;
    'rows: for row in rows {
        append_version(asking.store(), row, out)?;
    }
    out.push(b'\n')?;
    Ok(())
}

fn show_namers(
    asking: &Asking<'_>,
    table: Option<&AskerTable<'_>>,
    asked: &AskedName<'_>,
    out: &mut Vec<u8>,
) -> Result<(), AllocError>
    requires leads { IfSome table (λ table. table.now ≡ leads_of (world_of asking.now)) }
    requires namers { IsPermutation (kept_namers_named asked.now.name.now (standing asking.now)) asked.now.view.kept_namers }
    ensures { OnOk result (out.new.items ≡ out.old.items ++ (line (codes "Reverse Depends:" ∷ [])
        ++ of_all_rows (world_of asking.now) (naming_lines asked.now.name.now))) }
{
    out.extend_from_slice(b"Reverse Depends:\n")?;
    append_naming(asking, table, asked, out)?;
    Ok(())
}

fn show_relations(store: &Store, rows: NewestFirst<'_>, out: &mut Vec<u8>) -> Result<(), AllocError>
    ensures { OnOk result (out.new.items ≡ out.old.items ++ (line (codes "Dependencies:" ∷ [])
        ++ flat_map (told_of_row (world_of store.now) relation_lines) rows.entry)) }
{
    out.extend_from_slice(b"Dependencies:\n")?;
    'leads: for (_, lead) in Leads::new(store, rows) {
        append_relation_lines(lead, out)?;
    }
    Ok(())
}

fn show_entries(store: &Store, rows: NewestFirst<'_>, out: &mut Vec<u8>) -> Result<(), AllocError>
    ensures { OnOk result (out.new.items ≡ out.old.items ++ (line (codes "Provides:" ∷ [])
        ++ flat_map (told_of_row (world_of store.now) entry_lines) rows.entry)) }
{
    out.extend_from_slice(b"Provides:\n")?;
    'leads: for (_, lead) in Leads::new(store, rows) {
        append_entry_lines(lead, out)?;
    }
    Ok(())
}

fn show_providers(
    asking: &Asking<'_>,
    offering: Offering<'_>,
    name: &[u8],
    out: &mut Vec<u8>,
) -> Result<(), AllocError>
    requires offering { IsPermutation (offering_named asking.now name.now) offering }
    ensures { OnOk result (out.new.items ≡ out.old.items ++ (line (codes "Reverse Provides:" ∷ [])
        ++ of_all_rows (world_of asking.now) (providing_lines name.now))) }
{
    out.extend_from_slice(b"Reverse Provides:\n")?;
    append_providing(asking, offering, name, out)?;
    Ok(())
}

/// Appends the answer on a known name.
#[tactic(auto, unfolding(crate::specs::ShowPackage::show_package_one))]
fn append_known(
    asking: &Asking<'_>,
    table: Option<&AskerTable<'_>>,
    asked: &AskedName<'_>,
    out: &mut Vec<u8>,
) -> Result<(), AllocError>
    requires leads { IfSome table (λ table. table.now ≡ leads_of (world_of asking.now)) }
    requires rows { asked.now.view.rows ≡ rows_of (world_of asking.now) asked.now.name.now }
    requires held { AllByRecursion (λ row. AreHeld row (keyed_of asking.now).lists) asked.now.view.rows }
    requires rising { AllByRecursion AreRising asked.now.view.rows }
    requires offering { IsPermutation (offering_named asking.now asked.now.name.now) asked.now.view.offering }
    requires namers { IsPermutation (kept_namers_named asked.now.name.now (standing asking.now)) asked.now.view.kept_namers }
    ensures { OnOk result (out.new.items ≡ out.old.items ++ show_package_one (world_of asking.now) asked.now.name.now) }
{
    append_line(out, &[b"Package: ", asked.name])?;
    show_versions(asking, asked.view.rows(), out)?;
    show_namers(asking, table, asked, out)?;
    show_relations(asking.store(), asked.view.rows(), out)?;
    show_entries(asking.store(), asked.view.rows(), out)?;
    show_providers(asking, asked.view.offering(), asked.name, out)
}

/// Appends the answer on a name.
fn append_one(
    asking: &Asking<'_>,
    table: Option<&AskerTable<'_>>,
    asked: &AskedName<'_>,
    out: &mut Vec<u8>,
) -> Result<(), AllocError>
    requires leads { IfSome table (λ table. table.now ≡ leads_of (world_of asking.now)) }
    requires looked_up { IsLookedUp asking.now asked.now }
    ensures { OnOk result (out.new.items ≡ out.old.items
        ++ if_known (world_of asking.now) (show_package_one (world_of asking.now)) asked.now.name.now) }
{
    if !asked.view.is_known() {
        append_unknown(out, asked.name)?;
        return Ok(());
    }
    append_known(asking, table, asked, out)?;
    Ok(())
}

fn append_each(
    asking: &Asking<'_>,
    table: Option<&AskerTable<'_>>,
    asked: &[AskedName<'_>],
    out: &mut Vec<u8>,
) -> Result<(), AllocError>
    requires leads { IfSome table (λ table. table.now ≡ leads_of (world_of asking.now)) }
    requires looked_up { All (IsLookedUp asking.now) asked.now }
    ensures { OnOk result (out.new.items ≡ out.old.items ++ show_package_text (world_of asking.now) (names_asked asked.now)) }
{
    for at in 0..asked.len() {
        look_ahead_at_names(asking.store(), asked, at, out)?;
        append_one(asking, table, &asked[at], out)?;
    }
    Ok(())
}

/// Appends the answer to `showpkg`.
pub(crate) fn append_show_package<'a>(
    asking: &Asking<'a>,
    names: &'a [Bytes],
    out: &mut Vec<u8>,
) -> Result<(), AllocError>
    ensures { OnOk result (out.new.items ≡ out.old.items ++ show_package_text (world_of asking.now) names.now) }
{
    let asked = look_up(asking, names)?;
    match LeadTable::for_names(asking, names.len())? {
        Some(table) => {
            let table = AskerTable::new(asking.alloc(), table)?;
            append_each(asking, Some(&table), &asked, out)
        }
        None => append_each(asking, None, &asked, out),
    }
}

//! The lines of `policy`.

ghost use Rattle.std.specs.Prelude.{◌≡◌, ◌++◌, OnOk, false, filter, flat_map, map};
ghost use Rattle.std.specs.List.{AllByRecursion};
ghost use Rattle.std.specs.Map.{keys_of as names_of};
ghost use Rattle.ctl_store.specs.Store.{keyed_of};
ghost use Rattle.ctl_store.specs.Keys.{AreHeld, AreRising};
ghost use Rattle.ctl_policy.specs.Priority.{world_of};
ghost use Rattle.ctl_query.specs.Policy.{priority_of, row_version, version_or_none, are_of_one_row, row_mark};
ghost use Rattle.ctl_query.specs.Policy.{row_line, source_line, row_lines, policy_one, list_line, line_if_pinned};
ghost use Rattle.ctl_query.specs.Policy.{pinned_line, pinned_lines, policy_of_all, policy_text};
ghost use Rattle.ctl_query.specs.NameSet.{lent_names};
ghost use Rattle.ctl_query.specs.Texts.{if_known};
ghost use Rattle.ctl_query.specs.Packages.{packages_of, rows_of};
ghost use Rattle.ctl_policy.specs.Chosen.{choice_in};

use crate::asking::{AskedName, Asking};
use crate::interest::pinned_packages;
use crate::leads::version_under;
use crate::source_lines::SourceLines;
use crate::text::{append_number, append_right_four, append_unknown};
use ctl_filter::{append_line, append_parts};
use ctl_policy::{NewestFirst, list_priority, row_priority, rows_are_classes, specific_pin};
use ctl_relation::Bytes;
use ctl_store::{StanzaKey, Store};
use std::alloc::AllocError;

fn priority_of(store: &Store, list: &[u8]) -> i16
    ensures { result ≡ priority_of (world_of store.now) list.now }
{
    match list_priority(store, list) {
        Some(priority) => priority,
        None => 0,
    }
}

/// The version of a row, by its lead.
pub(crate) fn row_version<'a>(store: &'a Store, row: &[StanzaKey]) -> &'a [u8]
    ensures { result.now ≡ row_version (world_of store.now) row.now }
{
    match version_under(store, row.first().copied()) {
        Some(version) => version.text(),
        None => &[],
    }
}

/// The version of a lead, if there is one.
pub(crate) fn version_or_none(store: &Store, lead: Option<StanzaKey>) -> &[u8]
    ensures { result.now ≡ version_or_none (world_of store.now) lead }
{
    match version_under(store, lead) {
        Some(version) => version.text(),
        None => b"(none)",
    }
}

/// Whether two leads, if they are there, are of equal versions.
fn are_of_one_row(store: &Store, lead: Option<StanzaKey>, other: Option<StanzaKey>) -> bool
    ensures { result ≡ are_of_one_row (world_of store.now) lead other }
{
    match version_under(store, lead) {
        Some(version) => match version_under(store, other) {
            Some(other) => version == other,
            None => false,
        },
        None => false,
    }
}

/// What stands before a row: a star where it is the installed one.
fn row_mark(installed: bool) -> &'static [u8]
    ensures { result.now ≡ row_mark installed }
{
    if installed { b" *** " } else { b"     " }
}

/// Appends the line of a list that holds a row.
#[tactic(auto, unfolding(ctl_filter::specs::Texts::line))]
pub(crate) fn append_source(store: &Store, list: &[u8], out: &mut Vec<u8>) -> Result<(), AllocError>
    ensures { OnOk result (out.new.items ≡ out.old.items ++ source_line (world_of store.now) list.now) }
{
    out.extend_from_slice(b"       ")?;
    append_right_four(out, priority_of(store, list))?;
    append_line(out, &[b" ", list])?;
    Ok(())
}

/// The version table of a name, of which this is the installed row's lead.
#[derive(Drop)]
struct VersionTable<'a> {
    sources: &'a SourceLines<'a>,
    name: &'a [u8],
    installed: Option<StanzaKey>,
}

impl<'a> VersionTable<'a> {
    #[tactic(auto, unfolding(ctl_filter::specs::Texts::line))]
    fn append_row_line(&self, row: &[StanzaKey], out: &mut Vec<u8>) -> Result<(), AllocError>
        requires { AreHeld row.now (keyed_of self.now.sources.now).lists }
        ensures { OnOk result (out.new.items ≡ out.old.items
            ++ row_line (world_of self.now.sources.now) self.now.installed self.now.name.now row.now) }
    {
        let store = self.sources.store();
        let is_installed = are_of_one_row(store, self.installed, row.first().copied());
        out.extend_from_slice(row_mark(is_installed))?;
        out.extend_from_slice(row_version(store, row))?;
        out.extend_from_slice(b" ")?;
        append_number(out, row_priority(store, self.name, row))?;
        out.extend_from_slice(b"\n")?;
        Ok(())
    }

    /// Appends a row, which has these stanzas, and under it its sources.
    #[tactic(auto, unfolding(crate::specs::Policy::row_lines))]
    fn append_row(&self, row: &[StanzaKey], out: &mut Vec<u8>) -> Result<(), AllocError>
        requires held { AreHeld row.now (keyed_of self.now.sources.now).lists }
        requires rising { AreRising row.now }
        ensures { OnOk result (out.new.items ≡ out.old.items
            ++ row_lines (world_of self.now.sources.now) self.now.installed self.now.name.now row.now) }
    {
        self.append_row_line(row, out)?;
        self.sources.append_to(row, out)?;
        Ok(())
    }

    /// Appends some rows.
    fn append_rows(&self, rows: NewestFirst<'_>, out: &mut Vec<u8>) -> Result<(), AllocError>
        requires held { AllByRecursion (λ row. AreHeld row (keyed_of self.now.sources.now).lists) rows }
        requires rising { AllByRecursion AreRising rows }
        ensures { OnOk result (out.new.items ≡ out.old.items
            ++ flat_map (row_lines (world_of self.now.sources.now) self.now.installed self.now.name.now) rows.entry) }
    {
        'rows: for row in rows {
            self.append_row(row, out)?;
        }
        Ok(())
    }
}

/// Appends the version table of a name: what is chosen of it tells its installed row.
fn append_table(
    sources: &SourceLines<'_>,
    asked: &AskedName<'_>,
    out: &mut Vec<u8>,
) -> Result<(), AllocError>
    requires held { AllByRecursion (λ row. AreHeld row (keyed_of sources.now).lists) asked.now.view.rows }
    requires rising { AllByRecursion AreRising asked.now.view.rows }
    ensures { OnOk result (out.new.items ≡ out.old.items
        ++ flat_map (row_lines (world_of sources.now) asked.now.view.chosen.installed asked.now.name.now) asked.now.view.rows) }
{
    let table = VersionTable {
        sources,
        name: asked.name,
        installed: asked.view.chosen().installed,
    };
    table.append_rows(asked.view.rows(), out)?;
    Ok(())
}

/// Appends the answer on a known name: what is chosen of it, and its rows.
#[tactic(auto, unfolding(crate::specs::Policy::policy_one))]
fn append_known(
    sources: &SourceLines<'_>,
    asked: &AskedName<'_>,
    out: &mut Vec<u8>,
) -> Result<(), AllocError>
    requires chosen { asked.now.view.chosen ≡ choice_in asked.now.name.now (world_of sources.now) }
    requires rows { asked.now.view.rows ≡ rows_of (world_of sources.now) asked.now.name.now }
    requires held { AllByRecursion (λ row. AreHeld row (keyed_of sources.now).lists) asked.now.view.rows }
    requires rising { AllByRecursion AreRising asked.now.view.rows }
    ensures { OnOk result (out.new.items ≡ out.old.items ++ policy_one (world_of sources.now) asked.now.name.now) }
{
    let store = sources.store();
    let chosen = asked.view.chosen();
    append_line(out, &[asked.name, b":"])?;
    append_line(
        out,
        &[b"  Installed: ", version_or_none(store, chosen.installed)],
    )?;
    append_line(
        out,
        &[b"  Candidate: ", version_or_none(store, chosen.candidate)],
    )?;
    append_line(out, &[b"  Version table:"])?;
    append_table(sources, asked, out)?;
    Ok(())
}

/// Appends the line of a list among all.
#[tactic(auto, unfolding(ctl_filter::specs::Texts::line))]
fn append_list(store: &Store, list: &[u8], out: &mut Vec<u8>) -> Result<(), AllocError>
    ensures { OnOk result (out.new.items ≡ out.old.items ++ list_line (world_of store.now) list.now) }
{
    append_right_four(out, priority_of(store, list))?;
    append_line(out, &[b" ", list])?;
    Ok(())
}

#[tactic(auto, unfolding(ctl_filter::specs::Texts::line))]
fn append_pinned_line(
    name: &[u8],
    version: &[u8],
    priority: i16,
    out: &mut Vec<u8>,
) -> Result<(), AllocError>
    ensures { OnOk result (out.new.items ≡ out.old.items ++ pinned_line name.now version.now priority) }
{
    append_parts(out, &[b"     ", name, b" -> "])?;
    append_parts(out, &[version, b" with priority "])?;
    append_number(out, priority)?;
    out.extend_from_slice(b"\n")?;
    Ok(())
}

/// Appends the line of a row of a name whose priority comes from a specific pin; nothing of another row.
fn append_pinned(
    store: &Store,
    name: &[u8],
    row: &[StanzaKey],
    out: &mut Vec<u8>,
) -> Result<(), AllocError>
    requires { AreHeld row.now (keyed_of store.now).lists }
    ensures { OnOk result (out.new.items ≡ out.old.items ++ line_if_pinned (world_of store.now) name.now row.now) }
{
    match specific_pin(store, name, row) {
        Some(priority) => append_pinned_line(name, row_version(store, row), priority, out),
        None => Ok(()),
    }
}

/// Appends the lines of those rows of a name whose priority comes from a specific pin.
#[tactic(auto, unfolding(crate::specs::Policy::pinned_lines))]
fn append_pinned_rows(asking: &Asking<'_>, name: &[u8], out: &mut Vec<u8>) -> Result<(), AllocError>
    ensures { OnOk result (out.new.items ≡ out.old.items ++ pinned_lines (world_of asking.now) name.now) }
{
    let store = asking.store();
    'rows: for row in asking.rows(name) {
        append_pinned(store, name, row, out)?;
    }
    Ok(())
}

/// Appends the lists, each with its priority.
#[tactic(auto, using(crate::proofs::ListLemmas::names_shown))]
fn append_lists(store: &Store, out: &mut Vec<u8>) -> Result<(), AllocError>
    ensures { OnOk result (out.new.items ≡ out.old.items
        ++ flat_map (list_line (world_of store.now)) (names_of (world_of store.now).lists)) }
{
    'lists: for list in store.lists() {
        append_list(store, list.0, out)?;
    }
    Ok(())
}

fn append_each_pinned(
    asking: &Asking<'_>,
    names: &[&[u8]],
    out: &mut Vec<u8>,
) -> Result<(), AllocError>
    ensures { OnOk result (out.new.items ≡ out.old.items ++ flat_map (pinned_lines (world_of asking.now)) (lent_names names.now)) }
{
    for name in names {
        append_pinned_rows(asking, name, out)?;
    }
    Ok(())
}

/// Appends the pinned rows of all packages. Those that have a specific pin are enough.
fn append_all_pinned(asking: &Asking<'_>, out: &mut Vec<u8>) -> Result<(), AllocError>
    ensures { OnOk result (out.new.items ≡ out.old.items
        ++ flat_map (pinned_lines (world_of asking.now)) (packages_of (world_of asking.now))) }
{
    rows_are_classes();
    let names = pinned_packages(asking.alloc(), asking.store())?;
    append_each_pinned(asking, &names, out)?;
    Ok(())
}

/// Appends the answer to `policy` without a name: the lists, and the rows whose priority comes from a specific pin.
#[tactic(auto, unfolding(crate::specs::Policy::policy_of_all))]
pub(crate) fn append_policy_of_all(asking: &Asking<'_>, out: &mut Vec<u8>) -> Result<(), AllocError>
    ensures { OnOk result (out.new.items ≡ out.old.items ++ policy_of_all (world_of asking.now)) }
{
    append_line(out, &[b"Package files:"])?;
    append_lists(asking.store(), out)?;
    append_line(out, &[b"Pinned packages:"])?;
    append_all_pinned(asking, out)?;
    Ok(())
}

fn append_one(
    asking: &Asking<'_>,
    sources: &SourceLines<'_>,
    name: &[u8],
    out: &mut Vec<u8>,
) -> Result<(), AllocError>
    requires { sources.now ≡ asking.now }
    ensures { OnOk result (out.new.items ≡ out.old.items ++ if_known (world_of asking.now) (policy_one (world_of asking.now)) name.now) }
{
    let view = asking.view(name);
    if view.is_known() {
        append_known(sources, &AskedName { name, view }, out)?;
        Ok(())
    } else {
        append_unknown(out, name)?;
        Ok(())
    }
}

/// Appends the answer to `policy` of names.
pub(crate) fn append_policy(
    asking: &Asking<'_>,
    names: &[Bytes],
    out: &mut Vec<u8>,
) -> Result<(), AllocError>
    ensures { OnOk result (out.new.items ≡ out.old.items ++ policy_text (world_of asking.now) names.now) }
{
    let sources = SourceLines::new(asking.alloc(), asking.store())?;
    for name in names {
        append_one(asking, &sources, name.as_slice(), out)?;
    }
    Ok(())
}

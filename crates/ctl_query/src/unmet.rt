//! The answer to `unmet`.

ghost use Rattle.std.specs.Prelude.{◌≡◌, ◌++◌, ℕ, List, OnOk, Some, flat_map, length, true, false};
ghost use Rattle.ctl_store.specs.Followed.{under as found_under};
ghost use Rattle.ctl_index.specs.Clauses.{is_clause_field, clause_at};
ghost use Rattle.ctl_index.specs.HeldCache.{standing};
ghost use Rattle.ctl_policy.specs.Priority.{world_of};
ghost use Rattle.ctl_query.specs.NameSet.{lent_names};
ghost use Rattle.ctl_query.specs.Packages.{of_rows};
ghost use Rattle.ctl_query.specs.Unmet.{is_unmet, clause_line, line_if_unmet, unmet_in_field, clause_lines};
ghost use Rattle.ctl_query.specs.Unmet.{unmet_heading, under, unmet_lead, unmet_text};

use crate::asking::Asking;
use crate::interest::{packages_with_unmet, stanzas_are_found};
use crate::text::version_text;
use ctl_filter::{append_line, append_parts};
use ctl_index::ClauseKey;
use ctl_policy::rows_are_classes;
use ctl_relation::{FieldKind, Group};
use ctl_stanza::Stanza;
use ctl_store::StanzaKey;
use std::alloc::AllocError;

/// The lead of a row, and its key.
#[derive(Drop)]
struct Lead<'a> {
    key: StanzaKey,
    stanza: &'a Stanza,
}

/// Whether no offer meets a clause, which has these atoms. The cache keeps the number of those that do, so none is tested.
fn is_unmet(asking: &Asking<'_>, key: ClauseKey, clause: &Group<'_>) -> bool
    requires clause { clause_at key (standing asking.now) ≡ Some clause.now }
    ensures { result ≡ is_unmet (world_of asking.now) clause.now }
{
    asking.satisfiers(key) == 0
}

/// Appends the line of a clause that is not met.
#[tactic(auto, unfolding(ctl_filter::specs::Texts::line))]
fn append_clause(field: FieldKind, clause: &Group<'_>, out: &mut Vec<u8>) -> Result<(), AllocError>
    ensures { OnOk result (out.new.items ≡ out.old.items ++ clause_line field clause.now) }
{
    append_parts(out, &[b" ", field.printed_name(), b": "])?;
    clause.append_to(out)?;
    out.extend_from_slice(b"\n")?;
    Ok(())
}

/// The same, of a clause that may be met.
fn append_if_unmet(
    asking: &Asking<'_>,
    key: ClauseKey,
    clause: &Group<'_>,
    out: &mut Vec<u8>,
) -> Result<(), AllocError>
    requires clause { clause_at key (standing asking.now) ≡ Some clause.now }
    ensures { OnOk result (out.new.items ≡ out.old.items ++ line_if_unmet (world_of asking.now) key.field clause.now) }
{
    if is_unmet(asking, key, clause) {
        append_clause(key.field, clause, out)?;
    }
    Ok(())
}

/// Appends the clauses of a field of a lead that are not met.
fn append_field(
    asking: &Asking<'_>,
    lead: &Lead<'_>,
    field: FieldKind,
    out: &mut Vec<u8>,
) -> Result<(), AllocError>
    requires lead { found_under lead.now.key (standing asking.now) ≡ Some lead.now.stanza.now }
    requires field { is_clause_field field ≡ true }
    ensures { OnOk result (out.new.items ≡ out.old.items ++ unmet_in_field (world_of asking.now) lead.now.stanza.now field) }
{
    let groups = lead.stanza.groups(field);
    let mut group = 0u32;
    'clauses: for clause in groups {
        let key = ClauseKey {
            stanza: lead.key,
            field,
            group,
        };
        append_if_unmet(asking, key, &clause, out)?;
        group += 1;
    }
    Ok(())
}

/// Appends the clauses of a lead that are not met.
#[tactic(auto, unfolding(crate::specs::Unmet::clause_lines))]
fn append_clauses(
    asking: &Asking<'_>,
    important: bool,
    lead: &Lead<'_>,
    out: &mut Vec<u8>,
) -> Result<(), AllocError>
    requires lead { found_under lead.now.key (standing asking.now) ≡ Some lead.now.stanza.now }
    ensures { OnOk result (out.new.items ≡ out.old.items ++ clause_lines (world_of asking.now) important lead.now.stanza.now) }
{
    append_field(asking, lead, FieldKind::PreDepends, out)?;
    append_field(asking, lead, FieldKind::Depends, out)?;
    if important {
        return Ok(());
    }
    append_field(asking, lead, FieldKind::Recommends, out)?;
    append_field(asking, lead, FieldKind::Suggests, out)?;
    Ok(())
}

/// Appends the heading of the clauses of a lead that are not met.
fn append_heading(lead: &Stanza, out: &mut Vec<u8>) -> Result<(), AllocError>
    ensures { OnOk result (out.new.items ≡ out.old.items ++ unmet_heading lead.now) }
{
    append_line(
        out,
        &[
            b"Package ",
            lead.package(),
            b" version ",
            version_text(lead),
            b" has an unmet dep:",
        ],
    )?;
    Ok(())
}

/// Takes a heading off again where nothing stands behind it. Before it stood so many bytes, and with it so many.
fn close_heading(start: usize, headed: usize, out: &mut Vec<u8>)
    ensures { (before : List ℕ) → (heading : List ℕ) → (text : List ℕ) → length before ≡ start → length (before ++ heading) ≡ headed
        → out.old.items ≡ (before ++ heading) ++ text → out.new.items ≡ before ++ under heading text }
{
    if out.len() == headed {
        out.truncate(start);
    }
}

/// Appends the clauses of a lead that are not met under their heading; nothing where there is none.
fn append_lead(
    asking: &Asking<'_>,
    important: bool,
    lead: &Lead<'_>,
    out: &mut Vec<u8>,
) -> Result<(), AllocError>
    requires lead { found_under lead.now.key (standing asking.now) ≡ Some lead.now.stanza.now }
    ensures { OnOk result (out.new.items ≡ out.old.items ++ unmet_lead (world_of asking.now) important lead.now.stanza.now) }
{
    let start = out.len();
    append_heading(lead.stanza, out)?;
    let headed = out.len();
    append_clauses(asking, important, lead, out)?;
    close_heading(start, headed, out);
    Ok(())
}

fn append_leads(
    asking: &Asking<'_>,
    important: bool,
    name: &[u8],
    out: &mut Vec<u8>,
) -> Result<(), AllocError>
    ensures { OnOk result (out.new.items ≡ out.old.items
        ++ of_rows (world_of asking.now) (unmet_lead (world_of asking.now) important) name.now) }
{
    'leads: for (key, stanza) in asking.leads(name) {
        append_lead(asking, important, &Lead { key, stanza }, out)?;
    }
    Ok(())
}

fn append_each(
    asking: &Asking<'_>,
    important: bool,
    names: &[&[u8]],
    out: &mut Vec<u8>,
) -> Result<(), AllocError>
    ensures { OnOk result (out.new.items ≡ out.old.items
        ++ flat_map (of_rows (world_of asking.now) (unmet_lead (world_of asking.now) important)) (lent_names names.now)) }
{
    for name in names {
        append_leads(asking, important, name, out)?;
    }
    Ok(())
}

/// Appends the answer to `unmet`. The packages of the clauses that no offer meets are enough.
pub(crate) fn append_unmet(
    asking: &Asking<'_>,
    important: bool,
    out: &mut Vec<u8>,
) -> Result<(), AllocError>
    ensures { OnOk result (out.new.items ≡ out.old.items ++ unmet_text (world_of asking.now) important) }
{
    rows_are_classes();
    stanzas_are_found(asking);
    let names = packages_with_unmet(asking)?;
    append_each(asking, important, &names, out)?;
    Ok(())
}

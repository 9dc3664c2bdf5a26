//! The lines of `show`.

ghost use Rattle.std.specs.Prelude.{◌≡◌, ◌++◌, OnOk, false, flat_map, map, option_copied};
ghost use Rattle.ctl_policy.specs.Candidate.{candidate_of};
ghost use Rattle.ctl_policy.specs.Priority.{world_of};
ghost use Rattle.ctl_query.specs.Asked.{asked_row};
ghost use Rattle.ctl_query.specs.Packages.{of_rows, stanza_under, told, told_of_row};
ghost use Rattle.ctl_query.specs.Show.{lead_text, not_found_line, rows_shown, show_one, show_text, version_shown};

use crate::asking::Asking;
use crate::leads::{lead_in, stanza_under};
use crate::query::AskedRow;
use crate::text::append_unknown;
use ctl_filter::append_line;
use ctl_policy::NewestFirst;
use ctl_relation::Version;
use ctl_stanza::Stanza;
use ctl_store::{StanzaKey, Store};
use std::alloc::AllocError;

/// Appends the text of a lead and an empty line; nothing where there is none.
fn append_lead(lead: Option<&Stanza>, out: &mut Vec<u8>) -> Result<(), AllocError>
    ensures { OnOk result (out.new.items ≡ out.old.items ++ told lead_text (option_copied lead.entry)) }
{
    match lead {
        Some(lead) => append_line(out, &[lead.text()]),
        None => Ok(()),
    }
}

fn append_row(store: &Store, row: &[StanzaKey], out: &mut Vec<u8>) -> Result<(), AllocError>
    ensures { OnOk result (out.new.items ≡ out.old.items ++ told_of_row (world_of store.now) lead_text row.now) }
{
    append_lead(lead_in(store, row), out)?;
    Ok(())
}

/// Appends each of some rows.
fn append_rows(store: &Store, rows: NewestFirst<'_>, out: &mut Vec<u8>) -> Result<(), AllocError>
    ensures { OnOk result (out.new.items ≡ out.old.items ++ flat_map (told_of_row (world_of store.now) lead_text) rows.entry) }
{
    'rows: for row in rows {
        append_row(store, row, out)?;
    }
    Ok(())
}

/// Appends what stands in place of a row that is not there.
fn append_not_found(name: &[u8], version: &Version, out: &mut Vec<u8>) -> Result<(), AllocError>
    ensures { OnOk result (out.new.items ≡ out.old.items ++ not_found_line name.now version.now) }
{
    let version = version.text();
    append_line(
        out,
        &[b"N: Version ", version, b" of ", name, b" was not found"],
    )?;
    Ok(())
}

/// Appends the row of a name whose version is equal to this one, or that there is none.
fn append_version(
    asking: &Asking<'_>,
    name: &[u8],
    version: &Version,
    out: &mut Vec<u8>,
) -> Result<(), AllocError>
    ensures { OnOk result (out.new.items ≡ out.old.items ++ version_shown (world_of asking.now) name.now version.now) }
{
    match stanza_under(asking.store(), asking.lead(name, version)) {
        Some(lead) => {
            append_line(out, &[lead.text()])?;
            Ok(())
        }
        None => append_not_found(name, version, out),
    }
}

/// Appends each row of a name.
fn append_all(asking: &Asking<'_>, name: &[u8], out: &mut Vec<u8>) -> Result<(), AllocError>
    ensures { OnOk result (out.new.items ≡ out.old.items ++ of_rows (world_of asking.now) lead_text name.now) }
{
    append_rows(asking.store(), asking.rows(name), out)?;
    Ok(())
}

/// Appends the row of the candidate, if there is one.
fn append_candidate(asking: &Asking<'_>, name: &[u8], out: &mut Vec<u8>) -> Result<(), AllocError>
    ensures { OnOk result (out.new.items ≡ out.old.items
        ++ told lead_text (stanza_under (world_of asking.now) (candidate_of name.now (world_of asking.now)))) }
{
    append_lead(stanza_under(asking.store(), asking.candidate(name)), out)?;
    Ok(())
}

/// Appends what is shown of a name that has a row.
fn append_shown(
    asking: &Asking<'_>,
    all: bool,
    asked: &AskedRow,
    out: &mut Vec<u8>,
) -> Result<(), AllocError>
    ensures { OnOk result (out.new.items ≡ out.old.items ++ rows_shown (world_of asking.now) all asked.now.name asked.now.version) }
{
    let name = asked.name.as_slice();
    match &asked.version {
        Some(version) => append_version(asking, name, version, out),
        None => {
            if all {
                append_all(asking, name, out)
            } else {
                append_candidate(asking, name, out)
            }
        }
    }
}

fn append_one(
    asking: &Asking<'_>,
    all: bool,
    asked: &AskedRow,
    out: &mut Vec<u8>,
) -> Result<(), AllocError>
    ensures { OnOk result (out.new.items ≡ out.old.items ++ show_one (world_of asking.now) all (asked_row asked.now)) }
{
    let name = asked.name.as_slice();
    if asking.has_row(name) {
        append_shown(asking, all, asked, out)?;
        Ok(())
    } else {
        append_unknown(out, name)?;
        Ok(())
    }
}

/// Appends the answer to `show`.
pub(crate) fn append_show(
    asking: &Asking<'_>,
    all: bool,
    asked: &[AskedRow],
    out: &mut Vec<u8>,
) -> Result<(), AllocError>
    ensures { OnOk result (out.new.items ≡ out.old.items ++ show_text (world_of asking.now) all (map asked_row asked.now)) }
{
    for one in asked {
        append_one(asking, all, one, out)?;
    }
    Ok(())
}

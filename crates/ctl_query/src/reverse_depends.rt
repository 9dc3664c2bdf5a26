//! The answer to `rdepends`.

ghost use Rattle.std.specs.Prelude.{◌≡◌, ◌++◌, OnOk, IfSome, flat_map};
ghost use Rattle.std.specs.List.Sorted.{IsPermutation};
ghost use Rattle.ctl_index.specs.HeldCache.{standing};
ghost use Rattle.ctl_index.specs.Names.{kept_namers_named};
ghost use Rattle.ctl_policy.specs.Priority.{world_of};
ghost use Rattle.ctl_query.specs.Leads.{leads_of};
ghost use Rattle.ctl_query.specs.ReverseDepends.{asking_line, reverse_depends_one, reverse_depends_text};
ghost use Rattle.ctl_query.specs.Packages.{packages_of};
ghost use Rattle.ctl_query.specs.Texts.{if_known};

use crate::asking::{AskedName, Asking};
use crate::lead_table::LeadTable;
use crate::naming::{ReverseDepending, append_by_atoms};
use crate::text::append_unknown;
use ctl_filter::append_line;
use ctl_relation::Bytes;
use std::alloc::AllocError;

/// Appends the lines of all packages: by a table of all leads if there is one, else those of the packages with an atom of the name are
/// enough.
fn append_all_askers(
    depending: &ReverseDepending<'_>,
    table: Option<&LeadTable<'_>>,
    asked: &AskedName<'_>,
    out: &mut Vec<u8>,
) -> Result<(), AllocError>
    requires leads { IfSome table (λ table. table.now ≡ leads_of (world_of depending.now.asking.now)) }
    requires namers { IsPermutation (kept_namers_named asked.now.name.now (standing depending.now.asking.now)) asked.now.view.kept_namers }
    ensures { OnOk result (out.new.items ≡ out.old.items
        ++ flat_map (asking_line (world_of depending.now.asking.now) depending.now.installed asked.now.name.now)
        (packages_of (world_of depending.now.asking.now))) }
{
    match table {
        Some(table) => append_by_atoms(depending, table, asked, out),
        None => {
            let table = LeadTable::of_askers(depending.asking, asked.name)?;
            append_by_atoms(depending, &table, asked, out)
        }
    }
}

/// Appends the answer on a known name.
#[tactic(auto, unfolding(crate::specs::ReverseDepends::reverse_depends_one))]
fn append_known(
    depending: &ReverseDepending<'_>,
    table: Option<&LeadTable<'_>>,
    asked: &AskedName<'_>,
    out: &mut Vec<u8>,
) -> Result<(), AllocError>
    requires leads { IfSome table (λ table. table.now ≡ leads_of (world_of depending.now.asking.now)) }
    requires namers { IsPermutation (kept_namers_named asked.now.name.now (standing depending.now.asking.now)) asked.now.view.kept_namers }
    ensures { OnOk result (out.new.items ≡ out.old.items
        ++ reverse_depends_one (world_of depending.now.asking.now) depending.now.installed asked.now.name.now) }
{
    append_line(out, &[asked.name])?;
    append_line(out, &[b"Reverse Depends:"])?;
    append_all_askers(depending, table, asked, out)
}

fn append_one(
    depending: &ReverseDepending<'_>,
    table: Option<&LeadTable<'_>>,
    name: &[u8],
    out: &mut Vec<u8>,
) -> Result<(), AllocError>
    requires leads { IfSome table (λ table. table.now ≡ leads_of (world_of depending.now.asking.now)) }
    ensures { OnOk result (out.new.items ≡ out.old.items
        ++ if_known (world_of depending.now.asking.now)
        (reverse_depends_one (world_of depending.now.asking.now) depending.now.installed) name.now) }
{
    let view = depending.asking.view(name);
    if !view.is_known() {
        append_unknown(out, name)?;
        return Ok(());
    }
    append_known(depending, table, &AskedName { name, view }, out)?;
    Ok(())
}

fn append_each_name(
    depending: &ReverseDepending<'_>,
    table: Option<&LeadTable<'_>>,
    names: &[Bytes],
    out: &mut Vec<u8>,
) -> Result<(), AllocError>
    requires leads { IfSome table (λ table. table.now ≡ leads_of (world_of depending.now.asking.now)) }
    ensures { OnOk result (out.new.items ≡ out.old.items
        ++ reverse_depends_text (world_of depending.now.asking.now) depending.now.installed names.now) }
{
    for name in names {
        append_one(depending, table, name.as_slice(), out)?;
    }
    Ok(())
}

/// Appends the answer to `rdepends`.
pub(crate) fn append_reverse_depends(
    asking: &Asking<'_>,
    installed: bool,
    names: &[Bytes],
    out: &mut Vec<u8>,
) -> Result<(), AllocError>
    ensures { OnOk result (out.new.items ≡ out.old.items ++ reverse_depends_text (world_of asking.now) installed names.now) }
{
    let depending = ReverseDepending {
        asking: &*asking,
        installed,
    };
    match LeadTable::for_names(asking, names.len())? {
        Some(table) => append_each_name(&depending, Some(&table), names, out),
        None => append_each_name(&depending, None, names, out),
    }
}

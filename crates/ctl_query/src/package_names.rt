//! The answer to `pkgnames`.

ghost use Rattle.std.specs.Prelude.{◌≡◌, ◌++◌, OnOk, true, false, filter, flat_map};
ghost use Rattle.std.specs.Cmp.Lexicographic.{slice_cmp};
ghost use Rattle.std.specs.List.{AllByRecursion};
ghost use Rattle.std.specs.List.Sorted.{IsStrictlySortedBy};
ghost use Rattle.std.specs.Ordering.{nat_cmp, is_le};
ghost use Rattle.ctl_policy.specs.Priority.{world_of};
ghost use Rattle.ctl_query.specs.PackageNames.{begins_with, name_line, package_names_text};
ghost use Rattle.ctl_query.specs.Packages.{has_row, names_known, packages_of};

use crate::asking::Asking;
use ctl_filter::append_line;
use ctl_index::{Names, PackageNames, Packages};
use ctl_policy::rows_are_classes;
use std::alloc::AllocError;

/// Appends those of some names that begin with a prefix. They are in order, none before the prefix: behind the first that doesn't
/// begin with it none does.
fn append_names(names: Names<'_>, prefix: &[u8], out: &mut Vec<u8>) -> Result<(), AllocError>
    requires order { IsStrictlySortedBy (slice_cmp nat_cmp) names }
    requires from { AllByRecursion (λ name. is_le (slice_cmp nat_cmp prefix.now name) ≡ true) names }
    ensures { OnOk result (out.new.items ≡ out.old.items ++ flat_map name_line (filter (begins_with prefix.now) names.entry)) }
{
    'names: for name in names {
        if !name.starts_with(prefix) {
            return Ok(());
        }
        append_line(out, &[name])?;
    }
    Ok(())
}

/// Appends the known names that begin with a prefix, in the time that they and the prefix take.
fn append_known(asking: &Asking<'_>, prefix: &[u8], out: &mut Vec<u8>) -> Result<(), AllocError>
    ensures { OnOk result (out.new.items ≡ out.old.items
        ++ flat_map name_line (filter (begins_with prefix.now) (names_known (world_of asking.now)))) }
{
    let names = asking.names_from(prefix)?;
    append_names(names, prefix, out)?;
    Ok(())
}

/// Appends those of some packages that begin with a prefix.
fn append_packages(
    packages: Packages<'_>,
    prefix: &[u8],
    out: &mut Vec<u8>,
) -> Result<(), AllocError>
    ensures { OnOk result (out.new.items ≡ out.old.items ++ flat_map name_line (filter (begins_with prefix.now) packages.entry)) }
{
    'packages: for name in packages {
        if name.starts_with(prefix) {
            append_line(out, &[name])?;
        }
    }
    Ok(())
}

/// Appends those of some names that have a row.
fn append_with_row(
    asking: &Asking<'_>,
    names: PackageNames<'_>,
    out: &mut Vec<u8>,
) -> Result<(), AllocError>
    ensures { OnOk result (out.new.items ≡ out.old.items ++ flat_map name_line (filter (has_row (world_of asking.now)) names.entry)) }
{
    'names: for name in names {
        if asking.has_row(name) {
            append_line(out, &[name])?;
        }
    }
    Ok(())
}

/// Appends the packages that begin with a prefix, in the time that they and the prefix take.
fn append_begun(asking: &Asking<'_>, prefix: &[u8], out: &mut Vec<u8>) -> Result<(), AllocError>
    ensures { OnOk result (out.new.items ≡ out.old.items
        ++ flat_map name_line (filter (begins_with prefix.now) (packages_of (world_of asking.now)))) }
{
    rows_are_classes();
    let names = asking.package_names(prefix)?;
    append_with_row(asking, names, out)?;
    Ok(())
}

/// Appends the answer to `pkgnames`: of all known names, or of those that have a row.
pub(crate) fn append_package_names(
    asking: &Asking<'_>,
    all: bool,
    prefix: &[u8],
    out: &mut Vec<u8>,
) -> Result<(), AllocError>
    ensures { OnOk result (out.new.items ≡ out.old.items ++ package_names_text (world_of asking.now) all prefix.now) }
{
    if all {
        append_known(asking, prefix, out)?;
        return Ok(());
    }
    if prefix.is_empty() {
        append_packages(asking.packages(), prefix, out)?;
        return Ok(());
    }
    append_begun(asking, prefix, out)?;
    Ok(())
}

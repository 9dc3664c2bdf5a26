//! What the offers of an atom's name tell: the packages whose offers meet the atom, and whether the name has a row.

ghost use Rattle.std.specs.Prelude.{◌≡◌, ◌++◌, ◌+◌, ◌≤◌, ◌||◌, ℕ, List, OnOk, IfOk, false, not, flat_map, count_by};
ghost use Rattle.std.specs.Str.{bytes_eq};
ghost use Rattle.ctl_policy.specs.Priority.{world_of};
ghost use Rattle.ctl_query.specs.Depends.{is_kept, names_kept, providers, atom_pairs, provider_line};
ghost use Rattle.ctl_query.specs.NameSet.{lent_names, is_among};
ghost use Rattle.ctl_query.specs.Packages.{has_row, is_none_of};
ghost use Rattle.ctl_query.specs.Providers.{gives, makes_row};

use crate::asking::Asking;
use crate::interest::stanzas_are_found;
use crate::name_set::add_name;
use ctl_filter::append_line;
use ctl_relation::{Atom, Offer, Steps};
use ctl_stanza::Stanza;
use std::alloc::AllocError;
use std::collections::BTreeSet;

/// Adds the package of a stanza, if it has another name and its offer meets the atom.
fn add_provider<'a>(
    names: &mut BTreeSet<&'a [u8]>,
    offering: (&'a Stanza, &Offer),
    atom: &Atom<'_>,
    steps: &mut Steps,
) -> Result<(), AllocError>
    ensures names { OnOk result ((other : List ℕ) → is_among (lent_names names.new.keys) other
        ≡ (gives atom.now other offering.entry.0.now offering.entry.1.now || is_among (lent_names names.old.keys) other)) }
    ensures steps { steps.new ≤ steps.old + 1 }
    ensures kept { steps.old ≤ steps.new }
{
    let (stanza, offer) = offering;
    // That the count has its last value is said here.
    let _count = steps.count();
    let package = stanza.package();
    if package != atom.name() && atom.met_by(offer, steps) {
        add_name(names, package)?;
    }
    Ok(())
}

/// Whether a row of an atom's name was found, or a stanza is a live one of that name, which has a row then.
fn with_row_of(found: bool, stanza: &Stanza, atom: &Atom<'_>) -> bool
    ensures { result ≡ (found || makes_row atom.now.name stanza.now) }
{
    found || (stanza.package() == atom.name() && stanza.version().is_some())
}

/// The packages, other than the one of the atom's name, with an offer that meets the atom: each once, in the order of their bytes.
/// And whether the atom's name has a row: then one of its offers is that of its package.
pub(crate) fn providers<'a>(
    asking: &Asking<'a>,
    atom: &Atom<'_>,
    steps: &mut Steps,
) -> Result<(BTreeSet<&'a [u8]>, bool), AllocError>
    ensures names { IfOk result (λ found. lent_names found.0.keys ≡ providers (world_of asking.now) atom.now) }
    ensures row { IfOk result (λ found. found.1 ≡ has_row (world_of asking.now) atom.now.name) }
    ensures steps { steps.new ≤ steps.old + atom_pairs (world_of asking.now) atom.now }
    ensures kept { steps.old ≤ steps.new }
{
    stanzas_are_found(asking);
    let store = asking.store();
    let mut names = BTreeSet::new(asking.alloc());
    let mut with_row = false;
    'offers: for (key, offer) in asking.offers(atom.name()) {
        let stanza = store.stanza(key);
        with_row = with_row_of(with_row, stanza, atom);
        add_provider(&mut names, (stanza, offer), atom, steps)?;
    }
    let _count = names.len();
    Ok((names, with_row))
}

/// Whether a name is kept: with `--installed` where a row of it is installed.
fn is_kept(asking: &Asking<'_>, installed: bool, name: &[u8]) -> bool
    ensures { result ≡ is_kept (world_of asking.now) installed name.now }
{
    !installed || asking.is_installed(name)
}

/// Whether any of some names is kept.
pub(crate) fn is_any_kept(asking: &Asking<'_>, installed: bool, names: &BTreeSet<&[u8]>) -> bool
    ensures { result ≡ not (is_none_of (names_kept (world_of asking.now) installed (lent_names names.now.keys))) }
{
    'names: for name in names {
        if is_kept(asking, installed, name) {
            return true;
        }
    }
    false
}

/// Appends a line for each of some names that is kept.
pub(crate) fn append_providers(
    asking: &Asking<'_>,
    installed: bool,
    names: &BTreeSet<&[u8]>,
    out: &mut Vec<u8>,
) -> Result<(), AllocError>
    ensures { OnOk result (out.new.items ≡ out.old.items
        ++ flat_map provider_line (names_kept (world_of asking.now) installed (lent_names names.now.keys))) }
{
    'names: for name in names {
        if is_kept(asking, installed, name) {
            append_line(out, &[b"    ", name])?;
        }
    }
    Ok(())
}

//! The packages that name a name, found atom by atom in a table of leads, and their lines in `rdepends`.

ghost use Rattle.std.specs.Prelude.{◌≡◌, ◌++◌, List, [], OnOk, IfOk, option_map, flat_map};
ghost use Rattle.std.specs.Option.{option_map_or, option_to_list};
ghost use Rattle.std.specs.List.Sorted.{IsPermutation};
ghost use Rattle.ctl_index.specs.HeldCache.{standing};
ghost use Rattle.ctl_index.specs.Names.{kept_namers_named};
ghost use Rattle.ctl_policy.specs.Priority.{world_of};
ghost use Rattle.ctl_query.specs.LeadTable.{AreEnough};
ghost use Rattle.ctl_query.specs.Packages.{packages_of};
ghost use Rattle.ctl_query.specs.ReverseDepends.{asking_line};
ghost use Rattle.ctl_query.specs.Inside.Namings.{Naming, lent_naming, further_at, naming_in, naming_at};
ghost use Rattle.ctl_query.specs.Inside.Namings.{line_of, joined_naming, closed_line, lines_behind};

use crate::ahead::look_ahead;
use crate::asking::{AskedName, Asking};
use crate::interest::stanzas_are_found;
use crate::lead_atoms::{LeadAtom, list_atoms};
use crate::lead_table::LeadTable;
use crate::relation_lines::mark;
use ctl_filter::append_line;
use ctl_policy::rows_are_classes;
use ctl_stanza::Stanza;
use std::alloc::AllocError;

/// A package that names a name, and whether a further alternative follows each of its atoms that do.
type Naming<'a> = (&'a [u8], bool);

// Whether a further alternative follows an atom of a lead in its group. No atom is read for that.
fn further_at(lead: &Stanza, atom: LeadAtom) -> Option<bool>
    ensures { result ≡ further_at atom lead.now }
{
    let group = lead.groups(atom.field).get(atom.group as usize)?;
    Some(atom.atom as usize + 1 < group.len())
}

// The package of a lead, which has an atom that names the name, and whether a further alternative follows that.
fn naming_in<'a>(lead: &'a Stanza, atom: LeadAtom) -> Option<Naming<'a>>
    ensures { option_map lent_naming result ≡ naming_in atom lead.now }
{
    let further = further_at(lead, atom)?;
    Some((lead.package(), further))
}

fn naming_at<'a>(table: &LeadTable<'a>, atom: LeadAtom) -> Option<Naming<'a>>
    ensures { option_map lent_naming result ≡ naming_at table.now atom }
{
    match table.lead(atom.place) {
        Some(lead) => naming_in(lead, atom),
        None => None,
    }
}

// One more: of the same package as what was found before, or of another one.
fn joined_naming<'a>(found: Option<Naming<'a>>, naming: Naming<'a>) -> Naming<'a>
    ensures { lent_naming result ≡ joined_naming (option_map lent_naming found.entry) (lent_naming naming.entry) }
{
    match found {
        Some((asker, all)) => {
            if asker == naming.0 {
                (asker, all && naming.1)
            } else {
                naming
            }
        }
        None => naming,
    }
}

/// What `rdepends` is asked of, and whether it shows packages of which a row is installed alone.
#[derive(Drop)]
pub(crate) struct ReverseDepending<'a> {
    pub(crate) asking: &'a Asking<'a>,
    pub(crate) installed: bool,
}

// Appends the line of a package, with `--installed` of one of which a row is installed alone.
#[tactic(auto, unfolding(ctl_filter::specs::Texts::line))]
fn append_line_of(
    depending: &ReverseDepending<'_>,
    naming: Naming<'_>,
    out: &mut Vec<u8>,
) -> Result<(), AllocError>
    ensures { OnOk result (out.new.items ≡ out.old.items
        ++ line_of (world_of depending.now.asking.now) depending.now.installed (lent_naming naming.entry)) }
{
    let (asker, all) = naming;
    if depending.installed && !depending.asking.is_installed(asker) {
        return Ok(());
    }
    out.extend_from_slice(mark(all))?;
    append_line(out, &[asker])?;
    Ok(())
}

// Appends the line of what was found before, where one of another package follows.
fn append_closed(
    depending: &ReverseDepending<'_>,
    found: Option<Naming<'_>>,
    naming: Naming<'_>,
    out: &mut Vec<u8>,
) -> Result<(), AllocError>
    ensures { OnOk result (out.new.items ≡ out.old.items
        ++ closed_line (world_of depending.now.asking.now) depending.now.installed (option_map lent_naming found.entry)
        (lent_naming naming.entry)) }
{
    match found {
        Some(found) => {
            if found.0 != naming.0 {
                append_line_of(depending, found, out)?;
            }
            Ok(())
        }
        None => Ok(()),
    }
}

// Appends the line of what was found, if anything was.
fn append_found(
    depending: &ReverseDepending<'_>,
    found: Option<Naming<'_>>,
    out: &mut Vec<u8>,
) -> Result<(), AllocError>
    ensures { OnOk result (out.new.items ≡ out.old.items
        ++ option_map_or (line_of (world_of depending.now.asking.now) depending.now.installed)
        (option_map lent_naming found.entry) []) }
{
    match found {
        Some(found) => append_line_of(depending, found, out),
        None => Ok(()),
    }
}

// What is found with an atom more, of which the line before is appended where it is of another package.
#[tactic(auto, unfolding(crate::specs::Inside::Namings::lines_behind))]
fn append_next<'a>(
    depending: &ReverseDepending<'_>,
    found: Option<Naming<'a>>,
    naming: Option<Naming<'a>>,
    out: &mut Vec<u8>,
) -> Result<Option<Naming<'a>>, AllocError>
    ensures { IfOk result (λ next. (others : List Naming)
        → out.new.items ++ lines_behind (world_of depending.now.asking.now) depending.now.installed (option_map lent_naming next) others
        ≡ out.old.items ++ lines_behind (world_of depending.now.asking.now) depending.now.installed (option_map lent_naming found.entry)
        (option_to_list (option_map lent_naming naming.entry) ++ others)) }
{
    match naming {
        Some(naming) => {
            append_closed(depending, found, naming, out)?;
            Ok(Some(joined_naming(found, naming)))
        }
        None => Ok(found),
    }
}

/// Appends the lines of all packages that name a name, by a table of leads: each atom is gone to by its key, and no name is looked
/// for.
pub(crate) fn append_by_atoms(
    depending: &ReverseDepending<'_>,
    table: &LeadTable<'_>,
    asked: &AskedName<'_>,
    out: &mut Vec<u8>,
) -> Result<(), AllocError>
    requires enough { AreEnough depending.now.asking.now asked.now.name.now table.now }
    requires namers { IsPermutation (kept_namers_named asked.now.name.now (standing depending.now.asking.now)) asked.now.view.kept_namers }
    ensures { OnOk result (out.new.items ≡ out.old.items
        ++ flat_map (asking_line (world_of depending.now.asking.now) depending.now.installed asked.now.name.now)
        (packages_of (world_of depending.now.asking.now))) }
{
    rows_are_classes();
    stanzas_are_found(depending.asking);
    let atoms = list_atoms(depending.asking.alloc(), table, asked.view.kept_namers())?;
    let mut found = None;
    for at in 0..atoms.len() {
        look_ahead(table, &atoms, at, out)?;
        let naming = naming_at(table, atoms[at].at);
        found = append_next(depending, found, naming, out)?;
    }
    append_found(depending, found, out)?;
    Ok(())
}

//! The answer to `depends`.

ghost use Rattle.std.specs.Prelude.{◌≡◌, ◌++◌, ◌+◌, ◌≤◌, [], OnOk, option_copied};
ghost use Rattle.std.specs.Option.{option_or};
ghost use Rattle.std.specs.BTreeMap.{values};
ghost use Rattle.ctl_policy.specs.Chosen.{choice_in};
ghost use Rattle.ctl_policy.specs.Priority.{world_of};
ghost use Rattle.ctl_policy.specs.Rows.{lead_of};
ghost use Rattle.ctl_query.specs.Depends.{atom_lines, group_lines, field_lines, lead_lines, has_lines};
ghost use Rattle.ctl_query.specs.Depends.{depends_fields, depends_one, depends_text};
ghost use Rattle.ctl_query.specs.Depends.{atom_pairs, group_pairs, field_pairs, lead_pairs, one_pairs, depends_pairs, providers};
ghost use Rattle.ctl_query.specs.Inside.KeptLines.{AreWritten};
ghost use Rattle.ctl_query.specs.NameSet.{lent_names};
ghost use Rattle.ctl_query.specs.Packages.{rows_of, stanza_under};
ghost use Rattle.ctl_query.specs.Texts.{if_known};

use crate::asking::{AskedName, Asking};
use crate::leads::stanza_under;
use crate::providers::{append_providers, is_any_kept, providers};
use crate::query::DependsOptions;
use crate::relation_lines::{Alternative, append_atom_line};
use crate::repeats::{Written, keep, lines_of};
use crate::text::append_unknown;
use ctl_filter::append_line;
use ctl_policy::Chosen;
use ctl_relation::{Bytes, FieldKind, Group, Steps};
use ctl_stanza::Stanza;
use ctl_store::{StanzaKey, Store};
use std::alloc::AllocError;
use std::collections::{BTreeMap, BTreeSet};

/// The eight fields, or of important dependencies alone the first two.
fn depends_fields(important: bool) -> &'static [FieldKind]
    ensures { result.now ≡ depends_fields important }
{
    let fields = FieldKind::eight();
    if important {
        fields.split_at(2).0
    } else {
        fields
    }
}

// From so many tests on the lines of an atom are kept in mind.
const MANY: u128 = 64;

/// What `depends` is asked of, and what it is to show.
#[derive(Drop)]
pub(crate) struct Depending<'a> {
    pub(crate) asking: &'a Asking<'a>,
    pub(crate) options: DependsOptions,
}

impl<'a> Depending<'a> {
    /// Whether an atom, which has these providers, has lines.
    fn has_lines(&self, alternative: &Alternative<'_>, names: &BTreeSet<&[u8]>) -> bool
        requires { lent_names names.now.keys ≡ providers (world_of self.now.asking.now) alternative.now.atom }
        ensures { result ≡ has_lines (world_of self.now.asking.now) self.now.options.installed alternative.now.atom }
    {
        let installed = self.options.installed;
        !installed
            || self.asking.is_installed(alternative.atom.name())
            || is_any_kept(self.asking, installed, names)
    }

    /// Appends the line of an atom, and under it one for each provider that is kept.
    #[tactic(auto, unfolding(crate::specs::Depends::atom_lines))]
    fn append_atom(
        &self,
        alternative: &Alternative<'_>,
        out: &mut Vec<u8>,
        steps: &mut Steps,
    ) -> Result<(), AllocError>
        ensures text { OnOk result (out.new.items ≡ out.old.items ++ atom_lines (world_of self.now.asking.now) self.now.options.installed
            alternative.now.field alternative.now.further alternative.now.atom) }
        ensures steps { steps.new ≤ steps.old + atom_pairs (world_of self.now.asking.now) alternative.now.atom }
        ensures kept { steps.old ≤ steps.new }
    {
        let (names, with_row) = providers(self.asking, &alternative.atom, steps)?;
        if !self.has_lines(alternative, &names) {
            return Ok(());
        }
        append_atom_line(with_row, alternative, out)?;
        append_providers(self.asking, self.options.installed, &names, out)
    }

    /// Appends the lines of a lead.
    #[tactic(auto, using(std::proofs::lemmas::List::Sums::sum_by_more_le, std::proofs::lemmas::List::Sums::sum_by_more), unfolding(crate::specs::Depends::lead_lines, crate::specs::Depends::lead_pairs))]
    fn append_lead(
        &self,
        lead: &Stanza,
        out: &mut Vec<u8>,
        steps: &mut Steps,
    ) -> Result<(), AllocError>
        ensures text { OnOk result (out.new.items ≡ out.old.items ++ lead_lines (world_of self.now.asking.now) self.now.options lead.now) }
        ensures steps { steps.new ≤ steps.old + lead_pairs (world_of self.now.asking.now) self.now.options lead.now }
        ensures kept { steps.old ≤ steps.new }
    {
        let fields = depends_fields(self.options.important);
        for field in fields {
            let mut lines = FieldLines::new(&*self, *field);
            lines.append_field(lead, out, steps)?;
        }
        Ok(())
    }

    /// Appends the answer on a known name.
    #[tactic(auto, unfolding(crate::specs::Depends::depends_one, crate::specs::Depends::one_pairs))]
    fn append_known(
        &self,
        asked: &AskedName<'_>,
        out: &mut Vec<u8>,
        steps: &mut Steps,
    ) -> Result<(), AllocError>
        requires rows { asked.now.view.rows ≡ rows_of (world_of self.now.asking.now) asked.now.name.now }
        requires chosen { asked.now.view.chosen ≡ choice_in asked.now.name.now (world_of self.now.asking.now) }
        ensures text { OnOk result (out.new.items ≡ out.old.items
            ++ depends_one (world_of self.now.asking.now) self.now.options asked.now.name.now) }
        ensures steps { steps.new ≤ steps.old + one_pairs (world_of self.now.asking.now) self.now.options asked.now.name.now }
        ensures kept { steps.old ≤ steps.new }
    {
        let Some(newest) = asked.view.rows().next() else {
            append_line(out, &[b"<", asked.name, b">"])?;
            return Ok(());
        };
        append_line(out, &[asked.name])?;
        match lead_shown(self.asking.store(), asked.view.chosen(), newest) {
            Some(lead) => self.append_lead(lead, out, steps)?,
            None => {}
        }
        Ok(())
    }

    fn append_one(
        &self,
        name: &[u8],
        out: &mut Vec<u8>,
        steps: &mut Steps,
    ) -> Result<(), AllocError>
        ensures text { OnOk result (out.new.items ≡ out.old.items
            ++ if_known (world_of self.now.asking.now) (depends_one (world_of self.now.asking.now) self.now.options) name.now) }
        ensures steps { steps.new ≤ steps.old + one_pairs (world_of self.now.asking.now) self.now.options name.now }
        ensures kept { steps.old ≤ steps.new }
    {
        let view = self.asking.view(name);
        if !view.is_known() {
            append_unknown(out, name)?;
            return Ok(());
        }
        self.append_known(&AskedName { name, view }, out, steps)?;
        Ok(())
    }

    /// Appends the answer on names. It makes at most one test for each pair of an atom of a lead that is shown and an offer of its name.
    #[tactic(auto, using(std::proofs::lemmas::List::Sums::sum_by_more_le, std::proofs::lemmas::List::Sums::sum_by_more))]
    pub(crate) fn append_to(
        &self,
        names: &[Bytes],
        out: &mut Vec<u8>,
        steps: &mut Steps,
    ) -> Result<(), AllocError>
        ensures text { OnOk result (out.new.items ≡ out.old.items
            ++ depends_text (world_of self.now.asking.now) self.now.options names.now) }
        ensures steps { steps.new ≤ steps.old + depends_pairs (world_of self.now.asking.now) self.now.options names.now }
        ensures kept { steps.old ≤ steps.new }
    {
        for name in names {
            self.append_one(name.as_slice(), out, steps)?;
        }
        Ok(())
    }
}

/// The lines of a field of a lead, with those of its atoms that took many tests: where such an atom stands there again, they are written
/// again, and nothing is tested.
#[derive(Drop)]
struct FieldLines<'a, 'g> {
    depending: &'a Depending<'a>,
    field: FieldKind,
    kept: BTreeMap<Vec<u8>, Written<'g>>,
}

impl<'a, 'g> FieldLines<'a, 'g> {
    /// The lines of a field, none of which is written.
    fn new(depending: &'a Depending<'a>, field: FieldKind) -> FieldLines<'a, 'g>
        ensures depending { result.depending.now ≡ depending.now }
        ensures field { result.field ≡ field }
        ensures kept { values result.kept ≡ [] }
    {
        FieldLines {
            depending,
            field,
            kept: BTreeMap::new(depending.asking.alloc()),
        }
    }

    /// Appends the lines of an atom.
    fn append_next(
        &mut self,
        alternative: Alternative<'g>,
        out: &mut Vec<u8>,
        steps: &mut Steps,
    ) -> Result<(), AllocError>
        requires field { alternative.field ≡ self.old.field }
        requires written { AreWritten self.old out.old.items }
        ensures text { OnOk result (out.new.items ≡ out.old.items ++ atom_lines (world_of self.old.depending.now.asking.now)
            self.old.depending.now.options.installed self.old.field alternative.entry.further alternative.entry.atom) }
        ensures written { OnOk result (AreWritten self.new out.new.items) }
        ensures depending { self.new.depending ≡ self.old.depending }
        ensures field { self.new.field ≡ self.old.field }
        ensures steps { steps.new ≤ steps.old + atom_pairs (world_of self.old.depending.now.asking.now) alternative.entry.atom }
        ensures kept { steps.old ≤ steps.new }
    {
        let depending = self.depending;
        let alloc = depending.asking.alloc();
        if let Some((start, end)) = lines_of(
            alloc,
            &self.kept,
            alternative.further,
            &alternative.atom,
        )? {
            out.extend_from_within(start..end)?;
            return Ok(());
        }
        let start = out.len();
        let before = steps.count();
        depending.append_atom(&alternative, out, steps)?;
        if steps.count() >= before.saturating_add(MANY) {
            let end = out.len();
            let Alternative { further, atom, .. } = alternative;
            let written = Written {
                further,
                atom,
                start,
                end,
            };
            keep(alloc, &mut self.kept, written)?;
        }
        Ok(())
    }

    /// Appends the lines of a group.
    #[tactic(auto, using(crate::proofs::GroupLemmas::is_followed), unfolding(crate::specs::Depends::group_lines, crate::specs::Depends::group_pairs))]
    fn append_group(
        &mut self,
        group: Group<'g>,
        out: &mut Vec<u8>,
        steps: &mut Steps,
    ) -> Result<(), AllocError>
        requires { AreWritten self.old out.old.items }
        ensures text { OnOk result (out.new.items ≡ out.old.items ++ group_lines (world_of self.old.depending.now.asking.now)
            self.old.depending.now.options.installed self.old.field group.entry) }
        ensures written { OnOk result (AreWritten self.new out.new.items) }
        ensures depending { self.new.depending ≡ self.old.depending }
        ensures field { self.new.field ≡ self.old.field }
        ensures steps { steps.new ≤ steps.old + group_pairs (world_of self.old.depending.now.asking.now) group.entry }
        ensures kept { steps.old ≤ steps.new }
    {
        let field = self.field;
        let mut left = group.len();
        'atoms: for atom in group.atoms() {
            left -= 1;
            let alternative = Alternative {
                field,
                further: left > 0,
                atom,
            };
            self.append_next(alternative, out, steps)?;
        }
        Ok(())
    }

    /// Appends the lines of the field of a lead.
    #[tactic(auto, unfolding(crate::specs::Depends::field_lines, crate::specs::Depends::field_pairs))]
    fn append_field(
        &mut self,
        lead: &'g Stanza,
        out: &mut Vec<u8>,
        steps: &mut Steps,
    ) -> Result<(), AllocError>
        requires { AreWritten self.old out.old.items }
        ensures text { OnOk result (out.new.items ≡ out.old.items ++ field_lines (world_of self.old.depending.now.asking.now)
            self.old.depending.now.options.installed lead.now self.old.field) }
        ensures steps { steps.new ≤ steps.old + field_pairs (world_of self.old.depending.now.asking.now) lead.now self.old.field }
        ensures kept { steps.old ≤ steps.new }
    {
        'groups: for group in lead.groups(self.field) {
            self.append_group(group, out, steps)?;
        }
        Ok(())
    }
}

/// The candidate's lead, or where there is no candidate that of the newest row.
fn lead_shown<'a>(store: &'a Store, chosen: Chosen, newest: &[StanzaKey]) -> Option<&'a Stanza>
    ensures { option_copied result ≡ stanza_under (world_of store.now) (option_or chosen.candidate (lead_of newest.now)) }
{
    let key = match chosen.candidate {
        Some(key) => Some(key),
        None => newest.first().copied(),
    };
    stanza_under(store, key)
}

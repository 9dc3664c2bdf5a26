//! What `showpkg` writes of leads before each relation of theirs that names another package.

ghost use Rattle.std.specs.Prelude.{◌≡◌, ◌++◌, IfOk, OnOk, map, option_map, slice_get};
ghost use Rattle.ctl_stanza.specs.Content.{Content};
ghost use Rattle.ctl_store.specs.Entries.{Entry};
ghost use Rattle.ctl_query.specs.Inside.Askers.{lent_asker, IsTold};
ghost use Rattle.ctl_query.specs.LeadTable.{lent_leads};
ghost use Rattle.ctl_query.specs.ShowPackage.{asker};

use crate::lead_lines::append_asker;
use crate::lead_table::LeadTable;
use ctl_stanza::Stanza;
use ctl_store::StanzaKey;
use std::alloc::{AllocError, Global};
use std::marker::Model;

/// A lead, and where among the texts of all leads its own begins and ends.
#[derive(Drop)]
pub(crate) struct Told<'a> {
    lead: &'a Stanza,
    start: usize,
    end: usize,
}

/// A lead, and what is written of it before a relation.
#[derive(Drop)]
pub(crate) struct Asker<'a> {
    pub(crate) lead: &'a Stanza,
    pub(crate) text: &'a [u8],
}

/// The texts of leads side by side, seen as the leads. One that names many packages is told of by as many lines. Each takes a copy of
/// its text, and nothing is fetched of the stanza, which lies anywhere in memory.
#[derive(Drop)]
struct Askers<'a> {
    text: Vec<u8>,
    told: Vec<Told<'a>>,
}

impl<'a> Model for Askers<'a> {
    ghost use Rattle.std.specs.Prelude.{List, map};
    ghost use Rattle.std.specs.List.{All};
    ghost use Rattle.ctl_stanza.specs.Content.{Content};
    ghost use Rattle.ctl_query.specs.declared.askers.Told.{Told};
    ghost use Rattle.ctl_query.specs.Inside.Askers.{IsTold};

    ghost Value = { List Content };

    ghost view = { λ askers. map (λ (told : Told). told.lead.now) askers.told.items };

    ghost invariant = { λ askers. All (IsTold askers.text.items) askers.told.items };
}

// Appends the text of a lead to those before.
fn tell<'a>(lead: &'a Stanza, text: &mut Vec<u8>) -> Result<Told<'a>, AllocError>
    ensures text { OnOk result (text.new.items ≡ text.old.items ++ asker lead.now) }
    ensures told { IfOk result (λ told. IsTold text.new.items told) }
    ensures lead { IfOk result (λ told. told.lead.now ≡ lead.now) }
{
    let start = text.len();
    append_asker(lead, text)?;
    let end = text.len();
    Ok(Told { lead, start, end })
}

impl<'a> Askers<'a> {
    /// The texts of these leads.
    fn of(alloc: Global, leads: &[(StanzaKey, &'a Stanza)]) -> Result<Askers<'a>, AllocError>
        ensures { IfOk result (λ askers. askers ≡ map (λ (e : Entry). e.1) (lent_leads leads.now)) }
    {
        let mut text = Vec::new(alloc);
        let mut all = Vec::with_capacity(alloc, leads.len())?;
        for place in 0..leads.len() {
            all.push(tell(leads[place].1, &mut text)?)?;
        }
        Ok(Askers { text, told: all })
    }

    /// The lead at a place, with its text.
    fn get(&self, place: usize) -> Option<Asker<'_>>
        ensures { option_map lent_asker result ≡ option_map (λ (lead : Content). (lead, asker lead)) (slice_get self.now place) }
    {
        let told = self.told.get(place)?;
        Some(Asker {
            lead: told.lead,
            text: &self.text[told.start..told.end],
        })
    }
}

/// A table of leads, with what is written of each before a relation: seen as the leads, each under its key.
#[derive(Drop)]
pub(crate) struct AskerTable<'a> {
    table: LeadTable<'a>,
    askers: Askers<'a>,
}

impl<'a> Model for AskerTable<'a> {
    ghost use Rattle.std.specs.Prelude.{◌≡◌, List, map};
    ghost use Rattle.ctl_store.specs.Entries.{Entry};

    ghost Value = { List Entry };

    ghost view = { λ it. it.table };

    ghost invariant = { λ it. it.askers ≡ map (λ (e : Entry). e.1) it.table };
}

impl<'a> AskerTable<'a> {
    /// The leads of a table with their texts.
    pub(crate) fn new(alloc: Global, table: LeadTable<'a>) -> Result<AskerTable<'a>, AllocError>
        ensures { IfOk result (λ it. it ≡ table.entry) }
    {
        let askers = Askers::of(alloc, table.leads())?;
        Ok(AskerTable { table, askers })
    }

    /// The table of the leads.
    pub(crate) fn table(&self) -> &LeadTable<'a>
        ensures { result.now ≡ self.now }
    {
        &self.table
    }

    /// The text of the lead at a place. None has none.
    pub(crate) fn text(&self, place: usize) -> &[u8] {
        match self.askers.get(place) {
            Some(asker) => asker.text,
            None => &[],
        }
    }

    /// The lead at a place, with its text.
    pub(crate) fn asker(&self, place: usize) -> Option<Asker<'_>>
        ensures { option_map lent_asker result ≡ option_map (λ (e : Entry). (e.1, asker e.1)) (slice_get self.now place) }
    {
        self.askers.get(place)
    }
}

//! Which stanzas a filter takes.

ghost use Rattle.std.specs.Prelude.{◌≡◌, OnOk, IfOk, map, not, if◌then◌else◌};
ghost use Rattle.ctl_filter.specs.Filter.{atom_passes};
ghost use Rattle.ctl_filter.specs.Grep.{is_taken};
ghost use Rattle.ctl_filter.specs.Inside.Values.{atom_of};
ghost use Rattle.ctl_filter.specs.HeldQuery.{query_of};

use crate::atom::{Atom, Prepared};
use crate::query::FilterQuery;
use crate::running::value_of;
use ctl_stanza::Stanza;
use std::alloc::{AllocError, Global};
use std::marker::Model;

fn prepare<'q>(alloc: Global, atoms: &'q [Atom]) -> Result<Vec<Prepared<'q>>, AllocError>
    ensures { IfOk result (λ prepared. prepared.items ≡ map atom_of atoms.now) }
{
    let mut prepared = Vec::with_capacity(alloc, atoms.len())?;
    for atom in atoms {
        prepared.push(Prepared::new(alloc, atom)?)?;
    }
    Ok(prepared)
}

/// The values of the atoms on a stanza, in a vector whose room serves again.
fn take_values(
    prepared: &mut [Prepared<'_>],
    stanza: &Stanza,
    values: &mut Vec<bool>,
    room: &mut Vec<u8>,
) -> Result<(), AllocError>
    ensures values { OnOk result (values.new.items ≡ map (atom_passes stanza.now) prepared.old) }
    ensures same { prepared.new ≡ prepared.old }
{
    values.clear();
    for i in 0..prepared.len() {
        let one = &mut prepared[i];
        let passes = one.passes(stanza, room)?;
        values.push(passes)?;
    }
    Ok(())
}

/// With `-v` what doesn't pass is taken.
fn is_kept(inverted: bool, passes: bool) -> bool
    ensures { result ≡ (if inverted then not passes else passes) }
{
    if inverted { !passes } else { passes }
}

/// What takes stanzas: a query with the matchers of its patterns, and room that serves again for each stanza.
#[derive(Drop)]
pub(crate) struct Taker<'q> {
    query: &'q FilterQuery,
    prepared: Vec<Prepared<'q>>,
    values: Vec<bool>,
    stack: Vec<bool>,
    // A text in small letters, where one is looked at in any case.
    room: Vec<u8>,
}

impl<'q> Model for Taker<'q> {
    ghost use Rattle.std.specs.Prelude.{◌≡◌, map};
    ghost use Rattle.ctl_filter.specs.HeldQuery.{HeldQuery};
    ghost use Rattle.ctl_filter.specs.Inside.Values.{atom_of};

    ghost Value = { HeldQuery };

    ghost view = { λ t. t.query.now };

    ghost invariant = { λ t. t.prepared.items ≡ t.query.now.atoms };
}

impl<'q> Taker<'q> {
    pub(crate) fn new(alloc: Global, query: &'q FilterQuery) -> Result<Taker<'q>, AllocError>
        ensures { IfOk result (λ taker. taker ≡ query.now) }
    {
        let prepared = prepare(alloc, &query.atoms)?;
        Ok(Taker {
            query,
            prepared,
            values: Vec::new(alloc),
            stack: Vec::new(alloc),
            room: Vec::new(alloc),
        })
    }

    /// Whether a stanza is taken.
    pub(crate) fn takes(&mut self, stanza: &Stanza) -> Result<bool, AllocError>
        ensures takes { IfOk result (λ takes. takes ≡ is_taken (query_of self.old) stanza.now) }
        ensures same { self.new ≡ self.old }
    {
        take_values(&mut self.prepared, stanza, &mut self.values, &mut self.room)?;
        let query = self.query;
        let passes = value_of(&self.values, &query.steps, &mut self.stack)?;
        Ok(is_kept(query.inverted, passes))
    }
}

//! The names of fields that a stanza has given so far.

ghost use Rattle.std.specs.Prelude.{◌≡◌, ◌&&◌, not, IfOk, OnOk};
ghost use Rattle.std.specs.List.{list_any};
ghost use Rattle.ctl_stanza.specs.Fields.{is_same_name};
ghost use Rattle.ctl_stanza.specs.Inside.HeldNames.{holds, HoldsNone, Adds};
ghost use Rattle.ctl_stanza.specs.Inside.NameSlots.{AreTaken};

use crate::fields::is_same_name;
use crate::name_slots::{has_slot, slot_of, with_slot};
use std::alloc::{AllocError, Global};
use std::collections::BTreeSet;
use std::marker::Model;

/// How many names are kept as they stand in the text, and looked through one by one.
const FIRST_NAMES: usize = 64;

/// Names of fields. Most stanzas have few, which are looked through one by one, and that only where one of them has the
/// slot of the name.
#[derive(Drop)]
pub(crate) struct NamesGiven<'a> {
    first: Vec<&'a [u8]>,
    // The names after the first ones, in lower case.
    others: BTreeSet<Vec<u8>>,
    // The slots of all of them, a bit each.
    slots: u64,
}

impl<'a> Model for NamesGiven<'a> {
    ghost use Rattle.ctl_stanza.specs.Given.{Given};

    ghost Value = { Given };

    ghost use Rattle.ctl_stanza.specs.Inside.NameSlots.{given_names, HasTaken};

    ghost view = { given_names };

    ghost invariant = { HasTaken };
}

// Whether a name is one of these.
fn is_among(names: &[&[u8]], name: &[u8]) -> bool
    ensures { result ≡ list_any (λ other. is_same_name name.now other.now) names.now }
{
    for other in names {
        if is_same_name(name, *other) {
            return true;
        }
    }
    false
}

// Whether a name is one of these, where its slot is taken.
fn is_among_taken(names: &[&[u8]], is_taken: bool, name: &[u8]) -> bool
    ensures { result ≡ (is_taken && list_any (λ other. is_same_name name.now other.now) names.now) }
{
    is_taken && is_among(names, name)
}

impl<'a> NamesGiven<'a> {
    /// No name.
    pub(crate) fn new(alloc: Global) -> NamesGiven<'a>
        ensures { HoldsNone result }
    {
        NamesGiven {
            first: Vec::new(alloc),
            others: BTreeSet::new(alloc),
            slots: 0,
        }
    }

    /// Forgets all names.
    pub(crate) fn clear(&mut self)
        ensures { HoldsNone self.new }
    {
        self.first.clear();
        self.others.clear();
        self.slots = 0;
    }

    /// The slots of the names.
    pub(crate) fn slots(&self) -> u64
        ensures { AreTaken result (holds self.now) }
    {
        self.slots
    }

    /// Adds a name. Whether it is new, without regard to ASCII case.
    pub(crate) fn add(&mut self, alloc: Global, name: &'a [u8]) -> Result<bool, AllocError>
        ensures added { IfOk result (λ added. added ≡ not (holds self.old name.now)) }
        ensures held { OnOk result (Adds self.old self.new name.now) }
    {
        let slot = slot_of(name);
        let is_taken = has_slot(self.slots, slot);
        self.slots = with_slot(self.slots, slot);
        if is_among_taken(&self.first, is_taken, name) {
            return Ok(false);
        }
        if self.others.is_empty() && self.first.len() < FIRST_NAMES {
            self.first.push(name)?;
            return Ok(true);
        }
        let folded = name.to_ascii_lowercase(alloc)?;
        let added = self.others.insert(folded)?;
        Ok(added)
    }
}

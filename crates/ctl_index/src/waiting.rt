//! The clauses of a stanza that comes.

ghost use Rattle.std.specs.Prelude.{◌≡◌, [], None, Some};
ghost use Rattle.std.specs.Bool.{OnTrue};

use crate::clause_number::ClauseNumber;
use crate::stanza_numbers::ClausePlace;
use ctl_store::{StanzaKey, compare_keys};
use std::alloc::Global;

/// The clauses of one stanza, each with its number, which wait until all of them have come. The room for them serves the next
/// stanza again.
#[derive(Drop)]
pub(crate) struct Waiting {
    pub(crate) stanza: Option<StanzaKey>,
    pub(crate) clauses: Vec<(ClausePlace, ClauseNumber)>,
}

impl Waiting {
    /// None waits. It takes no memory.
    pub(crate) fn new(alloc: Global) -> Waiting
        ensures stanza { result.stanza ≡ None }
        ensures clauses { result.clauses.items ≡ [] }
    {
        Waiting {
            stanza: None,
            clauses: Vec::new(alloc),
        }
    }

    /// Whether they are those of this stanza.
    pub(crate) fn is_of(&self, stanza: StanzaKey) -> bool
        ensures { OnTrue result (self.now.stanza ≡ Some stanza) }
    {
        match self.stanza {
            Some(own) => compare_keys(&own, &stanza).is_eq(),
            None => false,
        }
    }

    /// None waits from now on.
    pub(crate) fn clear(&mut self)
        ensures stanza { self.new.stanza ≡ None }
        ensures clauses { self.new.clauses.items ≡ [] }
    {
        self.stanza = None;
        self.clauses.clear();
    }
}

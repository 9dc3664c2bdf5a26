//! A filter with what is to be shown of the stanzas that it takes.

use crate::atom::Atom;
use crate::token::Step;
use ctl_relation::Bytes;
use std::marker::Model;

/// How stanzas are shown.
#[derive(Drop)]
pub(crate) struct Shown {
    pub(crate) bodies_alone: bool,
    pub(crate) first_line_alone: bool,
    pub(crate) fields: Option<Vec<Bytes>>,
}

/// A filter of grep-dctrl(1), with what is to be shown of the stanzas that it takes.
#[derive(Drop)]
pub struct FilterQuery {
    pub(crate) inverted: bool,
    pub(crate) counted: bool,
    pub(crate) shown: Shown,
    pub(crate) atoms: Vec<Atom>,
    // They make the filter's truth of the values of its atoms.
    pub(crate) steps: Vec<Step>,
}

impl Model for FilterQuery {
    ghost use Rattle.std.specs.Prelude.{map};
    ghost use Rattle.ctl_filter.specs.HeldQuery.{HeldQuery};
    ghost use Rattle.ctl_filter.specs.Inside.Values.{atom_of, shown_of};
    ghost use Rattle.ctl_filter.specs.Inside.Steps.{Makes, made_by};

    ghost Value = { HeldQuery };

    ghost view = { λ q. record {
      inverted = q.inverted;
      counted = q.counted;
      shown = shown_of q.shown;
      atoms = map atom_of q.atoms.items;
      steps = q.steps.items;
    } };

    ghost invariant = { λ q. Makes q.steps.items (made_by q.steps.items) };
}

//! What stands under one name, in a place of its own.

ghost use Rattle.std.specs.Prelude.{◌≡◌, IfOk, OnSome, Some};
ghost use Rattle.std.specs.Borrow.{LendsSo, sem};
ghost use Rattle.std.specs.Option.{option_copied_mut};
ghost use Rattle.ctl_index.specs.contracts.named.Named.{the_row as named_row};
ghost use Rattle.ctl_index.specs.contracts.named_box.NamedBox.{the_row};

use crate::named::Named;
use std::alloc::{AllocError, Global};
use std::marker::Model;

/// What stands under one name, in a place of its own: in the nodes of a tree there are names alone, so that a search fetches fewer
/// bytes, and nodes with room to spare take little memory.
#[derive(Drop)]
pub(crate) struct NamedBox {
    named: Box<Named>,
}

impl Model for NamedBox {
    ghost use Rattle.ctl_index.specs.declared.named.Named.{Named};
    ghost use Rattle.std.specs.Coded.{codes};
    ghost use Rattle.ctl_policy.specs.Inside.HeldRows.{rows_code};

    ghost Value = { Named };

    ghost coded = { Prim.hlevel (codes, rows_code) };

    ghost view = { λ b. b.named.value };
}

impl NamedBox {
    /// It moves into a place of its own.
    pub(crate) fn new(alloc: Global, named: Named) -> Result<NamedBox, AllocError>
        ensures { IfOk result (λ b. b ≡ named) }
    {
        let named = Box::new(alloc, named)?;
        Ok(NamedBox { named })
    }

    /// What stands there.
    pub(crate) fn get(&self) -> &Named
        ensures { result.now ≡ self.now }
    {
        &self.named
    }

    /// The same, to be changed.
    pub(crate) fn get_mut(&mut self) -> Option<&mut Named>
        ensures* writes_back { sem 𝓛 (LendsSo the_row named_row self.entry result
            (λ n named. OnSome result (n ≡ named)) (λ n. n ≡ self.entry.now)) }
        ensures value { option_copied_mut result ≡ Some self.old }
    {
        Some(self.named.as_mut())
    }
}

//! The stanzas of a list that comes.

ghost use Rattle.std.specs.Prelude.{◌≡◌, IfOk, map};
ghost use Rattle.ctl_store.specs.Kinds.{AreOfKind, NewStanzas};

use ctl_stanza::{ListKind, Stanza};
use std::alloc::{AllocError, Global};
use std::marker::Model;

/// The stanzas of a list that comes, which are all of its kind. Each has a box of its own, so that later only the box moves.
#[derive(Drop)]
pub struct NewStanzas {
    kind: ListKind,
    boxes: Vec<Box<Stanza>>,
}

impl Model for NewStanzas {
    ghost use Rattle.std.specs.Prelude.{map};
    ghost use Rattle.ctl_store.specs.Kinds.{AreOfKind, NewStanzas};

    ghost Value = { NewStanzas };

    ghost view = { λ s. record { kind = s.kind; stanzas = map (λ stanza. stanza.value) s.boxes.items } };

    ghost invariant = { λ s. AreOfKind s.kind (map (λ stanza. stanza.value) s.boxes.items) };
}

impl NewStanzas {
    /// The stanzas of a list of this kind, as they were read for it: by [`stanzas_are_of_their_kind`](crate::stanzas_are_of_their_kind)
    /// they are of that kind.
    pub fn boxed(
        alloc: Global,
        kind: ListKind,
        stanzas: Vec<Stanza>,
    ) -> Result<NewStanzas, AllocError>
        requires { AreOfKind kind stanzas.items }
        ensures kind { IfOk result (λ new. new.kind ≡ kind) }
        ensures stanzas { IfOk result (λ new. new.stanzas ≡ stanzas.items) }
    {
        let mut boxes = Vec::with_capacity(alloc, stanzas.len())?;
        for stanza in stanzas {
            boxes.push(Box::new(alloc, stanza)?)?;
        }
        Ok(NewStanzas { kind, boxes })
    }

    /// Their kind.
    pub fn kind(&self) -> ListKind
        ensures kind { result ≡ self.now.kind }
        ensures each { AreOfKind result self.now.stanzas }
    {
        self.kind
    }

    /// The stanzas, in order.
    pub fn as_slice(&self) -> &[Box<Stanza>]
        ensures { map (λ stanza. stanza.value) result.now ≡ self.now.stanzas }
    {
        &self.boxes
    }

    /// Their kind, and the boxes.
    pub(crate) fn into_parts(self) -> (ListKind, Vec<Box<Stanza>>)
        ensures kind { result.0 ≡ self.kind }
        ensures stanzas { map (λ stanza. stanza.value) result.1.items ≡ self.stanzas }
        ensures each { AreOfKind self.kind self.stanzas }
    {
        let NewStanzas { kind, boxes } = self;
        (kind, boxes)
    }
}

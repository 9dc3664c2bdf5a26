//! Plans: edits that were accepted, with all that they need.

ghost use Rattle.std.specs.Prelude.{◌≡◌, ◌∷◌, [], Some, IsSome, option_copied};
ghost use Rattle.ctl_store.specs.Edits.{edit_of};
ghost use Rattle.ctl_store.specs.Keys.{coming, AreComing};
ghost use Rattle.ctl_store.specs.Followed.{coming_under};
ghost use Rattle.ctl_store.specs.Inside.Sound.{coming_among};

use crate::edit::Edit;
use crate::held_list::ListRoom;
use crate::stanza_key::StanzaKey;
use ctl_stanza::Stanza;
use std::marker::Model;

/// An edit that a store accepts, with the keys that go and come, and with the memory that it takes.
#[derive(Drop)]
pub struct Plan {
    pub(crate) edit: Edit,
    pub(crate) removed: Vec<StanzaKey>,
    pub(crate) added: Vec<StanzaKey>,
    pub(crate) list_room: ListRoom,
}

impl Model for Plan {
    ghost use Rattle.ctl_store.specs.Edits.{edit_of};
    ghost use Rattle.ctl_store.specs.Plans.{Planned};
    ghost use Rattle.ctl_store.specs.Inside.Sound.{IsWhole};

    ghost Value = { Planned };

    ghost view = { λ p. record { edit = edit_of p.edit; removed = p.removed.items; added = p.added.items; list_room = p.list_room } };

    ghost invariant = { λ p. IsWhole p.added.items (edit_of p.edit) };
}

impl Plan {
    /// The keys that go. That of a stanza that is replaced is among them.
    pub fn removed(&self) -> &[StanzaKey]
        ensures { result.now ≡ self.now.removed }
    {
        &self.removed
    }

    /// The keys that come. That of a stanza that replaces another is among them. Under each comes the stanza that
    /// [`stanza`](Plan::stanza) gives.
    pub fn added(&self) -> &[StanzaKey]
        ensures keys { result.now ≡ self.now.added }
        ensures coming { AreComing result.now self.now.edit }
    {
        &self.added
    }

    /// The edit.
    pub fn edit(&self) -> &Edit
        ensures { edit_of result.now ≡ self.now.edit }
    {
        &self.edit
    }

    /// The stanza that comes under a key, which is one of those that come.
    pub fn stanza(&self, key: StanzaKey) -> &Stanza
        requires { IsSome (coming self.now.edit key) }
        ensures { Some result.now ≡ coming self.now.edit key }
    {
        match coming(&self.edit, key) {
            Some(stanza) => stanza,
            None => unreachable!(),
        }
    }

    /// The stanza that comes under a key, if it is one of those that come.
    pub fn find(&self, key: StanzaKey) -> Option<&Stanza>
        ensures { option_copied result ≡ coming_under self.now.added self.now.edit key }
    {
        found_from(&self.edit, *self.added.first()?, key)
    }
}

// The stanza that comes under a key, where this key comes first.
fn found_from(edit: &Edit, first: StanzaKey, key: StanzaKey) -> Option<&Stanza>
    ensures { option_copied result ≡ coming_among (edit_of edit.now) (first ∷ []) key }
{
    if first.list != key.list {
        return None;
    }
    match edit {
        Edit::Put { .. } if first.stanza != key.stanza => None,
        _ => coming(edit, key),
    }
}

// The stanza that comes under a key, if it is one of those that come.
fn coming(edit: &Edit, key: StanzaKey) -> Option<&Stanza>
    ensures { option_copied result ≡ coming (edit_of edit.now) key }
{
    match edit {
        Edit::AddList { stanzas, .. } => match stanzas.as_slice().get(key.stanza as usize) {
            Some(stanza) => Some(stanza),
            None => None,
        },
        Edit::Put { stanza, .. } => Some(stanza),
        _ => None,
    }
}

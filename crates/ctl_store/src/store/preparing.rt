//! Plans are made.

ghost use Rattle.std.specs.Prelude.{◌≡◌, ◌≢◌, ◌<◌, [], None, Some, IfOk, IfErr, OnOk, map};
ghost use Rattle.std.specs.Option.{option_to_list};
ghost use Rattle.ctl_store.specs.declared.refusal.Refusal.TheVariants as refusal;
ghost use Rattle.ctl_stanza.specs.Content.{package_of, version_of};
ghost use Rattle.ctl_store.specs.Edits.{edit_of};
ghost use Rattle.ctl_store.specs.Step.{refusal_of};
ghost use Rattle.ctl_store.specs.Slots.{slots_from};
ghost use Rattle.ctl_store.specs.Keys.{keyed_after, removed_of, added_of, found_of, found_in, kept_in, next_in, all_in, key_of};
ghost use Rattle.ctl_store.specs.Entries.{IsChange};
ghost use Rattle.ctl_store.specs.Followed.{IsFollowed};
ghost use Rattle.ctl_store.specs.Given.{IsGivenOnce};
ghost use Rattle.ctl_store.specs.Store.{state_of, keyed_of};
ghost use Rattle.ctl_store.specs.Plans.{HasRoom, IsReady};
ghost use Rattle.ctl_store.specs.Inside.Sound.{IsReadyFor, HasRoomIn};

use crate::edit::Edit;
use crate::held_list::ListRoom;
use crate::lists::reserve_in;
use crate::plan::Plan;
use crate::refusal::Refusal;
use crate::stanza_key::StanzaKey;
use crate::store::Store;
use ctl_relation::Bytes;
use ctl_stanza::Stanza;
use std::alloc::{AllocError, Global};

// The keys of the stanzas of a new list.
fn new_keys(alloc: Global, list: u32, stanzas: &[Box<Stanza>]) -> Result<Vec<StanzaKey>, AllocError>
    ensures { IfOk result (λ v. v.items ≡ map (λ slot. key_of list slot.0) (slots_from 0 (map (λ stanza. stanza.value) stanzas.now))) }
{
    let mut keys = Vec::with_capacity(alloc, stanzas.len())?;
    let mut left = stanzas;
    let mut serial = 0;
    'stanzas: while let Some((_, rest)) = left.split_first() {
        keys.push(StanzaKey {
            list,
            stanza: serial,
        })?;
        serial += 1;
        left = rest;
    }
    Ok(keys)
}

// One key, or none.
fn keys_of(alloc: Global, key: Option<StanzaKey>) -> Result<Vec<StanzaKey>, AllocError>
    ensures { IfOk result (λ v. v.items ≡ option_to_list key) }
{
    let mut keys = Vec::new(alloc);
    if let Some(key) = key {
        keys.push(key)?;
    }
    Ok(keys)
}

// Memory for a new list, if an edit adds one.
fn make_ready(alloc: Global, edit: &Edit) -> Result<ListRoom, AllocError>
    ensures { IfOk result (IsReadyFor (edit_of edit.now)) }
{
    match edit {
        Edit::AddList { stanzas, .. } => ListRoom::with_capacity(alloc, stanzas.as_slice().len()),
        _ => Ok(ListRoom::new(alloc)),
    }
}

impl Store {
    // The key of the next new stanza of a list, if there is a list of this name.
    #[tactic(auto, using(crate::proofs::ListedLemmas::at_name_lists))]
    fn next_in(&self, list: &Bytes) -> Option<StanzaKey>
        ensures { option_to_list result ≡ next_in list.now (keyed_of self.now).lists }
    {
        let listed = self.lists.get(list)?;
        Some(StanzaKey {
            list: listed.serial(),
            stanza: listed.next(),
        })
    }

    // The key under which a stanza that is put stands: that which goes, else a new one.
    fn kept_in(&self, list: &Bytes, stanza: &Stanza, found: Option<StanzaKey>) -> Option<StanzaKey>
        requires { option_to_list found ≡ found_in list.now (package_of stanza.now) (version_of stanza.now) (keyed_of self.now).lists }
        ensures { option_to_list result ≡ kept_in list.now stanza.now (keyed_of self.now).lists }
    {
        match found {
            Some(key) => Some(key),
            None => self.next_in(list),
        }
    }

    #[tactic(auto, using(crate::proofs::ListedLemmas::at_name_lists))]
    fn all_in(&self, list: &Bytes) -> Result<Vec<StanzaKey>, AllocError>
        ensures { IfOk result (λ v. v.items ≡ all_in list.now (keyed_of self.now).lists) }
    {
        match self.lists.get(list) {
            Some(listed) => listed.keys().collect(self.alloc),
            None => Ok(Vec::new(self.alloc)),
        }
    }

    // The keys that go, where this is the key of the edit's stanza.
    fn removed_keys(
        &self,
        edit: &Edit,
        found: Option<StanzaKey>,
    ) -> Result<Vec<StanzaKey>, AllocError>
        requires { option_to_list found ≡ found_of (keyed_of self.now) (edit_of edit.now) }
        ensures { IfOk result (λ v. v.items ≡ removed_of (keyed_of self.now) (edit_of edit.now)) }
    {
        match edit {
            Edit::DropList { name } => self.all_in(name),
            _ => keys_of(self.alloc, found),
        }
    }

    // The keys that come, where this is the key of the edit's stanza.
    fn added_keys(
        &self,
        edit: &Edit,
        found: Option<StanzaKey>,
    ) -> Result<Vec<StanzaKey>, AllocError>
        requires { option_to_list found ≡ found_of (keyed_of self.now) (edit_of edit.now) }
        ensures { IfOk result (λ v. v.items ≡ added_of (keyed_of self.now) (edit_of edit.now)) }
    {
        match edit {
            Edit::AddList { stanzas, .. } => {
                new_keys(self.alloc, self.next_list, stanzas.as_slice())
            }
            Edit::Put { list, stanza } => keys_of(self.alloc, self.kept_in(list, stanza, found)),
            _ => Ok(Vec::new(self.alloc)),
        }
    }

    // Makes the room that an edit wants in what the store keeps.
    fn make_room(&mut self, edit: &Edit) -> Result<(), AllocError>
        requires { refusal_of self.old.limits (state_of self.old) (edit_of edit.now) ≡ None }
        ensures state { state_of self.new ≡ state_of self.old }
        ensures keyed { keyed_of self.new ≡ keyed_of self.old }
        ensures limits { self.new.limits ≡ self.old.limits }
        ensures room { OnOk result (HasRoomIn self.new (edit_of edit.now)) }
    {
        match edit {
            Edit::AddList { .. } => self.lists.reserve_one(),
            Edit::Put { list, .. } => reserve_in(&mut self.lists, self.alloc, list),
            Edit::Mark { .. } => self.marks.reserve_one(),
            Edit::Pin { .. } => self.pins.reserve_one(),
            _ => Ok(()),
        }
    }

    // Whether an edit is accepted; and if so, takes the memory that it needs: the keys that go, those that come, and the room
    // for a new list.
    fn take_memory(
        &mut self,
        edit: &Edit,
    ) -> Result<(Vec<StanzaKey>, Vec<StanzaKey>, ListRoom), Refusal>
        ensures state { state_of self.new ≡ state_of self.old }
        ensures keyed { keyed_of self.new ≡ keyed_of self.old }
        ensures limits { self.new.limits ≡ self.old.limits }
        ensures accepted { OnOk result (refusal_of self.old.limits (state_of self.old) (edit_of edit.now) ≡ None) }
        ensures removed { IfOk result (λ taken. taken.0.items ≡ removed_of (keyed_of self.old) (edit_of edit.now)) }
        ensures added { IfOk result (λ taken. taken.1.items ≡ added_of (keyed_of self.old) (edit_of edit.now)) }
        ensures room { IfOk result (λ taken. HasRoom self.new taken.2 (edit_of edit.now)) }
        ensures refused { IfErr result (λ why. why ≢ refusal.Memory
            → refusal_of self.old.limits (state_of self.old) (edit_of edit.now) ≡ Some why) }
    {
        let found = self.found(edit);
        self.check_found(edit, found.is_some())?;
        let removed = self.removed_keys(edit, found)?;
        let added = self.added_keys(edit, found)?;
        self.make_room(edit)?;
        let list_room = make_ready(self.alloc, edit)?;
        Ok((removed, added, list_room))
    }

    /// Accepts an edit, and takes all memory that it needs. What the store holds stays.
    ///
    /// # Errors
    ///
    /// The refusal that [`check`](Store::check) gives, or [`Refusal::Memory`]. The edit comes back.
    pub fn prepare(&mut self, edit: Edit) -> Result<Plan, (Edit, Refusal)>
        ensures state { state_of self.new ≡ state_of self.old }
        ensures keyed { keyed_of self.new ≡ keyed_of self.old }
        ensures limits { self.new.limits ≡ self.old.limits }
        ensures ready { IfOk result (λ plan. IsReady self.new plan) }
        ensures same { IfOk result (λ plan. plan.edit ≡ edit_of edit) }
        // what the edit will make of the stanzas
        ensures change { IfOk result (λ plan. IsChange (keyed_of self.new).lists
            (keyed_after (keyed_of self.new) plan.edit).lists plan.removed plan.added plan.edit) }
        // and where it is followed key by key
        ensures followed { IfOk result (λ plan. IsFollowed (keyed_of self.new).lists
            (keyed_after (keyed_of self.new) plan.edit).lists plan.removed plan.added plan.edit) }
        // no key comes that was given before
        ensures given { IfOk result (λ plan. IsGivenOnce (keyed_of self.new)
            (keyed_after (keyed_of self.new) plan.edit) plan.removed plan.added) }
        ensures back { IfErr result (λ e. e.0 ≡ edit) }
        ensures refused { IfErr result (λ e. e.1 ≢ refusal.Memory
            → refusal_of self.old.limits (state_of self.old) (edit_of edit) ≡ Some e.1) }
    {
        let _limits = self.limits;
        match self.take_memory(&edit) {
            Ok((removed, added, list_room)) => Ok(Plan {
                edit,
                removed,
                added,
                list_room,
            }),
            Err(why) => Err((edit, why)),
        }
    }
}

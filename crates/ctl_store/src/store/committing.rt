//! Plans are carried out.

ghost use Rattle.std.specs.Prelude.{◌≡◌, ◌-◌, ◌<◌, None, IsSome, IfSome, length, map, vec_len};
ghost use Rattle.ctl_store.specs.Named.{at_name};
ghost use Rattle.ctl_store.specs.Edits.{edit_of};
ghost use Rattle.ctl_store.specs.Edits as edits;
ghost use Rattle.ctl_store.specs.Step.{after, refusal_of};
ghost use Rattle.ctl_stanza.specs.Content.{package_of, version_of};
ghost use Rattle.ctl_store.specs.Keys.{keyed_after, removed_of, found_in, all_in, IsNotAmong, stanza_at, AreCome, AreGone};
ghost use Rattle.ctl_store.specs.Entries.{IsChange};
ghost use Rattle.ctl_store.specs.Given.{IsGivenOnce};
ghost use Rattle.ctl_store.specs.Kinds.{AreOfKind};
ghost use Rattle.ctl_store.specs.Store.{state_of, keyed_of};
ghost use Rattle.ctl_store.specs.Plans.{IsReady, HasRoom, HasRoomInList, Fits};
ghost use Rattle.ctl_store.specs.Inside.Sound.{HasMade};
ghost use Rattle.ctl_store.specs.Inside.NewLists.{adding};

use crate::edit::Edit;
use crate::held_list::{HeldList, ListRoom, NewList};
use crate::lists::{put_in, remove_in};
use crate::pin_settings::PinSettings;
use crate::plan::Plan;
use crate::selector::{PinSetting, Selector};
use crate::stanza_key::StanzaKey;
use crate::store::Store;
use crate::store::checking::one_if_status;
use ctl_relation::{Bytes, Version};
use ctl_stanza::Stanza;
use std::mem::replace;

// How many stanzas more a list has once one is put, where so many keys go.
fn more_if_none_goes(gone: usize) -> u32
    ensures { result ≡ 1 - gone }
{
    if gone == 0 { 1 } else { 0 }
}

impl Store {
    /// Makes the edit of a plan, which this store accepts and has room for: that of the last call of
    /// [`prepare`](Store::prepare) is one, while nothing was committed since. It takes no memory.
    pub fn commit(&mut self, plan: Plan)
        requires { IsReady self.old plan }
        ensures state { state_of self.new ≡ after (state_of self.old) plan.edit }
        ensures keyed { keyed_of self.new ≡ keyed_after (keyed_of self.old) plan.edit }
        ensures limits { self.new.limits ≡ self.old.limits }

        // Under a key that comes stands its stanza, and none under one that goes.
        ensures comes { AreCome plan.added plan.edit (keyed_of self.new).lists }
        ensures goes { AreGone plan.removed plan.added (keyed_of self.new).lists }

        // A key that has a stanza and doesn't go keeps it.
        ensures stays { (k : StanzaKey) → IsSome (stanza_at k (keyed_of self.old).lists) → IsNotAmong k plan.removed
            → stanza_at k (keyed_of self.new).lists ≡ stanza_at k (keyed_of self.old).lists }

        // In the order of all stanzas, what goes stood in one place, and what comes stands there.
        ensures change { IsChange (keyed_of self.old).lists (keyed_of self.new).lists plan.removed plan.added plan.edit }

        // No key comes that was given before.
        ensures given { IsGivenOnce (keyed_of self.old) (keyed_of self.new) plan.removed plan.added }
    {
        let Plan {
            edit,
            removed,
            mut list_room,
            ..
        } = plan;
        let _limits = self.limits;
        self.make(edit, removed.len(), &mut list_room);
    }

    // Makes an edit by which so many keys go, with the room for a list, if it adds one. Its parts are let go where they are used.
    fn make(&mut self, edit: Edit, gone: usize, room: &mut ListRoom)
        requires accepted { refusal_of self.old.limits (state_of self.old) (edit_of edit) ≡ None }
        requires gone { gone ≡ length (removed_of (keyed_of self.old) (edit_of edit)) }
        requires room { HasRoom self.old room.old (edit_of edit) }
        ensures { HasMade self.old self.new (edit_of edit) }
    {
        match edit {
            Edit::AddList {
                name,
                class,
                stanzas,
            } => {
                let (kind, stanzas) = stanzas.into_parts();
                let room = replace(room, ListRoom::new(self.alloc));
                self.add_list(
                    name,
                    NewList {
                        kind,
                        class,
                        stanzas,
                        room,
                    },
                )
            }
            Edit::DropList { name } => self.drop_list(name, gone),
            Edit::Put { list, stanza } => self.put(list, stanza, gone),
            Edit::Remove {
                list,
                package,
                version,
            } => self.remove(list, package, version),
            Edit::Mark { package, version } => self.set_mark(package, version),
            Edit::Unmark { package } => self.unmark(package),
            Edit::Pin { setting } => self.pin(setting),
            Edit::Unpin { selector } => self.unpin(selector),
            Edit::Target { name } => self.set_target(name),
            Edit::Prefs { settings } => self.set_all_pins(settings),
        }
    }

    fn add_list(&mut self, name: Bytes, list: NewList)
        requires accepted { refusal_of self.old.limits (state_of self.old) (adding name list) ≡ None }
        requires kinds { AreOfKind list.kind (map (λ stanza. stanza.value) list.stanzas.items) }
        requires list { 0 < self.old.lists_room }
        requires room { Fits (vec_len list.stanzas) list.room }
        ensures { HasMade self.old self.new (adding name list) }
    {
        let _limits = self.limits;
        let count = list.stanzas.len() as u32;
        let kind = list.kind;
        let listed = HeldList::new(self.next_list, list);
        self.lists.put(name, listed);
        self.next_list += 1;
        self.stanzas += count;
        self.statuses += one_if_status(kind);
        self.edits += 1;
    }

    fn drop_list(&mut self, name: Bytes, gone: usize)
        requires accepted { refusal_of self.old.limits (state_of self.old) (edits.DropList name) ≡ None }
        requires gone { gone ≡ length (all_in name (keyed_of self.old).lists) }
        ensures { HasMade self.old self.new (edits.DropList name) }
    {
        let statuses = self.count_of_kind(&name);
        self.lists.remove(&name);
        self.stanzas -= gone as u32;
        self.statuses -= statuses;
        self.edits += 1;
    }

    fn put(&mut self, list: Bytes, stanza: Box<Stanza>, gone: usize)
        requires accepted { refusal_of self.old.limits (state_of self.old) (edits.Put list stanza.value) ≡ None }
        requires gone { gone ≡ length (found_in list (package_of stanza.value) (version_of stanza.value) (keyed_of self.old).lists) }
        requires room { IfSome (at_name list self.old.lists) HasRoomInList }
        ensures { HasMade self.old self.new (edits.Put list stanza.value) }
    {
        put_in(&mut self.lists, &list, stanza);
        self.stanzas += more_if_none_goes(gone);
        self.edits += 1;
    }

    fn remove(&mut self, list: Bytes, package: Bytes, version: Version)
        requires accepted { refusal_of self.old.limits (state_of self.old) (edits.Remove list «package» version) ≡ None }
        ensures { HasMade self.old self.new (edits.Remove list «package» version) }
    {
        remove_in(&mut self.lists, &list, package.as_slice(), &version);
        self.stanzas -= 1;
        self.edits += 1;
    }

    fn set_mark(&mut self, name: Bytes, version: Option<Version>)
        requires accepted { refusal_of self.old.limits (state_of self.old) (edits.Mark name version) ≡ None }
        requires room { 0 < self.old.marks_room }
        ensures { HasMade self.old self.new (edits.Mark name version) }
    {
        self.marks.put(name, version);
        self.edits += 1;
    }

    fn unmark(&mut self, name: Bytes)
        requires accepted { refusal_of self.old.limits (state_of self.old) (edits.Unmark name) ≡ None }
        ensures { HasMade self.old self.new (edits.Unmark name) }
    {
        self.marks.remove(&name);
        self.edits += 1;
    }

    fn pin(&mut self, setting: PinSetting)
        requires accepted { refusal_of self.old.limits (state_of self.old) (edits.Pin setting.selector setting.priority) ≡ None }
        requires room { 0 < self.old.pins_room }
        ensures { HasMade self.old self.new (edits.Pin setting.selector setting.priority) }
    {
        self.pins.put(setting);
        self.edits += 1;
    }

    fn unpin(&mut self, selector: Selector)
        requires accepted { refusal_of self.old.limits (state_of self.old) (edits.Unpin selector) ≡ None }
        ensures { HasMade self.old self.new (edits.Unpin selector) }
    {
        self.pins.remove(&selector);
        self.edits += 1;
    }

    fn set_target(&mut self, name: Option<Bytes>)
        requires accepted { refusal_of self.old.limits (state_of self.old) (edits.Target name) ≡ None }
        ensures { HasMade self.old self.new (edits.Target name) }
    {
        self.target = name;
        self.edits += 1;
    }

    fn set_all_pins(&mut self, settings: PinSettings)
        requires accepted { refusal_of self.old.limits (state_of self.old) (edits.Prefs settings.pins) ≡ None }
        ensures { HasMade self.old self.new (edits.Prefs settings.pins) }
    {
        self.pins = settings.into_table();
        self.edits += 1;
    }
}

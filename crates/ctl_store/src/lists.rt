//! The list of a serial number, and changes of one list in its place.

ghost use Rattle.std.specs.Prelude.{◌≡◌, ◌<◌, ◌+◌, ◌^◌, Some, IfSome, OnOk, option_map};
ghost use Rattle.ctl_ordered.specs.Ordered.{entries};
ghost use Rattle.ctl_store.specs.Named.{at_name, change_named};
ghost use Rattle.ctl_store.specs.Keys.{put_keyed, remove_keyed};
ghost use Rattle.ctl_store.specs.Store.{lists_of};
ghost use Rattle.ctl_store.specs.Plans.{HasRoomInList};
ghost use Rattle.ctl_store.specs.Inside.Sound.{entry_of, AreNumbered};

use crate::held_list::HeldList;
use ctl_ordered::Ordered;
use ctl_relation::{Bytes, Version};
use ctl_stanza::Stanza;
use std::alloc::{AllocError, Global};

/// The list of a serial, with its name.
pub(crate) fn entry_of(lists: &Ordered<Bytes, HeldList>, serial: u32) -> Option<(&[u8], &HeldList)>
    requires { AreNumbered lists.now.filled }
    ensures { option_map (λ e. (e.0.now, e.1.now)) result ≡ entry_of serial (entries lists.now) }
{
    match lists.at(u64::from(serial)) {
        Some((name, list)) => Some((name.as_slice(), list)),
        None => None,
    }
}

/// Makes room for one stanza more in a list.
pub(crate) fn reserve_in(
    lists: &mut Ordered<Bytes, HeldList>,
    alloc: Global,
    list: &Bytes,
) -> Result<(), AllocError>
    ensures lists { lists_of (entries lists.new) ≡ lists_of (entries lists.old) }
    ensures ok { OnOk result (IfSome (at_name list.now (entries lists.new)) HasRoomInList) }
    ensures numbered { AreNumbered lists.old.filled → AreNumbered lists.new.filled }
    ensures next { lists.new.next ≡ lists.old.next }
{
    match lists.get_mut(list) {
        Some(listed) => listed.reserve_one(alloc),
        None => Ok(()),
    }
}

/// Puts a stanza into a list, in the room that [`reserve_in`] made.
pub(crate) fn put_in(lists: &mut Ordered<Bytes, HeldList>, list: &Bytes, stanza: Box<Stanza>)
    requires room { IfSome (at_name list.now (entries lists.old)) HasRoomInList }
    requires below { IfSome (at_name list.now (entries lists.old)) (λ s. s.next + 1 < 2 ^ 64) }
    ensures lists { lists_of (entries lists.new) ≡ change_named list.now (put_keyed stanza.value) (lists_of (entries lists.old)) }
    ensures numbered { AreNumbered lists.old.filled → AreNumbered lists.new.filled }
    ensures next { lists.new.next ≡ lists.old.next }
{
    match lists.get_mut(list) {
        Some(listed) => listed.put(stanza),
        None => {}
    }
}

/// Takes the first stanza of a name and an equal version out of a list.
pub(crate) fn remove_in(
    lists: &mut Ordered<Bytes, HeldList>,
    list: &Bytes,
    name: &[u8],
    version: &Version,
)
    ensures lists { lists_of (entries lists.new)
        ≡ change_named list.now (remove_keyed name.now (Some version.now)) (lists_of (entries lists.old)) }
    ensures numbered { AreNumbered lists.old.filled → AreNumbered lists.new.filled }
    ensures next { lists.new.next ≡ lists.old.next }
{
    match lists.get_mut(list) {
        Some(listed) => listed.remove(name, Some(version)),
        None => {}
    }
}

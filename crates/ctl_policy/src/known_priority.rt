//! The priority of a list, known by its serial.

ghost use Rattle.std.specs.Prelude.{◌≡◌, IsSome, IfSome};
ghost use Rattle.ctl_store.specs.Keys.{holder_of, stanza_at};
ghost use Rattle.ctl_store.specs.Store.{keyed_of};
ghost use Rattle.ctl_policy.specs.Priority.{priority_found, world_of};
ghost use Rattle.ctl_policy.specs.Inside.KnownLists.{IsKnownPriority};

use crate::priority::priority_of_kind;
use ctl_store::{StanzaKey, Store};

/// A list, by the serial that its keys have, and its priority. Stanzas of one list mostly follow each other where rows are
/// walked, and then one comparison tells the priority of their list.
#[derive(Clone, Copy)]
pub(crate) struct KnownPriority {
    list: u32,
    priority: i16,
}

// The list that holds a stanza, with its priority.
fn known_of(store: &Store, key: StanzaKey) -> KnownPriority
    requires { IsSome (stanza_at key (keyed_of store.now).lists) }
    ensures known { IsKnownPriority result (world_of store.now) }
    ensures priority { result.priority ≡ priority_found (world_of store.now) (holder_of key (keyed_of store.now).lists) }
{
    let (list, kind, class) = store.list_with(key);
    KnownPriority {
        list: key.list,
        priority: priority_of_kind(store, list, kind, class, store.general_pin(list)),
    }
}

/// The priority of the list that holds a stanza: the one that is known, if it is that of this list. Else it is found, and is
/// known then.
pub(crate) fn source_priority(
    store: &Store,
    known: &mut Option<KnownPriority>,
    key: StanzaKey,
) -> i16
    requires held { IsSome (stanza_at key (keyed_of store.now).lists) }
    requires known { IfSome known.old (λ one. IsKnownPriority one (world_of store.now)) }
    ensures priority { result ≡ priority_found (world_of store.now) (holder_of key (keyed_of store.now).lists) }
    ensures known { IfSome known.new (λ one. IsKnownPriority one (world_of store.now)) }
{
    if let Some(one) = *known {
        if one.list == key.list {
            return one.priority;
        }
    }
    let found = known_of(store, key);
    *known = Some(found);
    found.priority
}

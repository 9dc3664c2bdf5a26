//! A key is found by halving the serials in the order of their keys.

ghost use Rattle.std.specs.Prelude.{◌≡◌, ◌<◌, ◌≤◌, true, false, ℕ, IfSome, length};
ghost use Rattle.std.specs.List.Sorted.{IsPartitionPoint};
ghost use Rattle.std.specs.Ordering.{is_lt};
ghost use Rattle.ctl_ordered.specs.Slots.{filled_of};
ghost use Rattle.ctl_ordered.specs.Ordered.{order_at, filled_serial, IsBelow, IsOrdered};

use crate::slot::Slot;
use crate::wanted::Wanted;
use indexmap::IndexMap;
use std::cmp::Ordering;
use std::collections::VecDeque;

// How the slot of a serial stands to what is wanted.
fn order_at<K: Ord, V, Q: Wanted<K>>(
    slots: &IndexMap<u64, Slot<K, V>>,
    serial: u64,
    wanted: Q,
) -> Ordering
    ensures { result ≡ order_at K.cmp slots.now.entries (Q.wanted wanted) serial }
{
    match slots.get(&serial) {
        Some(slot) => slot.order_of(wanted),
        None => Ordering::Less,
    }
}

/// Where the serials end whose keys stand before the one that is wanted.
pub(crate) fn end_below<K: Ord, V, Q: Wanted<K>>(
    slots: &IndexMap<u64, Slot<K, V>>,
    order: &VecDeque<u64>,
    wanted: Q,
) -> usize
    requires { (next : ℕ) × IsOrdered K.eq K.cmp slots.now.entries order.now.items next }
    ensures bound { result ≤ length order.now.items }
    ensures point { IsBelow K.cmp slots.now.entries (Q.wanted wanted) order.now.items result }
{
    order.partition_point(
        |serial: &u64|
            ensures { result ≡ is_lt (order_at K.cmp slots.entry.now.entries (Q.wanted wanted) serial.now) }
        { order_at(slots, *serial, wanted).is_lt() },
    )
}

/// The same place in the order, and the serial of the key that is wanted.
pub(crate) fn look_up<K: Ord, V, Q: Wanted<K>>(
    slots: &IndexMap<u64, Slot<K, V>>,
    order: &VecDeque<u64>,
    wanted: Q,
) -> (usize, Option<u64>)
    requires { (next : ℕ) × IsOrdered K.eq K.cmp slots.now.entries order.now.items next }
    ensures bound { result.0 ≤ length order.now.items }
    ensures point { IsBelow K.cmp slots.now.entries (Q.wanted wanted) order.now.items result.0 }
    ensures serial { result.1 ≡ filled_serial (K.eq (Q.wanted wanted)) (filled_of slots.now.entries) }
    ensures within { IfSome result.1 (λ _. result.0 < length order.now.items) }
{
    let at = end_below(slots, order, wanted);
    if at >= order.len() {
        return (at, None);
    }
    let serial = order[at];
    if order_at(slots, serial, wanted).is_eq() {
        (at, Some(serial))
    } else {
        (at, None)
    }
}

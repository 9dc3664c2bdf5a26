//! The order of names and versions, by which the stanzas of a list are found.

ghost use Rattle.std.specs.Prelude.{◌≡◌, ◌<◌, ◌≤◌, ◌-◌, ℕ, true, IfSome, map, slice_index, option_map, option_copied};
ghost use Rattle.std.specs.Bool.{OnTrue};
ghost use Rattle.std.specs.List.Sorted.{IsSortedBy};
ghost use Rattle.ctl_store.specs.Step.{place};
ghost use Rattle.ctl_store.specs.Slots.{HasOrder, Rises, id, id_of, id_cmp, order_at, placed_at, placed_cmp, placed_slot, serial_cmp, sorted_placed, version_order, version_id};
ghost use Rattle.ctl_store.specs.Orders.{lower_place, slot_place, ComesAfter};
ghost use Rattle.std.specs.Ordering.{is_lt};
ghost use Rattle.ctl_store.specs.Inside.HeldPieces.{joined, last_passes, place_of_spot, ArePieces, IsSpot, IsSpotOrEnd};

use crate::fronts::{Placed, front_of};
use crate::pieces::{Spot, is_spot};
use crate::slots::{Slot, slot_of, spot_of};
use ctl_relation::Version;
use ctl_stanza::Stanza;
use std::cmp::Ordering;
use std::marker::Model;

/// A name and a version that are looked up, with the front of the name. A contract sees what they are found by.
#[derive(Drop)]
struct Sought<'a> {
    front: u64,
    name: &'a [u8],
    version: Option<&'a Version>,
}

impl<'a> Model for Sought<'a> {
    ghost use Rattle.std.specs.Prelude.{◌≡◌, option_copied};
    ghost use Rattle.ctl_store.specs.Slots.{Id, id};
    ghost use Rattle.ctl_store.specs.Fronts.{front_of};

    ghost Value = { Id };

    ghost view = { λ s. id s.name.now (option_copied s.version) };

    ghost invariant = { λ s. s.front ≡ front_of s.name.now };
}

impl<'a> Sought<'a> {
    fn new(name: &'a [u8], version: Option<&'a Version>) -> Sought<'a>
        ensures { result ≡ id name.now (option_copied version.entry) }
    {
        Sought {
            front: front_of(name),
            name,
            version,
        }
    }
}

// Equal texts are not read.
#[tactic(auto, using(crate::proofs::OrderLemmas::one_text))]
fn compare_versions(one: Option<&Version>, other: Option<&Version>) -> Ordering
    ensures { result ≡ version_order (version_id (option_copied one.entry)) (version_id (option_copied other.entry)) }
{
    match (one, other) {
        (None, None) => Ordering::Equal,
        (None, Some(_)) => Ordering::Less,
        (Some(_), None) => Ordering::Greater,
        (Some(one), Some(other)) if one.text() == other.text() => Ordering::Equal,
        (Some(one), Some(other)) => one.cmp(other),
    }
}

fn compare(stanza: &Stanza, name: &[u8], version: Option<&Version>) -> Ordering
    ensures { result ≡ id_cmp (id_of stanza.now) (id name.now (option_copied version.entry)) }
{
    match stanza.package().cmp(name) {
        Ordering::Equal => compare_versions(stanza.version(), version),
        unequal => unequal,
    }
}

// How the slot of a serial stands to what is sought.
fn compare_slot(slots: &[Vec<Slot>], serial: u64, sought: &Sought<'_>) -> Ordering
    requires pieces { ArePieces slots.now }
    requires rises { (n : ℕ) × (m : ℕ) × Rises n (joined slots.now) m }
    ensures { result ≡ order_at (joined slots.now) sought.now serial }
{
    match slot_of(slots, serial) {
        Some(slot) => compare(slot.stanza(), sought.name, sought.version),
        None => Ordering::Less,
    }
}

// How an entry of the order stands to what is sought. Where the fronts differ they tell it, and nothing is read of the slot,
// which stands elsewhere in memory.
fn compare_placed(slots: &[Vec<Slot>], one: Placed, sought: &Sought<'_>) -> Ordering
    requires pieces { ArePieces slots.now }
    requires rises { (n : ℕ) × (m : ℕ) × Rises n (joined slots.now) m }
    ensures { result ≡ placed_at (joined slots.now) sought.now one }
{
    match one.front.cmp(&sought.front) {
        Ordering::Equal => compare_slot(slots, one.serial, sought),
        unequal => unequal,
    }
}

// Whether the last of some entries comes before what is sought.
fn ends_before(slots: &[Vec<Slot>], placed: &[Placed], sought: &Sought<'_>) -> bool
    requires pieces { ArePieces slots.now }
    requires rises { (n : ℕ) × (m : ℕ) × Rises n (joined slots.now) m }
    ensures { result ≡ last_passes (λ one. is_lt (placed_at (joined slots.now) sought.now one)) placed.now }
{
    match placed.last() {
        Some(one) => compare_placed(slots, *one, sought).is_lt(),
        None => false,
    }
}

// How the slots of two serials stand, by names and versions and then by the serials. Where there is none, it stands first.
fn compare_serials(slots: &[Vec<Slot>], one: u64, other: u64) -> Ordering
    requires pieces { ArePieces slots.now }
    requires rises { (n : ℕ) × (m : ℕ) × Rises n (joined slots.now) m }
    ensures { result ≡ serial_cmp (joined slots.now) one other }
{
    let order = match (slot_of(slots, one), slot_of(slots, other)) {
        (None, None) => Ordering::Equal,
        (None, Some(_)) => Ordering::Less,
        (Some(_), None) => Ordering::Greater,
        (Some(slot), Some(against)) => {
            let against = against.stanza();
            compare(slot.stanza(), against.package(), against.version())
        }
    };
    order.then(one.cmp(&other))
}

// How two entries stand, by names and versions and then by the serials. Where the fronts differ they tell it here too.
fn compare_entries(slots: &[Vec<Slot>], one: Placed, other: Placed) -> Ordering
    requires pieces { ArePieces slots.now }
    requires rises { (n : ℕ) × (m : ℕ) × Rises n (joined slots.now) m }
    ensures { result ≡ placed_cmp (joined slots.now) one other }
{
    match one.front.cmp(&other.front) {
        Ordering::Equal => compare_serials(slots, one.serial, other.serial),
        unequal => unequal,
    }
}

// Whether entries stand in the order of names and versions already.
fn are_in_order(slots: &[Vec<Slot>], placed: &[Placed]) -> bool
    requires pieces { ArePieces slots.now }
    requires rises { (n : ℕ) × (m : ℕ) × Rises n (joined slots.now) m }
    ensures { OnTrue result (IsSortedBy (λ one other. is_lt (placed_cmp (joined slots.now) one other)) placed.now) }
{
    placed.is_sorted_by(|one, other| !compare_entries(slots, *other, *one).is_lt())
}

/// Puts the entries of slots, which stand as the slots do, in the order of names and versions.
pub(crate) fn sort_placed(slots: &[Vec<Slot>], placed: &mut Vec<Placed>)
    requires pieces { ArePieces slots.now }
    requires rises { (n : ℕ) × (m : ℕ) × Rises n (joined slots.now) m }
    requires placed { placed.old.items ≡ map placed_slot (joined slots.now) }
    ensures { placed.new.items ≡ sorted_placed (joined slots.now) }
{
    if are_in_order(slots, placed) {
        return;
    }
    placed.sort_unstable_by(|one, other| compare_entries(slots, *one, *other));
}

// Whether the slot before a spot comes before what is sought, or no slot is before the spot.
fn follows_lesser(
    slots: &[Vec<Slot>],
    order: &[Vec<Placed>],
    spot: Spot,
    sought: &Sought<'_>,
) -> bool
    requires slots { ArePieces slots.now }
    requires order { ArePieces order.now }
    requires rises { (n : ℕ) × (m : ℕ) × Rises n (joined slots.now) m }
    requires spot { IsSpot order.now spot }
    ensures { OnTrue result (ComesAfter (joined slots.now) (joined order.now) (place_of_spot order.now spot) sought.now) }
{
    if spot.at > 0 {
        let before = order[spot.piece][spot.at - 1];
        return compare_placed(slots, before, sought).is_lt();
    }
    if spot.piece == 0 {
        return true;
    }
    ends_before(slots, &order[spot.piece - 1], sought)
}

// Whether what is sought stands, or would, at a spot. The order tells it by two slots: the one there doesn't come before it,
// and the one before does. The spot need not be in the order.
fn is_lower(slots: &[Vec<Slot>], order: &[Vec<Placed>], likely: Spot, sought: &Sought<'_>) -> bool
    requires slots { ArePieces slots.now }
    requires order { ArePieces order.now }
    requires kept { (next : ℕ) × HasOrder (joined slots.now) next (joined order.now) }
    ensures place { OnTrue result (place_of_spot order.now likely ≡ lower_place sought.now (joined slots.now)) }
    ensures within { OnTrue result (IsSpotOrEnd order.now likely) }
{
    if !is_spot(order, likely) {
        return false;
    }
    let there = order[likely.piece][likely.at];
    if compare_placed(slots, there, sought).is_lt() {
        return false;
    }
    follows_lesser(slots, order, likely, sought)
}

// Where what is sought stands, or would, in the order of slots. The likely spot is looked at first.
fn lower(slots: &[Vec<Slot>], order: &[Vec<Placed>], likely: Spot, sought: &Sought<'_>) -> Spot
    requires slots { ArePieces slots.now }
    requires order { ArePieces order.now }
    requires kept { (next : ℕ) × HasOrder (joined slots.now) next (joined order.now) }
    ensures place { place_of_spot order.now result ≡ lower_place sought.now (joined slots.now) }
    ensures within { IsSpotOrEnd order.now result }
{
    if is_lower(slots, order, likely, sought) {
        return likely;
    }
    let piece = order.partition_point(|placed| ends_before(slots, placed, sought));
    match order.get(piece) {
        Some(placed) => Spot {
            piece,
            at: placed.partition_point(|one| compare_placed(slots, *one, sought).is_lt()),
        },
        None => Spot { piece, at: 0 },
    }
}

/// Where a name and a version stand, or would, in the order of slots, and the spot of the first slot that has them. The
/// answer is the same whatever the likely spot is. Where they stand at it, there is no search.
pub(crate) fn look_up(
    slots: &[Vec<Slot>],
    order: &[Vec<Placed>],
    likely: Spot,
    name: &[u8],
    version: Option<&Version>,
) -> (Spot, Option<Spot>)
    requires slots { ArePieces slots.now }
    requires order { ArePieces order.now }
    requires kept { (next : ℕ) × HasOrder (joined slots.now) next (joined order.now) }
    ensures order { place_of_spot order.now result.0 ≡ lower_place (id name.now (option_copied version.entry)) (joined slots.now) }
    ensures place { option_map (place_of_spot slots.now) result.1 ≡ slot_place name.now (option_copied version.entry) (joined slots.now) }
    ensures in_order { IsSpotOrEnd order.now result.0 }
    ensures in_slots { IfSome result.1 (λ spot. IsSpot slots.now spot) }
    // a slot that is there is in the order
    ensures found { IfSome result.1 (λ _. IsSpot order.now result.0) }
{
    let sought = Sought::new(name, version);
    let spot = lower(slots, order, likely, &sought);
    if spot.piece >= order.len() {
        return (spot, None);
    }
    let there = order[spot.piece][spot.at];
    if compare_placed(slots, there, &sought).is_eq() {
        (spot, spot_of(slots, there.serial))
    } else {
        (spot, None)
    }
}

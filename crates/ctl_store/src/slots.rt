//! Stanzas under their serial numbers.

ghost use Rattle.std.specs.Prelude.{◌≡◌, ◌≤◌, ℕ, length, IfSome, nat_lt, option_map, option_copied, nat_eq};
ghost use Rattle.std.specs.Map.{lookup};
ghost use Rattle.std.specs.List.{slice_index_or};
ghost use Rattle.ctl_stanza.specs.Content.{Content};
ghost use Rattle.ctl_store.specs.Step.{place};
ghost use Rattle.ctl_store.specs.Slots.{has_serial, Rises};
ghost use Rattle.ctl_store.specs.Inside.HeldPieces.{IsEnd, joined, last_passes, place_of_spot, ArePieces, IsSpot, IsSpotOrEnd};

use crate::pieces::{MOST, Spot, is_spot};
use ctl_stanza::Stanza;
use std::marker::Model;

/// A stanza under its serial number.
#[derive(Drop)]
pub(crate) struct Slot {
    serial: u64,
    stanza: Box<Stanza>,
}

impl Model for Slot {
    ghost use Rattle.std.specs.Prelude.{ℕ};
    ghost use Rattle.ctl_stanza.specs.Content.{Content};

    ghost Value = { ℕ × Content };

    ghost view = { λ slot. (slot.serial, slot.stanza.value) };
}

impl Slot {
    pub(crate) fn new(serial: u64, stanza: Box<Stanza>) -> Slot
        ensures { result ≡ (serial, stanza.value) }
    {
        Slot { serial, stanza }
    }

    pub(crate) fn serial(&self) -> u64
        ensures { result ≡ self.now.0 }
    {
        self.serial
    }

    pub(crate) fn stanza(&self) -> &Stanza
        ensures { result.now ≡ self.now.1 }
    {
        &self.stanza
    }

    pub(crate) fn replace(&mut self, stanza: Box<Stanza>)
        ensures { self.new ≡ (self.old.0, stanza.value) }
    {
        self.stanza = stanza;
    }
}

// Whether the last serial is below a serial.
fn ends_before(slots: &[Slot], serial: u64) -> bool
    ensures { result ≡ last_passes (λ slot. nat_lt slot.0 serial) slots.now }
{
    match slots.last() {
        Some(slot) => slot.serial() < serial,
        None => false,
    }
}

// Where the slot of a serial stands in a list that came whole and of whose slots none before it has gone.
fn first_spot(serial: u64) -> Spot {
    let (piece, at) = (serial as usize / MOST, serial as usize % MOST);
    Spot { piece, at }
}

// Where the pieces end whose last serials are below a serial. The one in which it came is looked at first.
fn pieces_below(slots: &[Vec<Slot>], serial: u64) -> usize
    requires pieces { ArePieces slots.now }
    requires rises { (n : ℕ) × (m : ℕ) × Rises n (joined slots.now) m }
    ensures point { IsEnd (λ slots. last_passes (λ slot. nat_lt slot.0 serial) slots.items) slots.now result }
    ensures bound { result ≤ length slots.now }
{
    let likely = first_spot(serial).piece;
    if likely < slots.len()
        && !ends_before(&slots[likely], serial)
        && (likely == 0 || ends_before(&slots[likely - 1], serial))
    {
        return likely;
    }
    slots.partition_point(|slots| ends_before(slots, serial))
}

// Where the slots end whose serials are below a serial.
fn end_below(slots: &[Vec<Slot>], serial: u64) -> Spot
    requires pieces { ArePieces slots.now }
    requires rises { (n : ℕ) × (m : ℕ) × Rises n (joined slots.now) m }
    ensures point { IsEnd (λ slot. nat_lt slot.0 serial) (joined slots.now) (place_of_spot slots.now result) }
    ensures within { IsSpotOrEnd slots.now result }
{
    let piece = pieces_below(slots, serial);
    match slots.get(piece) {
        Some(slots) => Spot {
            piece,
            at: slots.partition_point(|slot| slot.serial() < serial),
        },
        None => Spot { piece, at: 0 },
    }
}

/// The slot of a spot.
pub(crate) fn slot_at(slots: &[Vec<Slot>], spot: Spot) -> &Slot
    requires { IsSpot slots.now spot }
    ensures { (d : ℕ × Content) → slice_index_or (joined slots.now) (place_of_spot slots.now spot) d ≡ result.now }
{
    &slots[spot.piece][spot.at]
}

// The spot of the slot of a serial, found by halving.
fn halved_spot(slots: &[Vec<Slot>], serial: u64) -> Option<Spot>
    requires pieces { ArePieces slots.now }
    requires rises { (n : ℕ) × (m : ℕ) × Rises n (joined slots.now) m }
    ensures place { option_map (λ spot. place_of_spot slots.now spot) result ≡ place (has_serial serial) (joined slots.now) }
    ensures within { IfSome result (λ spot. IsSpot slots.now spot) }
{
    let spot = end_below(slots, serial);
    if spot.piece >= slots.len() {
        return None;
    }
    if slot_at(slots, spot).serial() == serial {
        Some(spot)
    } else {
        None
    }
}

/// The spot of the slot of a serial. Where it came is looked at before the pieces are searched.
pub(crate) fn spot_of(slots: &[Vec<Slot>], serial: u64) -> Option<Spot>
    requires pieces { ArePieces slots.now }
    requires rises { (n : ℕ) × (m : ℕ) × Rises n (joined slots.now) m }
    ensures place { option_map (λ spot. place_of_spot slots.now spot) result ≡ place (has_serial serial) (joined slots.now) }
    ensures within { IfSome result (λ spot. IsSpot slots.now spot) }
{
    let likely = first_spot(serial);
    if is_spot(slots, likely) && slot_at(slots, likely).serial() == serial {
        return Some(likely);
    }
    halved_spot(slots, serial)
}

/// The slot of a serial.
pub(crate) fn slot_of(slots: &[Vec<Slot>], serial: u64) -> Option<&Slot>
    requires pieces { ArePieces slots.now }
    requires rises { (n : ℕ) × (m : ℕ) × Rises n (joined slots.now) m }
    ensures { option_map (λ slot. slot.1) (option_copied result) ≡ lookup (λ k. nat_eq k serial) (joined slots.now) }
{
    match spot_of(slots, serial) {
        Some(spot) => Some(slot_at(slots, spot)),
        None => None,
    }
}

//! Slots of the names of fields, by which most names that were not given are told at once.

ghost use Rattle.std.specs.Prelude.{◌≡◌, ◌<◌};
ghost use Rattle.ctl_stanza.specs.Inside.NameSlots.{slot_of, has_slot, with_slot, is_taken};

const SLOTS: usize = 64;

/// The slot of a name. Names that are the same without regard to ASCII case have the same.
pub(crate) fn slot_of(name: &[u8]) -> usize
    ensures slot { result ≡ slot_of name.now }
    ensures within { result < 64 }
{
    match name {
        [] => 0,
        [first, ..] => (name.len() % SLOTS * 7 + first.to_ascii_lowercase() as usize) % SLOTS,
    }
}

/// Whether a slot is taken, by the bits of those that are.
pub(crate) fn has_slot(taken: u64, slot: usize) -> bool
    requires { slot < 64 }
    ensures { result ≡ has_slot taken slot }
{
    taken >> slot & 1 == 1
}

/// The bits of the slots that are taken, with one more.
pub(crate) fn with_slot(taken: u64, slot: usize) -> u64
    requires { slot < 64 }
    ensures { result ≡ with_slot taken slot }
{
    taken | 1 << slot
}

/// Whether the slot of a name is taken.
pub(crate) fn is_taken(taken: u64, name: &[u8]) -> bool
    ensures { result ≡ is_taken taken name.now }
{
    has_slot(taken, slot_of(name))
}

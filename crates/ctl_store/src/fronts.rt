//! The fronts of names, which tell most names apart.

ghost use Rattle.std.specs.Prelude.{◌≡◌};
ghost use Rattle.ctl_store.specs.Fronts.{digit, first_digit, behind_first, front_of};
ghost use Rattle.ctl_store.specs.Slots.{placed_slot};

use ctl_stanza::Stanza;

// How many characters a front has: the most whose numbers fit in one of 64 bits.
const FRONT_LEN: usize = 12;

// What stands behind a character that has no number of its own.
const LAST: &[u8] = b"zzzzzzzzzzzz";

/// The serial of a slot, with the front of its package's name, by which most comparisons are decided without a look at the slot.
#[derive(Clone, Copy)]
pub(crate) struct Placed {
    pub(crate) front: u64,
    pub(crate) serial: u64,
}

impl Placed {
    /// A stanza under its serial.
    pub(crate) fn new(serial: u64, stanza: &Stanza) -> Placed
        ensures { result ≡ placed_slot (serial, stanza.now) }
    {
        Placed {
            front: front_of(stanza.package()),
            serial,
        }
    }
}

// The number of a character: '+', '-', '.', digits and small letters, of which names are made, have those from 1 to 39, in the
// order of their bytes. Any other has that of the last of them before it, or 0.
fn digit_of(byte: u8) -> u64
    ensures { result ≡ digit byte }
{
    let number = match byte {
        b'a'..=b'z' => byte - 83,
        b'0'..=b'9' => byte - 44,
        0..=42 => 0,
        43 | 44 => 1,
        45 => 2,
        46 | 47 => 3,
        58..=96 => 13,
        _ => 39,
    };
    number as u64
}

// The number of the first character, and what stands behind it.
fn first_of(name: &[u8]) -> (u64, &[u8])
    ensures number { result.0 ≡ first_digit name.now }
    ensures behind { result.1.now ≡ behind_first name.now }
{
    match name.split_first() {
        Some((byte, behind)) => match *byte {
            b'a'..=b'z' | b'0'..=b'9' | b'+' | b'-' | b'.' => (digit_of(*byte), behind),
            other => (digit_of(other), LAST),
        },
        None => (0, name),
    }
}

/// The first characters of a name as one number to base 40. Where two fronts differ, their names stand as they do.
pub(crate) fn front_of(name: &[u8]) -> u64
    ensures { result ≡ front_of name.now }
{
    let mut front = 0;
    let mut left = name;
    for place in 0..FRONT_LEN {
        let (digit, behind) = first_of(left);
        front = front * 40 + digit;
        left = behind;
    }
    front
}

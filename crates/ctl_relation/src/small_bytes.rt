//! Byte strings that take no memory of their own where they are short.

ghost use Rattle.std.specs.Prelude.{◌≡◌, ◌≤◌, length, take, IfOk};

use std::alloc::{AllocError, Global};
use std::marker::Model;
use std::mem::size_of;

// How many bytes stand in the value itself. Nearly all names and versions have no more.
pub(crate) const SHORT_LEN: usize = 30;

#[derive(Drop)]
enum Held {
    // So many of the bytes behind the number are the string's.
    Short(u8, [u8; SHORT_LEN]),
    Long(Vec<u8>),
}

/// A byte string that a value owns, which takes no memory of its own where it is short: seen as the list of its bytes.
#[derive(Drop)]
pub(crate) struct SmallBytes {
    held: Held,
}

// A short one fills the place of a long one's vector, and what stands before that for its alignment.
const _: () = prove!(size_of::<SmallBytes>() == size_of::<Vec<u8>>() + size_of::<usize>());

impl Model for SmallBytes {
    ghost use Rattle.std.specs.Prelude.{List, ℕ};
    ghost use Rattle.ctl_relation.specs.Inside.SmallBytes.{bytes_of, IsHeld};

    ghost Value = { List ℕ };

    ghost view = { λ bytes. bytes_of bytes.held };

    ghost invariant = { λ bytes. IsHeld bytes.held };
}

/// The places of a short byte string, of which it fills the first ones.
pub(crate) fn short_places(slice: &[u8]) -> [u8; SHORT_LEN]
    requires { length slice.now ≤ 30 }
    ensures { take (length slice.now) result ≡ slice.now }
{
    let mut places = [0; SHORT_LEN];
    let (front, _) = places.split_at_mut(slice.len());
    front.copy_from_slice(slice);
    places
}

impl SmallBytes {
    /// A copy of a slice, with no spare room beside that of a short one.
    pub(crate) fn from_slice(alloc: Global, slice: &[u8]) -> Result<SmallBytes, AllocError>
        ensures { IfOk result (λ bytes. bytes ≡ slice.now) }
    {
        if slice.len() > SHORT_LEN {
            let held = Held::Long(Vec::from_slice(alloc, slice)?);
            return Ok(SmallBytes { held });
        }
        let held = Held::Short(slice.len() as u8, short_places(slice));
        Ok(SmallBytes { held })
    }

    /// The bytes as a slice.
    pub(crate) fn as_slice(&self) -> &[u8]
        ensures { result.now ≡ self.now }
    {
        match &self.held {
            Held::Short(len, places) => &places[..*len as usize],
            Held::Long(vec) => vec,
        }
    }
}

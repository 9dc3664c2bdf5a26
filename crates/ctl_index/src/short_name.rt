//! Names that stand in the value itself.

ghost use Rattle.std.specs.Prelude.{◌≡◌, ◌+◌, ◌<◌, ◌≤◌, IfSome, IfNone, Some, ℕ, length, take, refl, slice_index};
ghost use Rattle.std.specs.Cmp.{partial_equiv_from_equiv};
ghost use Rattle.std.specs.Cmp.Lexicographic.{slice_cmp, nat_list_eq_equiv, nat_list_cmp_total, texts_po, texts_ties};
ghost use Rattle.std.specs.Ordering.{nat_cmp};
ghost use Rattle.std.specs.Str.{bytes_eq};
ghost use Rattle.ctl_index.specs.Inside.ShortName.{IsHeldIn, word_at, order_behind};

use std::cmp::Ordering;
use std::marker::Model;

/// How many bytes a short name has at most.
pub(crate) const MOST_SHORT: usize = 31;

// As many, and one for their number.
const PLACES: usize = 32;

/// A name of at most 31 bytes: seen as the list of its bytes, in the order of which names stand.
///
/// In a tree whose keys are names behind pointers a search fetches each name that it passes from memory. With those of at most 31
/// bytes in the keys themselves, compared eight bytes at a time, a real list is read in a tenth less time.
#[derive(Drop)]
pub(crate) struct ShortName {
    // The bytes, zeros behind them, and how many they are in the last place.
    places: [u8; PLACES],
}

impl Model for ShortName {
    ghost use Rattle.std.specs.Prelude.{List, ℕ};
    ghost use Rattle.ctl_index.specs.Inside.ShortName.{held_name, IsHeldIn};

    ghost Value = { List ℕ };

    ghost view = { λ name. held_name name.places };

    ghost invariant = { λ name. IsHeldIn name.places (held_name name.places) };
}

// The number that eight bytes from a place on spell, the first counting most.
fn word_at(places: &[u8; PLACES], at: usize) -> u64
    requires { at + 8 ≤ 32 }
    ensures number { result ≡ word_at at places.now }
    ensures bytes { (k : ℕ) → slice_index places.now k < 256 }
{
    u64::from_be_bytes([
        places[at],
        places[at + 1],
        places[at + 2],
        places[at + 3],
        places[at + 4],
        places[at + 5],
        places[at + 6],
        places[at + 7],
    ])
}

// How names compare whose first eight bytes are the same. Few that a search passes are, so that it stands apart.
#[inline(never)]
fn compare_behind(places: &[u8; PLACES], others: &[u8; PLACES]) -> Ordering
    ensures { result ≡ order_behind places.now others.now }
{
    let (a, b) = (word_at(places, 8), word_at(others, 8));
    if a != b {
        return a.cmp(&b);
    }
    let (a, b) = (word_at(places, 16), word_at(others, 16));
    if a != b {
        return a.cmp(&b);
    }
    word_at(places, 24).cmp(&word_at(others, 24))
}

impl ShortName {
    /// A name, if it is short.
    pub(crate) fn of(name: &[u8]) -> Option<ShortName>
        ensures some { IfSome result (λ short. (short ≡ name.now) × (length name.now ≤ 31)) }
        ensures none { IfNone result (31 < length name.now) }
    {
        if name.len() > MOST_SHORT {
            return None;
        }
        let mut places = [0; PLACES];
        let (front, _) = places.split_at_mut(name.len());
        front.copy_from_slice(name);
        places[PLACES - 1] = name.len() as u8;
        Some(ShortName { places })
    }

    /// Its bytes.
    pub(crate) fn as_slice(&self) -> &[u8]
        ensures bytes { result.now ≡ self.now }
        ensures few { length result.now ≤ 31 }
    {
        &self.places[..self.places[PLACES - 1] as usize]
    }
}

impl PartialEq for ShortName {
    ghost eq = { bytes_eq };

    ghost laws = { partial_equiv_from_equiv nat_list_eq_equiv };

    fn eq(&self, other: &ShortName) -> bool {
        self.as_slice() == other.as_slice()
    }
}

impl Eq for ShortName {
    ghost laws = { nat_list_eq_equiv };
}

impl PartialOrd for ShortName {
    ghost partial_cmp = { λ a b. Some (slice_cmp nat_cmp a b) };

    ghost laws = { texts_po };

    fn partial_cmp(&self, other: &ShortName) -> Option<Ordering> {
        Some(self.cmp(other))
    }
}

impl Ord for ShortName {
    ghost cmp = { slice_cmp nat_cmp };

    ghost total = { nat_list_cmp_total };

    ghost matches_partial_cmp = { λ a b. refl };

    ghost matches_eq = { texts_ties };

    #[inline(always)]
    fn cmp(&self, other: &ShortName) -> Ordering {
        let (a, b) = (word_at(&self.places, 0), word_at(&other.places, 0));
        if a != b {
            return a.cmp(&b);
        }
        compare_behind(&self.places, &other.places)
    }
}

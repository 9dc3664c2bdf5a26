//! What an entry is looked up by.

ghost use Rattle.std.specs.Prelude.{◌≡◌};

use std::cmp::Ordering;

/// What an entry is looked up by: a key that is lent, or what stands for one, as a slice does for a byte string.
pub trait Wanted<K: Ord>: Copy {
    // The key that it stands for.
    ghost wanted: { Self → K };

    /// How a key stands to the one that is wanted.
    fn order_of(&self, key: &K) -> Ordering
        ensures { result ≡ K.cmp key.now (wanted self.now) };
}

impl<K: Ord> Wanted<K> for &K {
    ghost wanted = { λ key. key.now };

    fn order_of(&self, key: &K) -> Ordering {
        key.cmp(*self)
    }
}

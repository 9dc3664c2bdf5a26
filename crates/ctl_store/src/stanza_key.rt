//! Keys of stanzas.

ghost use Rattle.std.specs.Prelude.{◌≡◌};
ghost use Rattle.ctl_store.specs.Keys.{key_cmp};

use std::cmp::Ordering;

/// What names a stanza in a store: the serial number of its list, and its own in that list. Both rise, so the order
/// of keys is the order of the lists and of the stanzas in them. A stanza that replaces another takes over its key.
#[derive(Clone, Copy, Debug, PartialEq, Eq, PartialOrd, Ord)]
pub struct StanzaKey {
    /// The serial number of the list.
    pub list: u32,
    /// The serial number of the stanza in its list.
    pub stanza: u64,
}

/// How two keys stand: by their lists, and in one list by their stanzas.
pub fn compare_keys(one: &StanzaKey, other: &StanzaKey) -> Ordering
    ensures { result ≡ key_cmp one.now other.now }
{
    one.cmp(other)
}

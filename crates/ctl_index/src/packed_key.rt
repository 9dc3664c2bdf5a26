//! Keys of stanzas in few bytes.

ghost use Rattle.std.specs.Prelude.{◌≡◌, Some, refl};
ghost use Rattle.std.specs.Cmp.{po, partial_equiv_from_equiv};
ghost use Rattle.std.specs.Ordering.{eq_by_cmp};
ghost use Rattle.ctl_store.specs.Keys.{key_cmp};
ghost use Rattle.ctl_index.specs.ClauseOrder.{stanzas_equiv, stanzas_total};

use ctl_store::StanzaKey;
use std::cmp::Ordering;
use std::marker::Model;
use std::mem::size_of;

// What one counts in the upper half of a stanza's number.
const HIGH_UNIT: u64 = 4_294_967_296;

/// The key of a stanza, kept in 12 bytes. A [`StanzaKey`] takes 16, since its 64-bit number stands at a multiple of eight. They stand
/// in the same order.
///
/// The tables keep one for each offer, for each atom that names a name, and for each stanza that has clauses.
#[derive(Clone, Copy)]
pub(crate) struct PackedKey {
    list: u32,
    // The halves of the stanza's number, the lower before the upper, so that in memory they stand as the number does.
    low: u32,
    high: u32,
}

const _: () = prove!(size_of::<PackedKey>() == 12);

impl Model for PackedKey {
    ghost use Rattle.std.specs.Prelude.{◌≡◌, ◌+◌, ◌*◌, ◌/◌, ◌%◌, ◌<◌, ◌^◌};
    ghost use Rattle.std.proofs.Common.{arith};
    ghost use Rattle.ctl_store.specs.declared.stanza_key.StanzaKey.{StanzaKey};

    ghost Value = { StanzaKey };

    ghost view = { λ k. record { list = k.list; stanza = k.high * 2 ^ 32 + k.low } };

    ghost invariant = { λ k. k.low < 2 ^ 32 };

    ghost inverse = { λ k. record { list = k.list; low = k.stanza % 2 ^ 32; high = k.stanza / 2 ^ 32 } };

    ghost inverse_ok = { λ k small.
        let low : (k.high * 2 ^ 32 + k.low) % 2 ^ 32 ≡ k.low = omega (arith, small) in
        let high : (k.high * 2 ^ 32 + k.low) / 2 ^ 32 ≡ k.high = omega (arith, small) in
        λ i. record { list = k.list; low = low i; high = high i } };
}

impl PackedKey {
    /// A key in 12 bytes.
    pub(crate) fn new(key: StanzaKey) -> PackedKey
        ensures { result ≡ key }
    {
        PackedKey {
            list: key.list,
            low: (key.stanza % HIGH_UNIT) as u32,
            high: (key.stanza / HIGH_UNIT) as u32,
        }
    }

    /// The key that is kept.
    pub(crate) fn key(self) -> StanzaKey
        ensures { result ≡ self }
    {
        StanzaKey {
            list: self.list,
            stanza: self.high as u64 * HIGH_UNIT + self.low as u64,
        }
    }
}

impl PartialEq for PackedKey {
    ghost eq = { eq_by_cmp key_cmp };

    ghost laws = { partial_equiv_from_equiv stanzas_equiv };

    fn eq(&self, other: &PackedKey) -> bool {
        self.cmp(other).is_eq()
    }
}

impl Eq for PackedKey {
    ghost laws = { stanzas_equiv };
}

impl PartialOrd for PackedKey {
    ghost partial_cmp = { λ a b. Some (key_cmp a b) };

    ghost laws = { po stanzas_total (λ a b. refl) };

    fn partial_cmp(&self, other: &PackedKey) -> Option<Ordering> {
        Some(self.cmp(other))
    }
}

impl Ord for PackedKey {
    ghost cmp = { key_cmp };

    ghost total = { stanzas_total };

    ghost matches_partial_cmp = { λ a b. refl };

    ghost matches_eq = { λ a b. refl };

    fn cmp(&self, other: &PackedKey) -> Ordering {
        self.key().cmp(&other.key())
    }
}

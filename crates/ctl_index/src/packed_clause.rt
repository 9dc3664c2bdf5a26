//! Keys of clauses in few bytes.

ghost use Rattle.std.specs.Prelude.{◌≡◌, Some, refl};
ghost use Rattle.std.specs.Cmp.{po, partial_equiv_from_equiv};
ghost use Rattle.ctl_index.specs.Clauses.{clause_cmp};
ghost use Rattle.std.specs.Ordering.{eq_by_cmp};
ghost use Rattle.ctl_index.specs.ClauseOrder.{clauses_equiv, clauses_total};

use crate::keys::ClauseKey;
use crate::packed_key::PackedKey;
use ctl_relation::FieldKind;
use std::cmp::Ordering;
use std::marker::Model;
use std::mem::size_of;

/// The key of a clause in 20 bytes, where a [`ClauseKey`] takes 24. They stand in the same order.
#[derive(Clone, Copy)]
pub struct PackedClause {
    stanza: PackedKey,
    group: u32,
    field: FieldKind,
}

// A real list has some 300,000 of them.
const _: () = prove!(size_of::<PackedClause>() == 20);

impl Model for PackedClause {
    ghost use Rattle.ctl_index.specs.declared.keys.ClauseKey.{ClauseKey};

    ghost Value = { ClauseKey };

    ghost view = { λ c. record { stanza = c.stanza; field = c.field; group = c.group } };

    ghost inverse = { λ k. record { stanza = k.stanza; group = k.group; field = k.field } };
}

impl PackedClause {
    /// The same key in fewer bytes.
    pub fn new(key: ClauseKey) -> PackedClause
        ensures { result ≡ key }
    {
        PackedClause {
            stanza: PackedKey::new(key.stanza),
            group: key.group,
            field: key.field,
        }
    }

    /// The key.
    pub fn key(self) -> ClauseKey
        ensures { result ≡ self }
    {
        ClauseKey {
            stanza: self.stanza.key(),
            field: self.field,
            group: self.group,
        }
    }
}

impl PartialEq for PackedClause {
    ghost eq = { eq_by_cmp clause_cmp };

    ghost laws = { partial_equiv_from_equiv clauses_equiv };

    fn eq(&self, other: &PackedClause) -> bool {
        self.cmp(other).is_eq()
    }
}

impl Eq for PackedClause {
    ghost laws = { clauses_equiv };
}

impl PartialOrd for PackedClause {
    ghost partial_cmp = { λ a b. Some (clause_cmp a b) };

    ghost laws = { po clauses_total (λ a b. refl) };

    fn partial_cmp(&self, other: &PackedClause) -> Option<Ordering> {
        Some(self.cmp(other))
    }
}

impl Ord for PackedClause {
    ghost cmp = { clause_cmp };

    ghost total = { clauses_total };

    ghost matches_partial_cmp = { λ a b. refl };

    ghost matches_eq = { λ a b. refl };

    fn cmp(&self, other: &PackedClause) -> Ordering {
        self.key().cmp(&other.key())
    }
}

//! Keys of stanzas, of clauses and of atoms, and how two are ordered.

use crate::calls::versions::sign_of;
use crate::words::Words;
use ctl_index::{AtomKey, ClauseKey};
use ctl_store::{StanzaKey, compare_keys};
use std::cmp::Ordering;

/// The key of a stanza: the serial numbers of its list and of the stanza.
pub fn stanza_key(words: &mut Words<'_, '_>) -> StanzaKey {
    let list = words.number();
    let stanza = words.number() as u64;
    StanzaKey { list, stanza }
}

/// The key of a clause: that of its stanza, its field, and the place of its group.
pub fn clause_key(words: &mut Words<'_, '_>) -> ClauseKey {
    let stanza = stanza_key(words);
    let field = words.field_kind();
    let group = words.number();
    ClauseKey {
        stanza,
        field,
        group,
    }
}

fn atom_key(words: &mut Words<'_, '_>) -> AtomKey {
    let clause = clause_key(words);
    let atom = words.number();
    AtomKey {
        stanza: clause.stanza,
        field: clause.field,
        group: clause.group,
        atom,
    }
}

// The sign of an order, where it is that of the two calls that order, and of the one that says what is equal.
fn agreed(order: Ordering, other: Ordering, is_equal: bool) -> &'static [u8] {
    if order == other && is_equal == (order == Ordering::Equal) {
        sign_of(order)
    } else {
        b"?"
    }
}

/// The sign between two keys of stanzas.
pub fn stanza_sign(words: &mut Words<'_, '_>) -> &'static [u8] {
    let one = stanza_key(words);
    let other = stanza_key(words);
    agreed(one.cmp(&other), compare_keys(&one, &other), one == other)
}

/// The sign between two keys of clauses.
pub fn clause_sign(words: &mut Words<'_, '_>) -> &'static [u8] {
    let one = clause_key(words);
    let other = clause_key(words);
    agreed(one.cmp(&other), other.cmp(&one).reverse(), one == other)
}

/// The sign between two keys of atoms.
pub fn atom_sign(words: &mut Words<'_, '_>) -> &'static [u8] {
    let one = atom_key(words);
    let other = atom_key(words);
    agreed(one.cmp(&other), other.cmp(&one).reverse(), one == other)
}

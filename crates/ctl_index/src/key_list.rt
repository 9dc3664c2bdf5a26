//! The keys of what stands under a name, offers or atoms, in the order of their stanzas.

ghost use Rattle.std.specs.Prelude.{◌≡◌, ◌≤◌, ◌∷◌, [], true, false, length, nat_eq, vec_len, insert, IfOk, OnOk, OnErr};
ghost use Rattle.std.specs.List.Sorted.{IsPartitionPoint};
ghost use Rattle.ctl_index.specs.Inside.TablesOrder.{InOrder, is_before, is_through, ends_behind, put_in_order, others};

use crate::keys::OfStanza;
use crate::span::Span;
use ctl_store::{StanzaKey, compare_keys};
use std::alloc::{AllocError, Global};
use std::marker::Model;

/// Keys of offers or of atoms, in the order of their stanzas.
#[derive(Drop)]
pub(crate) struct KeyList<K: OfStanza> {
    keys: Vec<K>,
}

impl<K: OfStanza> Model for KeyList<K> {
    ghost use Rattle.std.specs.Prelude.{List};
    ghost use Rattle.ctl_index.specs.Inside.TablesOrder.{InOrder};

    ghost Value = { List K };

    ghost view = { λ list. list.keys.items };

    ghost invariant = { λ list. InOrder K.stanza list.keys.items };
}

// Whether the last is of a later stanza.
fn ends_behind<K: OfStanza>(keys: &[K], stanza: StanzaKey) -> bool
    ensures { result ≡ ends_behind K.stanza stanza keys.now }
{
    match keys.last() {
        Some(last) => compare_keys(&last.stanza(), &stanza).is_gt(),
        None => false,
    }
}

// Where those of earlier stanzas end.
fn end_before<K: OfStanza>(keys: &[K], stanza: StanzaKey) -> usize
    requires { InOrder K.stanza keys.now }
    ensures bound { result ≤ length keys.now }
    ensures point { IsPartitionPoint (λ key. is_before K.stanza stanza key
        ≡ true) (λ key. is_before K.stanza stanza key ≡ false) keys.now result }
{
    keys.partition_point(|key| compare_keys(&key.stanza(), &stanza).is_lt())
}

// Where those of the stanza and of earlier ones end: mostly at the end.
fn end_through<K: OfStanza>(keys: &[K], stanza: StanzaKey) -> usize
    requires { InOrder K.stanza keys.now }
    ensures bound { result ≤ length keys.now }
    ensures point { IsPartitionPoint (λ key. is_through K.stanza stanza key
        ≡ true) (λ key. is_through K.stanza stanza key ≡ false) keys.now result }
{
    if !ends_behind(keys, stanza) {
        return keys.len();
    }
    keys.partition_point(|key| compare_keys(&key.stanza(), &stanza).is_le())
}

// Inserts a key. A list that is full gets room for a quarter more, and a short one for this key and two more: most names have few
// offers and few atoms, and finished lists are to have little spare room. With an eighth and one more, lists move so often that a
// load takes 2 % longer.
fn insert_exactly<K: OfStanza>(keys: &mut Vec<K>, at: usize, key: K) -> Result<(), AllocError>
    requires { at ≤ vec_len keys.old }
    ensures items { OnOk result (keys.new.items ≡ insert keys.old.items at key) }
    ensures err { OnErr result (keys.new.items ≡ keys.old.items) }
{
    if keys.len() == keys.capacity() {
        keys.reserve_exact((keys.len() / 4).max(3))?;
    }
    keys.insert(at, key)?;
    Ok(())
}

impl<K: OfStanza> KeyList<K> {
    /// An empty list. It takes no memory.
    pub(crate) fn new(alloc: Global) -> KeyList<K>
        ensures { result ≡ [] }
    {
        KeyList {
            keys: Vec::new(alloc),
        }
    }

    /// A list of one, with room for one more.
    pub(crate) fn of_one(alloc: Global, key: K) -> Result<KeyList<K>, AllocError>
        ensures { IfOk result (λ list. list ≡ key ∷ []) }
    {
        let mut keys = Vec::with_capacity(alloc, 2)?;
        keys.push(key)?;
        Ok(KeyList { keys })
    }

    pub(crate) fn as_slice(&self) -> &[K]
        ensures { result.now ≡ self.now }
    {
        &self.keys
    }

    pub(crate) fn is_empty(&self) -> bool
        ensures { result ≡ nat_eq (length self.now) 0 }
    {
        self.keys.is_empty()
    }

    /// A key comes, behind those of its stanza and of earlier ones.
    pub(crate) fn put(&mut self, key: K) -> Result<(), AllocError>
        ensures ok { OnOk result (self.new ≡ put_in_order K.stanza key self.old) }
        ensures err { OnErr result (self.new ≡ self.old) }
    {
        let at = end_through(&self.keys, key.stanza());
        insert_exactly(&mut self.keys, at, key)?;
        Ok(())
    }

    /// Those of a span go, which stand together.
    pub(crate) fn take(&mut self, span: Span)
        ensures { self.new ≡ others K.stanza span self.old }
    {
        let start = end_before(&self.keys, span.first);
        let end = end_through(&self.keys, span.last);
        if start < end {
            self.keys.drain(start..end);
        }
    }
}

//! The keys of a row, in order.

ghost use Rattle.std.specs.Prelude.{◌≡◌, ◌≤◌, ◌<◌, length, OnErr, OnOk};
ghost use Rattle.std.specs.Bool.{OnTrue};
ghost use Rattle.ctl_policy.specs.Keys.{with_key, without_key, below, stands_at};
ghost use Rattle.ctl_store.specs.Keys.{AreRising};

use ctl_store::StanzaKey;
use std::alloc::AllocError;

// How many keys are below one.
fn below(keys: &[StanzaKey], key: StanzaKey) -> usize
    requires { AreRising keys.now }
    ensures place { result ≡ below key keys.now }
    ensures within { result ≤ length keys.now }
{
    keys.partition_point(|k| *k < key)
}

// Whether a key stands at a place.
fn stands_at(keys: &[StanzaKey], place: usize, key: StanzaKey) -> bool
    ensures there { result ≡ stands_at key place keys.now }
    ensures within { OnTrue result (place < length keys.now) }
{
    match keys.get(place) {
        Some(there) => *there == key,
        None => false,
    }
}

/// Puts a key in its place. One that stands there already stays.
#[tactic(auto, using(crate::proofs::KeyLemmas::insert_below, crate::proofs::KeyLemmas::with_there))]
pub(crate) fn put_key(keys: &mut Vec<StanzaKey>, key: StanzaKey) -> Result<(), AllocError>
    requires { AreRising keys.old.items }
    ensures ok { OnOk result (keys.new.items ≡ with_key key keys.old.items) }
    ensures err { OnErr result (keys.new.items ≡ keys.old.items) }
{
    let place = below(keys, key);
    if !stands_at(keys, place, key) {
        keys.insert(place, key)?;
    }
    Ok(())
}

/// Takes a key out. It takes no memory.
#[tactic(auto, using(crate::proofs::KeyLemmas::remove_below, crate::proofs::KeyLemmas::without_absent))]
pub(crate) fn take_key(keys: &mut Vec<StanzaKey>, key: StanzaKey)
    requires { AreRising keys.old.items }
    ensures { keys.new.items ≡ without_key key keys.old.items }
{
    let place = below(keys, key);
    if stands_at(keys, place, key) {
        keys.remove(place);
    }
}

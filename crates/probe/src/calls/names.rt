//! Names, byte strings that are kept, and offers of names.

use crate::calls::versions::sign_of;
use crate::said::{OUT_OF_MEMORY, Said};
use crate::words::Words;
use ctl_relation::{Bytes, Offer, is_name};
use std::cmp::Ordering;

fn say_is_name(words: &mut Words<'_, '_>, said: &mut Said) {
    said.add(if is_name(words.bytes()) {
        b"a name"
    } else {
        b"no name"
    });
}

// Bytes that are kept: the bytes, the room that a vector of them has, and the bytes that it is kept to again.
fn say_kept(bytes: Bytes, said: &mut Said) {
    said.add(bytes.as_slice());
    let vec = bytes.into_vec();
    said.number(b" ", vec.capacity() as u128);
    said.add(b" ");
    said.add(Bytes::from_vec(vec).as_slice());
}

// The sign between two byte strings, or `?` where the calls that compare them don't agree.
fn sign(one: &Bytes, other: &Bytes) -> &'static [u8] {
    match one.partial_cmp(other) {
        Some(order) if (one == other) == (order == Ordering::Equal) => sign_of(order),
        _ => b"?",
    }
}

// The signs of each of some byte strings with all of them, those of each behind a space.
fn say_signs(texts: &[Bytes], said: &mut Said) {
    for one in texts {
        said.add(b" ");
        for other in texts {
            said.add(sign(one, other));
        }
    }
}

// The name of an offer, and behind a space its version where it has one.
fn say_parts(offer: &Offer, said: &mut Said) {
    said.add(offer.name());
    if let Some(version) = offer.version() {
        said.all(&[b" ", version.text()]);
    }
}

/// The offer of a name, with a version or `-`; none where memory ran out.
pub fn offer_of(words: &mut Words<'_, '_>) -> Option<Offer> {
    let name = words.bytes();
    let version = words.version_or_none();
    match Offer::new(words.alloc(), name, version) {
        Ok(offer) => Some(offer),
        Err(_) => {
            words.fail(OUT_OF_MEMORY);
            None
        }
    }
}

fn say_offer(words: &mut Words<'_, '_>, said: &mut Said) {
    if let Some(offer) = offer_of(words) {
        say_parts(&offer, said);
    }
}

/// What a call gives that is asked for by words:
///
/// - `is-name`, a text: whether it is a name;
/// - `keep`, bytes: as they are kept, the room that a vector of them has, and as they are kept again;
/// - `signs`, byte strings: `<`, `=` or `>` of each of them with all;
/// - `offer`, a name, and a version or `-`: the parts of the offer.
pub fn say_call(words: &mut Words<'_, '_>, said: &mut Said) {
    match words.word() {
        "is-name" => say_is_name(words, said),
        "keep" => say_kept(words.kept(), said),
        "signs" => say_signs(&words.all_kept(), said),
        "offer" => say_offer(words, said),
        _ => said.fail("a call of names that is not known"),
    }
}

//! Versions: what a text is read to, and how two are ordered.

use crate::said::{OUT_OF_MEMORY, Said};
use crate::words::Words;
use ctl_relation::{Version, VersionFault};
use std::cmp::Ordering;

fn fault_name(fault: VersionFault) -> &'static [u8] {
    match fault {
        VersionFault::Empty => b"Empty",
        VersionFault::Epoch => b"Epoch",
        VersionFault::Upstream => b"Upstream",
        VersionFault::Character => b"Character",
        VersionFault::Revision => b"Revision",
        VersionFault::Memory => b"Memory",
    }
}

// The text of a version, or the test that it fails.
fn say_read(words: &mut Words<'_, '_>, said: &mut Said) {
    match Version::parse(words.alloc(), words.bytes()) {
        Ok(version) => said.add(version.text()),
        Err(fault) => said.add(fault_name(fault)),
    }
}

fn say_copied(version: &Version, said: &mut Said) {
    match version.try_clone(said.alloc()) {
        Ok(copy) => said.add(copy.text()),
        Err(_) => said.fail(OUT_OF_MEMORY),
    }
}

fn say_copy(words: &mut Words<'_, '_>, said: &mut Said) {
    if let Some(version) = words.version() {
        say_copied(&version, said);
    }
}

/// The sign of an order.
pub fn sign_of(order: Ordering) -> &'static [u8] {
    match order {
        Ordering::Less => b"<",
        Ordering::Equal => b"=",
        Ordering::Greater => b">",
    }
}

// Whether all calls that compare two versions agree with an order, also the other way round.
fn is_agreed(one: &Version, other: &Version, order: Ordering) -> bool {
    one.partial_cmp(other) == Some(order)
        && other.cmp(one) == order.reverse()
        && (one == other) == (order == Ordering::Equal)
}

// The sign between two versions, or `?` where the calls don't agree.
fn sign(one: &Version, other: &Version) -> &'static [u8] {
    let order = one.cmp(other);
    if is_agreed(one, other, order) {
        sign_of(order)
    } else {
        b"?"
    }
}

fn say_between(one: &Version, sign: &[u8], other: &Version, said: &mut Said) {
    said.all(&[one.text(), b" "]);
    said.all(&[sign, b" "]);
    said.add(other.text());
}

// Two versions, with their sign between them.
fn say_order(versions: &[Version], said: &mut Said) {
    match versions {
        [one, other] => say_between(one, sign(one, other), other, said),
        _ => said.fail("not two versions"),
    }
}

fn say_sign(versions: &[Version], said: &mut Said) {
    match versions {
        [one, other] => said.add(sign(one, other)),
        _ => said.fail("not two versions"),
    }
}

// The signs of each of some versions with all of them, those of each behind a space.
fn say_signs(versions: &[Version], said: &mut Said) {
    for one in versions {
        said.add(b" ");
        for other in versions {
            said.add(sign(one, other));
        }
    }
}

// What is asked of versions.
fn say_compared(word: &str, versions: &[Version], said: &mut Said) {
    match word {
        "order" => say_order(versions, said),
        "sign" => say_sign(versions, said),
        "signs" => say_signs(versions, said),
        _ => said.fail("a call of versions that is not known"),
    }
}

/// What a call gives that is asked for by words:
///
/// - `read`, a text: its text again, or the test that it fails;
/// - `copy`, a version: the text of a copy;
/// - `order`, two versions: both, with `<`, `=` or `>` between them; and `sign`, the same two: that alone;
/// - `signs`, versions: those of each of them with all.
pub fn say_call(words: &mut Words<'_, '_>, said: &mut Said) {
    match words.word() {
        "read" => say_read(words, said),
        "copy" => say_copy(words, said),
        word => say_compared(word, &words.versions(), said),
    }
}

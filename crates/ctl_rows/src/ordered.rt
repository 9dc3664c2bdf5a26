//! Calls of maps in the order of insertion.

use crate::said::Said;
use crate::tables::same;
use ctl_ordered::Ordered;
use std::alloc::Global;

/// Sets the value of a key, while a serial number is left.
fn set(map: &mut Ordered<u8, u8>, key: u8, value: u8, said: &mut Said) {
    if map.next_serial() == u64::MAX {
        said.fail();
        return;
    }
    match map.reserve_one() {
        Ok(()) => map.put(key, value),
        Err(_) => said.fail(),
    }
}

/// Changes the value of a key in its place.
fn change(map: &mut Ordered<u8, u8>, key: u8, value: u8) {
    if let Some(place) = map.get_mut(&key) {
        *place = value;
    }
}

fn say_value(map: &Ordered<u8, u8>, key: u8, said: &mut Said) {
    match map.get(&key) {
        Some(value) => said.add(&[*value]),
        None => said.add(b"none"),
    }
}

/// Each key with its value behind it, in order, and a semicolon.
fn say_all(map: &Ordered<u8, u8>, said: &mut Said) {
    for (key, value) in map.iter() {
        said.add(&[*key, *value]);
    }
    said.add(b";");
}

/// Does what a word says: `b1` sets the value of a key, `=b1` changes it in its place, `-b` takes the key out, `?b` tells its
/// value, and `.` all.
fn act(map: &mut Ordered<u8, u8>, word: &[u8], said: &mut Said) {
    match word {
        [b'-', key] => map.remove(key),
        [b'?', key] => say_value(map, *key, said),
        [b'=', key, value] => change(map, *key, *value),
        [key, value] => set(map, *key, *value, said),
        _ => say_all(map, said),
    }
}

/// What comes of words in a new map.
fn came(alloc: Global, words: &[&[u8]]) -> Said {
    let mut said = Said::new(alloc);
    let mut map = Ordered::new(alloc);
    for word in words {
        act(&mut map, word, &mut said);
    }
    said
}

/// The name of a row, words, and what comes of them.
type Row = (&'static [u8], &'static [&'static [u8]], &'static [u8]);

const ROWS: &[Row] = &[
    (
        b"set, taken out, set anew",
        &[
            b"b1", b"c2", b"a3", b"b4", b"=c5", b"=d6", b".", b"-c", b"-d", b".", b"c7", b".",
        ],
        b"b4c5a3;b4a3;b4a3c7;",
    ),
    (
        b"found where others have gone",
        &[
            b"d1", b"b2", b"c3", b"a4", b"-d", b"-c", b"-a", b"?b", b"?a", b"a5", b".",
        ],
        b"2noneb2a5;",
    ),
];

#[test]
fn keys_keep_the_order_in_which_they_came(rt: HostRuntime) {
    for (row, words, wanted) in ROWS {
        same(&rt, row, came(rt.alloc(), words).shown(), wanted);
    }
}

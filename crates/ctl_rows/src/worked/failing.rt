//! Readers and writers of std that fail, and a reader that does not end.

use super::THREE_LISTS;
use crate::runs::Act;
use crate::said::Said;
use crate::tables::{Acted, comes, each_comes, joined};
use std::alloc::Global;
use std::process::Abort;

const ROWS: &[Acted] = &[
    (
        b"A writer that fails once",
        u32::MAX,
        &[Act::Until(
            b"\
add-list main packages
Package: foo
Version: 1.0-1

Package: bar
Version: 2.0
.
pkgnames
pkgnames
",
            5,
        )],
        b"bar\nf! write failed\n",
    ),
    (
        b"A reader that fails in a line",
        u32::MAX,
        &[Act::Broken(b"pkgnames\nfr")],
        b"! read failed\n",
    ),
    (
        b"Comments without end",
        1000,
        &[Act::Endless(b"#\n")],
        b"! too many lines\n",
    ),
];

#[test]
fn readers_and_writers_fail_or_do_not_end(rt: HostRuntime) {
    each_comes(&rt, ROWS);
}

/// Compares what the three lists write where the writer fails behind so much of their text, and then the policy.
fn writer_fails(rt: &(impl Abort + AllocGlobal), text: &[u8]) {
    let wanted = joined(rt.alloc(), text, b"! write failed\n", THREE_LISTS.text);
    let acts = [
        Act::Until(THREE_LISTS.script, text.len()),
        Act::Script(b"policy foo\n"),
    ];
    comes(
        rt,
        b"A writer that fails at each byte",
        &acts,
        wanted.shown(),
    );
}

#[test]
fn a_writer_fails_at_each_byte(rt: HostRuntime) {
    let text = THREE_LISTS.text;
    for before in 0..text.len() {
        writer_fails(&rt, &text[..before]);
    }
}

/// How many lists are whole in the beginning of a script: each with its end, and the newline behind it.
fn lists_in(script: &[u8]) -> usize {
    let mut count: usize = 0;
    for from in 0..script.len() {
        if script[from..].starts_with(b"\n.\n") {
            count = count.saturating_add(1);
        }
    }
    count
}

/// The policy where so many of the three lists are there.
fn policy_of(lists: usize) -> &'static [u8] {
    match lists {
        0 => b"N: Unable to locate package foo\n",
        1 => b"\
foo:
  Installed: (none)
  Candidate: 1.0-1
  Version table:
     1.0-1 500
        500 main
",
        2 => b"\
foo:
  Installed: (none)
  Candidate: 2.0-1
  Version table:
     2.0-1 500
        500 sid
     1.0-1 500
        500 main
",
        _ => THREE_LISTS.text,
    }
}

/// What is wanted of a reader that gives this much of the three lists before it fails.
fn wanted_of(alloc: Global, given: &[u8]) -> Said {
    let text = if given == THREE_LISTS.script {
        THREE_LISTS.text
    } else {
        b""
    };
    joined(alloc, text, b"! read failed\n", policy_of(lists_in(given)))
}

/// Compares what comes of it where it gives one byte at each call, and then the policy.
fn reader_fails(rt: &(impl Abort + AllocGlobal), given: &[u8]) {
    let wanted = wanted_of(rt.alloc(), given);
    let acts = [Act::ByteByByte(given), Act::Script(b"policy foo\n")];
    comes(
        rt,
        b"A reader that fails at each call",
        &acts,
        wanted.shown(),
    );
}

#[test]
fn a_reader_fails_at_each_call(rt: HostRuntime) {
    let script = THREE_LISTS.script;
    for calls in 0..=script.len() {
        reader_fails(&rt, &script[..calls]);
    }
}

//! Lists that are loaded without a script.

use crate::runs::Act;
use crate::tables::comes;
use std::process::Abort;

/// Compares what a load comes to beside a list `sid`.
fn loads(rt: &(impl Abort + AllocGlobal), load: Act<'_>, text: &[u8], wanted: &[u8]) {
    let acts = [Act::Script(b"add-list sid packages\n.\n"), load];
    comes(rt, text, &acts, wanted);
}

#[test]
fn a_load_tells_the_line_of_its_fault(rt: HostRuntime) {
    const ROWS: &[(&[u8], &[u8], &[u8])] = &[
        (
            b"main",
            b"Package: a\nVersion: 1\n\nPackage: b\nVersion: 1\n\nPackage: c\n",
            b"line 7, number 7",
        ),
        (
            b"main",
            b"Package: a\nVersion: 1\noops\n.\n",
            b"line 3, number 5",
        ),
        // a line that is a dot is no end of a text that is loaded
        (b"main", b"Package: a\nVersion: 1\n.\n", b"line 3, number 5"),
        (b"m!", b"oops\n", b"line 0, number 8"),
        (b"sid", b"oops\n", b"line 1, number 5"),
        (b"sid", b"Package: a\nVersion: 1\n", b"line 0, number 11"),
        (b"main", b"Package: a\nVersion: 1\n", b"loaded"),
    ];
    for (name, text, wanted) in ROWS {
        loads(&rt, Act::Load(name, text), text, wanted);
        loads(&rt, Act::LoadText(name, text), text, wanted);
        loads(&rt, Act::LoadFrom(name, text), text, wanted);
    }
}

#[test]
fn a_failed_read_is_told_in_place_of_a_fault(rt: HostRuntime) {
    const TEXTS: &[&[u8]] = &[b"", b"Package: a\nVersion: 1\n", b"oops\n\nPackage: a\n"];
    for text in TEXTS {
        let acts = [Act::LoadBroken(b"main", text), Act::Script(b"pkgnames\n")];
        comes(&rt, text, &acts, b"! read failed");
    }
}

//! Answers that are asked of a cache by calls.

use crate::runs::Act;
use crate::tables::{Acted, each_comes};

#[test]
fn calls_are_answered_and_counted(rt: HostRuntime) {
    const ROWS: &[Acted] = &[
        (
            b"answers stand behind what is there",
            u32::MAX,
            &[
                Act::Script(
                    b"add-list m packages\nPackage: a\nVersion: 1\nDepends: v | b\n\nPackage: b\nVersion: 1\nProvides: v, v\n.\n",
                ),
                Act::Ask(&[b"pkgnames"]),
                Act::Ask(&[b"pkgnames", b"--all-names"]),
                Act::Ask(&[b"policy"]),
                Act::Ask(&[b"depends", b"a"]),
                Act::Ask(&[b"show", b"a=1_"]),
                Act::Ask(&[b"shows"]),
                Act::Ask(&[]),
            ],
            b"a\nb\n0 tests\na\nb\nv\n0 tests\nPackage files:\n 500 m\nPinned packages:\n0 tests\n\
        a\n |Depends: <v>\n    b\n  Depends: b\n2 tests\nnumber 9, a query\nnumber 1, no query\nnumber 1, no query\n",
        ),
        (
            b"tests are made for depends alone",
            u32::MAX,
            &[
                Act::Script(
                    b"add-list m packages\nPackage: a\nVersion: 1\nDepends: v | b, w\n\nPackage: b\nVersion: 1\nProvides: v, v (= 2)\n\nPackage: v\nVersion: 3\n.\n",
                ),
                Act::Ask(&[b"depends", b"a"]),
                Act::Ask(&[b"rdepends", b"v"]),
                Act::Ask(&[b"unmet"]),
                Act::Ask(&[b"showpkg", b"v"]),
            ],
            b"a\n |Depends: v\n    b\n  Depends: b\n  Depends: <w>\n2 tests\nv\nReverse Depends:\n |a\n0 tests\nPackage a version 1 has an unmet dep:\n Depends: w\n0 tests\nPackage: v\nVersions:\n3 (m)\n\nReverse Depends:\n  a 1 Depends: v\nDependencies:\nProvides:\nReverse Provides:\n  b 1 v\n  b 1 v (= 2)\n0 tests\n",
        ),
    ];
    each_comes(&rt, ROWS);
}

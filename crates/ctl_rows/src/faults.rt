//! Runs that stop before their end.

use crate::runs::{Act, fault_words};
use crate::tables::{Acted, each_comes, same};
use ctl_session::Fault;
use std::test::Fail;

const STOPPED: &[Acted] = &[
    (
        b"a read fails in a body",
        u32::MAX,
        &[Act::Broken(b"frob\nadd-list m packages\nPackage: a\nVersion: 1\n")],
        b"E: line 1: unknown command\n! read failed\n",
    ),
    (
        b"a read fails at the end of a line",
        u32::MAX,
        &[Act::Broken(b"add-list m packages\nPackage: a\nVersion: 1\n.\npkgnames\npkgnames")],
        b"a\n! read failed\n",
    ),
    (
        b"a command cut by the limit of lines",
        3,
        &[
            Act::Script(b"pkgnames\nadd-list main packages\nPackage: a\nVersion: 1\n.\n"),
            Act::Script(b"pkgnames\ndrop-list main\n"),
        ],
        b"! too many lines\nE: line 2: no such list\n",
    ),
    (
        b"a comment past the limit of lines",
        2,
        &[Act::Script(b"#\n#\n#\n")],
        b"! too many lines\n",
    ),
    (
        b"a beginning past the limit of lines",
        2,
        &[Act::Script(b"#\n#\nx")],
        b"! too many lines\n",
    ),
    (
        b"as many lines as the limit",
        2,
        &[Act::Script(b"#\n#\n")],
        b"",
    ),
    (
        b"the last of them without its end",
        2,
        &[Act::Script(b"#\n#")],
        b"",
    ),
];

// The commands before a fault are done, and none is done in part.
#[test]
fn a_fault_ends_the_run(rt: HostRuntime) {
    each_comes(&rt, STOPPED);
}

#[test]
fn faults_have_their_words(rt: HostRuntime) -> Result<(), Fail> {
    for fault in [Fault::Read, Fault::Write, Fault::TooManyLines] {
        let came = format!(in rt.alloc(); "! {fault}\n")?;
        same(&rt, b"a fault", came.as_bytes(), fault_words(fault));
    }
    Ok(())
}

//! Runs that are counted, and one behind another.

use crate::runs::Act;
use crate::tables::{Acted, each_comes};

#[test]
fn runs_are_counted_and_follow_one_another(rt: HostRuntime) {
    const ROWS: &[Acted] = &[
        (
            b"counted",
            u32::MAX,
            &[Act::Counted(b"add-list m packages\n.\nfrob\npkgnames\n# done\n")],
            b"2 accepted, 1 refused",
        ),
        (
            b"two runs",
            6,
            &[
                Act::Script(b"add-list m packages\nPackage: a\nVersion: 1\n.\n"),
                Act::Script(b"frob\npkgnames\n"),
            ],
            b"E: line 1: unknown command\na\n",
        ),
    ];
    each_comes(&rt, ROWS);
}

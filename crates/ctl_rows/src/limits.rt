//! What comes before a long line, or behind it.

use crate::worked::long_lines::{Row, each_is_read};

const ROWS: &[Row] = &[
    (
        b"a comment past the limit",
        b"#",
        (1_048_576, b' '),
        b"\nfrob\n",
        b"E: line 1: line too long\nE: line 2: unknown command\n",
    ),
    (
        b"blanks past the limit",
        b" ",
        (1_048_576, b' '),
        b"\nfrob\n",
        b"E: line 1: line too long\nE: line 2: unknown command\n",
    ),
    (
        b"a command past the limit",
        b"add-list m packages",
        (1_048_576, b' '),
        b"\nfrob\n",
        b"E: line 1: line too long\nE: line 2: unknown command\n",
    ),
    (
        b"a body under wrong words, and a faulty line above",
        b"add-list main other\noops\n",
        (1_048_577, b'x'),
        b"\n.\npkgnames\n",
        b"E: line 3: line too long\n",
    ),
    (
        b"a body without its end, and no end of the line",
        b"add-list main packages\nPackage: a\n",
        (1_048_577, b'x'),
        b"",
        b"E: line 3: line too long\n",
    ),
    (
        b"a body for a list that is not there",
        b"put nope\n",
        (1_048_577, b'x'),
        b"\n.\n",
        b"E: line 2: line too long\n",
    ),
    (
        b"a body under a word too many",
        b"prefs x\n",
        (1_048_577, b'x'),
        b"\n.\n",
        b"E: line 2: line too long\n",
    ),
    (
        b"a comment of preferences",
        b"prefs\n#",
        (1_048_577, b'x'),
        b"\n.\n",
        b"E: line 2: line too long\n",
    ),
    // It is a fault of the body, so that wrong words come first.
    (
        b"a field that goes on past the most bytes, under wrong words",
        b"add-list main other\nPackage: a\nVersion: 1\nD:",
        (1_048_574, b'x'),
        b"\n y\n.\npkgnames\n",
        b"E: line 1: bad arguments\n",
    ),
    (
        b"a field that goes on past the most bytes adds no list",
        b"add-list main packages\nPackage: a\nVersion: 1\nD:",
        (1_048_574, b'x'),
        b"\n y\n.\npkgnames\n",
        b"E: line 5: line too long\n",
    ),
];

#[test]
fn a_long_line_comes_before_all_else(rt: HostRuntime) {
    each_is_read(&rt, ROWS);
}

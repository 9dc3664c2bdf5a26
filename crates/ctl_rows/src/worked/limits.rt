//! Caches and runs with less room.

use super::table::{Room, TWO_STANZAS, each_is_so_within};
use ctl_store::Limits;

/// Room for so many lines.
const fn lines(max_lines: u32) -> Room {
    Room {
        limits: Limits::MOST,
        max_lines,
    }
}

#[test]
fn caches_and_runs_end_at_their_limits(rt: HostRuntime) {
    each_is_so_within(
        &rt,
        TWO_STANZAS,
        b"
-- A full cache takes a stanza in the place of another
add-list main packages
Package: a
Version: 1

Package: b
Version: 1
.
put main
Package: b
Version: 1-0
.
put main
Package: c
Version: 1
.
show b
=>
E: line 12: cache full
Package: b
Version: 1-0

-- A full cache counts its edits
add-list main packages
Package: a
Version: 1

Package: b
Version: 1
.
put main
Package: b
Version: 1-0
.
put main
Package: c
Version: 1
.
pkgnames
mark a 1
mark a 1
mark a 1
mark a 1
=>
E: line 12: cache full
a
b
E: line 20: cache full
? counts
2 stanzas, 5 edits
-+ What it refuses for another cause
unmark b
unpin a version 1
drop-list sid
unmark a
target main
prefs
.
=>
E: line 21: no such mark
E: line 22: no such pin
E: line 23: no such list
E: line 24: cache full
E: line 25: cache full
E: line 26: cache full
? held
list main packages plain
Package: a
Version: 1
|Package: b
Version: 1-0
|mark a 1
2 stanzas, 5 edits
",
    );
    each_is_so_within(
        &rt,
        lines(2),
        b"
-- More lines than a run may have
#
#
#
=>
! too many lines
",
    );
    each_is_so_within(
        &rt,
        lines(3),
        b"
-- A body that the limit of lines cuts
pkgnames
add-list main packages
Package: a
Version: 1
.
=>
! too many lines
? stanzas main
? counts
0 stanzas, 0 edits
-> A further run
pkgnames
=>
? summary
1 accepted, 0 refused
",
    );
}

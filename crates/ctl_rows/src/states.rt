//! What scripts leave in the store and no query shows. What queries show of it is asked by the scripts under `tests/scripts`.

use crate::worked::table::each_is_so;

// How many edits were accepted, the words of marks, and the order of pins of several packages.
#[test]
fn what_no_query_shows(rt: HostRuntime) {
    each_is_so(
        &rt,
        b"
-- The first of two equal ones
add-list m packages
Package: a
Version: 1

Package: a
Version: 0:1
.
put m
Package: a
Version: 1-0
.
remove m a 1
=>
? held
list m packages plain
Package: a
Version: 0:1
|1 stanzas, 3 edits
-- Lists in the order in which they came
add-list b packages
.
add-list a packages
.
drop-list b
add-list b status
.
=>
? held
list a packages plain
list b status plain
0 stanzas, 4 edits
-- A pin that is set again
pin a version 1 1
pin b version 1 2
pin a version 1 3
=>
? held
pin a version 1 3
pin b version 1 2
0 stanzas, 3 edits
-- Equal versions in other words are other pins
pin a version 1.0 5
pin a version 1.0-0 5
unpin a version 1.0
=>
? held
pin a version 1.0-0 5
0 stanzas, 3 edits
-- A pin that was taken out comes back last
pin a version 1 1
pin b version 1 1
unpin a version 1
pin a version 1 1
=>
? held
pin b version 1 1
pin a version 1 1
0 stanzas, 4 edits
-- A target that is taken out
target sid
target none
=>
? held
0 stanzas, 2 edits
-- Marks that are set again
mark a 1
mark a 2-1
mark b none
=>
? held
mark a 2-1
mark b none
0 stanzas, 3 edits
-- A version, and not the word
mark c 0:none
=>
? held
mark c 0:none
0 stanzas, 1 edits
-- A mark that is taken out
mark a 1
unmark a
=>
? held
0 stanzas, 2 edits
-- Preferences take the place of pins
target main
pin a version 1 7
prefs
Package: foo
Pin: version 1.0*
Pin-Priority: 5
.
=>
? held
pin foo version 1.0* 5
target main
0 stanzas, 3 edits
",
    );
}

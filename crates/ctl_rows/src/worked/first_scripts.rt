//! First scripts: a list in and its names out, and the first faults of bodies.

use super::table::each_is_so;

#[test]
fn first_scripts_are_answered(rt: HostRuntime) {
    each_is_so(
        &rt,
        b"
-- An empty script
=>
? summary
0 accepted, 0 refused
-- A list in, its names out
add-list main packages
Package: foo
Version: 1.0-1

Package: bar
Version: 2.0
.
pkgnames
=>
bar
foo
? summary
2 accepted, 0 refused
-- A command that is not known
frob x
pkgnames
=>
E: line 1: unknown command
? summary
1 accepted, 1 refused
-- A stanza without a version
add-list main packages
Package: a
Version: 1

Package: b
Version: 1

Package: c
.
pkgnames
=>
E: line 8: required field missing
-- A body without its end
add-list main packages
Package: foo
Version: 1
=>
E: line 3: body has no end
-- A version with a byte that versions have not
add-list main packages
Package: a
Version: 1_0
.
=>
E: line 3: bad version
-- A relation with an architecture
add-list main packages
Package: a
Version: 1
Depends: b [amd64]
.
=>
E: line 4: bad relation field
",
    );
}

//! Rows of equal versions, and the places and keys of stanzas.

use super::table::each_is_so;

#[test]
fn rows_pins_and_stanzas_keep_their_places(rt: HostRuntime) {
    each_is_so(
        &rt,
        b"
-- Six versions, of which two are equal
add-list main packages
Package: v
Version: 1.0~rc1

Package: v
Version: 1.0-0

Package: v
Version: 1.0

Package: v
Version: 1.0+b1

Package: v
Version: 1:0.1

Package: v
Version: 12345678901234567890123456789012345678901234567890
.
policy v
=>
v:
  Installed: (none)
  Candidate: 1:0.1
  Version table:
     1:0.1 500
        500 main
     12345678901234567890123456789012345678901234567890 500
        500 main
     1.0+b1 500
        500 main
     1.0-0 500
        500 main
     1.0~rc1 500
        500 main
-- The lead of a row is dropped
add-list A packages
Package: foo
Version: 1.0
Depends: a
.
add-list B packages
Package: foo
Version: 1.0-0
Depends: b
.
show foo
unmet
drop-list A
show foo
unmet
=>
Package: foo
Version: 1.0
Depends: a

Package foo version 1.0 has an unmet dep:
 Depends: a
Package: foo
Version: 1.0-0
Depends: b

Package foo version 1.0-0 has an unmet dep:
 Depends: b
",
    );
    each_is_so(
        &rt,
        b"
-- A pin that is set again
pin a version 1 1
pin b version 1 2
pin a version 1 3
=>
? pins
pin a version 1 3
pin b version 1 2
-- A stanza of an equal version is put
add-list main packages
Package: a
Version: 1

Package: b
Version: 1
.
put main
Package: a
Version: 1-0
.
=>
? stanzas main
0.0 a 1-0
0.1 b 1
-- A stanza that is put goes before those of later lists
add-list A packages
Package: x
Version: 1
.
add-list B packages
Package: foo
Version: 1.0
.
put A
Package: foo
Version: 1.0-0
.
show foo
=>
Package: foo
Version: 1.0-0

? stanzas A
0.0 x 1
0.1 foo 1.0-0
? stanzas B
1.0 foo 1.0
-+ It goes, and the later list leads
remove A foo 1.0
show foo
=>
Package: foo
Version: 1.0

",
    );
}

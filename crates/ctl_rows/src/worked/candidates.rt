//! What is installed, priorities and candidates.

use super::THREE_LISTS;
use super::table::{each_is_so, each_is_so_behind};

#[test]
fn candidates_follow_pins_and_lists(rt: HostRuntime) {
    each_is_so_behind(
        &rt,
        THREE_LISTS,
        b"
-- A pin to what is installed
pin foo version 1.0* 999
policy foo
=>
foo:
  Installed: 1.0-1
  Candidate: 1.0-1
  Version table:
     2.0-1 500
        500 sid
 *** 1.0-1 999
        500 main
        100 status
-+ A priority of 1000 goes below what is installed
pin foo version 1.0* 1000
remove status foo 1.0-1
mark foo 2.0-1
policy foo
=>
foo:
  Installed: 2.0-1
  Candidate: 1.0-1
  Version table:
 *** 2.0-1 500
        500 sid
     1.0-1 1000
        500 main
-+ A priority of 999 doesn't
pin foo version 1.0* 999
policy foo
=>
foo:
  Installed: 2.0-1
  Candidate: 2.0-1
  Version table:
 *** 2.0-1 500
        500 sid
     1.0-1 999
        500 main
-- Priorities of lists, and of a pin
pin '*' release sid 100
pin foo release main 700
policy
=>
Package files:
 500 main
 100 sid
 100 status
Pinned packages:
     foo -> 1.0-1 with priority 700
-- A general pin
pin '*' release sid 100
policy foo
=>
foo:
  Installed: 1.0-1
  Candidate: 1.0-1
  Version table:
     2.0-1 100
        100 sid
 *** 1.0-1 500
        500 main
        100 status
-+ The general pin is taken out
unpin '*' release sid
policy foo
=>
foo:
  Installed: 1.0-1
  Candidate: 2.0-1
  Version table:
     2.0-1 500
        500 sid
 *** 1.0-1 500
        500 main
        100 status
",
    );
    each_is_so(
        &rt,
        b"
-- The policy of a package in three lists
add-list main packages
Package: foo
Version: 1.0-1
.
add-list sid packages
Package: foo
Version: 2.0-1
.
add-list status status
Package: foo
Status: install ok installed
Version: 1.0-1
.
policy foo
=>
foo:
  Installed: 1.0-1
  Candidate: 2.0-1
  Version table:
     2.0-1 500
        500 sid
 *** 1.0-1 500
        500 main
        100 status
-- A mark whose row goes and comes back
add-list sid packages
Package: foo
Version: 2.0-1
.
add-list main packages
Package: foo
Version: 1.0-1
.
mark foo 1.0-1
policy foo
drop-list main
policy foo
add-list main packages
Package: foo
Version: 1.0-1
.
policy foo
=>
foo:
  Installed: 1.0-1
  Candidate: 2.0-1
  Version table:
     2.0-1 500
        500 sid
 *** 1.0-1 500
        500 main
foo:
  Installed: (none)
  Candidate: 2.0-1
  Version table:
     2.0-1 500
        500 sid
foo:
  Installed: 1.0-1
  Candidate: 2.0-1
  Version table:
     2.0-1 500
        500 sid
 *** 1.0-1 500
        500 main
-- A prefix that the text of the lead does not begin with
add-list A packages
Package: foo
Version: 1.0
Depends: a
.
add-list B packages
Package: foo
Version: 1.0-0
Depends: b
.
pin foo version 1.0-* 700
policy foo
=>
foo:
  Installed: (none)
  Candidate: 1.0
  Version table:
     1.0 500
        500 A
        500 B
-+ The list of the lead is dropped, and the prefix matches
drop-list A
policy foo
=>
foo:
  Installed: (none)
  Candidate: 1.0-0
  Version table:
     1.0-0 700
        500 B
? candidates
foo
Installed: (none)
Candidate:
Package: foo
Version: 1.0-0
Depends: b

",
    );
}

//! Further policies: marks, pins, preferences and targets behind three lists.

use super::THREE_LISTS;
use super::table::{each_is_so, each_is_so_behind};

#[test]
fn policies_are_told(rt: HostRuntime) {
    each_is_so_behind(
        &rt,
        THREE_LISTS,
        b"
-- A mark of no version does not give way to the status list
mark foo none
policy foo
=>
foo:
  Installed: (none)
  Candidate: 2.0-1
  Version table:
     2.0-1 500
        500 sid
     1.0-1 500
        500 main
        100 status
-- A mark of a version without a row does not give way either
mark foo 3
policy foo
=>
foo:
  Installed: (none)
  Candidate: 2.0-1
  Version table:
     2.0-1 500
        500 sid
     1.0-1 500
        500 main
        100 status
-- A pin of a package on a list
pin foo release main 700
policy foo
policy
=>
foo:
  Installed: 1.0-1
  Candidate: 1.0-1
  Version table:
     2.0-1 500
        500 sid
 *** 1.0-1 700
        500 main
        100 status
Package files:
 500 main
 500 sid
 100 status
Pinned packages:
     foo -> 1.0-1 with priority 700
-- A priority of 999 alone
pin foo version 1.0* 999
remove status foo 1.0-1
mark foo 2.0-1
policy foo
policy
=>
foo:
  Installed: 2.0-1
  Candidate: 2.0-1
  Version table:
 *** 2.0-1 500
        500 sid
     1.0-1 999
        500 main
Package files:
 500 main
 500 sid
 100 status
Pinned packages:
     foo -> 1.0-1 with priority 999
-- Preferences, and the policy of a package that they name
prefs
Package: foo bar
Pin: version 1.0*
Pin-Priority: 1001

Package: *
Pin: release a=sid
Pin-Priority: 50

Package: foo
Pin: version 1.0*
Pin-Priority: 1
.
policy foo
=>
foo:
  Installed: 1.0-1
  Candidate: 1.0-1
  Version table:
     2.0-1 50
         50 sid
 *** 1.0-1 1001
        500 main
        100 status
-- A general pin is set before its list is the target
drop-list sid
add-list sid packages notauto
Package: foo
Version: 2.0-1
.
pin '*' release sid 400
target sid
policy foo
=>
foo:
  Installed: 1.0-1
  Candidate: 2.0-1
  Version table:
     2.0-1 990
        990 sid
 *** 1.0-1 500
        500 main
        100 status
-+ The target is taken out again
target none
policy foo
policy
=>
foo:
  Installed: 1.0-1
  Candidate: 1.0-1
  Version table:
     2.0-1 400
        400 sid
 *** 1.0-1 500
        500 main
        100 status
Package files:
 500 main
 100 status
 400 sid
Pinned packages:
-- A status list as the target keeps its priority
target status
policy foo
=>
foo:
  Installed: 1.0-1
  Candidate: 2.0-1
  Version table:
     2.0-1 500
        500 sid
 *** 1.0-1 500
        500 main
        100 status
",
    );
    each_is_so_behind(
        &rt,
        THREE_LISTS,
        b"
-- Without a pin
policy
=>
Package files:
 500 main
 500 sid
 100 status
Pinned packages:
-- A general pin pins no package
pin '*' release sid 100
policy
=>
Package files:
 500 main
 100 sid
 100 status
Pinned packages:
-- The target pins no package
target sid
policy
=>
Package files:
 500 main
 990 sid
 100 status
Pinned packages:
-- A pin of a prefix
pin foo version 1.0* 999
policy
=>
Package files:
 500 main
 500 sid
 100 status
Pinned packages:
     foo -> 1.0-1 with priority 999
-+ It has another priority
pin foo version 1.0* 1000
policy
=>
Package files:
 500 main
 500 sid
 100 status
Pinned packages:
     foo -> 1.0-1 with priority 1000
",
    );
    each_is_so(
        &rt,
        b"
-- The policy of a package on an empty session
policy foo
=>
N: Unable to locate package foo
-- A row of one pinned version, of which the lead is dropped
add-list A packages
Package: foo
Version: 1.0
.
add-list B packages
Package: foo
Version: 1.0-0
.
pin foo version 1.0-* 700
policy
drop-list A
policy
=>
Package files:
 500 A
 500 B
Pinned packages:
Package files:
 500 B
Pinned packages:
     foo -> 1.0-0 with priority 700
",
    );
}

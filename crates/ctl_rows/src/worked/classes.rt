//! Classes of lists, and the target release.

use super::THREE_LISTS;
use super::table::{each_is_so, each_is_so_behind};

#[test]
fn targets_and_classes_decide(rt: HostRuntime) {
    each_is_so_behind(
        &rt,
        THREE_LISTS,
        b"
-- A list that is not automatic
drop-list sid
add-list sid packages notauto
Package: foo
Version: 2.0-1
.
policy foo
=>
foo:
  Installed: 1.0-1
  Candidate: 1.0-1
  Version table:
     2.0-1 1
          1 sid
 *** 1.0-1 500
        500 main
        100 status
-+ The list is the target
target sid
policy foo
=>
foo:
  Installed: 1.0-1
  Candidate: 2.0-1
  Version table:
     2.0-1 990
        990 sid
 *** 1.0-1 500
        500 main
        100 status
-+ A general pin on the target
pin '*' release sid 400
policy foo
=>
foo:
  Installed: 1.0-1
  Candidate: 2.0-1
  Version table:
     2.0-1 990
        990 sid
 *** 1.0-1 500
        500 main
        100 status
-+ The target is taken out, and the general pin stays
target none
policy foo
=>
foo:
  Installed: 1.0-1
  Candidate: 1.0-1
  Version table:
     2.0-1 400
        400 sid
 *** 1.0-1 500
        500 main
        100 status
-+ The pin is taken out, and the class stays
unpin '*' release sid
policy foo
=>
foo:
  Installed: 1.0-1
  Candidate: 1.0-1
  Version table:
     2.0-1 1
          1 sid
 *** 1.0-1 500
        500 main
        100 status
",
    );
    each_is_so(
        &rt,
        b"
-- A list that is automatic for upgrades
add-list sid packages butauto
Package: foo
Version: 2.0-1
.
add-list status status
Package: foo
Status: install ok installed
Version: 1.0-1
.
policy foo
=>
foo:
  Installed: 1.0-1
  Candidate: 2.0-1
  Version table:
     2.0-1 100
        100 sid
 *** 1.0-1 100
        100 status
-- A status list has no class
add-list s status notauto
.
=>
E: line 1: bad arguments
",
    );
}

//! Preferences, and the policy behind them.

use super::THREE_LISTS;
use super::table::each_is_so_behind;

#[test]
fn preferences_are_taken_or_refused_whole(rt: HostRuntime) {
    each_is_so_behind(
        &rt,
        THREE_LISTS,
        b"
-> Preferences with a name twice
prefs
Explanation: keep
Explanation: the old one
Package: foo bar
Pin: version 1.0*
Pin-Priority: 1001

Package: *
Pin: release a=sid
Pin-Priority: 50

Package: foo
Pin: version 1.0*
Pin-Priority: 1
.
policy
=>
Package files:
 500 main
  50 sid
 100 status
Pinned packages:
     foo -> 1.0-1 with priority 1001
? pins
pin foo version 1.0* 1001
pin bar version 1.0* 1001
pin * release sid 50
-> A pin by origin
prefs
Package: bar
Pin: version 2
Pin-Priority: 5

Package: foo
Pin: origin x
Pin-Priority: 500
.
policy
=>
E: line 7: bad pin record
Package files:
 500 main
  50 sid
 100 status
Pinned packages:
     foo -> 1.0-1 with priority 1001
? pins
pin foo version 1.0* 1001
pin bar version 1.0* 1001
pin * release sid 50
-> A pin on a list that is no name
prefs
Package: bar
Pin: version 2
Pin-Priority: 5

Package: foo
Pin: release a=a/b
Pin-Priority: 500
.
policy
=>
E: line 7: bad name
Package files:
 500 main
  50 sid
 100 status
Pinned packages:
     foo -> 1.0-1 with priority 1001
? pins
pin foo version 1.0* 1001
pin bar version 1.0* 1001
pin * release sid 50
-> A priority of 0
prefs
Package: bar
Pin: version 2
Pin-Priority: 5

Package: foo
Pin: version 1
Pin-Priority: 0
.
policy
=>
E: line 8: bad priority
Package files:
 500 main
  50 sid
 100 status
Pinned packages:
     foo -> 1.0-1 with priority 1001
? pins
pin foo version 1.0* 1001
pin bar version 1.0* 1001
pin * release sid 50
-> A record without a pin
prefs
Package: bar
Pin: version 2
Pin-Priority: 5

Package: foo
Pin-Priority: 500
.
policy
=>
E: line 6: required field missing
Package files:
 500 main
  50 sid
 100 status
Pinned packages:
     foo -> 1.0-1 with priority 1001
? pins
pin foo version 1.0* 1001
pin bar version 1.0* 1001
pin * release sid 50
-> Preferences without a record
prefs
.
policy foo
=>
foo:
  Installed: 1.0-1
  Candidate: 2.0-1
  Version table:
     2.0-1 500
        500 sid
 *** 1.0-1 500
        500 main
        100 status
",
    );
}

//! Clauses that offers meet or don't, and how many pairs are counted of them.

use super::table::each_is_so;

#[test]
fn clauses_are_counted(rt: HostRuntime) {
    each_is_so(
        &rt,
        b"
-- Alternatives that nothing offers
add-list main packages
Package: foo
Version: 1.0-1
Depends: bar (>= 2), baz | qux

Package: bar
Version: 2.0
.
unmet
=>
Package foo version 1.0-1 has an unmet dep:
 Depends: baz | qux
-+ A package that offers an alternative
put main
Package: quux
Version: 1
Provides: baz
.
unmet
=>
-+ It goes again
remove main quux 1
unmet
=>
Package foo version 1.0-1 has an unmet dep:
 Depends: baz | qux
-- An offer without a version for a bound
add-list main packages
Package: u
Version: 1
Depends: baz (>= 1)

Package: p
Version: 7
Provides: baz
.
unmet
=>
Package u version 1 has an unmet dep:
 Depends: baz (>= 1)
-+ An offer with a version for a bound
put main
Package: p
Version: 7
Provides: baz (= 1)
.
unmet
=>
",
    );
    each_is_so(
        &rt,
        b"
-- An entry that is offered twice
add-list main packages
Package: s
Version: 1
Depends: x
Provides: x, x

Package: t
Version: 1
Depends: x
.
unmet
=>
? satisfiers
s Depends 0: 2
t Depends 0: 2
-+ Its stanza is put in its own place
put main
Package: s
Version: 1
Depends: x
Provides: x, x
.
unmet
=>
? satisfiers
s Depends 0: 2
t Depends 0: 2
-+ Its stanza goes
remove main s 1
unmet
=>
Package t version 1 has an unmet dep:
 Depends: x
? satisfiers
t Depends 0: 0
-- Tests that a list takes
add-list main packages
Package: s
Version: 1
Depends: x
Provides: x, x

Package: t
Version: 1
Depends: x
.
=>
? steps
4
-+ Tests that a query on clauses takes
unmet
=>
? steps
4
-+ Tests that a stanza in the place of another takes
put main
Package: s
Version: 1
Depends: x
Provides: x, x
.
=>
? steps
12
-+ A second query takes none
unmet
=>
? steps
12
-+ Tests that a stanza takes which goes
remove main s 1
=>
? steps
16
-+ A last query takes none, and one clause is left
unmet
=>
Package t version 1 has an unmet dep:
 Depends: x
? steps
16
? counters
t Depends 0: 0
",
    );
}

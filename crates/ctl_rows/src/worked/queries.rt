//! Queries of relations, of stanzas and of names.

use super::THREE_LISTS;
use super::table::{each_is_so, each_is_so_behind};

#[test]
fn relations_and_stanzas_are_shown_and_found(rt: HostRuntime) {
    each_is_so(
        &rt,
        b"
-- Qualified names, and names with a further alternative
add-list main packages
Package: p1
Version: 1
Depends: python3:any | q, python3:any | r

Package: p2
Version: 1
Depends: python3 | q
Conflicts: python3 (<< 2)

Package: p3
Version: 1
Depends: q | python3
.
rdepends python3
depends p1
=>
python3
Reverse Depends:
 |p1
  p2
  p3
p1
 |Depends: <python3:any>
  Depends: <q>
 |Depends: <python3:any>
  Depends: <r>
-- A name that is provided alone
add-list main packages
Package: m
Version: 1
Pre-Depends: mta
Depends: m2 (<= 3)
Conflicts: mta

Package: exim
Version: 4
Provides: mta

Package: m2
Version: 3.0
.
depends m
showpkg mta
=>
m
  PreDepends: <mta>
    exim
  Depends: m2
  Conflicts: <mta>
    exim
Package: mta
Versions:

Reverse Depends:
  m 1 PreDepends: mta
  m 1 Conflicts: mta
Dependencies:
Provides:
Reverse Provides:
  exim 4 mta
-+ Important relations alone
depends -i m
=>
m
  PreDepends: <mta>
    exim
  Depends: m2
-+ A bound that is older than what is there
unmet
=>
Package m version 1 has an unmet dep:
 Depends: m2 (<= 3)
-- Installed providers alone
add-list main packages
Package: m
Version: 1
Depends: mta, m2

Package: exim
Version: 4
Provides: mta

Package: m2
Version: 3.0
.
mark exim 4
depends --installed m
rdepends --installed mta
=>
m
  Depends: <mta>
    exim
mta
Reverse Depends:
-- Names that are known
add-list main packages
Package: foo
Version: 1.0-1
Depends: bar (>= 2), baz | qux

Package: bar
Version: 2.0
.
pkgnames --all-names
=>
bar
baz
foo
qux
-+ Known names that begin with a prefix
pkgnames --all-names b
=>
bar
baz
",
    );
    each_is_so_behind(
        &rt,
        THREE_LISTS,
        b"
-- A version, a package and a version that is not there
show foo=1.0-1 nope foo=9
=>
Package: foo
Version: 1.0-1

N: Unable to locate package nope
N: Version 9 of foo was not found
-+ The candidate alone
show --no-all-versions foo
=>
Package: foo
Version: 2.0-1

",
    );
    each_is_so(
        &rt,
        b"
-- Stanzas counted by an expression and a negation
add-list main packages
Package: foo
Version: 1
Depends: bar

Package: x
Version: 2
Depends: baz (>= 1)

Package: y
Version: 3
Suggests: bar
.
grep-dctrl -c -F Depends --rx 'ba[rz]' -a ! -P -X foo
=>
1
-+ A field of them without its name
grep-dctrl -nsPackage -F Depends --rx 'ba[rz]' -a ! -P -X foo
=>
x
-+ An expression that cannot be read
grep-dctrl -F Depends --rx 'ba['
=>
E: line 16: bad pattern
-- A status list with a package that is not installed
add-list status status
Package: old
Status: deinstall ok config-files

Package: foo
Status: install ok installed
Version: 1
.
pkgnames
grep-dctrl -sPackage ''
=>
foo
Package: old
Package: foo
-- The first line of a description
add-list main packages
Package: hello
Version: 2.10-3
Architecture: amd64
Depends: libc6 (>= 2.34)
Description: example package
 A program.
 .
 The end.
.
grep-dctrl -d -n -P hello
=>
example package
-+ Fields in the order asked for
grep-dctrl -s Version,Nope,Package -P hello
=>
Version: 2.10-3
Package: hello

-- A hundred negations
grep-dctrl -c ! ! ! ! ! ! ! ! ! ! ! ! ! ! ! ! ! ! ! ! ! ! ! ! ! ! ! ! ! ! ! ! ! ! ! ! ! ! ! ! ! ! ! ! ! ! ! ! ! ! ! ! ! ! ! ! ! ! ! ! ! ! ! ! ! ! ! ! ! ! ! ! ! ! ! ! ! ! ! ! ! ! ! ! ! ! ! ! ! ! ! ! ! ! ! ! ! ! ! ! x
=>
0
-- A hundred and one negations
grep-dctrl -c ! ! ! ! ! ! ! ! ! ! ! ! ! ! ! ! ! ! ! ! ! ! ! ! ! ! ! ! ! ! ! ! ! ! ! ! ! ! ! ! ! ! ! ! ! ! ! ! ! ! ! ! ! ! ! ! ! ! ! ! ! ! ! ! ! ! ! ! ! ! ! ! ! ! ! ! ! ! ! ! ! ! ! ! ! ! ! ! ! ! ! ! ! ! ! ! ! ! ! ! ! x
=>
E: line 1: bad filter
-- Versions that equal one in other words
add-list main packages
Package: a
Version: 1.0

Package: b
Version: 1.0-0

Package: c
Version: 2
.
grep-dctrl -c -F Version --eq 1.0
=>
2
-+ Versions older than one
grep-dctrl -c -F Version --lt 2-1
=>
3
-+ No version equals what is none
grep-dctrl -c -F Version --eq x_
=>
0
",
    );
}

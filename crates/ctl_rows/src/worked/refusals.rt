//! Refusals, each at its line.

use super::table::each_is_so;

#[test]
fn each_line_has_its_refusal(rt: HostRuntime) {
    each_is_so(
        &rt,
        b"
-- Refusals of words and of the state
drop-list main
unmark foo
unpin foo version 1
remove main foo 1
pin foo version 1 0
pin foo version 1.0*x 500
mark foo 1_0
show
pin '*' version 1 500
grep-dctrl (
add-list -x packages
.
add-list main other
.
=>
E: line 1: no such list
E: line 2: no such mark
E: line 3: no such pin
E: line 4: no such list
E: line 5: bad priority
E: line 6: bad version
E: line 7: bad version
E: line 8: bad arguments
E: line 9: bad arguments
E: line 10: bad filter
E: line 11: bad name
E: line 13: bad arguments
",
    );
}

//! Writes that fail at each byte of what scripts with edits between their queries write: the text before, and then the store
//! of the commands done. The last of them is the one whose text was being written.

use crate::runs::{Act, came};
use crate::said::Said;
use crate::tables::{comes, is_newline, joined, writes};
use crate::texts::front;
use std::alloc::Global;
use std::process::Abort;

/// Worked scripts. A line behind `> ` is one that the command above writes.
const WORKED: [&[u8]; 12] = [
    b"\
add-list main packages
Package: foo
Version: 1.0-1
Depends: bar (>= 2), baz | qux

Package: bar
Version: 2.0
.
pkgnames
> bar
> foo
put main
Package: quux
Version: 1
Provides: baz
.
pkgnames
> bar
> foo
> quux
remove main quux 1
pkgnames
> bar
> foo
drop-list main
drop-list main
> E: line 19: no such list
",
    b"\
add-list m packages
Package: sl
Version: 5.02-1
.
put m
Package: sl
Version: 5.02-1+b1
.
remove m sl 5.02-1
pkgnames s
> sl
put m
Package: sl
Version: 0:5.02-1+b1
Section: games
.
remove m sl 5.02-1
> E: line 16: no such stanza
remove m sl 5.02-1+b1
pkgnames s
remove m sl 5.02-1+b1
> E: line 19: no such stanza
",
    b"\
add-list A packages
Package: foo
Version: 1.0
.
add-list B packages notauto
Package: foo
Version: 1.0-0
.
drop-list A
pkgnames
> foo
drop-list B
add-list C packages butauto
Package: bar
Version: 1
.
pkgnames
> bar
drop-list A
> E: line 17: no such list
",
    b"\
add-list status status
Package: perl
Status: install ok installed
Version: 5.36.0-7

Package: old
Status: deinstall ok config-files
Version: 1
.
mark a 5.36.0-7
mark b none
pkgnames
> perl
mark a 2:1-1
unmark b
unmark b
> E: line 15: no such mark
put status
Package: old
Status: install ok installed
Version: 1
.
pkgnames
> old
> perl
unmark a
unmark a
> E: line 23: no such mark
add-list other status
.
> E: line 24: a status list is already present
",
    b"\
pin dgit version 10.* 990
pin perl version 5.36.0-7 -1
unpin dgit version 10.7*
> E: line 3: no such pin
pin dgit version 10.* 100
unpin perl version 5.36.0-7
unpin perl version 5.36.0-7
> E: line 6: no such pin
pin perl version 5.36.0-7 1001
pin dgit version 10.* 0
> E: line 8: bad priority
",
    b"\
target sid
pin * release sid 100
pin a release main 5
pkgnames a b
> E: line 4: bad arguments
target main
unpin a release main
unpin a release main
> E: line 7: no such pin
target none
unpin * release main
> E: line 9: no such pin
",
    b"\
pin a version 1 5
target sid
prefs
Package: *
Pin: release a=sid
Pin-Priority: 100

Package: perl perl-base
Pin: version 5.36*
Pin-Priority: 1001
.
unpin a version 1
> E: line 12: no such pin
unpin perl version 5.36*
unpin perl version 5.36*
> E: line 14: no such pin
prefs
Package: *
Pin: origin x
Pin-Priority: 900
.
> E: line 17: bad pin record
prefs
.
unpin * release sid
> E: line 22: no such pin
",
    b"\
add-list main packages
Package: hello
Version: 2.10-3
.
add-list extra packages
Package: a
Version: 1

Package: b
.
> E: line 9: required field missing
put main
Package: a
Version: 1
Depends: libc6 (>= 2.36
.
> E: line 14: bad relation field
put main
Package: a
Version: 1
.
pkgnames
> a
> hello
add-list main packages
.
> E: line 21: list already present
",
    b"\
add-list m packages
Package: a
Version: 1
.
mark a 1
pin a version 1 5
drop-list m
pkgnames
add-list m packages
Package: b
Version: 2
.
pkgnames
> b
unmark a
unpin a version 1
put m
Package: a
Version: 2
.
pkgnames a
> a
frob
> E: line 21: unknown command
",
    b"\
mark 'a' '1.0'
  pin 'a' version '*' 7
pin b release -x 7
> E: line 3: bad name
unmark a
unmark \"a\"
> E: line 5: bad name
target 'none'
mark a 1_0
> E: line 7: bad version
mark a 1
drop-list
> E: line 9: bad arguments
",
    b"\
# comments and blank lines are lines

add-list m packages
Package: a
Version: 1
.
mark a none
pkgnames
> a

# a body without its end
put m
Package: b
Version: 1
> E: line 13: body has no end
",
    b"\
add-list main packages
Package: foo
Version: 1

Package: bar
Version: 2
.
pkgnames
> bar
> foo
mark foo 1
put main
Package: baz
Version: 1
.
pkgnames b
> bar
> baz
pin * release main 990
remove main bar 2-0
frob
> E: line 17: unknown command
drop-list main
unmark foo
unmark foo
> E: line 20: no such mark
",
];

/// The script of a worked one.
fn script_of(alloc: Global, worked: &[u8]) -> Said {
    let mut script = Said::new(alloc);
    for line in worked.split_inclusive(is_newline) {
        if !line.starts_with(b"> ") {
            script.add(line);
        }
    }
    script
}

/// What is behind a text.
fn behind<'a>(all: &'a [u8], text: &[u8]) -> &'a [u8] {
    match all.strip_prefix(text) {
        Some(behind) => behind,
        None => b"another text",
    }
}

/// Compares what a script comes to whose write fails behind this text, where this is held then.
fn write_may_fail(rt: &(impl Abort + AllocGlobal), script: &[u8], text: &[u8], held: &[u8]) {
    let wanted = joined(rt.alloc(), text, b"! write failed\n", held);
    let acts = [Act::Until(script, text.len()), Act::Held];
    comes(rt, script, &acts, wanted.shown());
}

/// Compares what writes come to that fail in the text of the last of a script's first commands. It begins at a byte of theirs.
fn writes_may_fail(
    rt: &(impl Abort + AllocGlobal),
    script: &[u8],
    commands: &[u8],
    text: &[u8],
    from: usize,
) {
    writes(rt, commands, text);
    let all = came(rt.alloc(), &[Act::Script(commands), Act::Held]);
    for byte in from..text.len() {
        write_may_fail(rt, script, front(text, byte), behind(all.shown(), text));
    }
}

/// The commands of a worked script that were read, what they write, and from which byte of it on no write was tried to fail.
#[derive(Drop)]
struct Done {
    commands: Said,
    text: Said,
    from: usize,
}

impl Done {
    /// Tries each write of what was read since it was last tried.
    fn judge(&mut self, rt: &(impl Abort + AllocGlobal), script: &[u8]) {
        let text = self.text.shown();
        if self.from < text.len() {
            writes_may_fail(rt, script, self.commands.shown(), text, self.from);
            self.from = text.len();
        }
    }

    /// Takes a line of the worked script in.
    fn add(&mut self, rt: &(impl Abort + AllocGlobal), script: &[u8], line: &[u8]) {
        match line.strip_prefix(b"> ") {
            Some(told) => self.text.add(told),
            None => {
                self.judge(rt, script);
                self.commands.add(line);
            }
        }
    }
}

/// Cuts a worked script at each byte that it writes.
fn cut(rt: &(impl Abort + AllocGlobal), worked: &[u8]) {
    let script = script_of(rt.alloc(), worked);
    let mut done = Done {
        commands: Said::new(rt.alloc()),
        text: Said::new(rt.alloc()),
        from: 0,
    };
    for line in worked.split_inclusive(is_newline) {
        done.add(rt, script.shown(), line);
    }
    done.judge(rt, script.shown());
    writes(rt, script.shown(), done.text.shown());
}

#[test]
fn a_write_may_fail_at_each_byte_of_worked_scripts(rt: HostRuntime) {
    for worked in &WORKED {
        cut(&rt, worked);
    }
}

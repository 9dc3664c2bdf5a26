//! The worked scripts: each whole, with all that it writes.
//!
//! The form of their tables is told in [`table`].

mod answer;
mod candidates;
mod classes;
mod clauses;
mod failing;
mod first_scripts;
mod limits;
pub mod long_lines;
mod policies;
mod preferences;
mod queries;
mod refusals;
mod rows;
pub mod table;

use table::Front;

/// A script of three lists that hold one package, and what it writes.
const THREE_LISTS: Front<'static> = Front {
    script: b"\
add-list main packages
Package: foo
Version: 1.0-1
.
add-list sid packages
Package: foo
Version: 2.0-1
.
add-list status status
Package: foo
Status: install ok installed
Version: 1.0-1
.
policy foo
",
    text: b"\
foo:
  Installed: 1.0-1
  Candidate: 2.0-1
  Version table:
     2.0-1 500
        500 sid
 *** 1.0-1 500
        500 main
        100 status
",
};

//! Filters over stanzas as grep-dctrl(1) has them: words to a filter, a filter to the text that it takes of a store.
#![tactic(auto)]

mod answering;
mod atom;
mod cluster;
mod comparison;
mod expression;
mod finder;
mod gathering;
mod laws;
mod names;
mod options;
mod parsing;
mod pattern_finder;
mod piece;
mod printing;
mod query;
mod reading;
mod running;
mod searching;
mod stanzas;
mod taking;
mod text;
mod token;

pub use answering::append_filter;
pub use laws::{
    atoms_are_modifiers_and_a_pattern, clusters_are_letters, filters_have_one_tree,
    substrings_are_parts, truths_are_by_cases,
};
pub use parsing::parse_filter;
pub use query::FilterQuery;
pub use text::{append_line, append_parts};

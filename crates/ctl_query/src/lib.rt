//! The queries of apt-cache(8) over a kept cache: words to a query, a query to its text.
#![tactic(auto)]

mod ahead;
mod answering;
mod askers;
mod asking;
mod depends;
mod interest;
mod laws;
mod lead_atoms;
mod lead_lines;
mod lead_table;
mod leads;
mod name_set;
mod naming;
mod package_names;
mod parsing;
mod policy;
mod providers;
mod query;
mod query_name;
mod relation_lines;
mod repeats;
mod reverse_depends;
mod row_sources;
mod show;
mod show_package;
mod source_lines;
mod text;
mod unmet;

pub use answering::{answer, answer_and_keep};
pub use laws::{
    answers_are_as_if_built_anew, lists_anew_are_added, unmet_clauses_are_met_by_no_offer,
};
pub use parsing::{parse_query, parse_words};
pub use query::{AskedRow, DependsOptions, Query};
pub use query_name::{CacheQuery, QueryName};

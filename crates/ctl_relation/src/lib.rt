//! Names, versions and their order, relation fields, and when an offer meets one (Debian Policy 5.6.12 and 7).
#![tactic(auto)]

mod atom;
mod byte_class;
mod bytes;
mod cut;
mod field_kind;
mod group;
mod groups;
mod marks;
mod name;
mod offer;
mod offers;
mod operator;
mod part;
mod places;
mod printed;
mod reading;
mod relation_fault;
mod relation_laws;
mod relations;
mod small_bytes;
mod span;
mod steps;
mod tokens;
mod version;
mod version_fault;
mod version_laws;

pub use atom::Atom;
pub use byte_class::is_field_name_byte;
pub use bytes::Bytes;
pub use field_kind::FieldKind;
pub use group::{Atoms, Group};
pub use groups::Groups;
pub use marks::{RelationMarks, kept_groups};
pub use name::{is_name, names_by_their_bytes};
pub use offer::Offer;
pub use offers::{Offers, offers_of};
pub use operator::Operator;
pub use places::Places;
pub use reading::read_places;
pub use relation_fault::RelationFault;
pub use relation_laws::{
    fields_bound_atoms, fields_have_one_fault, fields_have_places, met_by_name, met_counts_add_up,
    met_pairs_are_bounded, printed_forms_read_again, reading_is_the_grammar,
};
pub use relations::{Relations, parse_relations};
pub use span::Span;
pub use steps::Steps;
pub use version::Version;
pub use version_fault::VersionFault;
pub use version_laws::{
    equal_versions, keys_go_by_turns, texts_have_one_cut, version_faults_are_of_texts,
    versions_are_ordered,
};

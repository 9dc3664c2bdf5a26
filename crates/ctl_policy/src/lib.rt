//! The versions of a package, where they come from, which is installed and which would be, by apt_preferences(5): for one
//! name at a time, over a store.
#![tactic(auto)]

mod again;
mod by_version;
mod candidate;
mod choice_laws;
mod chosen;
mod edit_laws;
mod form;
mod keys;
mod known_priority;
mod laws;
mod newest;
mod priority;
mod rows;
mod status;
mod touching;
mod walk;

pub use choice_laws::{candidates_are_best, rows_fall, sources_bound_priorities};
pub use chosen::{Chosen, choose};
pub use edit_laws::{
    edits_of_general_pins, edits_of_lists, edits_of_preferences, edits_of_stanzas,
    edits_of_targets, packages_tell_live_stanzas, plans_are_accepted, rows_tell_touched_names,
    touched_names_are_enough, untouched_names_stay,
};
pub use laws::{
    edits_of_one_name, general_pins_leave_other_names, marks_leave_other_names,
    names_with_rows_are_kept, preferences_leave_other_names, rows_are_classes, rows_are_held,
    rows_are_kept, rows_are_shown, rows_follow_stanzas, rows_have_leads, sources_hold_stanzas,
    specific_pins_leave_other_names, stanzas_leave_other_names, targets_leave_other_names,
    worlds_move,
};
pub use newest::NewestFirst;
pub use priority::{is_source, list_priority, row_priority, specific_pin};
pub use rows::Rows;
pub use touching::touched_names;
pub use walk::read_rows;

//! The laws, each called once: what calls one is proved from what it says.

use ctl_filter::{
    atoms_are_modifiers_and_a_pattern, clusters_are_letters, filters_have_one_tree,
    substrings_are_parts, truths_are_by_cases,
};
use ctl_index::{known_names_rise, unmet_clauses_have_no_offer};
use ctl_policy::{
    candidates_are_best, edits_of_general_pins, edits_of_lists, edits_of_one_name,
    edits_of_preferences, edits_of_stanzas, edits_of_targets, general_pins_leave_other_names,
    marks_leave_other_names, packages_tell_live_stanzas, plans_are_accepted,
    preferences_leave_other_names, rows_are_classes, rows_are_held, rows_are_kept, rows_fall,
    rows_follow_stanzas, sources_bound_priorities, sources_hold_stanzas,
    specific_pins_leave_other_names, stanzas_leave_other_names, targets_leave_other_names,
    touched_names_are_enough, untouched_names_stay, worlds_move,
};
use ctl_query::{
    answers_are_as_if_built_anew, lists_anew_are_added, unmet_clauses_are_met_by_no_offer,
};
use ctl_relation::{
    equal_versions, fields_bound_atoms, fields_have_one_fault, fields_have_places,
    keys_go_by_turns, met_by_name, met_counts_add_up, met_pairs_are_bounded, names_by_their_bytes,
    printed_forms_read_again, reading_is_the_grammar, texts_have_one_cut,
    version_faults_are_of_texts, versions_are_ordered,
};
use ctl_session::commands_come_to_one_outcome;
use ctl_stanza::{
    bodies_are_counted, field_lines_have_names_and_values, fields_stand_in_order,
    lines_have_one_list_of_stanzas, lines_take_bytes, met_pairs_fit, pairs_of_stanzas_fit,
    records_are_runs, stanzas_are_runs, stanzas_keep_lines, told_fault_is_least,
    told_record_fault_is_least, whole_stanzas_are_faultless, whole_stanzas_are_sound,
};

#[test]
fn laws_can_be_called() {
    told_fault_is_least();
    stanzas_keep_lines();
    stanzas_are_runs();
    told_record_fault_is_least();
    whole_stanzas_are_sound();
    pairs_of_stanzas_fit();
    met_pairs_fit();
    lines_take_bytes();
    bodies_are_counted();
    fields_stand_in_order();
    field_lines_have_names_and_values();
    lines_have_one_list_of_stanzas();
    records_are_runs();
    whole_stanzas_are_faultless();
}

#[test]
fn laws_of_relations_can_be_called() {
    names_by_their_bytes();
    versions_are_ordered();
    equal_versions();
    keys_go_by_turns();
    texts_have_one_cut();
    version_faults_are_of_texts();
    fields_have_one_fault();
    fields_have_places();
    fields_bound_atoms();
    reading_is_the_grammar();
    printed_forms_read_again();
    met_counts_add_up();
    met_pairs_are_bounded();
    met_by_name();
}

#[test]
fn laws_of_commands_can_be_called() {
    commands_come_to_one_outcome();
    answers_are_as_if_built_anew();
    lists_anew_are_added();
    unmet_clauses_are_met_by_no_offer();
}

#[test]
fn laws_of_filters_can_be_called() {
    filters_have_one_tree();
    truths_are_by_cases();
    substrings_are_parts();
    atoms_are_modifiers_and_a_pattern();
    clusters_are_letters();
}

#[test]
fn laws_of_caches_can_be_called() {
    unmet_clauses_have_no_offer();
    known_names_rise();
}

#[test]
fn laws_of_policies_can_be_called() {
    rows_are_classes();
    rows_are_held();
    rows_are_kept();
    rows_fall();
    sources_bound_priorities();
    candidates_are_best();
    rows_follow_stanzas();
    marks_leave_other_names();
    specific_pins_leave_other_names();
    general_pins_leave_other_names();
    preferences_leave_other_names();
    targets_leave_other_names();
    stanzas_leave_other_names();
    sources_hold_stanzas();
    worlds_move();
    edits_of_one_name();
    edits_of_general_pins();
    edits_of_targets();
    edits_of_preferences();
    edits_of_stanzas();
    edits_of_lists();
    untouched_names_stay();
    touched_names_are_enough();
    packages_tell_live_stanzas();
    plans_are_accepted();
}

//! Control text: stanzas and their fields (Debian Policy 5.1, deb822(5)), and the records of preferences
//! (apt_preferences(5)).
#![tactic(auto)]

mod checks;
mod fault;
mod fields;
mod laws;
mod line_faults;
mod line_kind;
mod lines;
mod list_kind;
mod live;
mod name_slots;
mod names_given;
mod parts;
mod quick;
mod reader;
mod reading;
mod record_lines;
mod records;
mod repeats;
mod stanza;
mod status;
mod walk;

pub use fault::{Cause, TextFault};
pub use laws::{
    bodies_are_counted, field_lines_have_names_and_values, fields_stand_in_order,
    lines_have_one_list_of_stanzas, lines_take_bytes, met_pairs_fit, pairs_of_stanzas_fit,
    records_are_runs, stanzas_are_runs, stanzas_keep_lines, told_fault_is_least,
    told_record_fault_is_least, whole_stanzas_are_faultless, whole_stanzas_are_sound,
};
pub use lines::MAX_LINE;
pub use list_kind::ListKind;
pub use parts::texts_read_in_parts;
pub use reader::StanzaReader;
pub use reading::read_stanzas;
pub use records::{
    Record, RecordFields, RecordsBeforeFault, read_records, read_records_before_fault,
};
pub use stanza::{Fields, Stanza};

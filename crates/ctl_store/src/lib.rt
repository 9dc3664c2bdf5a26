//! The store: lists of stanzas, marks, pin settings and a target release, changed by one edit at a time.
#![tactic(auto)]

mod edit;
mod fronts;
mod held_list;
mod laws;
mod limits;
mod list_class;
mod lists;
mod name;
mod new_stanzas;
mod order;
mod pieces;
mod pin_settings;
mod pin_table;
mod pin_version;
mod plan;
mod prefs;
mod priority;
mod refusal;
mod selector;
mod slots;
mod stanza_key;
mod store;
mod words;

pub use edit::Edit;
pub use laws::{
    first_setting_counts, kinds_stay, settings_by_package, stanzas_are_of_their_kind,
    told_prefs_fault_is_least,
};
pub use limits::{Counts, Limits};
pub use list_class::ListClass;
pub use new_stanzas::NewStanzas;
pub use pin_settings::PinSettings;
pub use pin_table::PackagePins;
pub use pin_version::PinVersion;
pub use plan::Plan;
pub use prefs::read_prefs;
pub use priority::read_priority;
pub use refusal::Refusal;
pub use selector::{PinSetting, Selector};
pub use stanza_key::{StanzaKey, compare_keys};
pub use store::{Entries, Keys, Lists, Pins, Store};

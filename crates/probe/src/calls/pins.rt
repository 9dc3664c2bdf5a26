//! What pins are made of: their versions, their priorities, preferences, and settings in order.

use crate::calls::texts::say_fault;
use crate::edits::{pin_version, selector, setting, settings};
use crate::said::{OUT_OF_MEMORY, Said};
use crate::words::Words;
use ctl_stanza::lines_take_bytes;
use ctl_store::{PinSetting, PinSettings, PinVersion, Selector, read_prefs, read_priority};

// The text of a version of pins, or that there is none.
fn say_version(words: &mut Words<'_, '_>, said: &mut Said) {
    match PinVersion::read(words.alloc(), words.bytes()) {
        Ok(Some(version)) => said.add(version.text()),
        Ok(None) => said.add(b"none"),
        Err(_) => said.fail(OUT_OF_MEMORY),
    }
}

// Whether a version of pins matches the version that the next word gives.
fn say_whether_matches(pin: &PinVersion, words: &mut Words<'_, '_>, said: &mut Said) {
    if let Some(version) = words.version() {
        said.add(if pin.matches(&version) {
            b"matches"
        } else {
            b"matches not"
        });
    }
}

fn say_matches(words: &mut Words<'_, '_>, said: &mut Said) {
    if let Some(pin) = pin_version(words) {
        say_whether_matches(&pin, words, said);
    }
}

/// A priority, or that there is none.
pub fn say_priority(priority: Option<i16>, said: &mut Said) {
    match priority {
        Some(priority) => said.priority(b"", priority),
        None => said.add(b"none"),
    }
}

fn say_selector(selector: &Selector, said: &mut Said) {
    match selector {
        Selector::Version { package, version } => {
            said.all(&[package.as_slice(), b" version ", version.text()])
        }
        Selector::Release {
            package: Some(package),
            list,
        } => said.all(&[package.as_slice(), b" release ", list.as_slice()]),
        Selector::Release {
            package: None,
            list,
        } => said.all(&[b"* release ", list.as_slice()]),
    }
}

/// A pin setting, on a line.
pub fn say_setting(selector: &Selector, priority: i16, said: &mut Said) {
    say_selector(selector, said);
    said.priority(b" ", priority);
    said.add(b"\n");
}

fn say_settings(settings: &PinSettings, said: &mut Said) {
    for (selector, priority) in settings.iter() {
        say_setting(selector, priority, said);
    }
}

// The settings of preferences, a line for each, or their fault.
fn say_prefs(words: &mut Words<'_, '_>, said: &mut Said) {
    let first_line = words.number() as u64;
    lines_take_bytes();
    match read_prefs(words.alloc(), words.bytes(), first_line) {
        Ok(settings) => say_settings(&settings, said),
        Err(fault) => say_fault(fault, said),
    }
}

// Whether two settings have equal selectors, and the first of them.
fn say_compared(one: &PinSetting, other: &PinSetting, said: &mut Said) {
    said.add(if one.selector == other.selector {
        b"equal "
    } else {
        b"unequal "
    });
    say_setting(&one.selector, one.priority, said);
}

// A copy of a setting, compared with the setting.
fn say_copied(setting: &PinSetting, said: &mut Said) {
    match setting.try_clone(said.alloc()) {
        Ok(copy) => say_compared(&copy, setting, said),
        Err(_) => said.fail(OUT_OF_MEMORY),
    }
}

fn say_copy(words: &mut Words<'_, '_>, said: &mut Said) {
    if let Some(setting) = setting(words) {
        say_copied(&setting, said);
    }
}

// The priority that the settings of the words that are left have for a selector.
fn say_found(wanted: &Selector, words: &mut Words<'_, '_>, said: &mut Said) {
    say_priority(settings(words).get(wanted), said);
}

fn say_get(words: &mut Words<'_, '_>, said: &mut Said) {
    if let Some(wanted) = selector(words) {
        say_found(&wanted, words, said);
    }
}

/// What a call gives that is asked for by words. A selector is `version`, a package and a version or the beginning of versions,
/// or `release`, a package or `-`, and a list.
///
/// - `version`, a text: a version of pins, or that it is none;
/// - `matches`, a version of pins and a version: whether they match;
/// - `priority`, a text: the priority, or that it is none;
/// - `prefs`, the number of the first line and a text: the settings of preferences, or their fault;
/// - `settings`, selectors with priorities, which are set in turn: the settings in their order;
/// - `get`, a selector, and then the same: the priority that the settings have for it;
/// - `copy`, a selector and a priority: a copy of the setting, and whether it is equal to it.
pub fn say_call(words: &mut Words<'_, '_>, said: &mut Said) {
    match words.word() {
        "version" => say_version(words, said),
        "matches" => say_matches(words, said),
        "priority" => say_priority(read_priority(words.bytes()), said),
        "prefs" => say_prefs(words, said),
        "settings" => say_settings(&settings(words), said),
        "get" => say_get(words, said),
        "copy" => say_copy(words, said),
        _ => said.fail("a call of pins that is not known"),
    }
}

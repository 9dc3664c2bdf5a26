//! Edits as the lines give them.

ghost use Rattle.std.specs.Prelude.{IfOk};
ghost use Rattle.ctl_store.specs.Kinds.{AreOfKind};

use crate::said::OUT_OF_MEMORY;
use crate::words::Words;
use ctl_relation::Bytes;
use ctl_stanza::{ListKind, Stanza, lines_take_bytes, read_stanzas};
use ctl_store::{
    Edit, ListClass, NewStanzas, PinSetting, PinSettings, PinVersion, Selector, read_prefs,
    stanzas_are_of_their_kind,
};
use std::alloc::Global;

fn class(words: &mut Words<'_, '_>) -> ListClass {
    match words.word() {
        "plain" => ListClass::Plain,
        "notauto" => ListClass::NotAutomatic,
        "butauto" => ListClass::ButAutomatic,
        _ => {
            words.fail("a class that is not known");
            ListClass::Plain
        }
    }
}

// The stanzas of a text of a list of this kind, or why there are none.
fn stanzas_of(alloc: Global, text: &[u8], kind: ListKind) -> Result<Vec<Stanza>, &'static str>
    ensures { IfOk result (λ stanzas. AreOfKind kind stanzas.items) }
{
    lines_take_bytes();
    stanzas_are_of_their_kind();
    match read_stanzas(alloc, text, 1, kind) {
        Ok(read) => Ok(read),
        Err(_) => Err("a text with a fault"),
    }
}

// Those of a list that comes.
fn new_stanzas(alloc: Global, text: &[u8], kind: ListKind) -> Result<NewStanzas, &'static str> {
    let stanzas = stanzas_of(alloc, text, kind)?;
    NewStanzas::boxed(alloc, kind, stanzas).or(Err(OUT_OF_MEMORY))
}

/// The edit that adds a text as the list `main`, or why it is none.
pub fn main_list(alloc: Global, text: &[u8], kind: ListKind) -> Result<Edit, &'static str> {
    let stanzas = new_stanzas(alloc, text, kind)?;
    match Bytes::from_slice(alloc, b"main") {
        Ok(name) => Ok(Edit::AddList {
            name,
            class: ListClass::Plain,
            stanzas,
        }),
        Err(_) => Err(OUT_OF_MEMORY),
    }
}

fn add_list(words: &mut Words<'_, '_>) -> Option<Edit> {
    let name = words.kept();
    let kind = words.list_kind();
    let class = class(words);
    match new_stanzas(words.alloc(), words.bytes(), kind) {
        Ok(stanzas) => Some(Edit::AddList {
            name,
            class,
            stanzas,
        }),
        Err(why) => {
            words.fail(why);
            None
        }
    }
}

// The last stanza of a text, in its box, or why there is none.
fn last_stanza(alloc: Global, text: &[u8], kind: ListKind) -> Result<Box<Stanza>, &'static str> {
    match stanzas_of(alloc, text, kind)?.pop() {
        Some(stanza) => Box::new(alloc, stanza).or(Err(OUT_OF_MEMORY)),
        None => Err("a text without a stanza"),
    }
}

fn put(words: &mut Words<'_, '_>) -> Option<Edit> {
    let list = words.kept();
    let kind = words.list_kind();
    match last_stanza(words.alloc(), words.bytes(), kind) {
        Ok(stanza) => Some(Edit::Put { list, stanza }),
        Err(why) => {
            words.fail(why);
            None
        }
    }
}

fn remove(words: &mut Words<'_, '_>) -> Option<Edit> {
    let list = words.kept();
    let package = words.kept();
    match words.version() {
        Some(version) => Some(Edit::Remove {
            list,
            package,
            version,
        }),
        None => None,
    }
}

fn mark(words: &mut Words<'_, '_>) -> Edit {
    let package = words.kept();
    let version = words.version_or_none();
    Edit::Mark { package, version }
}

/// A version of pins, or the beginning of versions.
pub fn pin_version(words: &mut Words<'_, '_>) -> Option<PinVersion> {
    match PinVersion::read(words.alloc(), words.bytes()) {
        Ok(Some(version)) => Some(version),
        _ => {
            words.fail("a pin's version that is none");
            None
        }
    }
}

fn of_version(words: &mut Words<'_, '_>) -> Option<Selector> {
    let package = words.kept();
    match pin_version(words) {
        Some(version) => Some(Selector::Version { package, version }),
        None => None,
    }
}

fn of_release(words: &mut Words<'_, '_>) -> Selector {
    let package = words.kept_or_none();
    let list = words.kept();
    Selector::Release { package, list }
}

/// A selector: `version`, a package and a version or the beginning of versions; or `release`, a package or `-`, and a list.
pub fn selector(words: &mut Words<'_, '_>) -> Option<Selector> {
    match words.word() {
        "version" => of_version(words),
        "release" => Some(of_release(words)),
        _ => {
            words.fail("a selector that is not known");
            None
        }
    }
}

/// A selector and a priority.
pub fn setting(words: &mut Words<'_, '_>) -> Option<PinSetting> {
    let selector = selector(words)?;
    let priority = words.priority();
    Some(PinSetting { selector, priority })
}

// Adds the setting that the next words give.
fn set(words: &mut Words<'_, '_>, settings: &mut PinSettings) {
    if let Some(setting) = setting(words) {
        if settings.set(setting).is_err() {
            words.fail(OUT_OF_MEMORY);
        }
    }
}

/// Selectors with priorities, to the end of the line.
pub fn settings(words: &mut Words<'_, '_>) -> PinSettings {
    let mut settings = PinSettings::new(words.alloc());
    for _ in 0..u64::MAX {
        if words.is_over() {
            break;
        }
        set(words, &mut settings);
    }
    settings
}

// The settings of preferences.
fn prefs_of_text(words: &mut Words<'_, '_>) -> Option<Edit> {
    lines_take_bytes();
    match read_prefs(words.alloc(), words.bytes(), 1) {
        Ok(settings) => Some(Edit::Prefs { settings }),
        Err(_) => {
            words.fail("preferences with a fault");
            None
        }
    }
}

fn pin(words: &mut Words<'_, '_>) -> Option<Edit> {
    match setting(words) {
        Some(setting) => Some(Edit::Pin { setting }),
        None => None,
    }
}

fn unpin(words: &mut Words<'_, '_>) -> Option<Edit> {
    match selector(words) {
        Some(selector) => Some(Edit::Unpin { selector }),
        None => None,
    }
}

fn drop_list(words: &mut Words<'_, '_>) -> Edit {
    Edit::DropList { name: words.kept() }
}

fn unmark(words: &mut Words<'_, '_>) -> Edit {
    Edit::Unmark {
        package: words.kept(),
    }
}

fn target(words: &mut Words<'_, '_>) -> Edit {
    Edit::Target {
        name: words.kept_or_none(),
    }
}

fn prefs(words: &mut Words<'_, '_>) -> Edit {
    Edit::Prefs {
        settings: settings(words),
    }
}

fn edit_by(words: &mut Words<'_, '_>, word: &str) -> Option<Edit> {
    match word {
        "add-list" => add_list(words),
        "drop-list" => Some(drop_list(words)),
        "put" => put(words),
        "remove" => remove(words),
        "mark" => Some(mark(words)),
        "unmark" => Some(unmark(words)),
        "pin" => pin(words),
        "unpin" => unpin(words),
        "target" => Some(target(words)),
        "prefs" => Some(prefs(words)),
        "prefs-text" => prefs_of_text(words),
        _ => {
            words.fail("an edit that is not known");
            None
        }
    }
}

/// The edit of a line whose first word is this, or none where the words are no edit.
pub fn edit_named(words: &mut Words<'_, '_>, word: &str) -> Option<Edit> {
    let edit = edit_by(words, word)?;
    match words.fault() {
        None => Some(edit),
        Some(_) => None,
    }
}

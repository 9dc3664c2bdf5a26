//! Preferences (apt_preferences(5)).

ghost use Rattle.std.specs.Prelude.{◌≡◌, ◌≢◌, ◌+◌, ◌<◌, ◌^◌, [], None, Some, Ok, Err, length, option_copied, IfOk, IfErr, OnOk};
ghost use Rattle.ctl_stanza.specs.declared.fault.Cause.TheVariants as causes;
ghost use Rattle.ctl_stanza.specs.Faults.{IsMemoryAtZero, Tells};
ghost use Rattle.ctl_stanza.specs.Lines.{lines_of};
ghost use Rattle.ctl_stanza.specs.Records.{parts_of_fields, records_before_fault};
ghost use Rattle.ctl_store.specs.PrefsFaults.{HasNoPrefsFault, TellsLeastPrefsFault};
ghost use Rattle.ctl_store.specs.PrefsLaws.{SetsFirst};
ghost use Rattle.ctl_store.specs.Prefs.{words_of, body_in, is_missing, pin_cause, field_cause, first_wrong};
ghost use Rattle.ctl_store.specs.Prefs.{own_fault, first_own_fault, selector_of, setting_of, settings_of, packages_of};
ghost use Rattle.ctl_store.specs.Prefs.{record_settings, all_settings, first_settings, read_prefs_text};

use crate::laws::{first_setting_counts, told_prefs_fault_is_least};
use crate::pin_settings::PinSettings;
use crate::pin_version::PinVersion;
use crate::priority::read_priority;
use crate::selector::{PinSetting, Selector};
use crate::words::{Words, are_names, asked, is_general};
use ctl_relation::{Bytes, is_name};
use ctl_stanza::{Cause, Record, RecordsBeforeFault, TextFault, read_records_before_fault};
use std::alloc::{AllocError, Global};

// The body of the first field of a name, or an empty one where there is no such field.
fn body_in<'a>(item: &'a Record, name: &[u8]) -> &'a [u8]
    ensures { result.now ≡ body_in name.now (parts_of_fields item.now) }
{
    for (field, body, _line) in item.fields() {
        if field.eq_ignore_ascii_case(name) {
            return body;
        }
    }
    &[]
}

// Whether a field that a record has to have is absent or empty.
fn is_missing(item: &Record) -> bool
    ensures { result ≡ is_missing (parts_of_fields item.now) }
{
    body_in(item, b"Package").is_empty()
        || body_in(item, b"Pin").is_empty()
        || body_in(item, b"Pin-Priority").is_empty()
}

// What is wrong with a pin, by whether its record is for any package.
fn pin_cause(alloc: Global, general: bool, pin: &[u8]) -> Result<Option<Cause>, AllocError>
    ensures { IfOk result (λ cause. cause ≡ pin_cause general (words_of pin.now)) }
{
    if let Some(version) = asked(pin, b"version", b"") {
        return match PinVersion::read(alloc, version)? {
            None => Ok(Some(Cause::Version)),
            Some(_) if general => Ok(Some(Cause::Form)),
            Some(_) => Ok(None),
        };
    }
    match asked(pin, b"release", b"a=") {
        None => Ok(Some(Cause::Form)),
        Some(list) if is_name(list) => Ok(None),
        Some(_) => Ok(Some(Cause::Name)),
    }
}

// What is wrong with a field of this name and body.
fn field_cause(
    alloc: Global,
    general: bool,
    name: &[u8],
    body: &[u8],
) -> Result<Option<Cause>, AllocError>
    ensures { IfOk result (λ cause. cause ≡ field_cause general name.now body.now) }
{
    if name.eq_ignore_ascii_case(b"Pin") {
        pin_cause(alloc, general, body)
    } else if name.eq_ignore_ascii_case(b"Package") && !(is_general(body) || are_names(body)) {
        Ok(Some(Cause::Name))
    } else if name.eq_ignore_ascii_case(b"Pin-Priority") && read_priority(body).is_none() {
        Ok(Some(Cause::Priority))
    } else {
        Ok(None)
    }
}

// The version or the list that a pin asks for. They are read once for all packages of a record.
#[derive(Drop)]
struct Asked<'a> {
    version: Option<&'a [u8]>,
    list: Option<&'a [u8]>,
}

// The selector of a package, or of any, by its pin; None where the pin is wrong for it.
fn selector_of(
    alloc: Global,
    name: Option<&[u8]>,
    pin: &Asked,
) -> Result<Option<Selector>, AllocError>
    ensures { IfOk result (λ selector. selector ≡
        selector_of (option_copied name.entry) (option_copied pin.now.version) (option_copied pin.now.list)) }
{
    let package = match name {
        Some(name) => Some(Bytes::from_slice(alloc, name)?),
        None => None,
    };
    if let Some(version) = pin.version {
        return match (package, PinVersion::read(alloc, version)?) {
            (Some(package), Some(version)) => Ok(Some(Selector::Version { package, version })),
            _ => Ok(None),
        };
    }
    match pin.list {
        Some(list) => {
            let list = Bytes::from_slice(alloc, list)?;
            Ok(Some(Selector::Release { package, list }))
        }
        None => Ok(None),
    }
}

// Adds the setting of a package, or of any, unless its selector stands before.
#[tactic(auto, using(crate::proofs::PrefsLemmas::kept_before))]
fn keep_first(
    alloc: Global,
    kept: &mut PinSettings,
    name: Option<&[u8]>,
    pin: &Asked,
    priority: i16,
) -> Result<(), AllocError>
    ensures { OnOk result (kept.new.pins ≡ first_settings kept.old.pins
        (setting_of priority (option_copied pin.now.version) (option_copied pin.now.list) (option_copied name.entry))) }
{
    if let Some(selector) = selector_of(alloc, name, pin)? {
        if kept.get(&selector).is_some() {
            return Ok(());
        }
        kept.set(PinSetting { selector, priority })?;
    }
    Ok(())
}

// Adds the settings of the packages of a record.
#[tactic(auto, using(crate::proofs::PrefsLemmas::first_settings_append))]
fn keep_settings(
    alloc: Global,
    kept: &mut PinSettings,
    packages: &[u8],
    pin: &Asked,
    priority: i16,
) -> Result<(), AllocError>
    ensures { OnOk result (kept.new.pins ≡ first_settings kept.old.pins
        (settings_of (Some priority) (option_copied pin.now.version) (option_copied pin.now.list) (packages_of (words_of packages.now)))) }
{
    if is_general(packages) {
        return keep_first(alloc, kept, None, pin, priority);
    }
    for name in Words(packages) {
        keep_first(alloc, kept, Some(name), pin, priority)?;
    }
    Ok(())
}

// Ends with the first field of a record that is wrong.
#[tactic(auto, using(crate::proofs::PrefsLemmas::never_memory))]
fn check_fields(alloc: Global, general: bool, item: &Record) -> Result<(), TextFault>
    ensures whole { OnOk result (first_wrong general (parts_of_fields item.now) ≡ None) }
    ensures fault { IfErr result (Tells (first_wrong general (parts_of_fields item.now))) }
    ensures memory { IfErr result IsMemoryAtZero }
{
    for (name, body, line) in item.fields() {
        if let Some(cause) = field_cause(alloc, general, name, body)? {
            return Err(TextFault { line, cause });
        }
    }
    Ok(())
}

// Adds the settings of a record that has no faulty line, or ends with its fault: what it lacks, or else its first field
// that is wrong.
fn keep_record(alloc: Global, kept: &mut PinSettings, item: &Record) -> Result<(), TextFault>
    ensures whole { OnOk result (own_fault item.now ≡ None) }
    ensures settings { OnOk result (kept.new.pins ≡ first_settings kept.old.pins (record_settings item.now)) }
    ensures fault { IfErr result (Tells (own_fault item.now)) }
    ensures memory { IfErr result IsMemoryAtZero }
{
    if is_missing(item) {
        return Err(TextFault {
            line: item.first_line(),
            cause: Cause::Missing,
        });
    }
    let packages = body_in(item, b"Package");
    check_fields(alloc, is_general(packages), item)?;
    let body = body_in(item, b"Pin");
    let pin = Asked {
        version: asked(body, b"version", b""),
        list: asked(body, b"release", b"a="),
    };
    if let Some(priority) = read_priority(body_in(item, b"Pin-Priority")) {
        keep_settings(alloc, kept, packages, &pin, priority)?;
    }
    Ok(())
}

// Adds the settings of records, or ends with the fault of the first that has one.
#[tactic(auto, using(crate::proofs::PrefsLemmas::first_settings_append))]
fn keep_records(alloc: Global, kept: &mut PinSettings, records: &[Record]) -> Result<(), TextFault>
    ensures whole { OnOk result (first_own_fault records.now ≡ None) }
    ensures settings { OnOk result (kept.new.pins ≡ first_settings kept.old.pins (all_settings records.now)) }
    ensures fault { IfErr result (Tells (first_own_fault records.now)) }
    ensures memory { IfErr result IsMemoryAtZero }
{
    let mut left = records;
    while let Some((item, behind)) = left.split_first() {
        keep_record(alloc, kept, item)?;
        left = behind;
    }
    Ok(())
}

// Reads preferences, as their definition says, into no settings.
fn read_settings(
    alloc: Global,
    kept: &mut PinSettings,
    text: &[u8],
    first_line: u64,
) -> Result<(), TextFault>
    requires none { kept.old.pins ≡ [] }
    requires lines { first_line + length (lines_of text.now) < 2 ^ 64 }
    ensures ok { OnOk result (read_prefs_text first_line text.now ≡ Ok kept.new.pins) }
    ensures err { IfErr result (λ fault. fault.cause ≢ causes.Memory → read_prefs_text first_line text.now ≡ Err fault) }
    ensures memory { IfErr result IsMemoryAtZero }
{
    let RecordsBeforeFault { records, fault } = read_records_before_fault(alloc, text, first_line)?;
    keep_records(alloc, kept, &records)?;
    match fault {
        Some(fault) => Err(fault),
        None => Ok(()),
    }
}

/// Reads preferences, whose lines count from `first_line`, to the pin settings that they make. Of two settings of one
/// selector the first counts.
///
/// # Errors
///
/// The fault of the least line, and of one line that with the lowest number: those of
/// [`read_records`](ctl_stanza::read_records), and then [`Cause::Missing`](ctl_stanza::Cause::Missing) where `Package`,
/// `Pin` or `Pin-Priority` is absent or empty, [`Cause::Name`](ctl_stanza::Cause::Name),
/// [`Cause::Version`](ctl_stanza::Cause::Version), [`Cause::Form`](ctl_stanza::Cause::Form) and
/// [`Cause::Priority`](ctl_stanza::Cause::Priority). Where memory runs out the cause is
/// [`Cause::Memory`](ctl_stanza::Cause::Memory) and the line is 0.
pub fn read_prefs(alloc: Global, text: &[u8], first_line: u64) -> Result<PinSettings, TextFault>
    requires lines { first_line + length (lines_of text.now) < 2 ^ 64 }
    ensures first { IfOk result (λ settings. SetsFirst (records_before_fault first_line text.now).0 settings.pins) }
    ensures no_fault { OnOk result (HasNoPrefsFault first_line text.now) }
    ensures least { IfErr result (TellsLeastPrefsFault first_line text.now) }
    ensures ok { IfOk result (λ settings. read_prefs_text first_line text.now ≡ Ok settings.pins) }
    ensures err { IfErr result (λ fault. fault.cause ≢ causes.Memory → read_prefs_text first_line text.now ≡ Err fault) }
    ensures memory { IfErr result IsMemoryAtZero }
{
    first_setting_counts();
    told_prefs_fault_is_least();
    let mut kept = PinSettings::new(alloc);
    match read_settings(alloc, &mut kept, text, first_line) {
        Ok(()) => Ok(kept),
        Err(fault) => Err(fault),
    }
}

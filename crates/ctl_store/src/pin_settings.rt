//! Pin settings that take the place of all.

ghost use Rattle.std.specs.Prelude.{◌≡◌, ◌<◌, ◌^◌, [], IfOk, OnOk, OnErr};
ghost use Rattle.std.specs.Map.{lookup};
ghost use Rattle.indexmap.specs.IndexMap.{insert_all, insert_entry};
ghost use Rattle.ctl_store.specs.Pins.{selector_eq, settings_of, general_pin, AreDistinct};

use crate::pin_table::PinTable;
use crate::selector::{PinSetting, Selector};
use crate::store::Pins;
use std::alloc::{AllocError, Global};
use std::marker::Model;

/// Pin settings, in the order in which their selectors were first set. No selector stands twice. One is found in the log
/// of their number.
#[derive(Drop)]
pub struct PinSettings {
    // None has gone from it, so that the serials are as many as the settings.
    table: PinTable,
    // It stays empty, and is room for the settings, which are given back in it.
    room: Vec<PinSetting>,
}

impl Model for PinSettings {
    ghost use Rattle.ctl_store.specs.Pins.{NewPins};
    ghost use Rattle.ctl_store.specs.Inside.HeldPins.{IsWhole};

    ghost Value = { NewPins };

    ghost view = { λ s. record { pins = s.table.pins } };

    ghost invariant = { λ s. IsWhole s.table s.room };
}

impl PinSettings {
    /// No settings. It takes no memory.
    pub fn new(alloc: Global) -> PinSettings
        ensures { result.pins ≡ [] }
    {
        PinSettings {
            table: PinTable::new(alloc),
            room: Vec::new(alloc),
        }
    }

    /// These settings. A selector that stands twice has its first place and its last priority.
    pub fn made_of(alloc: Global, settings: Vec<PinSetting>) -> Result<PinSettings, AllocError>
        ensures { IfOk result (λ made. made.pins ≡ insert_all selector_eq [] (settings_of settings.items)) }
    {
        let mut made = PinSettings::new(alloc);
        for setting in settings {
            made.set(setting)?;
        }
        Ok(made)
    }

    /// The priority of a selector, if it is set.
    pub fn get(&self, selector: &Selector) -> Option<i16>
        ensures { result ≡ lookup (selector_eq selector.now) self.now.pins }
    {
        self.table.get(selector)
    }

    /// The priority of the general pin on a list, if there is one.
    pub fn general(&self, list: &[u8]) -> Option<i16>
        ensures { result ≡ general_pin list.now self.now.pins }
    {
        self.table.general(list)
    }

    /// Sets a pin. A selector that is set keeps its place.
    pub fn set(&mut self, setting: PinSetting) -> Result<(), AllocError>
        ensures ok { OnOk result (self.new.pins ≡ insert_entry selector_eq self.old.pins setting.selector setting.priority) }
        ensures err { OnErr result (self.new.pins ≡ self.old.pins) }
    {
        // That they are few is said here.
        let _settings = self.table.iter();
        self.room.reserve(self.table.next_serial() as usize + 1)?;
        self.table.reserve_one()?;
        self.table.put(setting);
        Ok(())
    }

    /// The settings, in order.
    pub fn iter(&self) -> Pins<'_>
        ensures settings { result ≡ self.now.pins }
        // no selector stands twice
        ensures distinct { AreDistinct result }
    {
        self.table.iter()
    }

    /// The settings, in order. It takes no memory.
    #[tactic(auto, using(crate::proofs::OwnLemmas::setting_moved))]
    pub fn into_settings(self) -> Vec<PinSetting>
        ensures { settings_of result.items ≡ self.pins }
    {
        let PinSettings { table, mut room } = self;
        let mut left = table.into_entries();
        'settings: while let Some((selector, priority)) = left.next() {
            match room.push(PinSetting { selector, priority }) {
                Ok(()) => {}
                Err(_) => unreachable!(),
            }
        }
        room
    }

    /// The table that they are held in.
    pub(crate) fn into_table(self) -> PinTable
        ensures pins { result.pins ≡ self.pins }
        ensures few { result.next < 2 ^ 63 }
    {
        let PinSettings { table, .. } = self;
        // That they are few is said here.
        let _settings = table.iter();
        table
    }
}

//! The table in which pin settings are held.

ghost use Rattle.std.specs.Prelude.{◌≡◌, ◌<◌, ◌≤◌, ◌+◌, ◌^◌, [], OnOk, length, nat_eq, option_copied, option_map};
ghost use Rattle.std.specs.Map.{lookup, remove_entry};
ghost use Rattle.std.specs.Ordering.{is_lt};
ghost use Rattle.indexmap.specs.IndexMap.{insert_entry};
ghost use Rattle.ctl_store.specs.Pins.{selector_eq, general_pin, own_settings, AreDistinct};
ghost use Rattle.ctl_store.specs.Inside.HeldPins.{own_below, own_one, own_order, IsRanked};

use crate::selector::{GeneralOn, PinSetting, Selector};
use crate::store::Pins;
use ctl_ordered::{IntoEntries, Ordered};
use std::alloc::{AllocError, Global};
use std::collections::VecDeque;
use std::marker::Model;

/// Pin settings, in the order in which their selectors were first set. No selector stands twice. One is found in the log
/// of their number, and so are those of a package. A contract sees beside them the room, how many more go in with no memory,
/// and the serial of the next new one.
#[derive(Drop)]
pub(crate) struct PinTable {
    settings: Ordered<Selector, i16>,
    // The serials in the order of the packages.
    packages: VecDeque<u64>,
}

impl Model for PinTable {
    ghost use Rattle.std.specs.Prelude.{min, ◌-◌};
    ghost use Rattle.std.specs.VecDeque.{deque_capacity, deque_len};
    ghost use Rattle.ctl_ordered.specs.Ordered.{entries};
    ghost use Rattle.ctl_store.specs.Inside.HeldPins.{IsRanked, PinTable};

    ghost Value = { PinTable };

    ghost view = { λ t. record {
      pins = entries t.settings;
      room = min t.settings.room (deque_capacity t.packages - deque_len t.packages);
      next = t.settings.next;
    } };

    ghost invariant = { λ t. IsRanked t.settings.filled t.settings.next t.packages.items };
}

// Where a package and a serial stand, or would, in the order by packages.
#[tactic(auto, using(crate::proofs::OwnLemmas::lookup_turned))]
fn place_of(
    settings: &Ordered<Selector, i16>,
    order: &VecDeque<u64>,
    wanted: (Option<&[u8]>, u64),
) -> usize
    requires { IsRanked settings.now.filled settings.now.next order.now.items }
    ensures place { result ≡ own_below (option_copied wanted.entry.0, wanted.entry.1) settings.now.filled }
    ensures bound { result ≤ length order.now.items }
{
    order.partition_point(
        |serial: &u64|
            ensures { result ≡ is_lt (own_order settings.entry.now.filled (option_copied wanted.entry.0, wanted.entry.1) serial.now) }
        {
            match settings.at(*serial) {
                Some((selector, _)) => (selector.package(), *serial).cmp(&wanted).is_lt(),
                None => true,
            }
        },
    )
}

impl PinTable {
    /// No settings. It takes no memory.
    pub(crate) fn new(alloc: Global) -> PinTable
        ensures pins { result.pins ≡ [] }
        ensures next { result.next ≡ 0 }
    {
        PinTable {
            settings: Ordered::new(alloc),
            packages: VecDeque::new(alloc),
        }
    }

    /// The priority of a selector, if it is set.
    pub(crate) fn get(&self, selector: &Selector) -> Option<i16>
        ensures { result ≡ lookup (selector_eq selector.now) self.now.pins }
    {
        self.settings.get(selector).copied()
    }

    /// The priority of the general pin on a list, if there is one.
    pub(crate) fn general(&self, list: &[u8]) -> Option<i16>
        ensures { result ≡ general_pin list.now self.now.pins }
    {
        self.settings.get(GeneralOn { list }).copied()
    }

    /// The settings, in order.
    pub(crate) fn iter(&self) -> Pins<'_>
        ensures settings { result ≡ self.now.pins }
        // no selector stands twice
        ensures distinct { AreDistinct result }
        ensures few { length result < 2 ^ 63 }
    {
        Pins {
            entries: self.settings.iter(),
        }
    }

    /// The serial of the next new setting.
    pub(crate) fn next_serial(&self) -> u64
        ensures { result ≡ self.now.next }
    {
        self.settings.next_serial()
    }

    /// The settings, in order, which are given back.
    pub(crate) fn into_entries(self) -> IntoEntries<Selector, i16>
        ensures { result ≡ self.pins }
    {
        self.settings.into_entries()
    }

    /// The specific pins of a package, in order.
    pub(crate) fn of<'a>(&'a self, name: &'a [u8]) -> PackagePins<'a>
        ensures { result ≡ own_settings name.now self.now.pins }
    {
        PackagePins {
            name,
            settings: &self.settings,
            order: &self.packages,
            at: place_of(&self.settings, &self.packages, (Some(name), 0)),
        }
    }

    /// Makes room for one setting more, while a serial is left.
    pub(crate) fn reserve_one(&mut self) -> Result<(), AllocError>
        requires { self.old.next + 1 < 2 ^ 64 }
        ensures pins { self.new.pins ≡ self.old.pins }
        ensures next { self.new.next ≡ self.old.next }
        ensures ok { OnOk result (0 < self.new.room) }
    {
        self.settings.reserve_one()?;
        self.packages.reserve(1)
    }

    /// Sets a pin, for which there is room. A selector that is set keeps its place.
    pub(crate) fn put(&mut self, setting: PinSetting)
        requires { 0 < self.old.room }
        ensures pins { self.new.pins ≡ insert_entry selector_eq self.old.pins setting.selector setting.priority }
        ensures next { self.new.next ≤ self.old.next + 1 }
        // where none has gone, there are as many as serials
        ensures fresh { self.old.next ≡ length self.old.pins → self.new.next ≡ length self.new.pins }
    {
        let PinSetting { selector, priority } = setting;
        match self.settings.serial_of(&selector) {
            Some(_serial) => {}
            None => {
                let serial = self.settings.next_serial();
                let at = place_of(&self.settings, &self.packages, (selector.package(), serial));
                match self.packages.insert(at, serial) {
                    Ok(_) => {}
                    Err(_) => unreachable!(),
                }
            }
        }
        self.settings.put(selector, priority);
    }

    /// Takes a pin out. The others keep their order.
    pub(crate) fn remove(&mut self, selector: &Selector)
        ensures pins { self.new.pins ≡ remove_entry (selector_eq selector.now) self.old.pins }
        ensures next { self.new.next ≡ self.old.next }
    {
        match self.settings.serial_of(selector) {
            Some(serial) => {
                let at = place_of(&self.settings, &self.packages, (selector.package(), serial));
                self.packages.remove(at);
            }
            None => {}
        }
        self.settings.remove(selector);
    }
}

// The setting of a serial, where it is one of the package.
fn own_at<'a>(
    settings: &'a Ordered<Selector, i16>,
    serial: u64,
    name: &[u8],
) -> Option<(&'a Selector, i16)>
    ensures { option_map (λ setting. (setting.0.now, setting.1)) result ≡ own_one name.now (lookup (nat_eq serial) settings.now.filled) }
{
    match settings.at(serial) {
        Some((selector, priority)) if selector.is_of(name) => Some((selector, *priority)),
        _ => None,
    }
}

/// The specific pins of a package, by [`Store::pins_of`](crate::Store::pins_of): selectors with priorities, in the order in
/// which the selectors were first set.
#[derive(Drop)]
pub struct PackagePins<'a> {
    name: &'a [u8],
    settings: &'a Ordered<Selector, i16>,
    // From a place on the serials of the package stand in this order, and behind them those of others.
    order: &'a VecDeque<u64>,
    at: usize,
}

impl<'a> Model for PackagePins<'a> {
    ghost use Rattle.std.specs.Prelude.{List, ℤ, drop};
    ghost use Rattle.ctl_store.specs.declared.selector.Selector.{Selector};
    ghost use Rattle.ctl_store.specs.Inside.HeldPins.{own_run};

    ghost Value = { List (Selector × ℤ) };

    ghost view = { λ it. own_run it.name.now it.settings.now.filled (drop it.at it.order.now.items) };
}

impl<'a> Iterator for PackagePins<'a> {
    ghost use Rattle.std.specs.Iterator.{YieldsFirstBy, item_count};

    ghost next_gives = { YieldsFirstBy (λ item. (item.0.now, item.1)) (λ rest. rest) };

    ghost remaining = { item_count (λ rest. rest) };

    type Item = (&'a Selector, i16);

    #[tactic(auto, using(crate::proofs::OwnLemmas::run_next, crate::proofs::OwnLemmas::run_ends))]
    fn next(&mut self) -> Option<(&'a Selector, i16)> {
        let serial = self.order.get(self.at)?;
        let setting = own_at(self.settings, *serial, self.name)?;
        self.at += 1;
        Some(setting)
    }
}

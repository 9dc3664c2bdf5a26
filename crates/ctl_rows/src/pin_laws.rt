//! The laws of pin settings and of preferences, and settings that are given back.

use crate::made::given;
use crate::said::Said;
use crate::tables::same;
use ctl_stanza::lines_take_bytes;
use ctl_store::{first_setting_counts, read_prefs, settings_by_package, told_prefs_fault_is_least};
use std::test::Fail;

#[test]
fn laws_of_pins_can_be_called() {
    first_setting_counts();
    settings_by_package();
    told_prefs_fault_is_least();
}

#[test]
fn settings_come_back_in_order(rt: HostRuntime) -> Result<(), Fail> {
    lines_take_bytes();
    let text =
        b"Package: c b\nPin: version 1.*\nPin-Priority: 5\n\nPackage: *\nPin: release a=m\nPin-Priority: -7\n\nPackage: a c\nPin: release a=m\nPin-Priority: 9\n";
    let settings = given(read_prefs(rt.alloc(), text, 1).ok())?;
    let mut said = Said::new(rt.alloc());
    for setting in settings.into_settings() {
        said.pin(&setting.selector, setting.priority);
    }
    same(
        &rt,
        b"settings come back",
        said.shown(),
        b"pin c version 1.* 5\npin b version 1.* 5\npin * release m -7\npin a release m 9\npin c release m 9\n",
    );
    Ok(())
}

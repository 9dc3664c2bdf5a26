//! Edits.

use crate::list_class::ListClass;
use crate::new_stanzas::NewStanzas;
use crate::pin_settings::PinSettings;
use crate::selector::{PinSetting, Selector};
use ctl_relation::{Bytes, Version};
use ctl_stanza::Stanza;

/// A change of a store. Names in it are names, and a priority is not 0.
#[derive(Drop)]
pub enum Edit {
    /// A new last list, of the kind of its stanzas.
    AddList {
        name: Bytes,
        class: ListClass,
        stanzas: NewStanzas,
    },
    /// The list goes.
    DropList {
        name: Bytes,
    },
    /// The stanza takes the place of the first stanza of its name and an equal version, or else goes last. It goes into a
    /// list of its own kind.
    Put {
        list: Bytes,
        stanza: Box<Stanza>,
    },
    /// The first stanza of the package and an equal version goes.
    Remove {
        list: Bytes,
        package: Bytes,
        version: Version,
    },
    /// Marks a version of a package as installed, or that none is.
    Mark {
        package: Bytes,
        version: Option<Version>,
    },
    /// The mark of a package goes.
    Unmark {
        package: Bytes,
    },
    /// Sets a pin. One that is set again keeps its place.
    Pin {
        setting: PinSetting,
    },
    /// The pin setting of the selector goes.
    Unpin {
        selector: Selector,
    },
    /// Makes a list the target release, or none.
    Target {
        name: Option<Bytes>,
    },
    /// These pin settings take the place of all.
    Prefs {
        settings: PinSettings,
    },
}

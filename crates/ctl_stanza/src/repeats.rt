//! Which names of fields may stand more than once.

ghost use Rattle.std.specs.Prelude.{◌≡◌};
ghost use Rattle.ctl_stanza.specs.Fields.{may_repeat};

use crate::fields::is_same_name;

/// Which names of fields may stand more than once in one stanza.
#[derive(Clone, Copy)]
pub(crate) enum Repeats {
    /// None.
    Never,
    /// `Explanation`, as in a record of preferences (apt_preferences(5)).
    Explanation,
}

impl Repeats {
    /// Whether a name may stand more than once.
    pub(crate) fn allow(self, name: &[u8]) -> bool
        ensures { result ≡ may_repeat self name.now }
    {
        match self {
            Repeats::Never => false,
            Repeats::Explanation => is_same_name(name, b"Explanation"),
        }
    }
}

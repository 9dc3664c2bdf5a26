//! Stanzas that stand together in the order of keys.

use ctl_store::StanzaKey;

/// Stanzas from one to another in the order of keys, both among them.
#[derive(Clone, Copy)]
pub(crate) struct Span {
    pub(crate) first: StanzaKey,
    pub(crate) last: StanzaKey,
}

//! What is chosen of a name, in few bytes.

ghost use Rattle.std.specs.Prelude.{◌≡◌, is_some};
ghost use Rattle.ctl_policy.specs.Chosen.{no_choice};
ghost use Rattle.ctl_index.specs.Inside.KeptChoice.{key_or_first, some_if};

use crate::packed_key::PackedKey;
use ctl_policy::Chosen;
use ctl_store::StanzaKey;
use std::marker::Model;
use std::mem::size_of;

/// What is chosen of a name, kept in 28 bytes. A [`Chosen`] takes 48. One stands under each name.
#[derive(Drop)]
pub(crate) struct KeptChoice {
    installed: PackedKey,
    candidate: PackedKey,
    is_installed: bool,
    is_candidate: bool,
}

const _: () = prove!(size_of::<KeptChoice>() == 28);

impl Model for KeptChoice {
    ghost use Rattle.ctl_policy.specs.declared.chosen.Chosen.{Chosen};
    ghost use Rattle.ctl_index.specs.Inside.KeptChoice.{some_if};

    ghost Value = { Chosen };

    ghost view = { λ c. record { installed = some_if c.is_installed c.installed; candidate = some_if c.is_candidate c.candidate } };
}

// A key in few bytes, and where there is none any.
fn packed(key: Option<StanzaKey>) -> PackedKey
    ensures { result ≡ key_or_first key }
{
    let first = StanzaKey { list: 0, stanza: 0 };
    PackedKey::new(key.unwrap_or(first))
}

// The key, if there is one.
fn unpacked(is_there: bool, key: PackedKey) -> Option<StanzaKey>
    ensures { result ≡ some_if is_there key }
{
    if is_there { Some(key.key()) } else { None }
}

impl KeptChoice {
    /// Nothing is chosen.
    pub(crate) fn none() -> KeptChoice
        ensures { result ≡ no_choice }
    {
        KeptChoice::new(Chosen {
            installed: None,
            candidate: None,
        })
    }

    /// What is chosen, in few bytes.
    pub(crate) fn new(chosen: Chosen) -> KeptChoice
        ensures { result ≡ chosen }
    {
        KeptChoice {
            installed: packed(chosen.installed),
            candidate: packed(chosen.candidate),
            is_installed: chosen.installed.is_some(),
            is_candidate: chosen.candidate.is_some(),
        }
    }

    /// What is chosen.
    pub(crate) fn get(&self) -> Chosen
        ensures { result ≡ self.now }
    {
        Chosen {
            installed: unpacked(self.is_installed, self.installed),
            candidate: unpacked(self.is_candidate, self.candidate),
        }
    }
}

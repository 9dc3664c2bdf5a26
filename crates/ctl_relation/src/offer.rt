//! What a stanza offers: its own name, and each entry of its Provides (Debian Policy 7.5).

ghost use Rattle.std.specs.Prelude.{◌≡◌, IfOk};
ghost use Rattle.ctl_relation.specs.Lent.{lent};

use crate::small_bytes::{SHORT_LEN, short_places};
use crate::version::Version;
use std::alloc::{AllocError, Global};
use std::marker::Model;
use std::mem::size_of;

// A name, short or long, alone or at a version. One byte tells which: a name and an option would have one each, and the bytes
// that its alignment wants behind it.
#[derive(Drop)]
enum HeldOffer {
    Short(u8, [u8; SHORT_LEN]),
    Long(Vec<u8>),
    ShortAt(u8, [u8; SHORT_LEN], Version),
    LongAt(Vec<u8>, Version),
}

/// A name that a stanza offers, and the version at which it does, if there is one.
#[derive(Drop)]
pub struct Offer {
    held: HeldOffer,
}

// Each stanza holds one, so it takes no more than its name and its version.
const _: () = prove!(size_of::<Offer>() == 2 * size_of::<Version>());

impl Model for Offer {
    ghost use Rattle.ctl_relation.specs.Parts.{OfferParts};
    ghost use Rattle.ctl_relation.specs.Inside.Offer.{parts_of, IsHeld};

    ghost Value = { OfferParts };

    ghost view = { λ o. parts_of o.held };

    ghost invariant = { λ o. IsHeld o.held };
}

impl Offer {
    /// An offer of `name`, at `version` if there is one. The only error is out of memory.
    pub fn new(alloc: Global, name: &[u8], version: Option<Version>) -> Result<Offer, AllocError>
        ensures { IfOk result (λ offer. offer ≡ record { name = name.now; version = version }) }
    {
        if name.len() > SHORT_LEN {
            let name = Vec::from_slice(alloc, name)?;
            let held = match version {
                None => HeldOffer::Long(name),
                Some(version) => HeldOffer::LongAt(name, version),
            };
            return Ok(Offer { held });
        }
        let len = name.len() as u8;
        let places = short_places(name);
        let held = match version {
            None => HeldOffer::Short(len, places),
            Some(version) => HeldOffer::ShortAt(len, places, version),
        };
        Ok(Offer { held })
    }

    /// The name that is offered.
    pub fn name(&self) -> &[u8]
        ensures { result.now ≡ self.now.name }
    {
        match &self.held {
            HeldOffer::Short(len, places) => &places[..*len as usize],
            HeldOffer::ShortAt(len, places, _) => &places[..*len as usize],
            HeldOffer::Long(name) => name,
            HeldOffer::LongAt(name, _) => name,
        }
    }

    /// The version at which it is offered; none where an entry of Provides gives none.
    pub fn version(&self) -> Option<&Version>
        ensures { lent result ≡ self.now.version }
    {
        match &self.held {
            HeldOffer::ShortAt(_, _, version) => Some(version),
            HeldOffer::LongAt(_, version) => Some(version),
            _ => None,
        }
    }
}

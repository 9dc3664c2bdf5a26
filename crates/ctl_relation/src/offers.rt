//! What a stanza offers: its own name first, and then each entry of its Provides (Debian Policy 7.5).

ghost use Rattle.std.specs.Prelude.{◌≡◌, ◌∷◌, ◌++◌, [], map, None, IfOk, OnOk};
ghost use Rattle.ctl_relation.specs.Offered.{offer_of, offers_in};
ghost use Rattle.ctl_relation.specs.Version.{fault_of};

use crate::atom::Atom;
use crate::group::Group;
use crate::groups::Groups;
use crate::offer::Offer;
use crate::version::Version;
use std::alloc::{AllocError, Global};
use std::marker::Model;

#[derive(Drop)]
enum HeldOffers {
    None,
    // Most stanzas offer their own name alone, which then takes no block of memory.
    Own([Offer; 1]),
    Several(Vec<Offer>),
}

/// What a stanza offers, seen as the list of it.
#[derive(Drop)]
pub struct Offers {
    held: HeldOffers,
}

impl Model for Offers {
    ghost use Rattle.std.specs.Prelude.{List};
    ghost use Rattle.ctl_relation.specs.Parts.{OfferParts};
    ghost use Rattle.ctl_relation.specs.Inside.HeldOffers.{offers_held};

    ghost Value = { List OfferParts };

    ghost view = { λ offers. offers_held offers.held };
}

impl Offers {
    /// No offers.
    pub fn none() -> Offers
        ensures { result ≡ [] }
    {
        Offers {
            held: HeldOffers::None,
        }
    }

    /// The offers, in order.
    pub fn as_slice(&self) -> &[Offer]
        ensures { result.now ≡ self.now }
    {
        match &self.held {
            HeldOffers::None => &[],
            HeldOffers::Own(own) => own,
            HeldOffers::Several(offers) => offers,
        }
    }
}

// The version of a text that is one.
fn copy_version(alloc: Global, text: &[u8]) -> Result<Version, AllocError>
    requires { fault_of text.now ≡ None }
    ensures { IfOk result (λ copy. copy ≡ text.now) }
{
    match Version::parse(alloc, text) {
        Ok(copy) => Ok(copy),
        Err(_) => Err(AllocError),
    }
}

// What an entry of Provides offers.
fn offer_of(alloc: Global, atom: &Atom<'_>) -> Result<Offer, AllocError>
    ensures { IfOk result (λ offer. offer ≡ offer_of atom.now) }
{
    let version = match atom.bound() {
        None => None,
        Some((_, version)) => Some(copy_version(alloc, version)?),
    };
    Offer::new(alloc, atom.name(), version)
}

// Adds what a group of entries offers.
fn add_offers(alloc: Global, offers: &mut Vec<Offer>, group: &Group<'_>) -> Result<(), AllocError>
    ensures { OnOk result (offers.new.items ≡ offers.old.items ++ map offer_of group.now) }
{
    let mut atoms = group.atoms();
    'atoms: loop {
        let Some(atom) = atoms.next() else {
            return Ok(());
        };
        let offer = offer_of(alloc, &atom)?;
        offers.push(offer)?;
    }
}

// Adds what groups of entries offer.
fn add_entries(
    alloc: Global,
    offers: &mut Vec<Offer>,
    provides: Groups<'_>,
) -> Result<(), AllocError>
    ensures { OnOk result (offers.new.items ≡ offers.old.items ++ offers_in provides.entry) }
{
    let mut groups = provides;
    'groups: loop {
        let Some(group) = groups.next() else {
            return Ok(());
        };
        add_offers(alloc, offers, &group)?;
    }
}

// An offer, and what the groups of entries offer.
fn own_and_entries(
    alloc: Global,
    own: Offer,
    provides: Groups<'_>,
) -> Result<Vec<Offer>, AllocError>
    ensures { IfOk result (λ offers. offers.items ≡ own ∷ offers_in provides.entry) }
{
    let mut offers = Vec::with_capacity(alloc, provides.len().saturating_add(1))?;
    offers.push(own)?;
    add_entries(alloc, &mut offers, provides)?;
    Ok(offers)
}

/// What a stanza offers: its package at its version, and each entry of its Provides. The only error is out of memory.
pub fn offers_of(
    alloc: Global,
    package: &[u8],
    version: Option<Version>,
    provides: Groups<'_>,
) -> Result<Offers, AllocError>
    ensures { IfOk result (λ offers. offers ≡ record { name = «package».now; version = version } ∷ offers_in provides.entry) }
{
    let own = Offer::new(alloc, package, version)?;
    let held = if provides.is_empty() {
        HeldOffers::Own([own])
    } else {
        HeldOffers::Several(own_and_entries(alloc, own, provides)?)
    };
    Ok(Offers { held })
}

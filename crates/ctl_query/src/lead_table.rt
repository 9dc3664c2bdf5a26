//! The leads of rows, in the order in which answers on all packages tell of them. An answer that is gathered from the keys
//! of stanzas, in whatever order they come, finds by the table which of them are leads and where each stands in that order.

ghost use Rattle.std.specs.Prelude.{◌≡◌, ◌++◌, ℕ, true, Some, OnOk, IfOk, IfSome, flat_map, option_map, option_copied, slice_get};
ghost use Rattle.std.specs.Bool.{OnTrue, OnFalse};
ghost use Rattle.ctl_store.specs.Entries.{Entry};
ghost use Rattle.ctl_policy.specs.Priority.{world_of};
ghost use Rattle.ctl_query.specs.Leads.{key_at, keyed_stanza, leads_named, leads_of};
ghost use Rattle.ctl_query.specs.LeadTable.{lent_leads, likely_place, place_under, numbered_from, slot_of, AreEnough, AreInKeyOrder, AreLikely, ArePlaces};
ghost use Rattle.ctl_query.specs.NameSet.{lent_names};

use crate::asking::Asking;
use crate::interest::packages_naming;
use crate::leads::{Leads, keyed_stanza};
use ctl_stanza::Stanza;
use ctl_store::{StanzaKey, Store, compare_keys};
use std::alloc::{AllocError, Global};
use std::marker::Model;

/// The leads of the rows of packages, package by package and of each the newest first, and where each stands by its key.
#[derive(Drop)]
pub(crate) struct LeadTable<'a> {
    leads: Vec<(StanzaKey, &'a Stanza)>,
    // The place to look at first, by the slot of a key: in most slots it is that of the key's lead.
    likely: Vec<u32>,
    // Whether each lead is the one at the slot of its key, so that a key has no lead but this one.
    are_likely: bool,
    // Where some are not, the place of each among the leads, in the order of their keys. None where two had one key, which no cache
    // has.
    places: Option<Vec<(StanzaKey, usize)>>,
}

impl<'a> Model for LeadTable<'a> {
    ghost use Rattle.std.specs.Prelude.{◌≡◌, List, IfSome, true};
    ghost use Rattle.ctl_store.specs.Entries.{Entry};
    ghost use Rattle.ctl_query.specs.LeadTable.{lent_leads, AreLikely, ArePlaces};

    ghost Value = { List Entry };

    ghost view = { λ table. lent_leads table.leads.items };

    ghost invariant = { λ table. (table.are_likely ≡ true → AreLikely (lent_leads table.leads.items) table.likely.items)
        × IfSome table.places (λ places. ArePlaces (lent_leads table.leads.items) places.items) };
}

// The stanzas of these keys, each under its key.
fn leads_under<'a>(
    asking: &Asking<'a>,
    keys: &[StanzaKey],
) -> Result<Vec<(StanzaKey, &'a Stanza)>, AllocError>
    ensures { IfOk result (λ leads. lent_leads leads.items ≡ flat_map (keyed_stanza (world_of asking.now)) keys.now) }
{
    let mut leads = Vec::with_capacity(asking.alloc(), keys.len())?;
    for key in keys {
        if let Some(lead) = keyed_stanza(asking.store(), *key) {
            leads.push(lead)?;
        }
    }
    Ok(leads)
}

// The leads of all rows, each under its key, by a walk over all names. A name without a row has none.
fn gathered_leads<'a>(asking: &Asking<'a>) -> Result<Vec<(StanzaKey, &'a Stanza)>, AllocError>
    ensures { IfOk result (λ leads. lent_leads leads.items ≡ leads_of (world_of asking.now)) }
{
    let mut leads = Vec::new(asking.alloc());
    'names: for rows in asking.all_rows() {
        'leads: for lead in Leads::new(asking.store(), rows) {
            leads.push(lead)?;
        }
    }
    Ok(leads)
}

// The leads of all rows, each under its key: by the keys that the cache keeps of them, where it does.
fn leads_of<'a>(asking: &Asking<'a>) -> Result<Vec<(StanzaKey, &'a Stanza)>, AllocError>
    ensures { IfOk result (λ leads. lent_leads leads.items ≡ leads_of (world_of asking.now)) }
{
    match asking.kept_leads() {
        Some(keys) => leads_under(asking, keys),
        None => gathered_leads(asking),
    }
}

// The leads of the rows of these packages.
fn leads_named<'a>(
    asking: &Asking<'a>,
    packages: &[&[u8]],
) -> Result<Vec<(StanzaKey, &'a Stanza)>, AllocError>
    ensures { IfOk result (λ leads. lent_leads leads.items ≡ flat_map (leads_named (world_of asking.now)) (lent_names packages.now)) }
{
    let mut leads = Vec::new(asking.alloc());
    for package in packages {
        'leads: for lead in asking.leads(package) {
            leads.push(lead)?;
        }
    }
    Ok(leads)
}

// The key of each lead with its place.
fn numbered(
    alloc: Global,
    leads: &[(StanzaKey, &Stanza)],
) -> Result<Vec<(StanzaKey, usize)>, AllocError>
    ensures { IfOk result (λ places. places.items ≡ numbered_from 0 (lent_leads leads.now)) }
{
    let mut places = Vec::with_capacity(alloc, leads.len())?;
    for place in 0..leads.len() {
        places.push((leads[place].0, place))?;
    }
    Ok(places)
}

// Whether each key is below the one that follows it.
fn are_rising(places: &[(StanzaKey, usize)]) -> bool
    ensures { result ≡ true → AreInKeyOrder places.now }
{
    for place in 1..places.len() {
        if !compare_keys(&places[place - 1].0, &places[place].0).is_lt() {
            return false;
        }
    }
    true
}

// The place of each lead, in the order of their keys. None where two have one key.
fn places_of(
    alloc: Global,
    leads: &[(StanzaKey, &Stanza)],
) -> Result<Option<Vec<(StanzaKey, usize)>>, AllocError>
    ensures { IfOk result (λ places. IfSome places (λ places. ArePlaces (lent_leads leads.now) places.items)) }
{
    let mut places = numbered(alloc, leads)?;
    places.sort_unstable();
    if !are_rising(&places) {
        return Ok(None);
    }
    Ok(Some(places))
}

// So far apart are the slots of the stanzas of one list and of the next.
const LIST_APART: u64 = 2_654_435_761;

// There are no more slots than twice this many.
const MOST_SLOTS: usize = 2_147_483_648;

// The slot of a key among so many, which are a power of two. Stanzas of one list that follow one another have slots that do.
fn slot_of(key: StanzaKey, slots: usize) -> usize
    ensures { result ≡ slot_of key slots }
{
    let start = u64::from(key.list).wrapping_mul(LIST_APART);
    (key.stanza.wrapping_add(start) & (slots as u64).saturating_sub(1)) as usize
}

// The place of each lead, by the slot of its key. Where two keys have one slot, it is the last one's.
fn likely_places(alloc: Global, leads: &[(StanzaKey, &Stanza)]) -> Result<Vec<u32>, AllocError> {
    let slots = leads.len().min(MOST_SLOTS).next_power_of_two();
    let mut likely = vec![in alloc; 0u32; slots.saturating_mul(2)]?;
    for place in 0..leads.len() {
        let slot = slot_of(leads[place].0, likely.len());
        if let Some(found) = likely.get_mut(slot) {
            *found = u32::try_from(place).unwrap_or(0);
        }
    }
    Ok(likely)
}

// The place at the slot of a key.
fn likely_place(likely: &[u32], key: StanzaKey) -> usize
    ensures { result ≡ likely_place key likely.now }
{
    likely.get(slot_of(key, likely.len())).copied().unwrap_or(0) as usize
}

// Whether each lead is the one at the slot of its key.
fn are_likely(leads: &[(StanzaKey, &Stanza)], likely: &[u32]) -> bool
    ensures { OnTrue result (AreLikely (lent_leads leads.now) likely.now) }
{
    for place in 0..leads.len() {
        if likely_place(likely, leads[place].0) != place {
            return false;
        }
    }
    true
}

// The place beside a key, where keys rise.
fn place_under(places: &[(StanzaKey, usize)], key: StanzaKey) -> Option<usize>
    requires { AreInKeyOrder places.now }
    ensures { result ≡ place_under key places.now }
{
    match places.binary_search_by(|pair| compare_keys(&pair.0, &key)) {
        Ok(at) => Some(places[at].1),
        Err(_) => None,
    }
}

// How many stanzas there are for each name of a query from which on a table of all leads pays.
const STANZAS_FOR_A_NAME: usize = 64;

/// Whether a table of all leads pays, where so many names are asked for. For one name alone it never does.
pub(crate) fn pays(store: &Store, names: usize) -> bool {
    names >= 2 && names > store.counts().stanzas as usize / STANZAS_FOR_A_NAME
}

impl<'a> LeadTable<'a> {
    /// The table of all leads of a cache, where so many names are asked for that it pays.
    pub(crate) fn for_names(
        asking: &Asking<'a>,
        names: usize,
    ) -> Result<Option<LeadTable<'a>>, AllocError>
        ensures { IfOk result (λ table. IfSome table (λ t. t ≡ leads_of (world_of asking.now))) }
    {
        if !pays(asking.store(), names) {
            return Ok(None);
        }
        let table = LeadTable::new(asking.alloc(), leads_of(asking)?)?;
        Ok(Some(table))
    }

    /// The table of the leads of those packages that name a name.
    pub(crate) fn of_askers(asking: &Asking<'a>, name: &[u8]) -> Result<LeadTable<'a>, AllocError>
        ensures { IfOk result (λ table. AreEnough asking.now name.now table) }
    {
        let askers = packages_naming(asking, name)?;
        let leads = leads_named(asking, &askers)?;
        LeadTable::new(asking.alloc(), leads)
    }

    /// The table of leads.
    fn new(alloc: Global, leads: Vec<(StanzaKey, &'a Stanza)>) -> Result<LeadTable<'a>, AllocError>
        ensures { IfOk result (λ table. table ≡ lent_leads leads.entry.items) }
    {
        let likely = likely_places(alloc, &leads)?;
        let are_likely = are_likely(&leads, &likely);
        let places = if are_likely {
            None
        } else {
            places_of(alloc, &leads)?
        };
        Ok(LeadTable {
            leads,
            likely,
            are_likely,
            places,
        })
    }

    /// The leads, each under its key.
    pub(crate) fn leads(&self) -> &[(StanzaKey, &'a Stanza)]
        ensures { lent_leads result.now ≡ self.now }
    {
        &self.leads
    }

    // Whether the lead at a place has a key.
    fn is_place_of(&self, place: usize, key: StanzaKey) -> bool
        ensures its { OnTrue result (key_at self.now place ≡ Some key) }
        ensures of_another { OnFalse result (key_at self.now place ≡ Some key → ⊥) }
    {
        match self.leads.get(place) {
            Some(lead) => compare_keys(&lead.0, &key).is_eq(),
            None => false,
        }
    }

    // The place of the lead of a key by the keys in order, where some leads aren't at the slots of theirs. Mostly it is found at the
    // first look all the same.
    fn sorted_place(&self, key: StanzaKey) -> Option<Option<usize>>
        ensures some { IfSome result (λ found. IfSome found (λ i. key_at self.now i ≡ Some key)) }
        ensures exact { IfSome result (λ found. (i : ℕ) → key_at self.now i ≡ Some key → found ≡ Some i) }
    {
        let Some(places) = &self.places else {
            return None;
        };
        let likely = likely_place(&self.likely, key);
        if self.is_place_of(likely, key) {
            return Some(Some(likely));
        }
        Some(place_under(places, key))
    }

    /// The place of the lead of a key, if it is one's, where no other lead has the key: none of a cache has. Mostly it is found at
    /// the first look, and the lead is near then.
    pub(crate) fn place(&self, key: StanzaKey) -> Option<Option<usize>>
        ensures some { IfSome result (λ found. IfSome found (λ i. key_at self.now i ≡ Some key)) }
        ensures exact { IfSome result (λ found. (i : ℕ) → key_at self.now i ≡ Some key → found ≡ Some i) }
    {
        if !self.are_likely {
            return self.sorted_place(key);
        }
        let likely = likely_place(&self.likely, key);
        if self.is_place_of(likely, key) {
            Some(Some(likely))
        } else {
            Some(None)
        }
    }

    /// The lead at a place.
    pub(crate) fn lead(&self, place: usize) -> Option<&'a Stanza>
        ensures { option_copied result ≡ option_map (λ (e : Entry). e.1) (slice_get self.now place) }
    {
        self.leads.get(place).map(|lead| lead.1)
    }
}

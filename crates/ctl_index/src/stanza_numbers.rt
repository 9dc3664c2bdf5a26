//! The numbers of the clauses of one stanza.

ghost use Rattle.std.specs.Prelude.{◌≡◌, ◌-◌, ◌<◌, ◌^◌, ℕ, nat_eq, [], None, Some, length, slice_get, IfOk, IfSome, IfNone, OnOk, option_map, if◌then◌else◌};
ghost use Rattle.std.specs.Bool.{OnTrue};
ghost use Rattle.std.specs.List.Sorted.{IsStrictlySortedBy};
ghost use Rattle.std.specs.Ordering.{is_eq};
ghost use Rattle.ctl_index.specs.Inside.TablesCounters.{counted_up};
ghost use Rattle.std.specs.BTreeMap.{get};
ghost use Rattle.ctl_index.specs.Inside.ClauseNumbers.{AreInPlace, number_at_place, place_of, clause_at_place, place_cmp, come_in};

use crate::clause_number::ClauseNumber;
use crate::keys::ClauseKey;
use ctl_relation::FieldKind;
use ctl_store::StanzaKey;
use std::alloc::{AllocError, Global};
use std::collections::BTreeMap;
use std::marker::Model;
use std::mem::size_of;

// The last number that is kept, which none comes to.
const MOST: u128 = 79_228_162_514_264_337_593_543_950_335;

/// The place of a clause in its stanza: its field, and the place of its group in the field, counted from 0. The clauses of a stanza
/// stand in the order of these parts.
#[derive(Clone, Copy, Debug, PartialEq, Eq, PartialOrd, Ord)]
pub(crate) struct ClausePlace {
    pub(crate) field: FieldKind,
    pub(crate) group: u32,
}

// A real list has some 300,000 of them.
const _: () = prove!(size_of::<(ClausePlace, ClauseNumber)>() == 20);

impl ClausePlace {
    /// The place of a clause in its stanza.
    pub(crate) fn of(clause: ClauseKey) -> ClausePlace
        ensures { result ≡ place_of clause }
    {
        ClausePlace {
            field: clause.field,
            group: clause.group,
        }
    }

    /// The clause at this place of a stanza.
    pub(crate) fn clause(self, stanza: StanzaKey) -> ClauseKey
        ensures { result ≡ clause_at_place stanza self }
    {
        ClauseKey {
            stanza,
            field: self.field,
            group: self.group,
        }
    }
}

/// The numbers of the clauses of one stanza, in the order of their places, with no spare room.
#[derive(Drop)]
pub(crate) struct StanzaNumbers {
    clauses: Vec<(ClausePlace, ClauseNumber)>,
}

impl Model for StanzaNumbers {
    ghost use Rattle.ctl_index.specs.Inside.ClauseNumbers.{Placed, AreInPlace};

    ghost Value = { Placed };

    ghost view = { λ s. s.clauses.items };

    ghost invariant = { λ s. AreInPlace s.clauses.items };
}

// Whether each place is below the next.
fn are_rising(clauses: &[(ClausePlace, ClauseNumber)]) -> bool
    ensures { OnTrue result (AreInPlace clauses.now) }
{
    for i in 1..clauses.len() {
        if !clauses[i - 1].0.cmp(&clauses[i].0).is_lt() {
            return false;
        }
    }
    true
}

// Where the clause at a place stands among those of its stanza, if it is there.
fn find(clauses: &[(ClausePlace, ClauseNumber)], place: ClausePlace) -> Option<usize>
    requires { AreInPlace clauses.now }
    ensures some { IfSome result (λ at. option_map (λ (c : ClausePlace × ℕ). c.0) (slice_get clauses.now at) ≡ Some place) }
    ensures none { IfNone result (number_at_place place clauses.now ≡ None) }
{
    match clauses.binary_search_by(|clause| clause.0.cmp(&place)) {
        Ok(at) => Some(at),
        Err(_) => None,
    }
}

// A number that counts one more.
fn one_more(number: u128) -> u128
    requires { number < 2 ^ 96 }
    ensures more { result ≡ counted_up 1 number }
    ensures few { result < 2 ^ 96 }
{
    if number < MOST { number + 1 } else { number }
}

// These clauses come in turn.
fn insert_each(
    clauses: &[(ClausePlace, ClauseNumber)],
    all: &mut BTreeMap<ClausePlace, ClauseNumber>,
) -> Result<(), AllocError>
    ensures numbers { OnOk result ((q : ClausePlace) → get place_cmp all.new q ≡ come_in clauses.now q (get place_cmp all.old q)) }
{
    for clause in clauses {
        all.insert(clause.0, clause.1)?;
    }
    Ok(())
}

// The clauses of a tree, in order.
fn listed(
    alloc: Global,
    all: &BTreeMap<ClausePlace, ClauseNumber>,
) -> Result<StanzaNumbers, AllocError>
    ensures { IfOk result (λ numbers. numbers ≡ all.now.entries) }
{
    let mut clauses = Vec::with_capacity(alloc, all.len())?;
    for (place, number) in all {
        clauses.push((*place, *number))?;
    }
    Ok(StanzaNumbers { clauses })
}

impl StanzaNumbers {
    /// No clause. It takes no memory.
    pub(crate) fn none(alloc: Global) -> StanzaNumbers
        ensures { result ≡ [] }
    {
        StanzaNumbers {
            clauses: Vec::new(alloc),
        }
    }

    // Whether there is no clause.
    fn is_empty(&self) -> bool
        ensures { result ≡ nat_eq (length self.now) 0 }
    {
        self.clauses.is_empty()
    }

    /// The clauses, in order, each with its number.
    pub(crate) fn as_slice(&self) -> &[(ClausePlace, ClauseNumber)]
        ensures value { result.now ≡ self.now }
        ensures order { AreInPlace result.now }
    {
        &self.clauses
    }

    /// The number of the clause at a place, if it is there.
    pub(crate) fn get(&self, place: ClausePlace) -> Option<u128>
        ensures number { result ≡ number_at_place place self.now }
        ensures few { IfSome result (λ n. n < 2 ^ 96) }
    {
        match find(&self.clauses, place) {
            Some(at) => Some(self.clauses[at].1.get()),
            None => None,
        }
    }

    /// The clause at a place, if it is there, counts one more. It tells what it counted before.
    pub(crate) fn raise(&mut self, place: ClausePlace) -> Option<u128>
        ensures before { result ≡ number_at_place place self.old }
        ensures after { (q : ClausePlace) → number_at_place q self.new
            ≡ option_map (counted_up (if is_eq (place_cmp place q) then 1 else 0)) (number_at_place q self.old) }
    {
        match find(&self.clauses, place) {
            Some(at) => {
                let number = self.clauses[at].1.get();
                self.clauses[at] = (place, ClauseNumber::new(one_more(number)));
                Some(number)
            }
            None => None,
        }
    }

    /// The clause at a place, if it is there, counts one less. It tells what it counted before.
    pub(crate) fn lower(&mut self, place: ClausePlace) -> Option<u128>
        ensures before { result ≡ number_at_place place self.old }
        ensures after { (q : ClausePlace) → number_at_place q self.new
            ≡ option_map (λ n. n - (if is_eq (place_cmp place q) then 1 else 0)) (number_at_place q self.old) }
    {
        match find(&self.clauses, place) {
            Some(at) => {
                let number = self.clauses[at].1.get();
                self.clauses[at] = (place, ClauseNumber::new(number.saturating_sub(1)));
                Some(number)
            }
            None => None,
        }
    }

    /// These clauses with those that come, of which the last counts where one comes twice. Mostly there are none yet, and those that
    /// come stand in order.
    pub(crate) fn joined(
        &self,
        alloc: Global,
        coming: &[(ClausePlace, ClauseNumber)],
    ) -> Result<StanzaNumbers, AllocError>
        ensures { IfOk result (λ numbers. (q : ClausePlace) → number_at_place q numbers
            ≡ come_in coming.now q (number_at_place q self.now)) }
    {
        if self.is_empty() && are_rising(coming) {
            let clauses = Vec::from_slice(alloc, coming)?;
            return Ok(StanzaNumbers { clauses });
        }
        let mut all = BTreeMap::new(alloc);
        insert_each(&self.clauses, &mut all)?;
        insert_each(coming, &mut all)?;
        listed(alloc, &all)
    }
}

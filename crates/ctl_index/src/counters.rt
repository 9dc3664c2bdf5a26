//! The number of each clause, and the clauses at 0.

ghost use Rattle.std.specs.Prelude.{◌≡◌, ◌-◌, ◌<◌, ◌^◌, nat_eq, nat_lt, [], None, Some, true, false, OnOk, option_map, if◌then◌else◌};
ghost use Rattle.std.specs.BTreeSet.{contains};
ghost use Rattle.std.specs.Option.{option_map_or};
ghost use Rattle.std.specs.Ordering.{is_eq};
ghost use Rattle.ctl_store.specs.Keys.{key_is};
ghost use Rattle.ctl_index.specs.Clauses.{clause_cmp, number_among};
ghost use Rattle.ctl_index.specs.Inside.ClauseNumbers.{number_at_place, place_of, zeros_marked};
ghost use Rattle.ctl_index.specs.Inside.TablesCounters.{AreUnmet, counted_up};
ghost use Rattle.ctl_index.specs.Inside.TablesWaiting.{come_of, told};
ghost use Rattle.ctl_index.specs.declared.keys.ClauseKey.{ClauseKey};

use crate::clause_number::ClauseNumber;
use crate::clause_numbers::ClauseNumbers;
use crate::keys::ClauseKey;
use crate::packed_clause::PackedClause;
use crate::stanza_numbers::{ClausePlace, StanzaNumbers};
use crate::unmet_set::UnmetSet;
use crate::waiting::Waiting;
use ctl_store::StanzaKey;
use std::alloc::{AllocError, Global};

/// The number of each clause, with those at 0 beside, and the clauses that wait to be entered.
#[derive(Drop)]
pub(crate) struct Counters {
    alloc: Global,
    numbers: ClauseNumbers,
    unmet: UnmetSet,
    waiting: Waiting,
    ghost at_zero: { AreUnmet numbers unmet },
}

// Whether there is a number, and it is this one.
fn is_number(number: Option<u128>, other: u128) -> bool
    ensures { result ≡ option_map_or (λ n. nat_eq n other) number false }
{
    match number {
        Some(number) => number == other,
        None => false,
    }
}

// Whether there is a number, and it is less than this one.
fn is_below(number: Option<u128>, limit: u128) -> bool
    ensures { result ≡ option_map_or (λ n. nat_lt n limit) number false }
{
    match number {
        Some(number) => number < limit,
        None => false,
    }
}

// Notes whether a clause is among those at 0, where that has changed.
#[tactic(auto, using(crate::proofs::CounterLemmas::marked_already))]
fn note(
    unmet: &mut UnmetSet,
    key: PackedClause,
    was_unmet: bool,
    is_unmet: bool,
) -> Result<(), AllocError>
    requires { contains clause_cmp unmet.old key ≡ was_unmet }
    ensures { OnOk result ((k : ClauseKey) → contains clause_cmp unmet.new k
        ≡ (if is_eq (clause_cmp key k) then is_unmet else contains clause_cmp unmet.old k)) }
{
    if was_unmet == is_unmet {
        return Ok(());
    }
    unmet.mark(key, is_unmet)
}

// A clause counts more than before, and leaves those at 0 where it is one.
#[tactic(auto, using(crate::proofs::CounterLemmas::marked_already))]
fn unmark(unmet: &mut UnmetSet, key: PackedClause, was_unmet: bool)
    requires { contains clause_cmp unmet.old key ≡ was_unmet }
    ensures { (k : ClauseKey) → contains clause_cmp unmet.new k
        ≡ (if is_eq (clause_cmp key k) then false else contains clause_cmp unmet.old k) }
{
    if was_unmet {
        unmet.leave(key);
    }
}

// Of these clauses of a stanza those at 0 come to the clauses at 0.
fn mark_zeros(
    unmet: &mut UnmetSet,
    stanza: StanzaKey,
    clauses: &[(ClausePlace, ClauseNumber)],
) -> Result<(), AllocError>
    ensures { OnOk result ((k : ClauseKey) → contains clause_cmp unmet.new k
        ≡ zeros_marked true stanza clauses.now k (contains clause_cmp unmet.old k)) }
{
    for clause in clauses {
        if clause.1.get() == 0 {
            unmet.insert(PackedClause::new(clause.0.clause(stanza)))?;
        }
    }
    Ok(())
}

// Of these clauses of a stanza those at 0 leave the clauses at 0.
fn unmark_zeros(unmet: &mut UnmetSet, stanza: StanzaKey, clauses: &[(ClausePlace, ClauseNumber)])
    ensures { (k : ClauseKey) → contains clause_cmp unmet.new k
        ≡ zeros_marked false stanza clauses.now k (contains clause_cmp unmet.old k) }
{
    for clause in clauses {
        if clause.1.get() == 0 {
            unmet.remove(PackedClause::new(clause.0.clause(stanza)));
        }
    }
}

// The clauses of a stanza go, and are told.
fn take_stanza(
    stanza: StanzaKey,
    numbers: &mut ClauseNumbers,
    unmet: &mut UnmetSet,
) -> StanzaNumbers
    requires { AreUnmet numbers.old unmet.old }
    ensures told { (k : ClauseKey) → key_is k.stanza stanza ≡ true → number_among numbers.old k ≡ number_at_place (place_of k) result }
    ensures gone { (k : ClauseKey) → number_among numbers.new k
        ≡ (if key_is k.stanza stanza then None else number_among numbers.old k) }
    ensures unmet { AreUnmet numbers.new unmet.new }
{
    let taken = numbers.take(stanza);
    unmark_zeros(unmet, stanza, taken.as_slice());
    taken
}

// The clauses of a stanza come, of which none is there.
fn put_stanza(
    stanza: StanzaKey,
    clauses: StanzaNumbers,
    numbers: &mut ClauseNumbers,
    unmet: &mut UnmetSet,
) -> Result<(), AllocError>
    requires none { (k : ClauseKey) → key_is k.stanza stanza ≡ true → number_among numbers.old k ≡ None }
    requires unmet { AreUnmet numbers.old unmet.old }
    ensures numbers { OnOk result ((k : ClauseKey) → number_among numbers.new k
        ≡ (if key_is k.stanza stanza then number_at_place (place_of k) clauses else number_among numbers.old k)) }
    ensures unmet { OnOk result (AreUnmet numbers.new unmet.new) }
{
    mark_zeros(unmet, stanza, clauses.as_slice())?;
    numbers.put(stanza, clauses)
}

// These clauses of a stanza come in turn.
fn enter_each(
    alloc: Global,
    stanza: StanzaKey,
    coming: &[(ClausePlace, ClauseNumber)],
    numbers: &mut ClauseNumbers,
    unmet: &mut UnmetSet,
) -> Result<(), AllocError>
    requires { AreUnmet numbers.old unmet.old }
    ensures numbers { OnOk result ((k : ClauseKey) → number_among numbers.new k
        ≡ come_of (Some stanza) coming.now k (number_among numbers.old k)) }
    ensures unmet { OnOk result (AreUnmet numbers.new unmet.new) }
{
    let clauses = take_stanza(stanza, numbers, unmet).joined(alloc, coming)?;
    put_stanza(stanza, clauses, numbers, unmet)
}

// The same, where no clause is left if memory ends in the middle.
#[tactic(auto, using(crate::proofs::CounterLemmas::unmet_none))]
fn enter_all(
    alloc: Global,
    stanza: StanzaKey,
    coming: &[(ClausePlace, ClauseNumber)],
    numbers: &mut ClauseNumbers,
    unmet: &mut UnmetSet,
) -> Result<(), AllocError>
    requires { AreUnmet numbers.old unmet.old }
    ensures numbers { OnOk result ((k : ClauseKey) → number_among numbers.new k
        ≡ come_of (Some stanza) coming.now k (number_among numbers.old k)) }
    ensures unmet { AreUnmet numbers.new unmet.new }
{
    match enter_each(alloc, stanza, coming, numbers, unmet) {
        Ok(()) => Ok(()),
        Err(error) => {
            numbers.clear();
            unmet.clear();
            Err(error)
        }
    }
}

impl Counters {
    /// No clause. It takes no memory.
    pub(crate) fn new(alloc: Global) -> Counters
        ensures { result.numbers ≡ [] }
    {
        Counters {
            alloc,
            numbers: ClauseNumbers::new(alloc),
            unmet: UnmetSet::new(alloc),
            waiting: Waiting::new(alloc),
        }
    }

    /// The number of each clause.
    pub(crate) fn numbers(&self) -> &ClauseNumbers
        ensures { result.now ≡ self.now.numbers }
    {
        &self.numbers
    }

    /// The clauses at 0, in order.
    pub(crate) fn unmet(&self) -> &UnmetSet
        ensures { AreUnmet self.now.numbers result.now }
    {
        &self.unmet
    }

    /// None waits to be entered from now on.
    pub(crate) fn let_none_wait(&mut self)
        ensures { (k : ClauseKey) → told self.new.waiting self.new.numbers k ≡ number_among self.old.numbers k }
    {
        self.waiting.clear();
    }

    // The clauses of this stanza wait from now on, and those of another one are entered.
    fn begin(&mut self, stanza: StanzaKey) -> Result<(), AllocError>
        ensures told { OnOk result ((k : ClauseKey) → told self.new.waiting self.new.numbers k
            ≡ told self.old.waiting self.old.numbers k) }
        ensures stanza { OnOk result (self.new.waiting.stanza ≡ Some stanza) }
    {
        if self.waiting.is_of(stanza) {
            return Ok(());
        }
        self.enter_waiting()?;
        self.waiting.stanza = Some(stanza);
        Ok(())
    }

    /// A clause comes, and waits for the others of its stanza.
    pub(crate) fn wait(&mut self, clause: ClauseKey, number: u128) -> Result<(), AllocError>
        requires { number < 2 ^ 96 }
        ensures { OnOk result ((k : ClauseKey) → told self.new.waiting self.new.numbers k
            ≡ (if is_eq (clause_cmp clause k) then Some number else told self.old.waiting self.old.numbers k)) }
    {
        self.begin(clause.stanza)?;
        let waits = (ClausePlace::of(clause), ClauseNumber::new(number));
        self.waiting.clauses.push(waits)?;
        Ok(())
    }

    /// Those that wait are entered. Where memory is refused, no clause is left.
    pub(crate) fn enter_waiting(&mut self) -> Result<(), AllocError>
        ensures numbers { OnOk result ((k : ClauseKey) → number_among self.new.numbers k
            ≡ told self.old.waiting self.old.numbers k) }
        ensures none { self.new.waiting.clauses.items ≡ [] }
    {
        let Some(stanza) = self.waiting.stanza else {
            self.waiting.clear();
            return Ok(());
        };
        let coming = &self.waiting.clauses;
        let entered = enter_all(
            self.alloc,
            stanza,
            coming,
            &mut self.numbers,
            &mut self.unmet,
        );
        self.waiting.clear();
        entered
    }

    /// The clauses of a stanza go.
    pub(crate) fn remove(&mut self, stanza: StanzaKey)
        ensures { (k : ClauseKey) → number_among self.new.numbers k
            ≡ (if key_is k.stanza stanza then None else number_among self.old.numbers k) }
    {
        let _ = take_stanza(stanza, &mut self.numbers, &mut self.unmet);
    }

    /// The clause, if it is there, counts one more.
    pub(crate) fn raise(&mut self, clause: ClauseKey)
        ensures { (k : ClauseKey) → number_among self.new.numbers k
            ≡ option_map (counted_up (if is_eq (clause_cmp clause k) then 1 else 0))
            (number_among self.old.numbers k) }
    {
        let before = self.numbers.raise(clause);
        unmark(
            &mut self.unmet,
            PackedClause::new(clause),
            is_number(before, 0),
        );
    }

    /// The clause, if it is there, counts one less. Where memory is refused, no clause is left.
    pub(crate) fn lower(&mut self, clause: ClauseKey) -> Result<(), AllocError>
        ensures { OnOk result ((k : ClauseKey) → number_among self.new.numbers k
            ≡ option_map (λ n. n - (if is_eq (clause_cmp clause k) then 1 else 0))
            (number_among self.old.numbers k)) }
    {
        let before = self.numbers.lower(clause);
        let was_unmet = is_number(before, 0);
        let is_unmet = is_below(before, 2);
        match note(
            &mut self.unmet,
            PackedClause::new(clause),
            was_unmet,
            is_unmet,
        ) {
            Ok(()) => Ok(()),
            Err(error) => {
                self.numbers.clear();
                self.unmet.clear();
                Err(error)
            }
        }
    }
}

//! What a cache tells, where it isn't stale, of the rows of names, of which is installed, and of the candidates.

ghost use Rattle.std.specs.Prelude.{◌≡◌, ◌∷◌, ℕ, List, [], IfSome, IfNone, Some, false, filter_map, map};
ghost use Rattle.std.specs.List.{AllByRecursion, list_any};
ghost use Rattle.std.specs.List.Sorted.{IsStrictlySortedBy};
ghost use Rattle.std.specs.Map.{lookup};
ghost use Rattle.std.specs.Cmp.Lexicographic.{slice_cmp};
ghost use Rattle.std.specs.Ordering.{nat_cmp};
ghost use Rattle.std.specs.Str.{bytes_eq};
ghost use Rattle.ctl_store.specs.Keys.{AreHeld};
ghost use Rattle.ctl_store.specs.Store.{keyed_of, state_of};
ghost use Rattle.ctl_policy.specs.Rows.{rows_named, newest_first, keys_of_row, lead_of, lead_at, has_row, sources_of};
ghost use Rattle.ctl_policy.specs.Priority.{world_of};
ghost use Rattle.ctl_policy.specs.Candidate.{installed_of, candidate_of};
ghost use Rattle.ctl_policy.specs.declared.chosen.Chosen.{Chosen as ChosenLeads};
ghost use Rattle.ctl_policy.specs.Chosen.{choice_in, kept_of};
ghost use Rattle.ctl_index.specs.Names.{known_names};
ghost use Rattle.ctl_index.specs.Inside.TablesViews.{with_rows};
ghost use Rattle.ctl_index.specs.RowsTold.{row_at, priority_at, row_under};
ghost use Rattle.ctl_index.specs.Work.{stanzas_of_state};

use crate::cache::{Cache, Sources};
use crate::name_entries::NameEntries;
use crate::named::{Named, has_rows};
use crate::rows::rows_are_defined;
use ctl_policy::{
    Chosen, NewestFirst, row_priority, rows_are_held, rows_are_shown, rows_have_leads,
};
use ctl_relation::Version;
use ctl_store::StanzaKey;
use std::marker::Model;

// Takes the entries up to the next one of a name that has a row.
fn next_with_rows<'a>(entries: &mut NameEntries<'a>) -> Option<(&'a [u8], &'a Named)>
    ensures some { IfSome result (λ e. with_rows entries.old ≡ (e.0.now, e.1.now) ∷ with_rows entries.new) }
    ensures none { IfNone result (with_rows entries.old ≡ []) }
    ensures ended { IfNone result (with_rows entries.new ≡ []) }
{
    'names: while let Some((name, named)) = entries.next() {
        if has_rows(named) {
            return Some((name, named));
        }
    }
    None
}

/// The names that have a row, by [`Cache::packages`], in the order of their bytes.
#[derive(Drop)]
pub struct Packages<'a> {
    // What is left of the names.
    entries: NameEntries<'a>,
}

impl<'a> Model for Packages<'a> {
    ghost use Rattle.std.specs.Prelude.{ℕ, List};
    ghost use Rattle.ctl_index.specs.Inside.NameMap.{entry_names};
    ghost use Rattle.ctl_index.specs.Inside.TablesViews.{with_rows};

    ghost Value = { List (List ℕ) };

    ghost view = { λ it. entry_names (with_rows it.entries) };
}

impl<'a> Iterator for Packages<'a> {
    ghost use Rattle.std.specs.Iterator.{YieldsFirstBy, item_count};

    ghost next_gives = { YieldsFirstBy (λ item. item.now) (λ rest. rest) };

    ghost remaining = { item_count (λ rest. rest) };

    type Item = &'a [u8];

    fn next(&mut self) -> Option<&'a [u8]> {
        match next_with_rows(&mut self.entries) {
            Some((name, _)) => Some(name),
            None => None,
        }
    }
}

/// The names that have a row with what is chosen of each, by [`Cache::candidates`], in the order of the bytes of the names.
#[derive(Drop)]
pub struct Candidates<'a> {
    // What is left of the names.
    entries: NameEntries<'a>,
}

impl<'a> Model for Candidates<'a> {
    ghost use Rattle.std.specs.Prelude.{ℕ, List, map};
    ghost use Rattle.ctl_policy.specs.declared.chosen.Chosen.{Chosen};
    ghost use Rattle.ctl_index.specs.Inside.TablesViews.{with_rows, entry_chosen};

    ghost Value = { List (List ℕ × Chosen) };

    ghost view = { λ it. map entry_chosen (with_rows it.entries) };
}

impl<'a> Iterator for Candidates<'a> {
    ghost use Rattle.std.specs.Iterator.{YieldsFirstBy, item_count};

    ghost next_gives = { YieldsFirstBy (λ item. (item.0.now, item.1)) (λ rest. rest) };

    ghost remaining = { item_count (λ rest. rest) };

    type Item = (&'a [u8], Chosen);

    fn next(&mut self) -> Option<(&'a [u8], Chosen)> {
        match next_with_rows(&mut self.entries) {
            Some((name, named)) => Some((name, named.own.chosen.get())),
            None => None,
        }
    }
}

/// The leads of the rows of a name, by [`Cache::rows`], newest first.
#[derive(Drop)]
pub struct Leads<'a> {
    // What is left of the rows.
    rows: NewestFirst<'a>,
}

impl<'a> Model for Leads<'a> {
    ghost use Rattle.std.specs.Prelude.{List, filter_map};
    ghost use Rattle.ctl_store.specs.declared.stanza_key.StanzaKey.{StanzaKey};
    ghost use Rattle.ctl_policy.specs.Rows.{lead_of};

    ghost Value = { List StanzaKey };

    ghost view = { λ it. filter_map lead_of it.rows };
}

// Takes the rows up to the next lead.
fn next_lead(rows: &mut NewestFirst<'_>) -> Option<StanzaKey>
    ensures some { IfSome result (λ lead. filter_map lead_of rows.old ≡ lead ∷ filter_map lead_of rows.new) }
    ensures none { IfNone result (filter_map lead_of rows.old ≡ []) }
    ensures ended { IfNone result (filter_map lead_of rows.new ≡ []) }
{
    'rows: while let Some(keys) = rows.next() {
        if let Some(lead) = keys.first() {
            return Some(*lead);
        }
    }
    None
}

impl<'a> Iterator for Leads<'a> {
    ghost use Rattle.std.specs.Iterator.{YieldsFirst, item_count};

    ghost next_gives = { YieldsFirst (λ rest. rest) };

    ghost remaining = { item_count (λ rest. rest) };

    type Item = StanzaKey;

    fn next(&mut self) -> Option<StanzaKey> {
        next_lead(&mut self.rows)
    }
}

impl Cache {
    /// The rows of a name, newest first: the key of the lead of each. There is none where the name has no row.
    pub fn rows(&self, name: &[u8]) -> Leads<'_>
        requires { self.now.stale ≡ false }
        ensures leads { result ≡ filter_map lead_of
            (map keys_of_row (newest_first (rows_named name.now (keyed_of self.now.store).lists))) }
        ensures each { map Some result ≡ map lead_of
            (map keys_of_row (newest_first (rows_named name.now (keyed_of self.now.store).lists))) }
    {
        rows_have_leads();
        Leads {
            rows: self.row_keys(name),
        }
    }

    /// The rows of a name, newest first: the keys of the stanzas of each, in the order of all stanzas. There is none where the
    /// name has no row.
    pub fn row_keys(&self, name: &[u8]) -> NewestFirst<'_>
        requires { self.now.stale ≡ false }
        ensures rows { result ≡ map keys_of_row (newest_first (rows_named name.now (keyed_of self.now.store).lists)) }
        ensures held { AllByRecursion (λ row. AreHeld row (keyed_of self.now.store).lists) result }
    {
        rows_are_defined();
        rows_are_shown();
        rows_are_held();
        // That the keys rise is said here.
        let _counts = self.store.counts();
        match self.tables.names.rows(name) {
            Some(rows) => rows.iter(),
            None => NewestFirst::none(),
        }
    }

    /// The row of a name whose version is equal to this one: the keys of its stanzas, in the order of all stanzas, of which the
    /// first is the lead. There is none where no row has such a version.
    pub fn row(&self, name: &[u8], version: &Version) -> &[StanzaKey]
        requires { self.now.stale ≡ false }
        ensures row { result.now ≡ row_at name.now version.now (keyed_of self.now.store).lists }
        ensures held { AreHeld result.now (keyed_of self.now.store).lists }
    {
        rows_are_defined();
        rows_are_held();
        // That the keys rise is said here.
        let _counts = self.store.counts();
        match self.tables.names.rows(name) {
            Some(rows) => rows.keys(version),
            None => &[],
        }
    }

    /// The key of the lead of the row of a name whose version is equal to this one, if there is one.
    pub fn lead(&self, name: &[u8], version: &Version) -> Option<StanzaKey>
        requires { self.now.stale ≡ false }
        ensures { result ≡ lead_at (rows_named name.now (keyed_of self.now.store).lists) version.now }
    {
        self.row(name, version).first().copied()
    }

    /// The priority of the row of a name whose version is equal to this one, if there is one (apt_preferences(5)).
    pub fn priority(&self, name: &[u8], version: &Version) -> Option<i16>
        requires { self.now.stale ≡ false }
        ensures { result ≡ priority_at name.now version.now (world_of self.now.store) }
    {
        match self.row(name, version) {
            [] => None,
            keys => Some(row_priority(&self.store, name, keys)),
        }
    }

    // The row in which a stanza stands, if it is live.
    fn row_with(&self, key: StanzaKey) -> &[StanzaKey]
        requires { self.now.stale ≡ false }
        ensures row { result.now ≡ row_under key (keyed_of self.now.store).lists }
        ensures held { AreHeld result.now (keyed_of self.now.store).lists }
    {
        match self.store.find(key) {
            Some(stanza) => match stanza.version() {
                Some(version) => self.row(stanza.package(), version),
                None => &[],
            },
            None => &[],
        }
    }

    /// The sources of the row with this lead: the lists that hold a stanza of it, in the order of lists.
    pub fn sources(&self, lead: StanzaKey) -> Sources<'_>
        requires { self.now.stale ≡ false }
        ensures { result ≡ sources_of (row_under lead (keyed_of self.now.store).lists) (keyed_of self.now.store).lists }
    {
        Sources::new(&self.store, self.row_with(lead))
    }

    /// Whether a name has a row.
    pub fn has_row(&self, name: &[u8]) -> bool
        requires { self.now.stale ≡ false }
        ensures { result ≡ has_row name.now (keyed_of self.now.store).lists }
    {
        rows_are_defined();
        rows_are_shown();
        // That the keys rise is said here.
        let _counts = self.store.counts();
        match self.tables.names.rows(name) {
            Some(rows) => !rows.is_empty(),
            None => false,
        }
    }

    /// Whether a name is known: one that is offered, or that an atom names.
    pub fn is_known(&self, name: &[u8]) -> bool
        requires { self.now.stale ≡ false }
        ensures { result ≡ list_any (bytes_eq name.now) (known_names (stanzas_of_state (state_of self.now.store))) }
    {
        self.tables.names.contains(name)
    }

    /// The names that have a row, in the order of their bytes, each once.
    pub fn packages(&self) -> Packages<'_>
        requires { self.now.stale ≡ false }
        ensures order { IsStrictlySortedBy (slice_cmp nat_cmp) result }
        ensures members { (name : List ℕ) → list_any (bytes_eq name) result ≡ has_row name (keyed_of self.now.store).lists }
    {
        rows_are_defined();
        rows_are_shown();
        // That the keys rise is said here.
        let _counts = self.store.counts();
        let entries = self.tables.names.entries();
        Packages { entries }
    }

    /// What is chosen of a name: the leads of the row that is installed and of the candidate.
    pub fn chosen(&self, name: &[u8]) -> Chosen
        requires { self.now.stale ≡ false }
        ensures { result ≡ choice_in name.now (world_of self.now.store) }
    {
        match self.tables.names.get(name) {
            Some(named) => named.own.chosen.get(),
            None => Chosen {
                installed: None,
                candidate: None,
            },
        }
    }

    /// The lead of the row of a name that is installed, by its mark or by the status list.
    pub fn installed(&self, name: &[u8]) -> Option<StanzaKey>
        requires { self.now.stale ≡ false }
        ensures { result ≡ installed_of name.now (world_of self.now.store) }
    {
        self.chosen(name).installed
    }

    /// The lead of the candidate of a name, by the priorities of its rows (apt_preferences(5)).
    pub fn candidate(&self, name: &[u8]) -> Option<StanzaKey>
        requires { self.now.stale ≡ false }
        ensures { result ≡ candidate_of name.now (world_of self.now.store) }
    {
        self.chosen(name).candidate
    }

    /// What is chosen of each name that has a row, in the order of the bytes of the names.
    pub fn candidates(&self) -> Candidates<'_>
        requires { self.now.stale ≡ false }
        ensures order { IsStrictlySortedBy (slice_cmp nat_cmp) (map (λ (e : List ℕ × ChosenLeads). e.0) result) }
        ensures each { (name : List ℕ) → lookup (bytes_eq name) result ≡ kept_of name (world_of self.now.store) }
    {
        rows_are_defined();
        rows_are_shown();
        // That the keys rise is said here.
        let _counts = self.store.counts();
        let entries = self.tables.names.entries();
        Candidates { entries }
    }
}

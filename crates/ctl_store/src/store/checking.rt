//! Why an edit is refused.

ghost use Rattle.std.specs.Prelude.{◌≡◌, None, Some, MatchResult, option_copied, is_some};
ghost use Rattle.std.specs.FinMap as fin;
ghost use Rattle.std.specs.Option.{option_map_or, option_to_list};
ghost use Rattle.std.specs.Map.{lookup};
ghost use Rattle.ctl_store.specs.Named.{at_name, has_name};
ghost use Rattle.ctl_store.specs.State.{count_of_kind};
ghost use Rattle.ctl_store.specs.Pins.{selector_eq};
ghost use Rattle.ctl_store.specs.Edits.{edit_of};
ghost use Rattle.ctl_store.specs.Step.{count_coming, has_stanza, is_same_kind, is_status, is_there, misfit_of, is_past, after, refusal_of, takes_kind};
ghost use Rattle.ctl_store.specs.Keys.{found_in, found_of};
ghost use Rattle.ctl_store.specs.Store.{state_of, keyed_of};

use crate::edit::Edit;
use crate::refusal::Refusal;
use crate::selector::Selector;
use crate::stanza_key::StanzaKey;
use crate::store::Store;
use ctl_relation::{Bytes, Version};
use ctl_stanza::ListKind;

/// 1 for a status list, else 0.
pub(super) fn one_if_status(kind: ListKind) -> u32
    ensures { result ≡ count_of_kind kind }
{
    match kind {
        ListKind::Packages => 0,
        ListKind::Status => 1,
    }
}

impl Store {
    #[tactic(auto, using(crate::proofs::ListedLemmas::has_name_held))]
    pub(super) fn has_list(&self, name: &Bytes) -> bool
        ensures { result ≡ has_name name.now (state_of self.now).lists }
    {
        self.lists.get(name).is_some()
    }

    // Whether a list of this name is there that holds stanzas of a kind.
    #[tactic(auto, using(crate::proofs::ListedLemmas::at_name_held))]
    fn takes_kind(&self, kind: ListKind, list: &Bytes) -> bool
        ensures { result ≡ takes_kind kind list.now (state_of self.now).lists }
    {
        match self.lists.get(list) {
            Some(listed) => kind == listed.kind(),
            None => false,
        }
    }

    // 1 for a status list that is there, else 0.
    #[tactic(auto, using(crate::proofs::ListedLemmas::at_name_held))]
    pub(super) fn count_of_kind(&self, list: &Bytes) -> u32
        ensures { result ≡ option_map_or (λ l. count_of_kind l.kind) (at_name list.now (state_of self.now).lists) 0 }
    {
        match self.lists.get(list) {
            Some(listed) => one_if_status(listed.kind()),
            None => 0,
        }
    }

    // The key of the first stanza of this name and an equal version in a list, whose next look-up begins where it stands.
    #[tactic(auto, using(crate::proofs::ListedLemmas::at_name_lists, crate::proofs::ListedLemmas::has_stanza_held))]
    fn found_in(&self, list: &Bytes, name: &[u8], version: Option<&Version>) -> Option<StanzaKey>
        ensures key { option_to_list result ≡ found_in list.now name.now (option_copied version.entry) (keyed_of self.now).lists }
        ensures there { is_some result ≡ has_stanza list.now name.now (option_copied version.entry) (state_of self.now).lists }
    {
        self.lists.get(list)?.found_key(name, version)
    }

    // The key of the stanza that an edit takes out or replaces. Its commit finds at one look what this searched for.
    pub(super) fn found(&self, edit: &Edit) -> Option<StanzaKey>
        ensures key { option_to_list result ≡ found_of (keyed_of self.now) (edit_of edit.now) }
        ensures there { is_some result ≡ is_there (state_of self.now) (edit_of edit.now) }
    {
        match edit {
            Edit::Put { list, stanza } => {
                self.found_in(list, stanza.package(), stanza.version())
            }
            Edit::Remove {
                list,
                package,
                version,
            } => self.found_in(list, package.as_slice(), Some(version)),
            _ => None,
        }
    }

    #[tactic(auto, using(crate::proofs::ListedLemmas::get_at_name))]
    fn has_mark(&self, name: &Bytes) -> bool
        ensures { result ≡ is_some (fin.get (state_of self.now).marks name.now) }
    {
        self.marks.get(name).is_some()
    }

    fn has_pin(&self, selector: &Selector) -> bool
        ensures { result ≡ is_some (lookup (selector_eq selector.now) (state_of self.now).pins) }
    {
        self.pins.get(selector).is_some()
    }

    // Why an edit does not fit what the store holds, the limits aside, where its stanza is there or not.
    fn misfit(&self, edit: &Edit, there: bool) -> Option<Refusal>
        requires { there ≡ is_there (state_of self.now) (edit_of edit.now) }
        ensures { result ≡ misfit_of (state_of self.now) (edit_of edit.now) }
    {
        match edit {
            Edit::AddList { name, .. } if self.has_list(name) => Some(Refusal::ListExists),
            Edit::AddList { stanzas, .. }
                if stanzas.kind() == ListKind::Status && self.has_status() => {
                Some(Refusal::StatusExists)
            }
            Edit::DropList { name } if !self.has_list(name) => Some(Refusal::NoList),
            Edit::Put { list, stanza } if !self.takes_kind(stanza.kind(), list) => {
                Some(Refusal::NoList)
            }
            Edit::Remove { list, .. } if !self.has_list(list) => Some(Refusal::NoList),
            Edit::Remove { .. } if !there => Some(Refusal::NoStanza),
            Edit::Unmark { package } if !self.has_mark(package) => Some(Refusal::NoMark),
            Edit::Unpin { selector } if !self.has_pin(selector) => Some(Refusal::NoPin),
            _ => None,
        }
    }

    // How many stanzas an edit brings, where the one that it replaces is there or not.
    fn count_coming(&self, edit: &Edit, there: bool) -> usize
        requires { there ≡ is_there (state_of self.now) (edit_of edit.now) }
        ensures { result ≡ count_coming (state_of self.now) (edit_of edit.now) }
    {
        match edit {
            Edit::AddList { stanzas, .. } => stanzas.as_slice().len(),
            Edit::Put { .. } => { if there { 0 } else { 1 } }
            _ => 0,
        }
    }

    // Whether the state after an edit, whose stanza is there or not, would pass a limit.
    fn is_past(&self, edit: &Edit, there: bool) -> bool
        requires there { there ≡ is_there (state_of self.now) (edit_of edit.now) }
        requires fits { misfit_of (state_of self.now) (edit_of edit.now) ≡ None }
        ensures { result ≡ is_past self.now.limits (after (state_of self.now) (edit_of edit.now)) }
    {
        self.count_coming(edit, there) > (self.limits.stanzas - self.stanzas) as usize
            || self.edits >= self.limits.edits
    }

    // Whether an edit, whose stanza is there or not, would be refused.
    pub(super) fn check_found(&self, edit: &Edit, there: bool) -> Result<(), Refusal>
        requires { there ≡ is_there (state_of self.now) (edit_of edit.now) }
        ensures { MatchResult result
            (λ _. refusal_of self.now.limits (state_of self.now) (edit_of edit.now) ≡ None)
            (λ e. refusal_of self.now.limits (state_of self.now) (edit_of edit.now) ≡ Some e) }
    {
        if let Some(why) = self.misfit(edit, there) {
            return Err(why);
        }
        if self.is_past(edit, there) {
            return Err(Refusal::Full);
        }
        Ok(())
    }

    /// Whether an edit would be refused, and why: 11 to 14, 16, 17 and 21 by [`Refusal::number`]. It takes no memory.
    pub fn check(&self, edit: &Edit) -> Result<(), Refusal>
        ensures { MatchResult result
            (λ _. refusal_of self.now.limits (state_of self.now) (edit_of edit.now) ≡ None)
            (λ e. refusal_of self.now.limits (state_of self.now) (edit_of edit.now) ≡ Some e) }
    {
        self.check_found(edit, self.found(edit).is_some())
    }
}

//! Plans of edits: their keys and stanzas, the names that they touch, and what comes of them.

ghost use Rattle.ctl_store.specs.Plans.{IsReady};

use crate::said::{OUT_OF_MEMORY, Said};
use ctl_policy::touched_names;
use ctl_relation::Bytes;
use ctl_store::{Edit, Plan, Refusal, StanzaKey, Store};

/// What is told of a plan.
#[derive(Clone, Copy)]
pub enum Told {
    /// The name of its edit, its keys and its first stanza.
    Parts,
    /// The names that it touches.
    Names,
    /// The stanza that it has under this key.
    Stanza(StanzaKey),
}

fn edit_name(edit: &Edit) -> &'static [u8] {
    match edit {
        Edit::AddList { .. } => b"add-list",
        Edit::DropList { .. } => b"drop-list",
        Edit::Put { .. } => b"put",
        Edit::Remove { .. } => b"remove",
        Edit::Mark { .. } => b"mark",
        Edit::Unmark { .. } => b"unmark",
        Edit::Pin { .. } => b"pin",
        Edit::Unpin { .. } => b"unpin",
        Edit::Target { .. } => b"target",
        Edit::Prefs { .. } => b"prefs",
    }
}

// The name of a plan's edit, its keys, and its first stanza.
fn say_parts(plan: &Plan, said: &mut Said) {
    said.add(edit_name(plan.edit()));
    said.keys(b" -", plan.removed());
    said.keys(b" +", plan.added());
    if let Some((key, _)) = plan.added().split_first() {
        said.all(&[b" ", plan.stanza(*key).text()]);
    }
}

fn say_refused(why: Refusal, said: &mut Said) {
    said.all(&[b"refused: ", why.text().as_bytes()]);
}

// The stanza that a plan has under a key, if there is one.
fn say_come(plan: &Plan, key: StanzaKey, said: &mut Said) {
    said.add(match plan.find(key) {
        Some(stanza) => stanza.text(),
        None => b"none\n",
    });
}

// Names, each behind a space.
fn say_names(names: &[Bytes], said: &mut Said) {
    for name in names {
        said.all(&[b" ", name.as_slice()]);
    }
}

// The names that a plan touches, each behind a space.
fn say_touched(store: &Store, plan: &Plan, said: &mut Said)
    requires { IsReady store.now plan.now }
{
    match touched_names(said.alloc(), store, plan) {
        Ok(names) => say_names(&names, said),
        Err(_) => said.fail(OUT_OF_MEMORY),
    }
}

// A plan that is not carried out. All of them are dropped here.
fn let_go(_plan: Plan) {}

fn say_told(store: &Store, plan: &Plan, told: Told, said: &mut Said)
    requires { IsReady store.now plan.now }
{
    match told {
        Told::Parts => say_parts(plan, said),
        Told::Names => say_touched(store, plan, said),
        Told::Stanza(key) => say_come(plan, key, said),
    }
}

/// Plans an edit: something of its plan.
pub fn say_planned(store: &mut Store, edit: Edit, told: Told, said: &mut Said) {
    match store.prepare(edit) {
        Ok(plan) => {
            say_told(store, &plan, told, said);
            let_go(plan)
        }
        Err((_, why)) => say_refused(why, said),
    }
}

// Makes the edit of a plan: the keys that go and come.
fn say_committed(store: &mut Store, plan: Plan, said: &mut Said)
    requires { IsReady store.old plan }
{
    said.add(b"made");
    said.keys(b" -", plan.removed());
    said.keys(b" +", plan.added());
    store.commit(plan);
}

/// Makes an edit: the keys that go and come.
pub fn say_made(store: &mut Store, edit: Edit, said: &mut Said) {
    match store.prepare(edit) {
        Ok(plan) => say_committed(store, plan, said),
        Err((_, why)) => say_refused(why, said),
    }
}

// Where an edit would be refused, why.
fn say_foretold(store: &Store, edit: &Edit, said: &mut Said) {
    match store.check(edit) {
        Ok(()) => said.add(b"foretold nothing"),
        Err(why) => said.all(&[b"foretold ", why.text().as_bytes()]),
    }
}

// Of an edit that takes a stanza out or a list, its parts.
fn say_edit(edit: &Edit, said: &mut Said) {
    said.add(edit_name(edit));
    match edit {
        Edit::Remove {
            list,
            package,
            version,
        } => {
            said.all(&[b" ", list.as_slice(), b" ", package.as_slice()]);
            said.all(&[b" ", version.text()]);
        }
        Edit::DropList { name } => said.all(&[b" ", name.as_slice()]),
        _ => (),
    }
}

// An edit that came back: why, and its parts; then another is made, and then what came back.
fn say_back(store: &mut Store, other: Edit, back: Edit, why: Refusal, said: &mut Said) {
    say_refused(why, said);
    said.add(b", back: ");
    say_edit(&back, said);
    said.add(b", ");
    say_made(store, other, said);
    said.add(b", ");
    say_made(store, back, said);
}

/// Prepares an edit that is refused, and which comes back; makes another, and then what came back.
pub fn say_late(store: &mut Store, other: Edit, edit: Edit, said: &mut Said) {
    say_foretold(store, &edit, said);
    said.add(b", ");
    match store.prepare(edit) {
        Ok(plan) => {
            said.fail("an edit that is not refused");
            let_go(plan)
        }
        Err((back, why)) => say_back(store, other, back, why, said),
    }
}

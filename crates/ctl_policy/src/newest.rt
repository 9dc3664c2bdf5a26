//! Rows, lent from the newest to the oldest.

ghost use Rattle.std.specs.Prelude.{◌≡◌, [], map};
ghost use Rattle.ctl_policy.specs.Rows.{newest_first, keys_of_row};
ghost use Rattle.ctl_policy.specs.Inside.HeldRows.{rows_of_form, IsOrderedForm};

use crate::form::Form;
use ctl_relation::Version;
use ctl_store::StanzaKey;
use std::collections::btree_map;
use std::marker::Model;
use std::slice;

/// What is left of the rows.
#[derive(Drop)]
pub enum Left<'a> {
    One(Option<&'a StanzaKey>),
    Many(btree_map::Iter<'a, Version, Vec<StanzaKey>>),
}

/// The rows of a name, by [`Rows::iter`](crate::Rows::iter), newest first: the keys of each.
#[derive(Drop)]
pub struct NewestFirst<'a> {
    left: Left<'a>,
}

impl<'a> Model for NewestFirst<'a> {
    ghost use Rattle.std.specs.Prelude.{List};
    ghost use Rattle.ctl_store.specs.declared.stanza_key.StanzaKey.{StanzaKey};
    ghost use Rattle.ctl_policy.specs.Inside.HeldIter.{keys_left};

    ghost Value = { List (List StanzaKey) };

    ghost view = { λ it. keys_left it.left };
}

impl<'a> NewestFirst<'a> {
    /// No rows.
    pub fn none() -> NewestFirst<'a>
        ensures { result ≡ [] }
    {
        let left = Left::One(None);
        NewestFirst { left }
    }

    /// Those of a form.
    pub(crate) fn new(form: &'a Form) -> NewestFirst<'a>
        requires { IsOrderedForm form.now }
        ensures { result ≡ map keys_of_row (newest_first (rows_of_form form.now)) }
    {
        match form {
            Form::Empty => NewestFirst {
                left: Left::One(None),
            },
            Form::One(_, key) => NewestFirst {
                left: Left::One(Some(key)),
            },
            Form::Many(map) => NewestFirst {
                left: Left::Many(map.iter()),
            },
        }
    }
}

impl<'a> Iterator for NewestFirst<'a> {
    ghost use Rattle.std.specs.Iterator.{YieldsFirstBy, item_count};

    ghost next_gives = { YieldsFirstBy (λ item. item.now) (λ rest. rest) };

    ghost remaining = { item_count (λ rest. rest) };

    type Item = &'a [StanzaKey];

    fn next(&mut self) -> Option<&'a [StanzaKey]> {
        match &mut self.left {
            Left::One(key) => {
                let key = key.take()?;
                Some(slice::from_ref(key))
            }
            Left::Many(rows) => {
                let (_, keys) = rows.next_back()?;
                Some(keys)
            }
        }
    }
}

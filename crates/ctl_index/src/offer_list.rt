//! The keys of the offers of a name, in the order of their stanzas.

ghost use Rattle.std.specs.Prelude.{◌≡◌, ◌∷◌, [], length, nat_eq, IfOk, OnOk, OnErr};
ghost use Rattle.std.specs.Bool.{OnTrue, OnFalse};
ghost use Rattle.ctl_index.specs.Inside.OfferList.{offers_of_form};
ghost use Rattle.ctl_index.specs.Inside.TablesOrder.{is_within, offer_stanza, others, put_in_order};

use crate::key_list::KeyList;
use crate::keys::OfferKey;
use crate::span::Span;
use ctl_store::{StanzaKey, compare_keys};
use std::alloc::{AllocError, Global};
use std::marker::Model;
use std::mem::size_of;
use std::slice;

// Few names have many, so those stand in a place of their own, by which one takes 24 bytes under each name and not 32.
#[derive(Drop)]
enum Form {
    Empty,
    One(OfferKey),
    Many(Box<KeyList<OfferKey>>),
}

/// The keys of the offers of a name, in the order of their stanzas. Most names have one offer, which takes no memory of its own.
#[derive(Drop)]
pub(crate) struct OfferList {
    alloc: Global,
    form: Form,
}

const _: () = prove!(size_of::<OfferList>() == 24);

impl Model for OfferList {
    ghost use Rattle.std.specs.Prelude.{List};
    ghost use Rattle.ctl_index.specs.Inside.OfferList.{offers_of_form};
    ghost use Rattle.ctl_index.specs.declared.keys.OfferKey.{OfferKey};

    ghost Value = { List OfferKey };

    ghost view = { λ list. offers_of_form list.form };
}

// Whether a stanza is one of a span.
fn is_within(key: StanzaKey, span: Span) -> bool
    ensures { result ≡ is_within span key }
{
    compare_keys(&key, &span.first).is_ge() && compare_keys(&key, &span.last).is_le()
}

// The form of two keys or more.
fn grown(alloc: Global, there: OfferKey, key: OfferKey) -> Result<Form, AllocError>
    ensures { IfOk result (λ form. offers_of_form form ≡ put_in_order offer_stanza key (there ∷ [])) }
{
    let mut keys = KeyList::of_one(alloc, there)?;
    keys.put(key)?;
    Ok(Form::Many(Box::new(alloc, keys)?))
}

// A key comes, behind those of its stanza and of earlier ones.
fn put_in(alloc: Global, form: &mut Form, key: OfferKey) -> Result<(), AllocError>
    ensures ok { OnOk result (offers_of_form form.new ≡ put_in_order offer_stanza key (offers_of_form form.old)) }
    ensures err { OnErr result (offers_of_form form.new ≡ offers_of_form form.old) }
{
    let grown = match form {
        Form::Empty => Form::One(key),
        Form::One(there) => grown(alloc, *there, key)?,
        Form::Many(keys) => return keys.as_mut().put(key),
    };
    *form = grown;
    Ok(())
}

// Those of a span go, or it is told that the only one is of the span.
fn take_and_tell(form: &mut Form, span: Span) -> bool
    ensures gone { OnTrue result (others offer_stanza span (offers_of_form form.old) ≡ []) }
    ensures stays { OnFalse result (offers_of_form form.new ≡ others offer_stanza span (offers_of_form form.old)) }
{
    match form {
        Form::Empty => false,
        Form::One(key) => is_within(key.stanza.key(), span),
        Form::Many(keys) => {
            keys.as_mut().take(span);
            false
        }
    }
}

impl OfferList {
    /// No offers. It takes no memory.
    pub(crate) fn new(alloc: Global) -> OfferList
        ensures { result ≡ [] }
    {
        OfferList {
            alloc,
            form: Form::Empty,
        }
    }

    /// One offer. It takes no memory.
    pub(crate) fn of_one(alloc: Global, key: OfferKey) -> OfferList
        ensures { result ≡ key ∷ [] }
    {
        OfferList {
            alloc,
            form: Form::One(key),
        }
    }

    pub(crate) fn as_slice(&self) -> &[OfferKey]
        ensures { result.now ≡ self.now }
    {
        match &self.form {
            Form::Empty => &[],
            Form::One(key) => slice::from_ref(key),
            Form::Many(keys) => keys.as_slice(),
        }
    }

    pub(crate) fn is_empty(&self) -> bool
        ensures { result ≡ nat_eq (length self.now) 0 }
    {
        self.as_slice().is_empty()
    }

    /// An offer comes, behind those of its stanza and of earlier ones.
    pub(crate) fn put(&mut self, key: OfferKey) -> Result<(), AllocError>
        ensures ok { OnOk result (self.new ≡ put_in_order offer_stanza key self.old) }
        ensures err { OnErr result (self.new ≡ self.old) }
    {
        put_in(self.alloc, &mut self.form, key)
    }

    /// Those of a span go, which stand together.
    pub(crate) fn take(&mut self, span: Span)
        ensures { self.new ≡ others offer_stanza span self.old }
    {
        if take_and_tell(&mut self.form, span) {
            self.form = Form::Empty;
        }
    }
}

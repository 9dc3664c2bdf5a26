//! Names, by which lists and marks are looked up.

use ctl_ordered::Wanted;
use ctl_relation::Bytes;
use std::cmp::Ordering;

/// A name that is lent.
#[derive(Clone, Copy)]
pub(crate) struct Name<'a> {
    pub(crate) bytes: &'a [u8],
}

impl<'a> Wanted<Bytes> for Name<'a> {
    ghost wanted = { λ name. name.bytes.now };

    fn order_of(&self, key: &Bytes) -> Ordering {
        key.as_slice().cmp(self.bytes)
    }
}

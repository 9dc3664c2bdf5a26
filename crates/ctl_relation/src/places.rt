//! Where the atoms of a relation field stand in its body.

ghost use Rattle.std.specs.Prelude.{◌≡◌, ◌<◌, ◌^◌, ℕ, List, length, IfOk};
ghost use Rattle.ctl_relation.specs.Inside.HeldPlaces.{ArePlacesIn, AreHeld, groups_held, groups_kept};

use crate::field_kind::FieldKind;
use crate::groups::Groups;
use std::alloc::AllocError;
use std::mem::size_of;

/// Where the atoms of a relation field stand in its body, four bytes for each: what is kept of a field beside its text.
#[derive(Drop)]
pub struct Places {
    kind: FieldKind,
    // How many places are those of groups: they come first, and behind them those of all further atoms. Both rise, so that the
    // further atoms of a group are those between its place and that of the next group.
    group_count: u32,
    list: Vec<u32>,
}

// A stanza has one for each of its relation fields.
const _: () = prove!(size_of::<Places>() == size_of::<Vec<u32>>() + size_of::<usize>());

impl Places {
    pub(crate) fn new(
        kind: FieldKind,
        starts: Vec<u32>,
        further: Vec<u32>,
    ) -> Result<Places, AllocError>
        requires few { length starts.items < 2 ^ 32 }
        ensures kind { IfOk result (λ places. places.kind ≡ kind) }
        ensures groups { (body : List ℕ) → AreHeld kind body starts.items further.items
            → IfOk result (λ places. groups_kept body places ≡ groups_held kind body starts.items further.items) }
        ensures held { (body : List ℕ) → AreHeld kind body starts.items further.items → IfOk result (ArePlacesIn body) }
    {
        let group_count = starts.len() as u32;
        let mut list = starts;
        list.extend_from_slice(&further)?;
        list.shrink_to_fit();
        Ok(Places {
            kind,
            group_count,
            list,
        })
    }

    /// The field that was read.
    pub fn kind(&self) -> FieldKind
        ensures { result ≡ self.now.kind }
    {
        self.kind
    }

    /// The groups, in the body that was read.
    pub fn groups<'a>(&'a self, body: &'a [u8]) -> Groups<'a>
        requires { ArePlacesIn body.now self.now }
        ensures { result ≡ groups_kept body.now self.now }
    {
        let (starts, further) = self.list.split_at(self.group_count as usize);
        Groups::new(self.kind, body, starts, further)
    }
}

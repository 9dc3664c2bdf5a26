//! Atoms, their printed form, and the counted test.

ghost use Rattle.std.specs.Prelude.{◌≡◌, ◌+◌, ◌-◌, ◌^◌, ◌++◌, None, IfSome, OnOk, OnErr, min, take, vec_len};
ghost use Rattle.ctl_relation.specs.Lent.{lent, lent_bound};
ghost use Rattle.ctl_relation.specs.Met.{met};
ghost use Rattle.ctl_relation.specs.Printed.{atom_text, qualifier_text};
ghost use Rattle.ctl_relation.specs.Version.{fault_of};

use crate::offer::Offer;
use crate::operator::Operator;
use crate::steps::Steps;
use std::alloc::AllocError;
use std::marker::Model;

/// One alternative of a group: the name of a package, an architecture qualifier if there is one, and a bound on its
/// version if there is one (Debian Policy 7.1). It is seen as these three parts, which are lent from the text of the field.
#[derive(Drop)]
pub struct Atom<'a> {
    name: &'a [u8],
    qualifier: Option<&'a [u8]>,
    bound: Option<(Operator, &'a [u8])>,
}

impl<'a> Model for Atom<'a> {
    ghost use Rattle.std.specs.Prelude.{◌≡◌, None, IfSome};
    ghost use Rattle.ctl_relation.specs.Lent.{lent, lent_bound};
    ghost use Rattle.ctl_relation.specs.Parts.{AtomParts};
    ghost use Rattle.ctl_relation.specs.Version.{fault_of};

    ghost Value = { AtomParts };

    ghost view = { λ a. record { name = a.name.now; qualifier = lent a.qualifier; bound = lent_bound a.bound } };

    ghost invariant = { λ a. IfSome a.bound (λ bound. fault_of bound.1.now ≡ None) };
}

impl<'a> Atom<'a> {
    /// The atom of a name, an architecture qualifier and a bound: an operator and a version. It is for those who keep these parts
    /// themselves; the atoms of a field come by [`Group::atoms`](crate::Group::atoms).
    pub fn new(
        name: &'a [u8],
        qualifier: Option<&'a [u8]>,
        bound: Option<(Operator, &'a [u8])>,
    ) -> Atom<'a>
        requires { IfSome bound (λ b. fault_of b.1.now ≡ None) }
        ensures { result ≡ record { name = name.now; qualifier = lent qualifier.entry; bound = lent_bound bound.entry } }
    {
        Atom {
            name,
            qualifier,
            bound,
        }
    }

    /// The name of the package.
    pub fn name(&self) -> &'a [u8]
        ensures { result.now ≡ self.now.name }
    {
        self.name
    }

    /// The architecture qualifier behind the name's colon, as `any`, if there is one.
    pub fn qualifier(&self) -> Option<&'a [u8]>
        ensures { lent result ≡ self.now.qualifier }
    {
        self.qualifier
    }

    /// The operator and the version of the bound, if there is one.
    pub fn bound(&self) -> Option<(Operator, &'a [u8])>
        ensures bound { lent_bound result ≡ self.now.bound }
        ensures version { IfSome result (λ bound. fault_of bound.1.now ≡ None) }
    {
        self.bound
    }

    /// Whether the offer meets the atom, which is counted in `steps` as one test: the offer has the atom's name, and
    /// where the atom has a bound, a version that the operator relates to the bound's. The qualifier plays no part.
    pub fn met_by(&self, offer: &Offer, steps: &mut Steps) -> bool
        ensures met { result ≡ met self.now offer.now }
        ensures counted { steps.new ≡ min (steps.old + 1) (2 ^ 128 - 1) }
    {
        steps.add_one();
        if self.name != offer.name() {
            return false;
        }
        match (self.bound, offer.version()) {
            (None, _) => true,
            (Some(_), None) => false,
            (Some((operator, bound)), Some(version)) => operator.relates(version, bound),
        }
    }

    /// Appends the printed form of the atom to `out`: its name, a colon and the qualifier if there is one, and with a
    /// bound a space and, in parentheses, the operator, a space and the version's text. The only error is want of
    /// memory, after which `out` holds what it held.
    pub fn append_to(&self, out: &mut Vec<u8>) -> Result<(), AllocError>
        ensures ok { OnOk result (out.new.items ≡ out.old.items ++ atom_text self.now) }
        ensures err { OnErr result (out.new.items ≡ out.old.items) }
    {
        let start = out.len();
        match self.append_parts(out) {
            Ok(()) => Ok(()),
            Err(error) => {
                out.truncate(start);
                Err(error)
            }
        }
    }

    // Where memory runs out, what stood in `out` stays at its front.
    fn append_parts(&self, out: &mut Vec<u8>) -> Result<(), AllocError>
        ensures ok { OnOk result (out.new.items ≡ out.old.items ++ atom_text self.now) }
        ensures err { OnErr result (take (vec_len out.old) out.new.items ≡ out.old.items) }
    {
        self.append_name(out)?;
        if let Some((operator, version)) = self.bound {
            out.extend_from_slice(operator.opening())?;
            out.extend_from_slice(version)?;
            out.push(b')')?;
        }
        Ok(())
    }

    // Appends the name, and the qualifier behind its colon. Where memory runs out, what stood in `out` stays at its front.
    fn append_name(&self, out: &mut Vec<u8>) -> Result<(), AllocError>
        ensures ok { OnOk result (out.new.items ≡ out.old.items ++ (self.now.name ++ qualifier_text self.now.qualifier)) }
        ensures err { OnErr result (take (vec_len out.old) out.new.items ≡ out.old.items) }
    {
        out.extend_from_slice(self.name)?;
        if let Some(qualifier) = self.qualifier {
            out.push(b':')?;
            out.extend_from_slice(qualifier)?;
        }
        Ok(())
    }
}

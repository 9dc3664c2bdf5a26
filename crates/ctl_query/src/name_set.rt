//! Names, each once, in the order of their bytes.

ghost use Rattle.std.specs.Prelude.{◌≡◌, ◌||◌, ◌∷◌, ℕ, List, OnOk, IfOk, true};
ghost use Rattle.std.specs.Cmp.Lexicographic.{slice_cmp};
ghost use Rattle.std.specs.List.Sorted.{IsStrictlySortedBy};
ghost use Rattle.std.specs.Ordering.{nat_cmp, is_lt};
ghost use Rattle.std.specs.Str.{bytes_eq};
ghost use Rattle.ctl_query.specs.NameSet.{lent_names, is_among};

use std::alloc::{AllocError, Global};
use std::collections::BTreeSet;

/// Adds a name.
pub(crate) fn add_name<'a>(names: &mut BTreeSet<&'a [u8]>, name: &'a [u8]) -> Result<(), AllocError>
    ensures { OnOk result ((other : List ℕ) → is_among (lent_names names.new.keys) other ≡ (bytes_eq other name.now
        || is_among (lent_names names.old.keys) other)) }
{
    names.insert(name)?;
    Ok(())
}

// Whether a name is the last of some.
fn is_last(names: &[&[u8]], name: &[u8]) -> bool
    ensures { result ≡ true → is_among (lent_names names.now) name.now ≡ true }
{
    match names.last() {
        Some(last) => name == *last,
        None => false,
    }
}

/// Adds a name behind others, unless it is the last of them.
pub(crate) fn push_name<'a>(names: &mut Vec<&'a [u8]>, name: &'a [u8]) -> Result<(), AllocError>
    ensures { OnOk result ((other : List ℕ) → is_among (lent_names names.new.items) other ≡ (bytes_eq other name.now
        || is_among (lent_names names.old.items) other)) }
{
    if is_last(names, name) {
        return Ok(());
    }
    names.push(name)?;
    Ok(())
}

// Whether a name is below another.
fn is_below(name: &[u8], other: &[u8]) -> bool
    ensures { result ≡ is_lt (slice_cmp nat_cmp name.now other.now) }
{
    name.cmp(other).is_lt()
}

// Whether each name is below the one that follows it.
fn are_in_order(names: &[&[u8]]) -> bool
    ensures { result ≡ true → IsStrictlySortedBy (slice_cmp nat_cmp) (lent_names names.now) }
{
    for place in 1..names.len() {
        if !is_below(names[place - 1], names[place]) {
            return false;
        }
    }
    true
}

fn sorted<'a>(alloc: Global, names: &[&'a [u8]]) -> Result<Vec<&'a [u8]>, AllocError>
    ensures order { IfOk result (λ kept. IsStrictlySortedBy (slice_cmp nat_cmp) (lent_names kept.items)) }
    ensures members { IfOk result (λ kept. (name : List ℕ) → is_among (lent_names kept.items) name ≡ is_among (lent_names names.now) name) }
{
    let mut set = BTreeSet::new(alloc);
    'names: for name in names {
        add_name(&mut set, name)?;
    }
    let _count = set.len();
    let mut sorted = Vec::new(alloc);
    'set: for name in &set {
        sorted.push(*name)?;
    }
    Ok(sorted)
}

/// Names, each once, in the order of their bytes. They mostly stand so already.
pub(crate) fn in_order<'a>(alloc: Global, names: Vec<&'a [u8]>) -> Result<Vec<&'a [u8]>, AllocError>
    ensures order { IfOk result (λ kept. IsStrictlySortedBy (slice_cmp nat_cmp) (lent_names kept.items)) }
    ensures members { IfOk result (λ kept. (name : List ℕ) → is_among (lent_names kept.items) name
        ≡ is_among (lent_names names.entry.items) name) }
{
    if are_in_order(&names) {
        return Ok(names);
    }
    sorted(alloc, &names)
}

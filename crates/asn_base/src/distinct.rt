//! Whether the members of a list differ. Each is looked up in an ordered set of those before it.

ghost use Rattle.asn_base.specs.Names.{AreDistinct, IsIdentifier};
ghost use Rattle.std.specs.List.{AllByRecursion};
ghost use Rattle.std.specs.Prelude.{◌↔◌, IfOk, IsTrue, map};

use crate::name::is_identifier;
use std::alloc::{AllocError, Global};
use std::collections::BTreeSet;

/// Whether the numbers differ. `AllocError` comes only if an allocation fails.
pub(crate) fn are_different(alloc: Global, numbers: &[u128]) -> Result<bool, AllocError>
    ensures { IfOk result (λ b. IsTrue b ↔ AreDistinct numbers.now) }
{
    let mut before = BTreeSet::new(alloc);
    for i in 0..numbers.len() {
        match before.insert(numbers[i]) {
            Ok(true) => {}
            Ok(false) => return Ok(false),
            Err(_) => return Err(AllocError),
        }
    }
    Ok(true)
}

/// Whether the names differ. `AllocError` comes only if an allocation fails.
pub(crate) fn are_different_names(alloc: Global, names: &[&str]) -> Result<bool, AllocError>
    ensures { IfOk result (λ b. IsTrue b ↔ AreDistinct (map (λ n. n.now) names.now)) }
{
    let mut before = BTreeSet::new(alloc);
    for name in names {
        match before.insert(*name) {
            Ok(true) => {}
            Ok(false) => return Ok(false),
            Err(_) => return Err(AllocError),
        }
    }
    Ok(true)
}

/// Whether all names are identifiers.
pub(crate) fn are_identifiers(names: &[&str]) -> bool
    ensures { IsTrue result ↔ AllByRecursion IsIdentifier (map (λ n. n.now) names.now) }
{
    for i in 0..names.len() {
        if !is_identifier(names[i]) {
            return false;
        }
    }
    true
}

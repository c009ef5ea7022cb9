//! The numbers of the items of enumerations (X.680, clauses 20.5 and 20.6).

ghost use Rattle.std.specs.Prelude.{◌≡◌, ◌≤◌, ◌<◌, ◌+◌, ◌++◌, ◌^◌, ℤ, pos, List, IfOk, IfErr, OnOk, MatchOption, map};
ghost use Rattle.trees.specs.Types.{item_of};
ghost use Rattle.type_table.specs.declared.items.NumberFault.TheVariants as faults;
ghost use Rattle.type_table.specs.FirstInList.{items_after};
ghost use Rattle.type_table.specs.Items.{given_numbers, root_numbers, additions_from, numbers_of, number_or, past};
ghost use Rattle.type_table.specs.Lists.{AreWithinLimit};
ghost use Rattle.type_table.specs.Seen.{root_items, more_of};
ghost use Rattle.type_table.specs.proving.Sets.{Puts, IsSetOf, IsFree};
ghost use Rattle.type_table.specs.proving.Checks.{IsGreatAt, IsGreatFirst};

use asn_base::law::lemma_integer_within_limit;
use std::alloc::{AllocError, AllocFailed, Global};
use std::collections::BTreeSet;
use trees::{EnumeratedItem, EnumeratedSyntax};

/// Why items get no numbers.
#[derive(Clone, Copy, Debug, PartialEq, Eq)]
pub enum NumberFault {
    /// An allocation failed.
    Memory,
    /// The addition at this place, counted from 0, would get the number 2^127, which is past the limit.
    TooGreat(usize),
}

impl From<AllocError> for NumberFault {
    ghost from_gives = { λ _ e. e ≡ faults.Memory };

    fn from(_e: AllocError) -> NumberFault {
        NumberFault::Memory
    }
}

impl<T: Drop> From<AllocFailed<T>> for NumberFault {
    ghost from_gives = { λ _ e. e ≡ faults.Memory };

    fn from(_e: AllocFailed<T>) -> NumberFault {
        NumberFault::Memory
    }
}

/// The numbers that are written. `AllocError` only if an allocation fails.
fn given(alloc: Global, items: &[EnumeratedItem]) -> Result<Vec<i128>, AllocError>
    ensures { IfOk result (λ v. v.items ≡ given_numbers (map item_of items.now)) }
{
    let mut numbers = Vec::new(alloc);
    for item in items {
        match item.number {
            None => {}
            Some(number) => numbers.push(number)?,
        }
    }
    Ok(numbers)
}

/// Adds a number to a set. `AllocError` only if an allocation fails.
fn put(number: i128, set: &mut BTreeSet<i128>) -> Result<(), AllocError>
    ensures added { OnOk result (Puts set.old.keys set.new.keys number) }
    ensures within { AreWithinLimit set.old.keys → OnOk result (AreWithinLimit set.new.keys) }
{
    lemma_integer_within_limit(number);
    set.insert(number)?;
    Ok(())
}

/// The set of these numbers. `AllocError` only if an allocation fails.
fn set_of(alloc: Global, numbers: &[i128]) -> Result<BTreeSet<i128>, AllocError>
    ensures same { IfOk result (λ s. IsSetOf s.keys numbers.now) }
    ensures within { IfOk result (λ s. AreWithinLimit s.keys) }
{
    let mut set = BTreeSet::new(alloc);
    for i in 0..numbers.len() {
        put(numbers[i], &mut set)?;
    }
    Ok(set)
}

/// The least number from `from` on that isn't in the set.
fn free(used: &BTreeSet<i128>, from: u128) -> u128
    requires within { AreWithinLimit used.now.keys }
    requires small { from ≤ 2 ^ 127 }
    ensures free { IsFree used.now.keys from result }
    ensures few { result < from + 2 ^ 64 }
    ensures small { result ≤ 2 ^ 127 }
{
    let mut at = from;
    for turn in 0..used.len() {
        if at >= 170141183460469231731687303715884105728 {
            return at;
        }
        if !used.contains(&(at as i128)) {
            return at;
        }
        at += 1;
    }
    at
}

/// The numbers of root items (X.680, 20.5). An item with a written number has that number. Each other item gets the
/// next number from 0 on that no root item has in writing.
fn root(alloc: Global, items: &[EnumeratedItem]) -> Result<Vec<i128>, AllocError>
    ensures numbers { IfOk result (λ v. v.items ≡ root_numbers (map item_of items.now)) }
    ensures within { IfOk result (λ v. AreWithinLimit v.items) }
{
    let written = given(alloc, items)?;
    let used = set_of(alloc, &written)?;
    let mut numbers = Vec::new(alloc);
    let mut next = 0u128;
    for item in items {
        match item.number {
            Some(number) => {
                lemma_integer_within_limit(number);
                numbers.push(number)?;
            }
            None => {
                let number = free(&used, next);
                numbers.push(number as i128)?;
                next = number + 1;
            }
        }
    }
    Ok(numbers)
}

/// The least number from 0 on that is greater than this one.
fn above(number: i128) -> u128
    ensures past { result ≡ past number }
    ensures small { result ≤ 2 ^ 127 }
{
    if number < 0 { 0 } else { number as u128 + 1 }
}

/// The written number, or else the least number from `from` on that isn't in the set. The result is None if that is
/// 2^127 or greater.
fn number_or_free(used: &BTreeSet<i128>, from: u128, written: Option<i128>) -> Option<i128>
    requires within { AreWithinLimit used.now.keys }
    requires small { from ≤ 2 ^ 127 }
    ensures { (list : List ℤ) →
        IsSetOf used.now.keys list →
        MatchOption result (number_or from list written ≡ pos (2 ^ 127)) (λ z. z ≡ number_or from list written) }
{
    match written {
        Some(number) => Some(number),
        None => {
            let number = free(used, from);
            if number >= 170141183460469231731687303715884105728 {
                return None;
            }
            Some(number as i128)
        }
    }
}

/// The numbers of root items, and after them those of additions (X.680, 20.6). An addition with a written number has
/// that number. Each other addition gets the least number from 0 on that no root item has and that is greater than
/// those of all earlier additions.
///
/// `Memory`: an allocation failed. `TooGreat`: the number of this addition would be 2^127.
fn with_additions(
    alloc: Global,
    root: Vec<i128>,
    items: &[EnumeratedItem],
) -> Result<Vec<i128>, NumberFault>
    requires { AreWithinLimit root.items }
    ensures numbers { IfOk result (λ v. v.items ≡ root.items ++ additions_from root.items 0 (map item_of items.now)) }
    ensures within { IfOk result (λ v. AreWithinLimit v.items) }
    ensures fault { IfErr result (IsGreatAt root.items (map item_of items.now)) }
    ensures before { IfErr result (IsGreatFirst root.items (map item_of items.now)) }
{
    let used = set_of(alloc, &root)?;
    let mut numbers = root;
    let mut next = 0u128;
    for i in 0..items.len() {
        match number_or_free(&used, next, items[i].number) {
            None => return Err(NumberFault::TooGreat(i)),
            Some(number) => {
                lemma_integer_within_limit(number);
                numbers.push(number)?;
                next = next.max(above(number));
            }
        }
    }
    Ok(numbers)
}

/// The items after the extension marker, or none if there is no marker.
pub(crate) fn additions(given: &EnumeratedSyntax) -> &[EnumeratedItem]
    ensures items { map item_of result.now ≡ more_of given.now }
    ensures same { result.now ≡ items_after given.now }
{
    match &given.additions {
        None => &[],
        Some(items) => items,
    }
}

/// The numbers of the items of an enumeration, first those of the root in order and then those of the additions (X.680,
/// 20.5 and 20.6).
///
/// `Memory`: an allocation failed. `TooGreat`: the number of this addition would be 2^127.
pub fn item_numbers(alloc: Global, given: &EnumeratedSyntax) -> Result<Vec<i128>, NumberFault>
    ensures numbers { IfOk result (λ v. v.items ≡ numbers_of (root_items given.now) (more_of given.now)) }
    ensures within { IfOk result (λ v. AreWithinLimit v.items) }
    ensures fault { IfErr result (IsGreatAt (root_numbers (root_items given.now)) (more_of given.now)) }
    ensures before { IfErr result (IsGreatFirst (root_numbers (root_items given.now)) (more_of given.now)) }
{
    let numbers = root(alloc, &given.root)?;
    match with_additions(alloc, numbers, additions(given)) {
        Ok(all) => Ok(all),
        Err(fault) => Err(fault),
    }
}

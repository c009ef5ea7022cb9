//! What extension markers require of the items of an enumeration (X.680, clause 20).

ghost use Rattle.std.specs.Prelude.{◌≡◌, ◌<◌, ◌≤◌, ◌≤ℤ◌, ◌<ℤ◌, ◌+◌, ◌++◌, ℤ, List, Some, length, slice_get, IfOk, IsTrue, IsFalse, MatchOption};
ghost use Rattle.type_table.specs.Items.{root_numbers, addition_numbers};
ghost use Rattle.type_table.specs.Lists.{IsSoundEnumeration};
ghost use Rattle.type_table.specs.Seen.{root_items, more_of};
ghost use Rattle.additions.specs.proving.Checks.{AscendBefore, FallsFirst};

use std::alloc::{AllocError, Global};
use trees::EnumeratedSyntax;
use type_table::{NumberFault, item_numbers};

/// The number at a place.
fn number_at(numbers: &[i128], at: usize) -> i128
    requires { at < length numbers.now }
    ensures { slice_get numbers.now at ≡ Some result }
{
    numbers[at]
}

/// Whether a number isn't greater than an earlier one.
fn falls(earlier: i128, later: i128) -> bool
    ensures falls { IsTrue result → later ≤ℤ earlier }
    ensures rises { IsFalse result → earlier <ℤ later }
{
    later <= earlier
}

/// The first of the numbers after the first `from` ones that isn't greater than the one before it. Its place is counted
/// from `from`; the result is None if these numbers ascend.
fn falling(numbers: &[i128], from: usize) -> Option<usize>
    requires { from ≤ length numbers.now }
    ensures { (root more : List ℤ) → numbers.now ≡ root ++ more → length root ≡ from → MatchOption result
        (AscendBefore more (length more))
        (λ n. FallsFirst more n × (n < length more)) }
{
    for at in from + 1..numbers.len() {
        if falls(number_at(numbers, at - 1), number_at(numbers, at)) {
            return Some(at - from);
        }
    }
    None
}

/// The number, from 0, of the first addition whose number doesn't ascend, or None if the additions ascend.
pub(crate) fn items_break(
    alloc: Global,
    given: &EnumeratedSyntax,
) -> Result<Option<usize>, AllocError>
    requires { IsSoundEnumeration (root_items given.now) (more_of given.now) }
    ensures { IfOk result (λ o. MatchOption o
        (AscendBefore (addition_numbers (root_items given.now) (more_of given.now)) (length (more_of given.now)))
        (λ n. FallsFirst (addition_numbers (root_items given.now) (more_of given.now)) n
        × (n < length (more_of given.now)))) }
{
    match item_numbers(alloc, given) {
        Ok(numbers) => Ok(falling(&numbers, given.root.len())),
        Err(NumberFault::Memory) => Err(AllocError),
        Err(NumberFault::TooGreat(_)) => unreachable!(),
    }
}

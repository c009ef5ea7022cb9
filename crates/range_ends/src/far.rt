//! The value at the end of the references of each value, found by doubling the steps.

ghost use Rattle.std.specs.Prelude.{ℕ, ◌≤◌, ◌≡◌, IfOk, length, ◌+◌};
ghost use Rattle.type_table.specs.Walks.{IsWithin};
ghost use Rattle.range_ends.specs.proving.Steps.{listed};
ghost use Rattle.range_ends.specs.proving.Far.{AreFar};

use std::alloc::{AllocError, Global};

/// The value that each value refers to, or the value itself if it refers to none.
fn one_step(alloc: Global, target: &[Option<usize>]) -> Result<Vec<usize>, AllocError>
    ensures { IfOk result (λ v. AreFar target.now 1 v.items) }
{
    let mut all = Vec::new(alloc);
    for at in 0..target.len() {
        let next = match target[at] {
            None => at,
            Some(next) => next,
        };
        all.push(next)?;
    }
    Ok(all)
}

/// The values that twice as many steps lead to.
fn twice(
    alloc: Global,
    target: &[Option<usize>],
    steps: usize,
    far: &[usize],
) -> Result<Vec<usize>, AllocError>
    requires within { IsWithin (listed target.now) (length target.now) }
    requires far { AreFar target.now steps far.now }
    ensures { IfOk result (λ v. AreFar target.now (steps + steps) v.items) }
{
    let mut all = Vec::new(alloc);
    for at in 0..far.len() {
        let middle = far[at];
        all.push(far[middle])?;
    }
    Ok(all)
}

/// The value that each value leads to in as many steps as there are values, or in fewer if its references end before.
pub(crate) fn farthest(alloc: Global, target: &[Option<usize>]) -> Result<Vec<usize>, AllocError>
    requires within { IsWithin (listed target.now) (length target.now) }
    ensures { IfOk result (λ v. AreFar target.now (length target.now) v.items) }
{
    let mut far = one_step(alloc, target)?;
    let mut steps: usize = 1;
    for round in 0..target.len() {
        if target.len() <= steps {
            return Ok(far);
        }
        far = twice(alloc, target, steps, &far)?;
        steps = steps.saturating_add(steps);
    }
    Ok(far)
}

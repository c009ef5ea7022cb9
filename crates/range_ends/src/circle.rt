//! The first value of a circle that references come into.

ghost use Rattle.std.specs.Prelude.{◌≡◌, ◌<◌, ℕ, Some, length};
ghost use Rattle.type_table.specs.Walks.{follow, IsWithin, ComesBack};
ghost use Rattle.range_ends.specs.proving.Steps.{listed};
ghost use Rattle.range_ends.specs.proving.Turning.{ComesRound, IsFirstBack, IsRound, Goes};

/// The value that a value refers to, or the value itself if it refers to none.
fn after(target: &[Option<usize>], at: usize) -> usize
    requires inside { at < length target.now }
    ensures { (j : ℕ) → listed target.now at ≡ Some j → result ≡ j }
{
    match target[at] {
        None => at,
        Some(next) => next,
    }
}

/// The value that a number of references lead to, where references never end.
fn far_after(target: &[Option<usize>], start: usize, steps: usize) -> usize
    requires within { IsWithin (listed target.now) (length target.now) }
    requires inside { start < length target.now }
    requires goes { Goes (listed target.now) start }
    ensures { follow (listed target.now) steps start ≡ Some result }
{
    let mut at = start;
    for step in 0..steps {
        at = after(target, at);
    }
    at
}

/// A number of references that lead from a value of a circle back to it. A circle has at most as many values as there
/// are.
fn steps_around(target: &[Option<usize>], start: usize) -> usize
    requires within { IsWithin (listed target.now) (length target.now) }
    requires inside { start < length target.now }
    requires back { ComesBack (listed target.now) start }
    ensures { IsRound (listed target.now) start result }
{
    let mut at = start;
    for step in 1..target.len() {
        at = after(target, at);
        if at == start {
            return step;
        }
    }
    target.len()
}

/// The first value, of those that the references of a value lead to, that is met a second time. The references come to
/// a value of a circle, `on`.
pub(crate) fn first_met_twice(target: &[Option<usize>], start: usize, on: usize) -> usize
    requires within { IsWithin (listed target.now) (length target.now) }
    requires inside { start < length target.now }
    requires round { ComesRound (listed target.now) start on }
    ensures { IsFirstBack (listed target.now) start result }
{
    let around = steps_around(target, on);
    let mut at = start;
    let mut ahead = far_after(target, start, around);
    for step in 0..target.len() {
        if at == ahead {
            return at;
        }
        at = after(target, at);
        ahead = after(target, ahead);
    }
    at
}

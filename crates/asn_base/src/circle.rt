//! Types that lead back to themselves through a DEFAULT.

ghost use Rattle.asn_base.specs.Depths.{row_at, rows_of};
ghost use Rattle.asn_base.specs.Names.{IsMember};
ghost use Rattle.asn_base.specs.proving.Reaching.{AreAbove, AreFrom, IsClosed, IsMarked, Marks, MarksReached, OccursIn, Rise, RowReaches};
ghost use Rattle.std.specs.Prelude.{◌≡◌, ◌<◌, ◌≤◌, ◌↔◌, ℕ, IfOk, IsTrue, MatchOption, OnOk, length, slice_index};

use crate::ranking::{Rows, rank_at, ranks_of};
use std::alloc::{AllocError, Global};

/// Rows with ranks, and whether no number in a row has a lower rank than the row.
#[derive(Clone, Copy)]
struct RankedRows<'a> {
    rows: &'a [Vec<usize>],
    ranks: &'a [usize],
    rise: bool,
}

/// Whether no number in a row has a rank below `rank`.
fn are_from(row: &[usize], rank: usize, ranks: &[usize]) -> bool
    ensures { IsTrue result ↔ AreFrom rank ranks.now row.now }
{
    for i in 0..row.len() {
        if rank_at(ranks, row[i]) < rank {
            return false;
        }
    }
    true
}

/// Whether each number in a row has a rank above `rank`.
fn are_above(row: &[usize], rank: usize, ranks: &[usize]) -> bool
    ensures { IsTrue result ↔ AreAbove rank ranks.now row.now }
{
    for i in 0..row.len() {
        if rank_at(ranks, row[i]) <= rank {
            return false;
        }
    }
    true
}

/// Whether no number in a row has a lower rank than the row.
fn do_rise(rows: &[Vec<usize>], ranks: &[usize]) -> bool
    ensures { IsTrue result → Rise (rows_of rows.now) ranks.now }
{
    for i in 0..rows.len() {
        if !are_from(rows[i].as_slice(), rank_at(ranks, i), ranks) {
            return false;
        }
    }
    true
}

/// Marks a number and adds it to those that wait, unless it is marked.
fn mark(ty: usize, marks: &mut [usize], waiting: &mut Vec<usize>) -> Result<(), AllocError>
    requires { ty < length marks.old }
    ensures { OnOk result (Marks (λ j. j ≡ ty) marks.old marks.new waiting.old.items waiting.new.items) }
{
    if marks[ty] == 1 {
        return Ok(());
    }
    waiting.push(ty)?;
    marks[ty] = 1;
    Ok(())
}

/// Marks all numbers of a row.
fn mark_row(row: &[usize], marks: &mut [usize], waiting: &mut Vec<usize>) -> Result<(), AllocError>
    requires { (j : ℕ) → IsMember j row.now → j < length marks.old }
    ensures { OnOk result (Marks (λ j. IsMember j row.now)
        marks.old marks.new waiting.old.items waiting.new.items) }
{
    for i in 0..row.len() {
        mark(row[i], marks, waiting)?;
    }
    Ok(())
}

/// Marks all numbers that the marked ones lead to. Each waits at most once.
fn mark_reached(
    rows: &[Vec<usize>],
    marks: &mut [usize],
    waiting: &mut Vec<usize>,
) -> Result<(), AllocError>
    requires closed { IsClosed (rows_of rows.now) }
    requires long { length marks.old ≡ length rows.now }
    requires wait { (j : ℕ) → IsMarked marks.old j → OccursIn waiting.old.items j }
    requires marked { (j : ℕ) → OccursIn waiting.old.items j → IsMarked marks.old j }
    ensures { OnOk result (MarksReached (rows_of rows.now) marks.old marks.new) }
{
    while let Some(at) = waiting.pop() {
        mark_row(rows[at].as_slice(), marks, waiting)?;
    }
    Ok(())
}

/// Whether a number of the row leads to this number. No number is marked before.
fn search(
    alloc: Global,
    rows: &[Vec<usize>],
    row: &[usize],
    ty: usize,
    marks: &mut [usize],
) -> Result<bool, AllocError>
    requires closed { IsClosed (rows_of rows.now) }
    requires long { length marks.old ≡ length rows.now }
    requires there { ty < length rows.now }
    requires inside { (j : ℕ) → IsMember j row.now → j < length rows.now }
    requires fresh { (j : ℕ) → IsMarked marks.old j → ⊥ }
    ensures { IfOk result (λ b. IsTrue b ↔ RowReaches (rows_of rows.now) row.now ty) }
{
    let mut waiting = Vec::new(alloc);
    mark_row(row, marks, &mut waiting)?;
    mark_reached(rows, marks, &mut waiting)?;
    Ok(marks[ty] == 1)
}

/// Whether a number of the row leads to this number. The time is linear in what is reached.
fn leads_to(
    alloc: Global,
    rows: &[Vec<usize>],
    row: &[usize],
    ty: usize,
) -> Result<bool, AllocError>
    requires closed { IsClosed (rows_of rows.now) }
    requires there { ty < length rows.now }
    requires inside { (j : ℕ) → IsMember j row.now → j < length rows.now }
    ensures { IfOk result (λ b. IsTrue b ↔ RowReaches (rows_of rows.now) row.now ty) }
{
    let mut marks = vec![in alloc; 0; rows.len()]?;
    search(alloc, rows, row, ty, &mut marks)
}

/// Whether a row of defaults leads back to the row with the same number. If ranks rise, and those of the defaults are
/// higher, it doesn't; otherwise the function searches.
fn leads_back(
    alloc: Global,
    ranked: RankedRows<'_>,
    row: &[usize],
    ty: usize,
) -> Result<bool, AllocError>
    requires closed { IsClosed (rows_of ranked.rows.now) }
    requires ranked { IsTrue ranked.rise → Rise (rows_of ranked.rows.now) ranked.ranks.now }
    requires there { ty < length ranked.rows.now }
    requires inside { (j : ℕ) → IsMember j row.now → j < length ranked.rows.now }
    ensures { IfOk result (λ b. IsTrue b ↔ RowReaches (rows_of ranked.entry.rows.now) row.now ty) }
{
    if ranked.rise && are_above(row, rank_at(ranked.ranks, ty), ranked.ranks) {
        return Ok(false);
    }
    leads_to(alloc, ranked.rows, row, ty)
}

/// The first row of defaults that leads back to the row with the same number, or None. Rows that lead to one another
/// have one rank, so only one row needs a search.
pub(crate) fn first_back(
    alloc: Global,
    rows: &[Vec<usize>],
    defaults: &[Vec<usize>],
) -> Result<Option<usize>, AllocError>
    requires closed { IsClosed (rows_of rows.now) }
    requires long { length defaults.now ≡ length rows.now }
    requires inside { (i j : ℕ) → IsMember j (row_at (rows_of defaults.now) i) → j < length rows.now }
    ensures { IfOk result (λ o. MatchOption o
        ((i : ℕ) → RowReaches (rows_of rows.now) (row_at (rows_of defaults.now) i) i → ⊥)
        (λ i. RowReaches (rows_of rows.now) (row_at (rows_of defaults.now) i) i
        × ((k : ℕ) → k < i → RowReaches (rows_of rows.now) (row_at (rows_of defaults.now) k) k → ⊥))) }
{
    let numbers = ranks_of(alloc, &Rows(rows))?;
    let ranks = numbers.as_slice();
    let ranked = RankedRows {
        rows,
        ranks,
        rise: do_rise(rows, ranks),
    };
    for i in 0..rows.len() {
        if leads_back(alloc, ranked, defaults[i].as_slice(), i)? {
            return Ok(Some(i));
        }
    }
    Ok(None)
}

//! Numbers types so that types that lead to one another have one rank, and any other type that a type leads to has a
//! higher rank. The search looks at each part of a type twice, however the types are chained. The numbering isn't
//! proved: whoever uses the ranks tests that they rise.

ghost use Rattle.std.specs.Prelude.{◌≡◌, slice_index};

use std::alloc::{AllocError, Global};

/// The rank of a type, or 0 if there is no such type.
pub fn rank_at(ranks: &[usize], ty: usize) -> usize
    ensures { result ≡ slice_index ranks.now ty }
{
    match ranks.get(ty) {
        None => 0,
        Some(rank) => *rank,
    }
}

/// Types by number, each with the types that it leads to.
pub trait Graph {
    /// How many types there are.
    fn count(&self) -> usize;

    /// One of the types that a type leads to, by its number among them, or None if the type has fewer.
    fn part(&self, ty: usize, number: usize) -> Option<usize>;
}

/// Rows of numbers: the row of a type has the types that it leads to.
#[derive(Clone, Copy)]
pub(crate) struct Rows<'a>(pub &'a [Vec<usize>]);

impl Graph for Rows<'_> {
    fn count(&self) -> usize {
        self.0.len()
    }

    fn part(&self, ty: usize, number: usize) -> Option<usize> {
        match self.0.get(ty) {
            None => None,
            Some(row) => match row.get(number) {
                None => None,
                Some(part) => Some(*part),
            },
        }
    }
}

/// A type on the way, with the number of its next part, and its own number in the order in which the search came to it.
#[derive(Clone, Copy, Drop)]
struct Visit {
    ty: usize,
    part: usize,
    number: usize,
}

/// A search through all types, deep parts first.
#[derive(Drop)]
struct Ranking {
    /// For each type 0 until the search comes to it. Then it is its number in the order of coming, or the number of an
    /// earlier type that it leads to. At the end it is the type's rank, which is greater than all those numbers.
    numbers: Vec<usize>,
    way: Vec<Visit>,
    /// Types that lead to a type on the way and have no rank yet.
    waiting: Vec<usize>,
    next: usize,
    rank: usize,
}

fn note(numbers: &mut [usize], ty: usize, number: usize) {
    if ty < numbers.len() {
        numbers[ty] = number;
    }
}

impl Ranking {
    fn come_to(&mut self, ty: usize) -> Result<(), AllocError> {
        let number = self.next;
        self.next = number.saturating_add(1);
        note(&mut self.numbers, ty, number);
        self.way.push(Visit {
            ty,
            part: 0,
            number,
        })?;
        Ok(())
    }

    /// Gives its rank to a type that leads to no earlier one, and to the waiting types that lead to it.
    fn close(&mut self, visit: Visit) -> Result<(), AllocError> {
        let rank = self.rank;
        self.rank = rank.saturating_sub(1);
        note(&mut self.numbers, visit.ty, rank);
        for _turn in 0..self.waiting.len() {
            match self.waiting.pop() {
                None => return Ok(()),
                Some(ty) => {
                    if rank_at(&self.numbers, ty) < visit.number {
                        self.waiting.push(ty)?;
                        return Ok(());
                    }
                    note(&mut self.numbers, ty, rank);
                }
            }
        }
        Ok(())
    }

    /// Goes back from a type after all its parts were looked at.
    fn leave(&mut self, visit: Visit) -> Result<(), AllocError> {
        if rank_at(&self.numbers, visit.ty) < visit.number {
            self.waiting.push(visit.ty)?;
            return Ok(());
        }
        self.close(visit)
    }

    /// Looks at the next part of a type. A part that the search meets for the first time is looked at once more
    /// afterwards.
    fn look(&mut self, visit: Visit, part: usize) -> Result<(), AllocError> {
        let number = rank_at(&self.numbers, part);
        if number == 0 && part < self.numbers.len() {
            self.way.push(visit)?;
            return self.come_to(part);
        }
        if 0 < number && number < rank_at(&self.numbers, visit.ty) {
            note(&mut self.numbers, visit.ty, number);
        }
        self.way.push(Visit {
            ty: visit.ty,
            part: visit.part.saturating_add(1),
            number: visit.number,
        })?;
        Ok(())
    }

    fn step<G: Graph>(&mut self, types: &G, visit: Visit) -> Result<(), AllocError> {
        match types.part(visit.ty, visit.part) {
            None => self.leave(visit),
            Some(next) => self.look(visit, next),
        }
    }

    /// Visits all types that a type leads to.
    fn search<G: Graph>(&mut self, types: &G, start: usize) -> Result<(), AllocError> {
        self.come_to(start)?;
        for _turn in 0..u64::MAX {
            match self.way.pop() {
                None => return Ok(()),
                Some(visit) => self.step(types, visit)?,
            }
        }
        Ok(())
    }
}

/// The ranks of all types, in order of their numbers. Whoever uses them tests that they rise. `AllocError` comes only
/// if an allocation fails.
pub fn ranks_of<G: Graph>(alloc: Global, types: &G) -> Result<Vec<usize>, AllocError> {
    let mut ranking = Ranking {
        numbers: vec![in alloc; 0; types.count()]?,
        way: Vec::new(alloc),
        waiting: Vec::new(alloc),
        next: 1,
        rank: usize::MAX,
    };
    for start in 0..types.count() {
        if rank_at(&ranking.numbers, start) == 0 {
            ranking.search(types, start)?;
        }
    }
    Ok(ranking.numbers)
}

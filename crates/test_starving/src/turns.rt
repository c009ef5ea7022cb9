//! Turns, each of which leaves a call a few octets more than the turn before.

use crate::pool::Pool;
use std::alloc::Global;

/// How many turns a sweep has.
const TURNS: usize = 3000;

/// How many octets more a turn leaves than the turn before.
const STEP: usize = 16;

/// How many turns at the beginning of a sweep in a pool leave a few octets more than the turn before.
const FINE_TURNS: usize = 32;

/// After at most how many calls one after another that were right a sweep in a pool ends.
const ENOUGH: usize = 3;

/// The result of a call: the same as with enough memory, `Memory`, or anything else.
#[derive(Clone, Copy, PartialEq, Eq)]
pub enum Turn {
    Right,
    Refused,
    Wrong,
}

/// The result of a turn with an answer that is right or wrong.
pub fn turn_of(is_right: bool) -> Turn {
    if is_right { Turn::Right } else { Turn::Wrong }
}

/// A call without enough memory.
pub trait Starved {
    /// The call, which is made again in each turn.
    fn call(&mut self, alloc: Global) -> Turn;
}

/// The result of a sweep. `Endless`: memory has no end here. `Wrong`: in this turn the call had another result, or it
/// failed with enough memory. `Through`: how often an allocation failed, and how often the call was right.
#[derive(Clone, Copy)]
pub enum Swept {
    Endless,
    Wrong(usize),
    Through { refused: usize, right: usize },
}

/// How many octets the next turn leaves: 16 more, or after the first turns this part more.
fn next(turn: usize, octets: usize, part: usize) -> usize {
    let more = if turn < FINE_TURNS || part == 0 {
        STEP
    } else {
        (octets / part).max(STEP)
    };
    octets.saturating_add(more)
}

/// The turns of a sweep in a pool, until enough calls one after another were right, or the pool has no more.
fn turns_in<S: Starved>(alloc: Global, pool: &mut Pool, part: usize, starved: &mut S) -> Swept {
    let (mut refused, mut right, mut enough) = (0usize, 0usize, 0usize);
    let mut octets: usize = 0;
    for turn in 0..TURNS {
        if enough >= part.max(1).min(ENOUGH) || octets > pool.octets() {
            break;
        }
        if !pool.leave(alloc, octets) {
            return Swept::Endless;
        }
        let answer = starved.call(alloc);
        pool.open();
        match answer {
            Turn::Right => {
                right = right.wrapping_add(1);
                enough = enough.wrapping_add(1);
            }
            Turn::Wrong => return Swept::Wrong(turn),
            Turn::Refused => {
                refused = refused.wrapping_add(1);
                enough = 0;
            }
        }
        octets = next(turn, octets, part);
    }
    Swept::Through { refused, right }
}

/// Makes a call with more memory of a pool in each turn, until it was right in `part` turns one after another, at most
/// three, or the pool has no more; and then with the whole pool. After the first 32 turns each leaves more by one
/// `part`.
pub fn sweep_in<S: Starved>(alloc: Global, pool: &mut Pool, part: usize, starved: &mut S) -> Swept {
    let swept = if pool.measure(alloc) {
        turns_in(alloc, pool, part, starved)
    } else {
        Swept::Endless
    };
    pool.free();
    match swept {
        Swept::Through { .. } if starved.call(alloc) != Turn::Right => Swept::Wrong(TURNS),
        _ => swept,
    }
}

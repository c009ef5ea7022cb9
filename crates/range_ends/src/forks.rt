//! Trees of forks in one list, which share their parts. A tree leads from each number to a leaf.

ghost use Rattle.std.specs.Prelude.{◌≡◌, ℕ, IfOk, OnOk, Some, slice_get};
ghost use Rattle.range_ends.specs.proving.Trees.{IsChanged, IsChangedBelow, KeepBelow, KeepLeaves, branch_of, leaf_below, leaf_in};

use std::alloc::{AllocError, Global};

/// Where even and odd numbers lead: to another fork, or to a leaf if the fork is of the last level.
#[derive(Clone, Copy)]
pub struct Fork {
    pub(crate) even: usize,
    pub(crate) odd: usize,
}

/// Trees with the same number of levels. A tree is given by its first fork.
#[derive(Drop)]
pub struct Forks {
    pub(crate) levels: usize,
    pub(crate) all: Vec<Fork>,
}

/// Where a fork leads for a number.
fn branch(fork: Fork, number: usize) -> usize
    ensures { result ≡ branch_of fork number }
{
    if number % 2 == 0 { fork.even } else { fork.odd }
}

/// The leaf to which a tree of these levels leads for a number.
fn leaf_from(forks: &[Fork], levels: usize, root: usize, number: usize) -> Option<usize>
    ensures { result ≡ leaf_below forks.now levels root number }
{
    let mut at = root;
    let mut rest = number;
    for level in 0..levels {
        match forks.get(at) {
            None => return None,
            Some(fork) => {
                at = branch(*fork, rest);
                rest = rest / 2;
            }
        }
    }
    Some(at)
}

/// The leaf to which a tree leads for a number.
pub(crate) fn leaf(forks: &Forks, root: usize, number: usize) -> Option<usize>
    ensures { result ≡ leaf_in forks.now root number }
{
    leaf_from(&forks.all, forks.levels, root, number)
}

/// Adds a fork. The result is its place.
fn add(forks: &mut Vec<Fork>, fork: Fork) -> Result<usize, AllocError>
    ensures kept { OnOk result (KeepBelow forks.old.items forks.new.items) }
    ensures there { IfOk result (λ r. slice_get forks.new.items r ≡ Some fork) }
{
    let place = forks.len();
    forks.push(fork)?;
    Ok(place)
}

/// Adds a tree that leads from each number to the same leaf. The result is its first fork.
pub(crate) fn even_tree(forks: &mut Forks, leaf: usize) -> Result<usize, AllocError>
    ensures kept { OnOk result (KeepLeaves forks.old forks.new) }
    ensures leads { IfOk result (λ r. (n : ℕ) → leaf_in forks.new r n ≡ Some leaf) }
{
    let levels = forks.levels;
    let mut at = leaf;
    for level in 0..levels {
        at = add(&mut forks.all, Fork { even: at, odd: at })?;
    }
    Ok(at)
}

/// Adds a tree of these levels that leads from one number to a leaf. From other numbers it leads where tree `root`
/// leads.
fn changed_from(
    forks: &mut Vec<Fork>,
    levels: usize,
    root: usize,
    number: usize,
    leaf: usize,
) -> Result<usize, AllocError>
    ensures kept { OnOk result (KeepBelow forks.old.items forks.new.items) }
    ensures leads { IfOk result (λ r. IsChangedBelow forks.old.items forks.new.items levels root r number leaf) }
{
    if levels == 0 {
        return Ok(leaf);
    }
    let fork = match forks.get(root) {
        None => return Ok(root),
        Some(fork) => *fork,
    };
    let below = branch(fork, number);
    let changed = changed_from(forks, levels - 1, below, number / 2, leaf)?;
    if number % 2 == 0 {
        add(
            forks,
            Fork {
                even: changed,
                odd: fork.odd,
            },
        )
    } else {
        add(
            forks,
            Fork {
                even: fork.even,
                odd: changed,
            },
        )
    }
}

/// Adds a tree that leads from one number to a leaf. From other numbers it leads where tree `root` leads. The result is
/// its first fork.
pub(crate) fn changed_tree(
    forks: &mut Forks,
    root: usize,
    number: usize,
    leaf: usize,
) -> Result<usize, AllocError>
    ensures kept { OnOk result (KeepLeaves forks.old forks.new) }
    ensures leads { IfOk result (λ r. IsChanged forks.old forks.new root r number leaf) }
{
    let levels = forks.levels;
    changed_from(&mut forks.all, levels, root, number, leaf)
}

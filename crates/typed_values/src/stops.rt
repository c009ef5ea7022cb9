//! The names that chains lead through, and for each name the nearest value assignment whose notation it is.

ghost use Rattle.std.specs.Prelude.{◌≡◌, ◌⊎◌, ◌++◌, ◌∷◌, ℕ, suc, [], List, IfOk, IfSome, MatchOption, None, Some, slice_get, string_bytes};
ghost use Rattle.trees.specs.Values.{Name, reference, tree_of};
ghost use Rattle.typed_values.specs.Chains.{Has, number_of};
ghost use Rattle.typed_values.specs.declared.stops.Branch.{Branch as Branch'};
ghost use Rattle.typed_values.specs.proving.Stopping.{HasMore, IsNoted, IsPut};

use indexmap::IndexMap;
use names::NameHasher;
use std::alloc::{AllocError, Global};
use trees::{ValueForm, ValueSyntax};

/// A branch of a tree of numbers: what is known of even numbers, and of odd ones, by their halves.
#[derive(Clone, Copy)]
pub struct Branch {
    pub(crate) even: usize,
    pub(crate) odd: usize,
}

/// For each of some chains, a tree of the names that it leads through. A tree says for each name how many chains were
/// found when the nearest value assignment on the chain got its own whose notation is the name. The trees have their
/// branches in common.
pub struct Stops {
    alloc: Global,
    /// The numbers of names.
    numbers: IndexMap<String, usize, NameHasher>,
    branches: Vec<Branch>,
    /// How many branches lead to what is known of a number.
    height: usize,
}

/// How many bits a number has.
fn bits_of(count: usize) -> usize {
    let mut bits = 1;
    let mut rest = count;
    for step in 0..64 {
        if rest == 0 {
            return bits;
        }
        rest = rest / 2;
        bits = step + 1;
    }
    bits
}

/// The name that a notation is, if it is one with no module's name before it.
fn bare_name(notation: &ValueSyntax) -> Option<&str>
    ensures { MatchOption result ((x : Name) → tree_of notation.now ≡ reference None x → ⊥)
        (λ x. tree_of notation.now ≡ reference None x.now) }
{
    match &notation.form {
        ValueForm::Reference(reference) => match reference.module() {
            None => Some(reference.name()),
            Some(_) => None,
        },
        _ => None,
    }
}

impl Stops {
    /// The trees of no chains: tree 0 has no names. `count` is how many names there may be, and `hasher` hashes them.
    pub(crate) fn of(alloc: Global, hasher: NameHasher, count: usize) -> Result<Self, AllocError>
        ensures { IfOk result (λ s. (x : ℕ) → Has s.branches.items s.height 0 x 0) }
    {
        Ok(Stops {
            alloc,
            numbers: IndexMap::with_hasher(alloc, hasher),
            branches: vec![in alloc; Branch { even: 0, odd: 0 }; 1]?,
            height: bits_of(count),
        })
    }

    /// The tree of a chain without names, for a table without chains. It takes no memory.
    pub(crate) fn none(alloc: Global) -> Self
        ensures { (x : ℕ) → Has result.branches.items result.height 0 x 0 }
    {
        Stops {
            alloc,
            numbers: IndexMap::with_hasher(alloc, NameHasher::new()),
            branches: Vec::new(alloc),
            height: 0,
        }
    }

    /// The number of a name, if it has one.
    fn number(&self, name: &str) -> Option<usize>
        ensures { result ≡ number_of self.now name.now }
    {
        match self.numbers.get(name) {
            None => None,
            Some(number) => Some(*number),
        }
    }

    /// The number of a name, which gets one if it has none. None if there is not enough memory.
    fn number_for(&mut self, name: &str) -> Option<usize>
        ensures it { IfSome result (λ i. number_of self.new name.now ≡ Some i) }
        ensures more { HasMore self.old self.new }
        ensures branches { self.new.branches ≡ self.old.branches }
    {
        match self.number(name) {
            Some(number) => Some(number),
            None => match String::from_str(self.alloc, name) {
                Ok(text) => self.number_new(text),
                Err(_) => None,
            },
        }
    }

    /// The number of a name that has none yet. None if there is not enough memory.
    fn number_new(&mut self, name: String) -> Option<usize>
        requires fresh { number_of self.old (string_bytes name) ≡ None }
        ensures it { IfSome result (λ i. number_of self.new (string_bytes name) ≡ Some i) }
        ensures more { HasMore self.old self.new }
        ensures branches { self.new.branches ≡ self.old.branches }
    {
        let number = self.numbers.len();
        match self.numbers.insert(name, number) {
            Ok(_) => Some(number),
            Err(_) => None,
        }
    }

    /// What a tree has for a number.
    fn found(&self, height: usize, tree: usize, number: usize) -> Option<usize>
        ensures { MatchOption result ((y : ℕ) → Has self.now.branches.items height tree number y → ⊥)
            (Has self.now.branches.items height tree number) }
    {
        if height == 0 {
            return Some(tree);
        }
        if tree >= self.branches.len() {
            return None;
        }
        let branch = self.branches[tree];
        if number % 2 == 0 {
            self.found(height - 1, branch.even, number / 2)
        } else {
            self.found(height - 1, branch.odd, number / 2)
        }
    }

    /// What the tree of a chain has for a name.
    pub(crate) fn nearest(&self, tree: usize, name: &str) -> Option<usize>
        ensures none { (i y : ℕ)
            → number_of self.now name.now ≡ Some i
            → Has self.now.branches.items self.now.height tree i y
            → result ≡ Some y }
        ensures it { IfSome result (λ y. (i : ℕ) × Has self.now.branches.items self.now.height tree i y) }
    {
        match self.number(name) {
            None => None,
            Some(number) => self.found(self.height, tree, number),
        }
    }

    /// Adds a branch, if there is enough memory.
    fn add(&mut self, branch: Branch) -> Option<usize>
        ensures more { (bs : List Branch') × (self.new.branches.items ≡ self.old.branches.items ++ bs) }
        ensures there { IfSome result (λ at. slice_get self.new.branches.items at ≡ Some branch) }
        ensures numbers { self.new.numbers ≡ self.old.numbers }
        ensures height { self.new.height ≡ self.old.height }
    {
        let at = self.branches.len();
        match self.branches.push(branch) {
            Ok(()) => Some(at),
            Err(_) => None,
        }
    }

    /// A tree that has a value for a number, and what another one has for the others. None if there is not enough
    /// memory.
    fn put(&mut self, height: usize, tree: usize, number: usize, value: usize) -> Option<usize>
        ensures it { IfSome result
            (IsPut self.old.branches.items self.new.branches.items height tree number value) }
        ensures more { (bs : List Branch') × (self.new.branches.items ≡ self.old.branches.items ++ bs) }
        ensures numbers { self.new.numbers ≡ self.old.numbers }
        ensures height { self.new.height ≡ self.old.height }
    {
        if height == 0 {
            return Some(value);
        }
        if tree >= self.branches.len() {
            return None;
        }
        let branch = self.branches[tree];
        if number % 2 == 0 {
            let Some(even) = self.put(height - 1, branch.even, number / 2, value) else {
                return None;
            };
            self.add(Branch {
                even,
                odd: branch.odd,
            })
        } else {
            let Some(odd) = self.put(height - 1, branch.odd, number / 2, value) else {
                return None;
            };
            self.add(Branch {
                even: branch.even,
                odd,
            })
        }
    }

    /// The tree of a chain that leads through one more notation, to the tree of the others.
    pub(crate) fn noted(
        &mut self,
        tree: usize,
        notation: &ValueSyntax,
        value: usize,
    ) -> Option<usize>
        ensures it { IfSome result (IsNoted self.old self.new tree (tree_of notation.now) value) }
        ensures more { HasMore self.old self.new }
    {
        match bare_name(notation) {
            None => Some(tree),
            Some(name) => match self.number_for(name) {
                None => None,
                Some(number) => self.put(self.height, tree, number, value),
            },
        }
    }
}

impl Drop for Stops {
    fn drop(self) {
        let Stops {
            alloc: _,
            numbers: _,
            branches: _,
            height: _,
        } = self;
    }
}

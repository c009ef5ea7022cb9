//! The values whose notations are being read.

ghost use Rattle.std.specs.Prelude.{◌≡◌, ◌<◌, ℕ, List, [], ◌∷◌, ◌++◌, length, true, false, MatchOption, OnErr, OnOk, Some, slice_get};
ghost use Rattle.names.specs.Modules.{OccursIn};

use indexmap::IndexSet;
use std::alloc::{AllocError, Global};
use std::marker::Model;

/// Whether `turns` says a turn after `latest` for this number.
fn is_later(turns: &[u32], number: usize, latest: u32) -> bool
    ensures { result ≡ true → (t : ℕ) → slice_get turns.now number ≡ Some t → latest < t }
{
    number < turns.len() && turns[number] > latest
}

/// The numbers of the values whose notations are being read, the latest first.
#[derive(Drop)]
pub struct Opened {
    /// The numbers in the order in which they were added: the latest last.
    numbers: IndexSet<usize>,
}

impl Model for Opened {
    ghost use Rattle.std.specs.Prelude.{ℕ, List, reverse};

    ghost Value = { List ℕ };

    ghost view = { λ o. reverse o.numbers.keys };
}

impl Opened {
    /// An empty list. The call takes no memory.
    pub fn new(alloc: Global) -> Self
        ensures { result ≡ [] }
    {
        Opened {
            numbers: IndexSet::new(alloc),
        }
    }

    /// How many values there are.
    #[tactic(auto, using(crate::proofs::Opening::counted))]
    pub fn count(&self) -> usize
        ensures { result ≡ length self.now }
    {
        self.numbers.len()
    }

    /// Keeps the `count` earliest values, and removes the others.
    #[tactic(auto, using(crate::proofs::Opening::closed))]
    pub fn close(&mut self, count: usize)
        ensures { (xs os : List ℕ) → self.old ≡ xs ++ os → length os ≡ count → self.new ≡ os }
    {
        self.numbers.truncate(count);
    }

    /// Whether a value is among them. The time doesn't depend on how many there are.
    #[tactic(auto, using(crate::proofs::Opening::held, crate::proofs::Opening::not_held))]
    pub(crate) fn holds(&self, number: usize) -> bool
        ensures yes { result ≡ true → OccursIn self.now number }
        ensures no { result ≡ false → OccursIn self.now number → ⊥ }
    {
        self.numbers.contains(&number)
    }

    /// Whether `turns` says for each of them, by its number, a turn after `latest`.
    pub fn are_later(&self, turns: &[u32], latest: u32) -> bool
        ensures { result ≡ true → (x t : ℕ) → OccursIn self.now x → slice_get turns.now x ≡ Some t → latest < t }
    {
        for i in 0..self.numbers.len() {
            match self.numbers.get_index(i) {
                None => return false,
                Some(number) => {
                    if !is_later(turns, *number, latest) {
                        return false;
                    }
                }
            }
        }
        true
    }

    /// Removes the latest value, and returns it; None if there is none.
    pub fn close_latest(&mut self) -> Option<usize>
        ensures { MatchOption result ((self.old ≡ []) × (self.new ≡ [])) (λ number. self.old ≡ number ∷ self.new) }
    {
        let count = self.numbers.len();
        if count == 0 {
            return None;
        }
        match self.numbers.get_index(count - 1) {
            None => None,
            Some(number) => {
                let number = *number;
                self.numbers.truncate(count - 1);
                Some(number)
            }
        }
    }

    /// Adds one more value, as the latest. An `Err` adds none.
    pub fn open(&mut self, number: usize) -> Result<(), AllocError>
        requires fresh { OccursIn self.old number → ⊥ }
        ensures ok { OnOk result (self.new ≡ number ∷ self.old) }
        ensures err { OnErr result (self.new ≡ self.old) }
    {
        self.numbers.insert(number)?;
        Ok(())
    }
}

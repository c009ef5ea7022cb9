//! Values that several DEFAULTs share.

ghost use Rattle.std.specs.Prelude.{◌≡◌, IfOk, IfSome};
ghost use Rattle.asn_base.specs.Abstract.{abstract};
ghost use Rattle.extensions.specs.proving.Tables.{shared_seen};

use crate::equal::are_equal;
use asn_base::value::Value;
use names::Assigned;
use resolve::Linked;
use std::alloc::{AllocError, Global};
use std::rc::Rc;
use trees::{ValueForm, ValueSyntax};
use typed_values::ValueSite;

/// A value of a DEFAULT, which others may share.
pub(crate) struct Shared {
    pub held: Rc<Value>,
}

impl Shared {
    /// A value that no other DEFAULT shares yet. `AllocError` only if an allocation fails.
    fn of(alloc: Global, value: Value) -> Result<Self, AllocError>
        ensures { IfOk result (λ s. shared_seen s ≡ abstract value) }
    {
        Ok(Shared {
            held: Rc::new(alloc, value)?,
        })
    }

    /// Another handle to the same value. `AllocError` only if an allocation fails.
    fn share(&self) -> Result<Self, AllocError>
        ensures { IfOk result (λ s. shared_seen s ≡ shared_seen self.now) }
    {
        Ok(Shared {
            held: self.held.clone()?,
        })
    }
}

/// For each value assignment, the value of the latest DEFAULT that names it, if there is one.
pub(crate) struct Pool {
    named: Vec<Option<Shared>>,
}

/// The number of the value assignment that a notation names, if the notation is only a name.
fn named_by(linked: &Linked, within: &str, notation: &ValueSyntax) -> Option<usize> {
    let ValueForm::Reference(reference) = &notation.form else {
        return None;
    };
    match linked.refers(within, reference.module(), reference.name()) {
        Some(Assigned::Value(number)) => Some(number),
        Some(Assigned::Type(_)) => None,
        None => None,
    }
}

impl Pool {
    /// An empty pool for this number of value assignments. `AllocError` only if an allocation fails.
    pub(crate) fn of(alloc: Global, count: usize) -> Result<Self, AllocError> {
        let mut named = Vec::new(alloc);
        for step in 0..count {
            named.push(None)?;
        }
        Ok(Pool { named })
    }

    /// The value that is kept for this number, if it is equal to `value`.
    fn kept(&self, number: usize, value: &Value) -> Option<&Shared>
        ensures { IfSome result (λ r. shared_seen r.now ≡ abstract value.now) }
    {
        match self.named.get(number) {
            Some(Some(kept)) => {
                if are_equal(&kept.held, value) {
                    Some(kept)
                } else {
                    None
                }
            }
            _ => None,
        }
    }

    /// Keeps a value for this number. `AllocError` only if an allocation fails.
    fn keep(&mut self, number: usize, value: &Shared) -> Result<(), AllocError> {
        if number < self.named.len() {
            self.named[number] = Some(value.share()?);
        }
        Ok(())
    }

    /// The value of the DEFAULT at this site. It shares its memory with the latest DEFAULT that names the same value
    /// assignment, if their values are equal. Otherwise components with one long DEFAULT would each have a copy.
    /// `AllocError` only if an allocation fails.
    pub(crate) fn place(
        &mut self,
        alloc: Global,
        linked: &Linked,
        at: ValueSite<'_>,
        value: Value,
    ) -> Result<Shared, AllocError>
        ensures { IfOk result (λ r. shared_seen r ≡ abstract value) }
    {
        let Some(number) = named_by(linked, at.within, at.notation) else {
            return Shared::of(alloc, value);
        };
        match self.kept(number, &value) {
            Some(kept) => kept.share(),
            None => {
                let shared = Shared::of(alloc, value)?;
                self.keep(number, &shared)?;
                Ok(shared)
            }
        }
    }
}

impl Drop for Shared {
    fn drop(self) {
        let Shared { held: _ } = self;
    }
}

impl Drop for Pool {
    fn drop(self) {
        let Pool { named: _ } = self;
    }
}

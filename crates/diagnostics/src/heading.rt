//! How the line begins that a user gets.

ghost use Rattle.std.specs.Prelude.{◌≡◌, IfOk, string_bytes};
ghost use Rattle.diagnostics.specs.Heading.{heading_of};

use messages::{Fault, name, number};
use std::alloc::{AllocError, Global};

/// `error N NAME`.
#[tactic(auto, using(crate::proofs::Reporting::headed))]
pub(crate) fn heading(alloc: Global, fault: &Fault) -> Result<String, AllocError>
    ensures { IfOk result (λ s. string_bytes s ≡ heading_of fault.now) }
{
    let number = number(fault);
    let name = name(fault);
    format!(in alloc; "error {number} {name}")
}

//! Why texts aren't accepted.

ghost use Rattle.std.specs.Prelude.{◌≡◌};
ghost use Rattle.front_end.specs.declared.fault.CompileError.TheVariants.{Memory};

use constraints::BoundFault;
use extensions::additions::ExtFault;
use names::NameFault;
use notation::SyntaxFault;
use std::alloc::{AllocError, AllocFailed};
use tagging::TagFault;
use text::LexFault;
use thiserror::Error;
use value_diagnostics::ValueDiagnostic;

/// Why texts aren't accepted. The fault owns the names in it. It is printed as its number and name, and its place. That
/// is an octet or a token of the text, counted from 0, or the module, the name and the octet in that module's text.
#[derive(Debug, Error)]
pub enum CompileError {
    /// An allocation failed.
    #[error("1 Memory: out of memory")]
    Memory,
    /// The text with this number, counted from 0, has no tokens (X.680, clause 12).
    #[error("{1}")]
    Text(usize, LexFault),
    /// The tokens of the text with this number, counted from 0, aren't a module (X.680, clause 13).
    #[error("{1}")]
    Tree(usize, SyntaxFault),
    /// A name of the modules has no meaning (X.680, clauses 13 and 14).
    #[error("{0}")]
    Name(NameFault),
    /// A type doesn't have its tags (X.680, clauses 25, 27, 29 and 31).
    #[error("{0}")]
    Tag(TagFault),
    /// A constraint has no meaning, or allows nothing (X.680, clauses 49 to 51).
    #[error("{0}")]
    Bound(BoundFault),
    /// An addition, or a member after one, breaks a rule of extension markers (X.680, clauses 20, 25 and 29).
    #[error("{0}")]
    Additions(ExtFault),
    /// The notation of a DEFAULT means no value of its component's type (X.680, clause 25.1).
    #[error("{0}")]
    Default(ValueDiagnostic),
    /// The notation of a value assignment means no value of its type (X.680, clause 16.2).
    #[error("{0}")]
    Assigned(ValueDiagnostic),
}

impl<T: Drop> From<AllocFailed<T>> for CompileError {
    ghost from_gives = { λ _ e. e ≡ Memory };

    fn from(_error: AllocFailed<T>) -> CompileError {
        CompileError::Memory
    }
}

impl From<AllocError> for CompileError {
    ghost from_gives = { λ _ e. e ≡ Memory };

    fn from(_error: AllocError) -> CompileError {
        CompileError::Memory
    }
}

impl Drop for CompileError {
    fn drop(self) {
        match self {
            CompileError::Memory => {}
            CompileError::Text(_, _) => {}
            CompileError::Tree(_, _) => {}
            CompileError::Name(_) => {}
            CompileError::Tag(_) => {}
            CompileError::Bound(_) => {}
            CompileError::Additions(_) => {}
            CompileError::Default(_) => {}
            CompileError::Assigned(_) => {}
        }
    }
}

//! Opens texts through all layers.

ghost use Rattle.std.specs.Prelude.{◌≡◌, IfOk, IfErr, MatchResult, map};
ghost use Rattle.resolve.specs.Program.{Program};
ghost use Rattle.front_end.specs.Accepted.{Accepted, AreAccepted, octets_of};
ghost use Rattle.front_end.specs.Faults.{IsRightCompileError};
ghost use Rattle.front_end.specs.declared.fault.CompileError.TheVariants.{Memory};

use crate::building::{build_checked, linked};
use crate::fault::CompileError;
use crate::law::{lemma_faults_exclude, lemma_modules_linked, one_program};
use crate::modules::Modules;
use crate::reading::modules_of;
use asn_base::schema::Schema;
use std::alloc::Global;

/// Accepted texts: the program that they are, and its types. A type has the same number in both.
#[derive(Drop)]
pub struct CheckedModules {
    /// The modules, in which each name has a meaning, with what is found once for all values of their types.
    pub modules: Modules,
    /// The types of the program.
    pub schema: Schema,
}

/// Returns the program and the types of texts, each of which is one module.
///
/// The error is the first fault. For each text in turn the faults of its octets come first, and then those of its
/// tokens. The faults of names, of tags and of constraints follow. Last come those of additions after extension
/// markers, of DEFAULTs and of value assignments. `Memory`: an allocation failed.
pub fn open(alloc: Global, texts: &[Vec<u8>]) -> Result<CheckedModules, CompileError>
    // The texts are accepted, as this program with these types.
    ensures accepted { IfOk result (λ f. Accepted (map octets_of texts.now) f.modules f.schema) }
    // Accepted texts give the program that they are, unless an allocation fails.
    ensures only { (p : Program) →
        AreAccepted (map octets_of texts.now) p →
        MatchResult result (λ f. f.modules ≡ p) (λ e. e ≡ Memory) }
    // A fault is true, and is the first one in reading order, with its offset in the modules as they are written.
    ensures fault { IfErr result (IsRightCompileError (map octets_of texts.now)) }
{
    lemma_faults_exclude();
    one_program();
    lemma_modules_linked();
    let modules = match modules_of(alloc, texts) {
        Ok(modules) => modules,
        Err(fault) => return Err(fault),
    };
    let linked = match linked(alloc, modules) {
        Ok(linked) => linked,
        Err(fault) => return Err(fault),
    };
    match build_checked(alloc, linked) {
        Ok(front) => Ok(front),
        Err(fault) => Err(fault),
    }
}

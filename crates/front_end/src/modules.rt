//! The modules of accepted texts, and the values that notations in them mean.

ghost use Rattle.std.specs.Prelude.{◌≡◌, ◌<◌, IfOk, IfErr, length};
ghost use Rattle.asn_base.specs.Abstract.{abstract};
ghost use Rattle.trees.specs.Values.{tree_of};
ghost use Rattle.tagging.specs.Tables.{AreTagsOf};
ghost use Rattle.constraints.specs.Tables.{AreBoundsOf};
ghost use Rattle.extensions.specs.Faults.{IsWrong};
ghost use Rattle.front_end.specs.Accepted.{IsCheckedProgram};
ghost use Rattle.front_end.specs.ValueError.{IsValueError, DenotesValue};

use asn_base::schema::TypeId;
use asn_base::value::Value;
use constraints::{BoundTable, Bounded};
use resolve::Linked;
use std::alloc::Global;
use std::marker::Model;
use tagging::{TagTable, Tagged};
use trees::ValueSyntax;
use value_diagnostics::typed_values::{Cause, ValueFault, ValueSite, typed};
use value_diagnostics::{ValueDiagnostic, diagnostic};

/// Why a notation has no value.
#[derive(Debug, Drop)]
pub enum ValueError {
    /// An allocation failed.
    Memory,
    /// The notation means no value of the type; what is reported for it.
    Diagnosed(ValueDiagnostic),
}

/// The modules of accepted texts, in which each name has a meaning. Their types, DEFAULTs and values are as required.
/// What tags and constraints need is found once, when the modules are made.
pub struct Modules {
    linked: Linked,
    tags: TagTable,
    bounds: BoundTable,
}

impl Model for Modules {
    ghost use Rattle.std.specs.Coded.{codes};
    ghost use Rattle.resolve.specs.Codes.{tree_code};
    ghost use Rattle.resolve.specs.Program.{Program};

    ghost coded = { Prim.hlevel (codes, tree_code) };

    ghost Value = { Program };

    ghost view = { λ m. m.linked.program };

    ghost use Rattle.front_end.specs.proving.Holding.{Holds};

    ghost invariant = { λ m. Holds m.linked.program m.tags m.bounds };
}

/// What is reported for a notation that means no value of a type.
fn error_of<'a>(
    alloc: Global,
    bounded: &Bounded<'a>,
    at: ValueSite<'a>,
    fault: ValueFault<'a>,
) -> ValueError
    requires kept { IsCheckedProgram bounded.now.program }
    requires there { at.ty.index < length bounded.now.program.types }
    requires is_so { IsWrong bounded.now at.within.now at.ty.index at.notation.now fault }
    ensures { IsValueError bounded.now.program at.entry.within.now at.entry.ty.index at.entry.notation.now result }
{
    value_diagnostics::typed_values::law::lemma_faults_exclude();
    value_diagnostics::law::lemma_types_exist();
    let linked = bounded.linked();
    linked.lemma_whole();
    match diagnostic(alloc, bounded, fault) {
        Ok(diagnostic) => ValueError::Diagnosed(diagnostic),
        Err(_) => ValueError::Memory,
    }
}

/// The value that a notation in bounded modules means under a type.
fn value_in<'a>(
    alloc: Global,
    bounded: &Bounded<'a>,
    ty: TypeId,
    within: &'a str,
    notation: &'a ValueSyntax,
) -> Result<Value, ValueError>
    requires kept { IsCheckedProgram bounded.now.program }
    requires there { ty.index < length bounded.now.program.types }
    ensures value { IfOk result
        (λ v. DenotesValue bounded.now.program within.now ty.index (tree_of notation.now) (abstract v)) }
    ensures fault { IfErr result (IsValueError bounded.now.program within.now ty.index notation.now) }
{
    match typed(alloc, bounded, ty, within, notation) {
        Ok(value) => Ok(value),
        Err(fault) => match fault.cause {
            Cause::Memory => Err(ValueError::Memory),
            _ => {
                let at = ValueSite {
                    ty,
                    within,
                    notation,
                };
                Err(error_of(alloc, bounded, at, fault))
            }
        },
    }
}

impl Modules {
    /// The modules of accepted texts, with their tables.
    pub(crate) fn of(linked: Linked, tags: TagTable, bounds: BoundTable) -> Modules
        requires kept { IsCheckedProgram linked.program }
        requires tags { AreTagsOf linked.program tags }
        requires bounds { AreBoundsOf linked.program bounds }
        ensures { result ≡ linked.program }
    {
        Modules {
            linked,
            tags,
            bounds,
        }
    }

    /// The linked modules.
    pub fn linked(&self) -> &Linked
        ensures { result.now.program ≡ self.now }
    {
        &self.linked
    }

    /// What holds of the modules of accepted texts.
    pub fn lemma_kept(&self)
        ensures { IsCheckedProgram self.now }
    {
        let _linked = &self.linked;
    }

    /// Returns the value that a notation, read in the module `within`, means under a type (X.680, clause 17). If it
    /// means none, the fault has the reason, the module, the name, the place, and what was expected there. `Memory`: an
    /// allocation failed.
    pub fn typed(
        &self,
        alloc: Global,
        ty: TypeId,
        within: &str,
        notation: &ValueSyntax,
    ) -> Result<Value, ValueError>
        requires { ty.index < length self.now.types }
        ensures value { IfOk result
            (λ v. DenotesValue self.now within.now ty.index (tree_of notation.now) (abstract v)) }
        ensures fault { IfErr result (IsValueError self.now within.now ty.index notation.now) }
    {
        self.lemma_kept();
        let tagged = Tagged::with_table(&self.linked, &self.tags);
        let bounded = Bounded::with_table(&tagged, &self.bounds);
        value_in(alloc, &bounded, ty, within, notation)
    }
}

impl Drop for Modules {
    fn drop(self) {
        let Modules {
            linked: _,
            tags: _,
            bounds: _,
        } = self;
    }
}

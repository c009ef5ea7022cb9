//! Laws of what a user reads about faults. A caller calls a law to know it; the call takes no memory and no time.

ghost use Rattle.std.specs.Prelude.{◌≡◌, ◌<◌, ℕ, List, length};
ghost use Rattle.resolve.specs.Program.{WrittenProgram};
ghost use Rattle.trees.specs.declared.value.ValueSyntax.{ValueSyntax};
ghost use Rattle.trees.specs.Values.{Name};
ghost use Rattle.type_table.specs.Table.{IsLinked};
ghost use Rattle.typed_values.specs.Faults.{IsRightValueFault};
ghost use Rattle.typed_values.specs.declared.fault.Cause.TheVariants as causes;
ghost use Rattle.typed_values.specs.declared.fault.ValueFault.{ValueFault as ValueFault'};

/// A fault of a notation under a type of linked modules has one of their types, unless it is `Memory`.
pub fn lemma_types_exist()
    ensures { (w : WrittenProgram) (levels left i : ℕ) (os : List ℕ) (M : Name) (n : ValueSyntax) (f : ValueFault')
        → IsLinked w.program.types
        → i < length w.program.types
        → IsRightValueFault w levels left os M i n f
        → (f.cause ≡ causes.Memory → ⊥)
        → f.at.ty.index < length w.program.types }
{}

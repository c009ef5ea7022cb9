//! What follows for programs whose constraints have a meaning. A caller calls a law to know it; a law takes no memory
//! and no time.

ghost use Rattle.std.specs.Prelude.{◌≡◌, List};
ghost use Rattle.names.specs.declared.sources.AssignedAt.{AssignedAt};
ghost use Rattle.type_table.specs.declared.table.TypeNode.{TypeNode};
ghost use Rattle.resolve.specs.Program.{IsWhole, Program};
ghost use Rattle.range_ends.specs.First.{HaveOneMeaning};
ghost use Rattle.constraints.specs.Bounded.{AreBounded};
ghost use Rattle.constraints.specs.Faults.{IsRightFault};
ghost use Rattle.constraints.specs.First.{AreWritten, IsFirst, ReportsSame};
ghost use Rattle.constraints.specs.declared.fault.BoundFault.{BoundFault};
ghost use Rattle.constraints.specs.declared.fault.BoundFault.TheVariants.{Memory};

/// If a fault of modules other than `Memory` is true, a constraint has no meaning, or they allow nothing. So `bound`
/// succeeds if and only if they are bounded, unless an allocation fails.
pub fn lemma_fault_excludes()
    ensures { (p : Program) (e : BoundFault) → (e ≡ Memory → ⊥) → IsRightFault p e → AreBounded p → ⊥ }
{}

/// At most one fault is the first. Two first faults of a program whose types and assignments are written so are of one
/// rule, module, assignment and place, as two faults are that [`crate::bound`] may return.
pub fn one_fault()
    ensures { (p : Program) (ws : List TypeNode) (gs : List AssignedAt) (e f : BoundFault) →
        HaveOneMeaning p →
        IsWhole p →
        AreWritten p ws gs →
        IsFirst p ws gs e →
        IsFirst p ws gs f →
        ReportsSame e f }
{
    range_ends::law::one_fault();
    range_ends::law::no_fault();
}

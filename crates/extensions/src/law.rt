//! Laws of settled programs. A caller calls a law to know it; it takes no memory and no time.

ghost use Rattle.std.specs.Prelude.{◌≡◌, List};
ghost use Rattle.std.specs.List.{All};
ghost use Rattle.trees.specs.Modules.{ModuleTree};
ghost use Rattle.resolve.specs.Links.{Links};
ghost use Rattle.resolve.specs.Program.{Program, WrittenProgram};
ghost use Rattle.settled.specs.spelled.Written.{IsSpelledModule};
ghost use Rattle.extensions.specs.declared.fault.ExtFault.{ExtFault};
ghost use Rattle.settled.specs.additions.declared.fault.ExtFault.{ExtFault as AdditionFault};
ghost use Rattle.typed_values.specs.declared.fault.ValueFault.{ValueFault};
ghost use Rattle.typed_values.specs.Laws.{ReportOneNotation};
ghost use Rattle.extensions.specs.declared.fault.ExtFault.TheVariants.{Memory, Additions, Default, Assigned};
ghost use Rattle.extensions.specs.Faults.{IsFirstDefault, IsFirstValue, IsRightExtensionFault};
ghost use Rattle.extensions.specs.SchemaOfModules.{IsLinkedProgram, IsWellTyped};

/// Modules with a fault other than `Memory` don't keep all rules. So `settle` succeeds exactly if they do and no
/// allocation fails.
pub fn lemma_fault_excludes()
    ensures { (w : WrittenProgram) (e : ExtFault) →
        IsLinkedProgram w.program →
        (e ≡ Memory → ⊥) →
        IsRightExtensionFault w e →
        IsWellTyped w.program →
        ⊥ }
{
    settled::additions::law::lemma_fault_excludes();
    typed_values::law::lemma_faults_exclude();
}

/// Faults have an order: those of markers and additions come before those of DEFAULTs, and these before those of value
/// assignments. If one of the three kinds is the first fault, neither of the others is, however the program is written.
pub fn one_kind()
    ensures default_after_markers { (v w : WrittenProgram) (e : AdditionFault) (f : ValueFault) →
        v.program ≡ w.program →
        IsRightExtensionFault w (Additions e) →
        IsRightExtensionFault v (Default f) →
        ⊥ }
    ensures assigned_after_markers { (v w : WrittenProgram) (e : AdditionFault) (f : ValueFault) →
        v.program ≡ w.program →
        IsRightExtensionFault w (Additions e) →
        IsRightExtensionFault v (Assigned f) →
        ⊥ }
    ensures assigned_after_defaults { (v w : WrittenProgram) (e f : ValueFault) →
        v.program ≡ w.program →
        IsLinkedProgram w.program →
        IsRightExtensionFault w (Default e) →
        IsRightExtensionFault v (Assigned f) →
        ⊥ }
{
    settled::additions::law::lemma_fault_excludes();
    typed_values::law::lemma_faults_exclude();
}

/// A fault is that of at most one DEFAULT or value assignment. Two such faults are of one notation in it, and of one
/// cause.
pub fn one_place()
    ensures default { (w : WrittenProgram) (e f : ValueFault) → IsLinkedProgram w.program →
        (d : IsFirstDefault w e) → (g : IsFirstDefault w f) →
        (d.number ≡ g.number) × (d.first.number ≡ g.first.number) }
    ensures assigned { (w : WrittenProgram) (e f : ValueFault) → IsLinkedProgram w.program →
        (d : IsFirstValue w e) → (g : IsFirstValue w f) → d.number ≡ g.number }
    ensures in_default { (w : WrittenProgram) (e f : ValueFault) → IsLinkedProgram w.program →
        IsRightExtensionFault w (Default e) → IsRightExtensionFault w (Default f) → ReportOneNotation e f }
    ensures in_assigned { (w : WrittenProgram) (e f : ValueFault) → IsLinkedProgram w.program →
        IsRightExtensionFault w (Assigned e) → IsRightExtensionFault w (Assigned f) → ReportOneNotation e f }
{
    typed_values::law::one_place();
    typed_values::law::lemma_faults_exclude();
}

/// Linked modules that are spelled by the rules of the notation meet the condition of `settle`.
pub fn lemma_linked_program()
    ensures { (ms : List ModuleTree) (p : Program) → Links ms p → All IsSpelledModule ms → IsLinkedProgram p }
{
    settled::spelled::law::lemma_types_are_spelled();
    settled::spelled::law::lemma_linked_are_sound();
}

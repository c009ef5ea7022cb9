//! What follows for programs whose lists and enumerations are as extension markers require. A caller calls a law to
//! know it; a law takes no memory and no time.

ghost use Rattle.std.specs.Prelude.{◌≡◌};
ghost use Rattle.resolve.specs.Program.{WrittenProgram};
ghost use Rattle.additions.specs.Additions.{KeepAdditions};
ghost use Rattle.additions.specs.Faults.{IsRightAdditionsFault};
ghost use Rattle.additions.specs.First.{ReportOneAddition};
ghost use Rattle.additions.specs.declared.fault.ExtFault.{ExtFault};
ghost use Rattle.additions.specs.declared.fault.ExtFault.TheVariants.{Memory};

/// If a fault of modules other than `Memory` is true, they aren't as extension markers require. So `additions` succeeds
/// if and only if they are, unless an allocation fails.
pub fn lemma_fault_excludes()
    ensures { (w : WrittenProgram) (e : ExtFault) →
        (e ≡ Memory → ⊥) →
        IsRightAdditionsFault w e →
        KeepAdditions w.program.types →
        ⊥ }
{}

/// At most one fault is the first: two faults that are true of modules as they are written are of one rule, module,
/// assignment and offset, unless one is `Memory`.
pub fn one_fault()
    ensures { (w : WrittenProgram) (e f : ExtFault) → IsRightAdditionsFault w e → IsRightAdditionsFault w f →
        ReportOneAddition e f }
{}

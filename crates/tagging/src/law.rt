//! What follows for tables whose types have their tags. A caller calls a law to know it; the call takes no memory and
//! no time.

ghost use Rattle.std.specs.Prelude.{ℕ, ◌≡◌, ◌<◌, length, List};
ghost use Rattle.type_table.specs.declared.table.TypeNode.{TypeNode};
ghost use Rattle.type_table.specs.FirstInList.{IsSameLocation};
ghost use Rattle.type_table.specs.Seen.{types_of};
ghost use Rattle.type_table.specs.Table.{Type', IsLinked};
ghost use Rattle.resolve.specs.Program.{Program};
ghost use Rattle.tagging.specs.Tags.{Path, Tags};
ghost use Rattle.tagging.specs.Tagged.{IsTagged, HaveOneFirst};
ghost use Rattle.tagging.specs.Faults.{IsRightTagFault};
ghost use Rattle.tagging.specs.FirstFault.{IsFirstTagFault, IsFirstBreach, ReportOneRule};
ghost use Rattle.tagging.specs.declared.check.Rule.{Rule};
ghost use Rattle.tagging.specs.declared.fault.TagFault.{TagFault};
ghost use Rattle.tagging.specs.declared.fault.TagFault.TheVariants.{Memory};

/// Modules that have a fault other than `Memory` do not have their tags. So `tag` succeeds exactly if the modules have
/// them, unless memory runs out.
pub fn lemma_fault_excludes()
    ensures { (p : Program) (e : TagFault) → (e ≡ Memory → ⊥) → IsRightTagFault p e → IsTagged p.types → ⊥ }
{}

/// Each type has one list of tags, and no other.
pub fn one_path()
    ensures exists { (ts : List Type') (i : ℕ) → IsLinked ts → i < length ts → (p : Path) × Tags ts i p }
    ensures unique { (ts : List Type') (i : ℕ) (p q : Path) → Tags ts i p → Tags ts i q → p ≡ q }
{}

/// If the types have their tags, each SET component and each CHOICE alternative has exactly one tag that can be first.
pub fn one_first()
    ensures { (ts : List Type') → IsLinked ts → IsTagged ts → HaveOneFirst ts }
{}

/// At most one fault is the first. Two first faults of types that are written so are of one rule, one type and one
/// place. So two first faults of a program whose types are written so report one rule, module, assignment and place, as
/// two faults do that [`crate::tag`] may return. `Memory` says nothing.
pub fn one_fault()
    ensures types { (ts : List Type') (ws : List TypeNode) (r q : Rule) (i j m n : ℕ) →
        types_of ws ≡ ts →
        IsFirstBreach ts ws r i m →
        IsFirstBreach ts ws q j n →
        (r ≡ q) × (i ≡ j) × (m ≡ n) }
    ensures spot { (p : Program) (ws : List TypeNode) (e f : TagFault) →
        types_of ws ≡ p.types →
        IsFirstTagFault p ws e →
        IsFirstTagFault p ws f →
        ReportOneRule IsSameLocation e f }
{}

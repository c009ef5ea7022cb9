//! What follows for faults of ranges. A caller calls a law to know it; the call takes no memory and no time.

ghost use Rattle.std.specs.Prelude.{List, map};
ghost use Rattle.trees.specs.Constraints.{range_of};
ghost use Rattle.trees.specs.Values.{Name};
ghost use Rattle.trees.specs.declared.constraint.RangeSyntax.{RangeSyntax};
ghost use Rattle.type_table.specs.Table.{WrittenKind};
ghost use Rattle.resolve.specs.Program.{Program};
ghost use Rattle.range_ends.specs.Answers.{IsOf};
ghost use Rattle.range_ends.specs.First.{HaveOneMeaning, IsFirstWrong, ReportsSame};
ghost use Rattle.range_ends.specs.Ranges.{AreRanges};
ghost use Rattle.range_ends.specs.declared.written_ranges.Counted.{Counted};
ghost use Rattle.range_ends.specs.declared.written_ranges.RangeFault.{RangeFault};

/// Ranges have at most one first fault, at one place.
pub fn one_fault()
    ensures { (p : Program) (k : WrittenKind) (M : Name) (of : Counted) (rs : List RangeSyntax) (f g : RangeFault) →
        HaveOneMeaning p →
        IsFirstWrong p k M of rs f →
        IsFirstWrong p k M of rs g →
        ReportsSame f g }
{}

/// Ranges with a first fault have no meaning as ranges.
pub fn no_fault()
    ensures { (p : Program) (k : WrittenKind) (M : Name) (of : Counted) (rs : List RangeSyntax) (f : RangeFault) →
        IsFirstWrong p k M of rs f →
        AreRanges p k M (IsOf of) (map range_of rs) → ⊥ }
{}

//! Laws of fields in braces, for the crates above.

ghost use Rattle.std.specs.Prelude.{◌≡◌, ℕ, Bool, List, Option, Some, map};
ghost use Rattle.asn_base.specs.Abstract.{Row, fields};
ghost use Rattle.asn_base.specs.Typed.{GroupsAreWhole};
ghost use Rattle.trees.specs.declared.types.ListKind.{ListKind};
ghost use Rattle.trees.specs.Values.{Name, Tree};
ghost use Rattle.names.specs.Modules.{AreDifferent};
ghost use Rattle.type_table.specs.Table.{Part, members};
ghost use Rattle.resolve.specs.Program.{Program};
ghost use Rattle.value_notations.specs.Notations.{Fields, NotationOf, component_of, field_names, fields_in, part_names};
ghost use Rattle.value_notations.specs.Wrong.{IsDisarranged, NotationTrouble};
ghost use Rattle.values.specs.Arranged.{IsArranged, IsNamesFault};
ghost use Rattle.values.specs.declared.arranging.NamesFault.{NamesFault};
ghost use Rattle.values.specs.declared.arranging.NamesFault.TheVariants.{Memory};

/// Names of fields are not both arranged and disarranged.
pub fn lemma_arranged_alone()
    ensures { (k : ListKind) (cs : List Part) (fs : List Name) (ps : List (Option ℕ)) (t : NotationTrouble)
        → IsArranged k cs fs ps
        → IsDisarranged k cs fs t
        → ⊥ }
{}

/// At most one fault of names is right, apart from `Memory`. So there is no choice which fault is reported, and at
/// which field or component.
pub fn lemma_one_names_fault()
    ensures { (k : ListKind) (cs : List Part) (fs : List Name) (f g : NamesFault)
        → AreDifferent (part_names cs)
        → (f ≡ Memory → ⊥)
        → (g ≡ Memory → ⊥)
        → IsNamesFault k cs fs f
        → IsNamesFault k cs fs g
        → f ≡ g }
{}

/// If the names of fields are arranged, the groups of additions among the values of the fields are whole (X.680, clause
/// 25.18).
pub fn lemma_groups_are_whole()
    ensures { (p : Program) (os : List ℕ) (M : Name) (k : ListKind) (cs : List Part) (fs : List (Name × Tree))
        (ps : List (Option ℕ)) (r : Row)
        → IsArranged k cs (field_names fs) ps
        → Fields p os M fs cs r
        → GroupsAreWhole (map component_of cs) r }
{}

/// A notation whose fields are arranged stands for the values of its fields.
pub fn lemma_value_of_fields()
    ensures { (p : Program) (os : List ℕ) (M : Name) (k : ListKind) (e : Bool) (cs : List Part) (n : Tree)
        (fs : List (Name × Tree)) (ps : List (Option ℕ)) (r : Row)
        → fields_in n ≡ Some fs
        → IsArranged k cs (field_names fs) ps
        → Fields p os M fs cs r
        → NotationOf p os M (members k e cs) n (fields r) }
{}

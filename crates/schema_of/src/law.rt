//! Laws of schemas of linked modules.

ghost use Rattle.std.specs.Prelude.{◌≡◌, ◌↔◌, ℕ, ℤ, Bool, List, ◌++◌, map, Option, Some, slice_get};
ghost use Rattle.asn_base.specs.Abstract.{AbstractValue, Row};
ghost use Rattle.asn_base.specs.Names.{IsMember};
ghost use Rattle.asn_base.specs.Schemas.{IsSchema};
ghost use Rattle.asn_base.specs.Types as types;
ghost use Rattle.asn_base.specs.Typed as typed;
ghost use Rattle.names.specs.Names.{IsApart};
ghost use Rattle.resolve.specs.Program.{Program};
ghost use Rattle.schema_of.specs.SchemaOf.{numbered_item, AreAlternativesOf, AreComponentsOf, AreItemsOf, IsChosenPart, IsSchemaOf};
ghost use Rattle.trees.specs.Values.{Name};
ghost use Rattle.type_table.specs.Items.{additions_of, WrittenItem};
ghost use Rattle.type_table.specs.Lists.{AreSound};
ghost use Rattle.type_table.specs.Table.{Part};
ghost use Rattle.value_notations.specs.Leaves.{IsItem};
ghost use Rattle.value_notations.specs.Notations.{component_of};
ghost use Rattle.value_notations.specs.Values as values;
ghost use Rattle.values.specs.Allowing.{Allows, AllowsCode};

/// The values of an accepted schema's types are those of the program's types. Of any schema of the program, the values
/// of its types include those of the program's types. DEFAULTs with too many nodes, which no accepted schema has, are
/// the difference.
pub fn same_values()
    ensures notated { (p : Program) (s : List types.Resolved) (n i : ℕ) (v : AbstractValue)
        → IsApart p.modules
        → AreSound p.types
        → IsSchemaOf p (Allows p) (AllowsCode p) s
        → values.NotatedValueIn p (Allows p) (AllowsCode p) n i v
        → typed.ValueIn s n i v }
    ensures levels { (p : Program) (s : List types.Resolved) (n i : ℕ) (v : AbstractValue)
        → IsApart p.modules
        → AreSound p.types
        → IsSchema s
        → IsSchemaOf p (Allows p) (AllowsCode p) s
        → (typed.ValueIn s n i v ↔ values.NotatedValueIn p (Allows p) (AllowsCode p) n i v) }
    ensures whole { (p : Program) (s : List types.Resolved) (i : ℕ) (v : AbstractValue)
        → IsApart p.modules
        → AreSound p.types
        → IsSchema s
        → IsSchemaOf p (Allows p) (AllowsCode p) s
        → (typed.IsValue s i v ↔ values.IsNotatedValue p (Allows p) (AllowsCode p) i v) }
{
    value_notations::law::one_value();
}

/// The parts of a schema's type are written in the program's type.
pub fn lemma_parts_are_written()
    ensures items { (root : List WrittenItem) (more : Option (List WrittenItem)) (in_root added : List types.Item)
        (marker : Bool) (x : Name) (z : ℤ)
        → AreItemsOf root more in_root marker added
        → IsMember (numbered_item x z) (in_root ++ added)
        → IsItem root (additions_of more) x z }
    ensures groups { (p : Program) (M : Name) (cs : List Part) (ds : List types.Component) (r : Row)
        → AreComponentsOf p M cs ds
        → (typed.GroupsAreWhole ds r ↔ typed.GroupsAreWhole (map component_of cs) r) }
    ensures alternatives { (cs : List Part) (root more : List types.Alternative) (i : ℕ) (a : types.Alternative)
        → AreAlternativesOf cs root more
        → slice_get (root ++ more) i ≡ Some a
        → IsChosenPart cs i a }
{}

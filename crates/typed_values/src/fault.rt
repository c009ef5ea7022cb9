//! Why a notation stands for no value of a type, and where.

ghost use Rattle.std.specs.Prelude.{◌≡◌, ℕ, Bool, List, Some, map};
ghost use Rattle.trees.specs.declared.value.Named.{Named as Named'};
ghost use Rattle.trees.specs.declared.value.ValueSyntax.{ValueSyntax as ValueSyntax'};
ghost use Rattle.trees.specs.Values.{Name, member_of, tree_of};
ghost use Rattle.trees.specs.Types.{Plain};
ghost use Rattle.type_table.specs.Table.{WrittenKind, Part, members, simple};
ghost use Rattle.trees.specs.declared.types.ListKind.{ListKind as ListKind'};
ghost use Rattle.trees.specs.declared.types.ListKind.TheVariants.{Choice as choice};
ghost use Rattle.range_ends.specs.Ends.{IsTypeOfKind};
ghost use Rattle.resolve.specs.Program.{WrittenProgram};
ghost use Rattle.value_notations.specs.Faults.{IsBitAt, IsLeafFault};
ghost use Rattle.value_notations.specs.Notations.{field_names};
ghost use Rattle.value_notations.specs.Written.{IsLastAt, braced_fields};
ghost use Rattle.values.specs.Arranged.{IsNamesFault};
ghost use Rattle.typed_values.specs.Faults.{IsCause};
ghost use Rattle.typed_values.specs.proving.Reading.{IsFollowFaultAt};

use asn_base::schema::TypeId;
use trees::ValueSyntax;
use value_notations::leaves::LeafFault;
use value_notations::references::FollowFault;
use values::NamesFault;

/// A notation, the module that it is read in, and the type that it is read under.
#[derive(Clone, Copy)]
pub struct ValueSite<'a> {
    pub ty: TypeId,
    pub within: &'a str,
    pub notation: &'a ValueSyntax,
}

/// What is wrong with a notation. Fields and components are counted from 0.
#[derive(Clone, Copy)]
pub enum Cause<'a> {
    /// There was not enough memory.
    Memory,
    /// The notation is nested deeper than 64 levels.
    Depth,
    /// The values before the notation, and those that hold it, have 2^24 nodes already.
    Nodes,
    /// The notation is, or leads to, this name, which is read in this module and means neither something of the type
    /// nor a value.
    NoMeaning(&'a str, &'a ValueSyntax),
    /// The notation is, or leads to, this name, which is read in this module. The name means the value of this number,
    /// whose notation is being read already.
    Circular(usize, &'a str, &'a ValueSyntax),
    /// The notation is of another form than the type's, or has a character that the type doesn't have.
    NotOfType,
    /// This name in the notation's braces, which is read in this module, is no bit of the type.
    UnknownBit(&'a str, &'a ValueSyntax),
    /// The notation stands for an object identifier, a relative one or not, with more than 64 numbers or with one of
    /// 2^64 or more.
    Oid,
    /// The CHOICE has no alternative of the notation's name.
    UnknownAlternative,
    /// No component has the name of this field of the notation, which is read in this module.
    UnknownField(usize, &'a str, &'a ValueSyntax),
    /// An earlier field of the notation, which is read in this module, has the name of this one.
    Repeated(usize, &'a str, &'a ValueSyntax),
    /// This component has no field in the notation, which is read in this module, though it must be present.
    Missing(usize, &'a str, &'a ValueSyntax),
    /// This field of the notation, which is read in this module, comes after one that it must come before.
    OutOfOrder(usize, &'a str, &'a ValueSyntax),
    /// The notation stands for a number, size or character that the constraints of the type don't allow.
    Outside,
}

/// The first notation that is wrong, and what is wrong with it.
#[derive(Clone, Copy)]
pub struct ValueFault<'a> {
    pub at: ValueSite<'a>,
    pub cause: Cause<'a>,
}

/// The cause of a fault in following the references of a notation.
pub(crate) fn follow_cause<'a>(fault: FollowFault<'a>) -> Cause<'a>
    ensures { (w : WrittenProgram) (levels left i : ℕ) (os : List ℕ) (M : Name) (n : ValueSyntax') (k : WrittenKind)
        → IsTypeOfKind w.program.types i k
        → IsFollowFaultAt w k os M n fault.entry
        → IsCause w levels left os M i n result }
{
    match fault {
        FollowFault::Memory => Cause::Memory,
        FollowFault::NoMeaning(within, name) => Cause::NoMeaning(within, name),
        FollowFault::Circular(number, within, name) => Cause::Circular(number, within, name),
    }
}

/// The cause of a fault of a notation under a type that holds no others.
pub(crate) fn leaf_cause<'a>(fault: LeafFault<'a>, within: &'a str) -> Cause<'a>
    ensures { (w : WrittenProgram) (levels left i : ℕ) (os ps : List ℕ) (M : Name) (n l : ValueSyntax') (k : Plain)
        → IsTypeOfKind w.program.types i (simple k)
        → IsLastAt w (simple k) os M n ps within.now l
        → IsLeafFault k (tree_of l) fault.entry
        → IsBitAt l fault.entry
        → IsCause w levels left os M i n result }
{
    match fault {
        LeafFault::Memory => Cause::Memory,
        LeafFault::NotOfType => Cause::NotOfType,
        LeafFault::UnknownBit(bit) => Cause::UnknownBit(within, bit),
        LeafFault::Oid => Cause::Oid,
    }
}

/// The cause of a fault in the names of fields.
pub(crate) fn names_cause<'a>(
    fault: NamesFault,
    within: &'a str,
    notation: &'a ValueSyntax,
) -> Cause<'a>
    ensures { (w : WrittenProgram) (levels left i : ℕ) (os ps : List ℕ) (M : Name) (n : ValueSyntax') (k : ListKind')
        (e : Bool) (cs : List Part) (fs : List (Named' ValueSyntax'))
        → IsTypeOfKind w.program.types i (members k e cs)
        → (k ≡ choice → ⊥)
        → IsLastAt w (members k e cs) os M n ps within.now notation.now
        → braced_fields notation.now ≡ Some fs
        → IsNamesFault k cs (field_names (map member_of fs)) fault
        → IsCause w levels left os M i n result }
{
    match fault {
        NamesFault::Memory => Cause::Memory,
        NamesFault::Unknown(field) => Cause::UnknownField(field, within, notation),
        NamesFault::Repeated(field) => Cause::Repeated(field, within, notation),
        NamesFault::Missing(component) => Cause::Missing(component, within, notation),
        NamesFault::OutOfOrder(field) => Cause::OutOfOrder(field, within, notation),
    }
}

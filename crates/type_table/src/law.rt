//! Laws of the table of written types. A caller calls a law to know it; it takes no memory and no time.

ghost use Rattle.std.specs.Prelude.{◌≡◌, ◌≤◌, ◌<◌, ℕ, ℤ, [], List, Option, Some, length, map, slice_get};
ghost use Rattle.trees.specs.Values.{Name};
ghost use Rattle.trees.specs.declared.module.TagDefault.{TagDefault as Default};
ghost use Rattle.trees.specs.declared.types.TypeSyntax.{TypeSyntax};
ghost use Rattle.names.specs.declared.fault.NameFault.TheVariants as faults;
ghost use Rattle.names.specs.declared.fault.NameFault.{NameFault};
ghost use Rattle.names.specs.declared.scope.Assigned.TheVariants as assigned;
ghost use Rattle.names.specs.Names.{Module, IsApart, Refers};
ghost use Rattle.names.specs.Sources.{HaveNoPlace, Source};
ghost use Rattle.type_table.specs.declared.table.Shape.{Shape};
ghost use Rattle.type_table.specs.declared.table.TypeNode.{TypeNode};
ghost use Rattle.type_table.specs.Faults.{HasTooMany, IsFirstCircle, IsFirstNumbering, IsTableFault};
ghost use Rattle.type_table.specs.FirstInList.{IsFirstInList, ReportsAlike};
ghost use Rattle.type_table.specs.Items.{WrittenItem, given_numbers, AreRootNumbers, AreAdditionNumbers, root_numbers, addition_numbers};
ghost use Rattle.type_table.specs.Numbering.{AreNumberedTypes};
ghost use Rattle.type_table.specs.Table.{Type', AllUnfold, IsClosed, IsLinked};
ghost use Rattle.type_table.specs.Written.{AreWrittenTypes, text_kept};

/// If the names, module headers, assignments and their types are given, there is exactly one table of types.
pub fn lemma_one_table()
    ensures { (ms : List (Name × Module)) (hs : List (Name × Default)) (gs : List (ℕ × Name)) (roots : List Source)
        (ts us : List Type') →
        IsApart ms →
        AreNumberedTypes ms hs gs roots ts →
        AreNumberedTypes ms hs gs roots us →
        ts ≡ us }
{}

/// If a fault of the types other than `Memory` is true, there is no table in which each type unfolds and no limit is
/// passed.
pub fn lemma_table_faults_exclude()
    ensures { (ms : List (Name × Module)) (hs : List (Name × Default)) (gs : List (ℕ × Name)) (roots : List Source)
        (ts : List Type') →
        AreNumberedTypes ms hs gs roots ts →
        IsApart ms →
        length ts ≤ 65536 →
        AllUnfold ts →
        (e : NameFault) →
        (e ≡ faults.Memory → ⊥) →
        IsTableFault ms hs gs roots e →
        ⊥ }
{}

/// The list of a type has at most one first fault: two that are the first of one list say the same, with one offset.
pub fn lemma_one_first_in_list()
    ensures { (M a : Name) (k : Shape) (e f : NameFault) →
        IsFirstInList M a k e →
        IsFirstInList M a k f →
        ReportsAlike e f }
{}

/// Types have at most one first fault of their numbering, at one offset. If there are too many types, the one after the
/// limit is in one assignment. If all types are numbered, or unfold, no fault says otherwise.
pub fn one_first_fault()
    ensures numbering { (ms : List (Name × Module)) (hs : List (Name × Default)) (gs : List (ℕ × Name))
        (roots : List Source) (given : List TypeSyntax) (e f : NameFault) →
        IsFirstNumbering ms hs gs roots given e →
        IsFirstNumbering ms hs gs roots given f →
        ReportsAlike e f }
    ensures numbered { (ms : List (Name × Module)) (hs : List (Name × Default)) (gs : List (ℕ × Name))
        (roots : List Source) (given : List TypeSyntax) (ts : List Type') (e : NameFault) →
        (e ≡ faults.Memory → ⊥) →
        IsFirstNumbering ms hs gs roots given e →
        AreNumberedTypes ms hs gs roots ts →
        length ts ≤ 65536 →
        ⊥ }
    ensures many { (hs : List (Name × Default)) (gs : List (ℕ × Name)) (roots : List Source) (M N x y : Name) →
        HasTooMany hs gs roots M x →
        HasTooMany hs gs roots N y →
        (M ≡ N) × (x ≡ y) }
    ensures circle { (ts : List Type') (p q : ℕ) → IsFirstCircle ts p → IsFirstCircle ts q → p ≡ q }
    ensures unfolds { (ts : List Type') (p : ℕ) → IsFirstCircle ts p → AllUnfold ts → ⊥ }
{}

/// Written types have at most one text: the offsets of types, and of names and constraints in them.
pub fn one_text()
    ensures { (tops : List TypeSyntax) (ws vs : List TypeNode) →
        AreWrittenTypes tops ws →
        AreWrittenTypes tops vs →
        map text_kept ws ≡ map text_kept vs }
{}

/// The types of the assignments are in the table, and each type of the table is in one of the assignments.
pub fn lemma_numbered_there()
    ensures roots { (ms : List (Name × Module)) (hs : List (Name × Default)) (gs : List (ℕ × Name))
        (roots : List Source) (ts : List Type') →
        AreNumberedTypes ms hs gs roots ts →
        length roots ≤ length ts }
    ensures assigned { (ms : List (Name × Module)) (hs : List (Name × Default)) (gs : List (ℕ × Name))
        (roots : List Source) (ts : List Type') →
        AreNumberedTypes ms hs gs roots ts →
        (i : ℕ) (t : Type') →
        slice_get ts i ≡ Some t →
        t.assignment < length gs }
{}

/// If each reference leads to a type of the table and all types unfold, the table is one of linked types.
pub fn lemma_numbered_linked()
    ensures closed { (ms : List (Name × Module)) (hs : List (Name × Default)) (gs : List (ℕ × Name))
        (roots : List Source) (ts : List Type') →
        AreNumberedTypes ms hs gs roots ts →
        ((M x : Name) (N : Option Name) (j : ℕ) → Refers ms M N x (assigned.Type j) → j < length ts) →
        IsClosed ts }
    ensures linked { (ms : List (Name × Module)) (hs : List (Name × Default)) (gs : List (ℕ × Name))
        (roots : List Source) (ts : List Type') →
        AreNumberedTypes ms hs gs roots ts →
        ((M x : Name) (N : Option Name) (j : ℕ) → Refers ms M N x (assigned.Type j) → j < length ts) →
        HaveNoPlace roots →
        AllUnfold ts →
        IsLinked ts }
{}

/// The computed numbers of items are those of X.680, 20.5 and 20.6, and no others are.
pub fn lemma_numbers_of_items()
    ensures root { (is : List WrittenItem) → AreRootNumbers (given_numbers is) [] is (root_numbers is) }
    ensures additions { (is more : List WrittenItem) →
        AreAdditionNumbers (root_numbers is) [] more (addition_numbers is more) }
    ensures one_root { (given earlier : List ℤ) (is : List WrittenItem) (ys zs : List ℤ) →
        AreRootNumbers given earlier is ys →
        AreRootNumbers given earlier is zs →
        ys ≡ zs }
    ensures one_addition { (root earlier : List ℤ) (is : List WrittenItem) (ys zs : List ℤ) →
        AreAdditionNumbers root earlier is ys →
        AreAdditionNumbers root earlier is zs →
        ys ≡ zs }
{}

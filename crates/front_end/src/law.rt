//! What follows for texts. A caller calls a law to know it; a law takes no memory and no time.

ghost use Rattle.std.specs.Prelude.{◌≡◌, ℕ, List};
ghost use Rattle.std.specs.List.{AllZip};
ghost use Rattle.asn_base.specs.Abstract.{AbstractValue};
ghost use Rattle.asn_base.specs.Typed.{IsValue};
ghost use Rattle.asn_base.specs.Types.{Resolved};
ghost use Rattle.text.specs.declared.lex_fault.LexFault.{LexFault};
ghost use Rattle.notation.specs.declared.syntax_fault.SyntaxFault.{SyntaxFault};
ghost use Rattle.trees.specs.Modules.{ModuleTree};
ghost use Rattle.trees.specs.declared.module.Module.{Module as Module'};
ghost use Rattle.trees.specs.Values.{Name, Tree};
ghost use Rattle.names.specs.declared.fault.NameFault.{NameFault};
ghost use Rattle.names.specs.Faults.{ReportsAlike};
ghost use Rattle.type_table.specs.FirstInList.{IsSameLocation};
ghost use Rattle.resolve.specs.First.{IsTextOf, trees_of};
ghost use Rattle.resolve.specs.Links.{Links};
ghost use Rattle.resolve.specs.Program.{Program, WrittenProgram};
ghost use Rattle.tagging.specs.FirstFault.{ReportOneRule};
ghost use Rattle.tagging.specs.declared.fault.TagFault.{TagFault};
ghost use Rattle.constraints.specs.First.{ReportsSame};
ghost use Rattle.constraints.specs.declared.fault.BoundFault.{BoundFault};
ghost use Rattle.extensions.specs.additions.First as additions;
ghost use Rattle.extensions.specs.additions.declared.fault.ExtFault.{ExtFault};
ghost use Rattle.extensions.specs.SchemaOfModules.{IsLinkedProgram};
ghost use Rattle.front_end.specs.Accepted.{AreAccepted, HasTypes, IsModule, IsCheckedProgram};
ghost use Rattle.front_end.specs.Faults.{IsLinkedFault, IsModulesFault, IsRightCompileError};
ghost use Rattle.front_end.specs.Layers.{layer_of_fault};
ghost use Rattle.front_end.specs.OneReport.{ReportOneReason};
ghost use Rattle.front_end.specs.OneText.{HaveOneText};
ghost use Rattle.front_end.specs.ValueError.{DenotesValue};
ghost use Rattle.front_end.specs.declared.fault.CompileError.{CompileError as CompileError'};
ghost use Rattle.front_end.specs.declared.fault.CompileError.TheVariants.{Memory, Text as of_octets, Tree as of_tokens};
ghost use Rattle.front_end.specs.declared.fault.CompileError.TheVariants.{Name as of_names, Tag, Bound, Additions};
ghost use Rattle.front_end.specs.declared.fault.CompileError.TheVariants.{Default as of_default, Assigned};
ghost use Rattle.value_diagnostics.specs.declared.value_diagnostic.ValueDiagnostic.{ValueDiagnostic};

/// If a fault of texts other than `Memory` is true, they aren't accepted. So [`crate::open`] succeeds if and only if
/// they are accepted, unless an allocation fails.
pub fn lemma_faults_exclude()
    ensures { (xs : List (List ℕ)) (p : Program) (e : CompileError') →
        (e ≡ Memory → ⊥) →
        IsRightCompileError xs e →
        AreAccepted xs p →
        ⊥ }
{
    one_list();
    text::law::lemma_one_list_of_tokens();
    text::law::lemma_tokens_or_fault();
    lemma_modules_linked();
    resolve::law::lemma_link_faults_exclude();
    resolve::law::one_program();
    tagging::law::lemma_fault_excludes();
    constraints::law::lemma_fault_excludes();
    extensions::law::lemma_fault_excludes();
}

/// Faults are reported layer by layer, and those of texts text by text. Two faults that are true of the same texts are
/// in the same layer, unless one is `Memory`. At most one is that of a text, of its octets or otherwise of its tokens.
pub fn one_layer()
    ensures layer { (xs : List (List ℕ)) (e f : CompileError') →
        (e ≡ Memory → ⊥) →
        (f ≡ Memory → ⊥) →
        IsRightCompileError xs e →
        IsRightCompileError xs f →
        layer_of_fault e ≡ layer_of_fault f }
    ensures octets { (xs : List (List ℕ)) (k j : ℕ) (e f : LexFault) →
        IsRightCompileError xs (of_octets k e) →
        IsRightCompileError xs (of_octets j f) →
        (k ≡ j) × (e ≡ f) }
    ensures tokens { (xs : List (List ℕ)) (k j : ℕ) (e f : SyntaxFault) →
        IsRightCompileError xs (of_tokens k e) →
        IsRightCompileError xs (of_tokens j f) →
        (k ≡ j) × (e ≡ f) }
    ensures either { (xs : List (List ℕ)) (k j : ℕ) (e : LexFault) (f : SyntaxFault) →
        IsRightCompileError xs (of_octets k e) →
        IsRightCompileError xs (of_tokens j f) →
        ⊥ }
{
    one_list();
    text::law::lemma_one_list_of_tokens();
    text::law::lemma_tokens_or_fault();
    text::law::lemma_one_fault();
    syntax::lemma_one_fault();
    lemma_modules_linked();
    resolve::law::lemma_link_faults_exclude();
    resolve::law::one_program();
    tagging::law::lemma_fault_excludes();
    constraints::law::lemma_fault_excludes();
    extensions::law::lemma_fault_excludes();
    extensions::law::one_kind();
}

/// Modules have at most one text: the types, values and assignments of their program are at the same offsets, whatever
/// their addresses in memory.
pub fn one_text()
    ensures { (ws : List Module') (v w : WrittenProgram) →
        v.program ≡ w.program →
        IsTextOf ws v →
        IsTextOf ws w →
        HaveOneText v w }
{
    resolve::law::one_text();
}

/// Modules, as they are written, have at most one first fault of names, and linked modules at most one of tags, of
/// constraints, of additions, of DEFAULTs and of value assignments. Two such faults report one rule, module, name and
/// offset; `Memory` says nothing.
pub fn one_place()
    ensures tags { (ws : List Module') (w : WrittenProgram) (e f : TagFault) →
        IsTextOf ws w →
        IsLinkedFault w (Tag e) →
        IsLinkedFault w (Tag f) →
        ReportOneRule IsSameLocation e f }
    ensures constraints { (ws : List Module') (w : WrittenProgram) (e f : BoundFault) →
        Links (trees_of ws) w.program →
        IsTextOf ws w →
        IsLinkedFault w (Bound e) →
        IsLinkedFault w (Bound f) →
        ReportsSame e f }
    ensures additions { (w : WrittenProgram) (e f : ExtFault) →
        IsLinkedFault w (Additions e) →
        IsLinkedFault w (Additions f) →
        additions.ReportOneAddition e f }
    ensures names { (ws : List Module') (e f : NameFault) →
        IsModulesFault ws (of_names e) →
        IsModulesFault ws (of_names f) →
        ReportsAlike e f }
    ensures defaults { (w : WrittenProgram) (t u : ValueDiagnostic) →
        IsLinkedProgram w.program →
        IsLinkedFault w (of_default t) →
        IsLinkedFault w (of_default u) →
        ReportOneReason t u }
    ensures assigned { (w : WrittenProgram) (t u : ValueDiagnostic) →
        IsLinkedProgram w.program →
        IsLinkedFault w (Assigned t) →
        IsLinkedFault w (Assigned u) →
        ReportOneReason t u }
{
    extensions::law::one_place();
    resolve::law::one_link_fault();
    resolve::law::linked();
    tagging::law::one_fault();
    constraints::law::one_fault();
    extensions::additions::law::one_fault();
}

/// Texts are at most one list of modules.
pub fn one_list()
    ensures { (xs : List (List ℕ)) (ms ns : List ModuleTree) → AllZip IsModule xs ms → AllZip IsModule xs ns → ms ≡ ns }
{
    text::law::lemma_one_list_of_tokens();
    syntax::lemma_one_module();
}

/// Texts are accepted as at most one program.
pub fn one_program()
    ensures { (xs : List (List ℕ)) (p q : Program) → AreAccepted xs p → AreAccepted xs q → p ≡ q }
{
    one_list();
    resolve::law::one_program();
}

/// Linked modules that texts are can be settled: they are what settling requires.
pub fn lemma_modules_linked()
    ensures { (xs : List (List ℕ)) (ms : List ModuleTree) (p : Program) → AllZip IsModule xs ms → Links ms p
        → IsLinkedProgram p }
{
    extensions::spelled::law::lemma_modules_are_spelled();
    extensions::law::lemma_linked_program();
}

/// The program of accepted texts is as [`crate::Modules`] requires.
pub fn lemma_accepted_checked()
    ensures { (xs : List (List ℕ)) (p : Program) → AreAccepted xs p → IsCheckedProgram p }
{
    lemma_modules_linked();
}

/// What a notation in accepted texts means is a value of the type in the texts' schema.
pub fn lemma_values_of_schema()
    ensures { (p : Program) (s : List Resolved) (M : Name) (i : ℕ) (n : Tree) (v : AbstractValue) →
        IsCheckedProgram p →
        HasTypes p s →
        DenotesValue p M i n v →
        IsValue s i v }
{
    extensions::schema_of::law::same_values();
}

/// A notation in accepted texts means at most one value of a type.
pub fn one_value()
    ensures { (p : Program) (M : Name) (i : ℕ) (n : Tree) (v w : AbstractValue) →
        IsCheckedProgram p →
        DenotesValue p M i n v →
        DenotesValue p M i n w →
        v ≡ w }
{
    value_notations::law::one_value();
}

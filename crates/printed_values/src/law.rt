//! Laws of printed values, and of notations of them.

ghost use Rattle.std.specs.Prelude.{◌≤◌, ℕ, List, length, IsUtf8};
ghost use Rattle.asn_base.specs.Abstract.{AbstractValue};
ghost use Rattle.asn_base.specs.Schemas.{IsSchema};
ghost use Rattle.asn_base.specs.Types.{Resolved};
ghost use Rattle.asn_base.specs.Typed.{IsValue, IsValueWithoutNodes};
ghost use Rattle.names.specs.Names.{IsApart};
ghost use Rattle.laws_print.specs.Back.{tree_of};
ghost use Rattle.printed_values.specs.LineEnds.{HasNoLineEnd};
ghost use Rattle.printed_values.specs.ReadBack.{IsReadBack};
ghost use Rattle.resolve.specs.Program.{Program};
ghost use Rattle.schema_of.specs.SchemaOf.{IsSchemaOf};
ghost use Rattle.text.specs.Text.{max_text};
ghost use Rattle.trees.specs.Values.{Name};
ghost use Rattle.type_table.specs.Lists.{AreSound};
ghost use Rattle.value_notations.specs.Notations.{Notation};
ghost use Rattle.value_text.specs.Print.{print};
ghost use Rattle.values.specs.Allowing.{Allows, AllowsCode};

/// The tree of a printed value is a notation of this value under its type, in any module. The exception is a value with
/// a line end in one of its texts.
pub fn lemma_printed_is_a_notation()
    ensures { (p : Program) (s : List Resolved) (os : List ℕ) (M : Name) (i : ℕ) (v : AbstractValue)
        → IsSchema s
        → IsSchemaOf p (Allows p) (AllowsCode p) s
        → IsValueWithoutNodes s i v
        → HasNoLineEnd v
        → Notation p os M i (tree_of s i v) v }
{
    schema_of::law::lemma_parts_are_written();
}

/// A printed text of at most 16,777,216 octets is read back as the value that was printed. The exception is a value
/// with a line end in one of its texts.
pub fn lemma_printed_is_read_back()
    ensures { (p : Program) (s : List Resolved) (M : Name) (i : ℕ) (v : AbstractValue)
        → IsApart p.modules
        → AreSound p.types
        → IsSchema s
        → IsSchemaOf p (Allows p) (AllowsCode p) s
        → IsValue s i v
        → HasNoLineEnd v
        → IsUtf8 (print s i v)
        → length (print s i v) ≤ max_text
        → IsReadBack p (Allows p) (AllowsCode p) M i (print s i v) v }
{
    laws_print::law::lemma_printed_has_tokens();
    laws_print::law::lemma_printed_is_read_back();
    lemma_printed_is_a_notation();
    schema_of::law::same_values();
    value_notations::law::one_value();
}

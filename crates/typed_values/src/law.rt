//! Laws of values of notations, for the crates above.

ghost use Rattle.std.specs.Prelude.{◌≡◌, ◌≤◌, ℕ, List};
ghost use Rattle.asn_base.specs.Abstract.{AbstractValue};
ghost use Rattle.asn_base.specs.Typed.{nodes};
ghost use Rattle.trees.specs.declared.value.ValueSyntax.{ValueSyntax};
ghost use Rattle.trees.specs.Values.{Name, tree_of};
ghost use Rattle.names.specs.Names.{IsApart};
ghost use Rattle.type_table.specs.Lists.{AreSound};
ghost use Rattle.resolve.specs.Program.{WrittenProgram};
ghost use Rattle.value_notations.specs.Notations.{Notation};
ghost use Rattle.value_notations.specs.Values.{NotatedValueIn};
ghost use Rattle.values.specs.Allowing.{Allows, AllowsCode};
ghost use Rattle.typed_values.specs.declared.fault.Cause.TheVariants.{Memory};
ghost use Rattle.typed_values.specs.declared.fault.ValueFault.{ValueFault as ValueFault'};
ghost use Rattle.typed_values.specs.Faults.{IsRightValueFault};
ghost use Rattle.typed_values.specs.Laws.{ReportOneNotation};

use value_notations::law::{lemma_wrong_have_no_value, one_value};
use values::law::{lemma_arranged_alone, lemma_one_names_fault};

/// A notation with a fault other than `Memory`, in linked modules, stands for no value of its type within these limits.
/// The limits are at most `levels` levels, and at most `left` nodes.
pub fn lemma_faults_exclude()
    ensures { (w : WrittenProgram) (levels left i : ℕ) (os : List ℕ) (M : Name) (n : ValueSyntax) (f : ValueFault')
        (v : AbstractValue)
        → IsApart w.program.modules
        → AreSound w.program.types
        → IsRightValueFault w levels left os M i n f
        → (f.cause ≡ Memory → ⊥)
        → Notation w.program os M i (tree_of n) v
        → NotatedValueIn w.program (Allows w.program) (AllowsCode w.program) levels i v
        → nodes v ≤ left
        → ⊥ }
{
    one_value();
    lemma_wrong_have_no_value();
}

/// Two faults of a notation other than `Memory`, in linked modules, are of one notation in it, and of one cause. So
/// there is no choice which nested notation is reported, and why.
pub fn one_place()
    ensures { (w : WrittenProgram) (levels left i : ℕ) (os : List ℕ) (M : Name) (n : ValueSyntax) (f g : ValueFault')
        → IsApart w.program.modules
        → AreSound w.program.types
        → IsRightValueFault w levels left os M i n f
        → IsRightValueFault w levels left os M i n g
        → (f.cause ≡ Memory → ⊥)
        → (g.cause ≡ Memory → ⊥)
        → ReportOneNotation f g }
{
    one_value();
    lemma_wrong_have_no_value();
    lemma_arranged_alone();
    lemma_one_names_fault();
}

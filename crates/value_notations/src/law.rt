//! Laws of notations of values, for the crates above.

ghost use Rattle.std.specs.Prelude.{◌≡◌, ℕ, List};
ghost use Rattle.asn_base.specs.Abstract.{AbstractValue};
ghost use Rattle.trees.specs.Values.{Name, Tree};
ghost use Rattle.names.specs.Names.{IsApart};
ghost use Rattle.type_table.specs.Lists.{AreSound};
ghost use Rattle.resolve.specs.Program.{Program};
ghost use Rattle.value_notations.specs.Notations.{Notation};
ghost use Rattle.value_notations.specs.Wrong.{NotationTrouble, IsRead, IsWrongHere};

/// A notation in linked modules stands for at most one value under a type.
pub fn one_value()
    ensures { (p : Program) (os : List ℕ) (M : Name) (i : ℕ) (n : Tree) (v w : AbstractValue)
        → IsApart p.modules
        → AreSound p.types
        → Notation p os M i n v
        → Notation p os M i n w
        → v ≡ w }
{}

/// A notation in linked modules stands for no value if something is wrong with it, or with one that is nested in it.
pub fn lemma_wrong_have_no_value()
    ensures { (p : Program) (os qs : List ℕ) (M K : Name) (i j : ℕ) (n m : Tree) (t : NotationTrouble)
        (v : AbstractValue)
        → IsApart p.modules
        → AreSound p.types
        → IsRead p os M i n qs K j m
        → IsWrongHere p qs K j m t
        → Notation p os M i n v
        → ⊥ }
{}

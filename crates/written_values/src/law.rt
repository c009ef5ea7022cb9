//! What follows for texts of notations. A caller calls a law to know it; a law takes no memory and no time.

ghost use Rattle.std.specs.Prelude.{◌≡◌, [], ℕ, List, Ok};
ghost use Rattle.text.specs.declared.token.Token.{Token};
ghost use Rattle.grammar.specs.Lexeme.{lexemes};
ghost use Rattle.grammar.specs.Places.{small};
ghost use Rattle.parser_combinators.specs.Given.{IsLexed};
ghost use Rattle.notation.specs.Reading.{value_at};
ghost use Rattle.trees.specs.Values.{Tree};
ghost use Rattle.written_values.specs.Written.{IsNoNotation, IsNotation};
ghost use Rattle.written_values.specs.declared.written.ValueTextFault.{ValueTextFault as ValueTextFault'};
ghost use Rattle.written_values.specs.declared.written.ValueTextFault.TheVariants.{Memory};

use notation::law::{lemma_one_value, lemma_one_value_fault, lemma_values_are_read};
use text::law::{
    lemma_one_fault as lemma_one_fault_of_octets, lemma_one_list_of_tokens, lemma_tokens_or_fault,
};

/// A text is one notation at most.
pub fn lemma_one_notation()
    ensures { (x : List ℕ) (n m : Tree) → IsNotation x n → IsNotation x m → n ≡ m }
{
    lemma_one_list_of_tokens();
    lemma_one_value();
}

/// A text with a fault other than `Memory` is no notation. So [`crate::parse_value`] succeeds if and only if the text
/// is one, unless an allocation fails.
pub fn lemma_wrong_texts_are_none()
    ensures { (x : List ℕ) (n : Tree) (f : ValueTextFault') →
        (f ≡ Memory → ⊥) →
        IsNoNotation x f →
        IsNotation x n →
        ⊥ }
{
    lemma_one_list_of_tokens();
    lemma_tokens_or_fault();
    lemma_values_are_read();
}

/// A text has at most one fault, apart from `Memory`.
pub fn lemma_one_fault()
    ensures { (x : List ℕ) (f g : ValueTextFault') →
        (f ≡ Memory → ⊥) →
        (g ≡ Memory → ⊥) →
        IsNoNotation x f →
        IsNoNotation x g →
        f ≡ g }
{
    lemma_one_list_of_tokens();
    lemma_tokens_or_fault();
    lemma_one_fault_of_octets();
    lemma_one_value_fault();
}

/// A text whose tokens are read as one value, with none left, is the notation of that value.
pub fn lemma_read_is_notation()
    ensures { (x : List ℕ) (ts : List Token) (n : Tree) →
        IsLexed x ts →
        value_at small 128 (lexemes x ts) ≡ Ok (n, []) →
        IsNotation x n }
{
    lemma_values_are_read();
}

//! The module that a text is.

ghost use Rattle.std.specs.Prelude.{◌≡◌, IfOk, IfErr, MatchResult, List};
ghost use Rattle.grammar.specs.Lexeme.{Lexeme, lexemes};
ghost use Rattle.grammar.specs.Places.{bounded, free};
ghost use Rattle.parser_combinators.specs.Given.{IsLexed};
ghost use Rattle.notation.specs.Answer.{IsRightNotationFault};
ghost use Rattle.notation.specs.declared.syntax_fault.SyntaxFault.{SyntaxFault as SyntaxFault'};
ghost use Rattle.notation.specs.declared.syntax_fault.SyntaxFault.TheVariants as faults;
ghost use Rattle.trees.specs.Modules.{ModuleTree, module_tree_of};
ghost use Rattle.syntax.specs.Syntax.{module_text};

use crate::modules::module;
use limits::MAX_NESTING;
use notation::refused::unexpected;
use notation::{ReadError, SyntaxFault};
use std::alloc::Global;
use text::Token;
use trees::Module;

/// Reads the module that a text is.
///
/// The arguments are a text and its tokens, as [`text::lex`] gives them. The result is the module as it is written
/// (X.680, clause 13.1). It has a name, an object identifier after it or none, `DEFINITIONS`, a tag default or none,
/// `::=` and `BEGIN`. Exports and imports follow if there are any, then assignments of types and values, and `END`.
///
/// # Errors
/// The place of a fault is the first token with which no module within the limits can go on, or the end of the tokens.
/// The fault there is
/// - [`SyntaxFault::Limit`] if a module could go on were this one limit higher. This happens at the brace, bracket,
///   `OF` or colon that would be nested in 128 others, and at a tag's number of 2 to the 31 or more. It also happens at
///   a number of 2 to the 127 or more without a minus before it, in an object identifier too;
/// - [`SyntaxFault::Unexpected`] or [`SyntaxFault::OutOfProfile`] if none could under any limits; `OutOfProfile` if
///   that token is a word or mark of a construct that this compiler leaves out.
///
/// Besides, the error is [`SyntaxFault::Memory`] if there is not enough memory.
pub fn parse(alloc: Global, text: &[u8], tokens: &[Token]) -> Result<Module, SyntaxFault>
    requires { IsLexed text.now tokens.now }
    // The result is the module that the tokens are.
    ensures found { IfOk result (λ m.
        (module_text (bounded 128)).Is (module_tree_of m) (lexemes text.now tokens.now)) }
    // The module that the tokens are is returned, unless memory runs out.
    ensures only { (m : ModuleTree) → (module_text (bounded 128)).Is m (lexemes text.now tokens.now)
        → MatchResult result (λ x. module_tree_of x ≡ m) (λ f. f ≡ SyntaxFault.Memory) }
    // A fault is the right one, with its place.
    ensures fault { IfErr result (IsRightNotationFault module_text (lexemes text.now tokens.now) 0 (bounded 128)) }
{
    notation::law::lemma_lexed_tokens();
    module_head::law::lemma_heads_are_read();
    type_syntax::law::lemma_types_are_read();
    match module(alloc, text, tokens, MAX_NESTING) {
        Ok((module, rest)) => {
            if rest.is_empty() {
                Ok(module)
            } else {
                Err(unexpected(tokens, tokens.len() - rest.len()))
            }
        }
        Err(ReadError::Memory) => Err(SyntaxFault::Memory),
        Err(ReadError::Unexpected(left)) => Err(unexpected(tokens, tokens.len() - left)),
        Err(ReadError::Limit(limit, left)) => Err(SyntaxFault::Limit(limit, tokens.len() - left)),
    }
}

/// A list of lexemes is one module at most.
pub fn lemma_one_module()
    ensures { (ts : List Lexeme) (m n : ModuleTree)
        → (free module_text).Is m ts
        → (free module_text).Is n ts
        → m ≡ n }
{
    module_head::law::lemma_heads_are_read();
    type_syntax::law::lemma_types_are_read();
}

/// At most one fault is right where a module is read, apart from `Memory`.
pub fn lemma_one_fault()
    ensures { (ts : List Lexeme) (f g : SyntaxFault') → (f ≡ faults.Memory → ⊥)
        → (g ≡ faults.Memory → ⊥)
        → IsRightNotationFault module_text ts 0 (bounded 128) f
        → IsRightNotationFault module_text ts 0 (bounded 128) g
        → f ≡ g }
{
    module_head::law::lemma_heads_are_read();
    type_syntax::law::lemma_types_are_read();
}

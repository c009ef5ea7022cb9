//! Laws on the spelling of what is read. A caller calls a law to know it; the call takes no memory and no time.

ghost use Rattle.std.specs.Prelude.{ℕ, List, map};
ghost use Rattle.std.specs.List.{All};
ghost use Rattle.grammar.specs.Lexeme.{lexemes};
ghost use Rattle.grammar.specs.Places.{Limits};
ghost use Rattle.parser_combinators.specs.Given.{IsLexed};
ghost use Rattle.names.specs.Names.{IsApart};
ghost use Rattle.resolve.specs.Links.{Links};
ghost use Rattle.resolve.specs.Program.{Program};
ghost use Rattle.spelled.specs.Spelled.{AreSpelled};
ghost use Rattle.spelled.specs.Written.{IsSpelledModule};
ghost use Rattle.syntax.specs.Syntax.{module_text};
ghost use Rattle.text.specs.declared.token.Token.{Token};
ghost use Rattle.trees.specs.Modules.{ModuleTree, module_tree_of};
ghost use Rattle.trees.specs.declared.module.Module.{Module as Module'};
ghost use Rattle.type_table.specs.Lists.{AreSound};

use names::law::lemma_apart;
use text::law::lemma_tokens_known;

/// The module that a text's tokens are is spelled as the notation requires, whatever the limits. [`syntax::parse`]
/// returns only such modules.
pub fn lemma_modules_are_spelled()
    ensures { (text : List ℕ) (tokens : List Token) (limits : Limits) (m : ModuleTree) →
        IsLexed text tokens →
        (module_text limits).Is m (lexemes text tokens) →
        IsSpelledModule m }
{
    lemma_tokens_known();
}

/// The types of linked modules are spelled as required if the modules are: both modules as trees, and modules in
/// memory.
pub fn lemma_types_are_spelled()
    ensures trees { (ms : List ModuleTree) (p : Program) →
        Links ms p →
        All IsSpelledModule ms →
        AreSpelled p.types }
    ensures modules { (modules : List Module') (p : Program) →
        Links (map module_tree_of modules) p →
        All (λ m. IsSpelledModule (module_tree_of m)) modules →
        AreSpelled p.types }
{}

/// What laws on linked modules require besides: no module imports a name that it assigns, and the names and numbers of
/// each list are distinct.
pub fn lemma_linked_are_sound()
    ensures apart { (ms : List ModuleTree) (p : Program) → Links ms p → IsApart p.modules }
    ensures sound { (ms : List ModuleTree) (p : Program) → Links ms p → AreSound p.types }
{
    lemma_apart();
}

//! The calls of the front end, each with the clauses that the headline asks of its result. A program that makes its
//! calls here has the headline of their results.

ghost use Rattle.asn_base.specs.Abstract.{abstract};
ghost use Rattle.extensions.specs.SchemaOfModules.{IsLinkedProgram};
ghost use Rattle.named_values.specs.front_end.Accepted.{octets_of};
ghost use Rattle.laws_front.specs.Calls.{IsBoundResult, IsLexResult, IsLinkResult, IsMeantResult, IsOpenResult};
ghost use Rattle.laws_front.specs.Calls.{IsParseResult, IsPrinted, IsSettleResult, IsTagResult, IsTypeResult};
ghost use Rattle.laws_front.specs.Calls.{IsTypedResult, IsValueResult};
ghost use Rattle.parser_combinators.specs.Given.{IsLexed};
ghost use Rattle.named_values.specs.Given.{as_given};
ghost use Rattle.std.specs.Prelude.{◌<◌, Err, IfOk, MatchOption, MatchResult, None, Ok, Some, length, map, string_bytes};
ghost use Rattle.trees.specs.Modules.{module_tree_of};

use asn_base::schema::{Schema, TypeId};
use asn_base::value::Value;
use constraints::{BoundFault, Bounded};
use extensions::ExtFault;
use named_values::ValueGiven;
use named_values::front_end::{CheckedModules, CompileError, Modules, ValueError};
use named_values::messages::Fault;
use names::NameFault;
use notation::SyntaxFault;
use resolve::Linked;
use std::alloc::Global;
use tagging::{TagFault, Tagged};
use text::{LexFault, Token};
use trees::{Module, ValueSyntax};

/// Returns the tokens of a text: [`text::lex`].
pub fn tokens(alloc: Global, text: &[u8]) -> Result<Vec<Token>, LexFault>
    ensures { MatchResult result
        (λ ts. IsLexResult text.now (Ok ts.items))
        (λ e. IsLexResult text.now (Err e)) }
{
    text::lex(alloc, text)
}

/// Returns the module that tokens are: [`syntax::parse`].
pub fn module(alloc: Global, text: &[u8], tokens: &[Token]) -> Result<Module, SyntaxFault>
    requires { IsLexed text.now tokens.now }
    ensures { MatchResult result
        (λ m. IsParseResult text.now tokens.now (Ok (module_tree_of m)))
        (λ e. IsParseResult text.now tokens.now (Err e)) }
{
    match syntax::parse(alloc, text, tokens) {
        Ok(module) => Ok(module),
        Err(fault) => Err(fault),
    }
}

/// Returns the program that modules are: [`resolve::link`].
pub fn linked(alloc: Global, modules: Vec<Module>) -> Result<Linked, NameFault>
    ensures { MatchResult result
        (λ w. IsLinkResult modules.items (Ok w))
        (λ e. IsLinkResult modules.items (Err e)) }
{
    resolve::link(alloc, modules)
}

/// Returns a program with its tags: [`tagging::tag`].
pub fn tagged(alloc: Global, linked: &Linked) -> Result<Tagged<'_>, TagFault>
    ensures { MatchResult result
        (λ w. IsTagResult linked.now (Ok w))
        (λ e. IsTagResult linked.now (Err e)) }
{
    tagging::tag(alloc, linked)
}

/// Returns a program with what its constraints allow: [`constraints::bound`].
pub fn bounded<'a>(alloc: Global, tagged: &'a Tagged<'a>) -> Result<Bounded<'a>, BoundFault>
    ensures { MatchResult result
        (λ w. IsBoundResult tagged.now (Ok w))
        (λ e. IsBoundResult tagged.now (Err e)) }
{
    constraints::bound(alloc, tagged)
}

/// Returns the schema of a program: [`extensions::settle`].
pub fn settled<'a>(alloc: Global, bounded: &Bounded<'a>) -> Result<Schema, ExtFault<'a>>
    requires { IsLinkedProgram bounded.now.program }
    ensures { MatchResult result
        (λ s. IsSettleResult bounded.now (Ok s))
        (λ e. IsSettleResult bounded.now (Err e)) }
{
    extensions::settle(alloc, bounded)
}

/// Returns the program and the schema of texts: [`front_end::open`].
pub fn opened(alloc: Global, texts: &[Vec<u8>]) -> Result<CheckedModules, CompileError>
    ensures { MatchResult result
        (λ f. IsOpenResult (map octets_of texts.now) (Ok (f.modules, f.schema)))
        (λ e. IsOpenResult (map octets_of texts.now) (Err e)) }
{
    match named_values::front_end::open(alloc, texts) {
        Ok(front) => {
            front.modules.linked().lemma_whole();
            Ok(front)
        }
        Err(fault) => Err(fault),
    }
}

/// Returns the type that a name such as `M.T` finds: [`named_values::type_number`].
pub fn type_found(modules: &Modules, name: &str) -> Option<TypeId>
    ensures { MatchOption result
        (IsTypeResult modules.now name.now None)
        (λ id. IsTypeResult modules.now name.now (Some id.index)) }
{
    named_values::type_number(modules, name)
}

/// Returns the value that a name such as `M.v` finds: [`named_values::value_number`].
pub fn value_found(modules: &Modules, name: &str) -> Option<usize>
    ensures { MatchOption result
        (IsValueResult modules.now name.now None)
        (λ i. IsValueResult modules.now name.now (Some i)) }
{
    named_values::value_number(modules, name)
}

/// Returns the value that a notation means under a type: [`front_end::Modules::typed`].
pub fn typed(
    alloc: Global,
    modules: &Modules,
    ty: TypeId,
    within: &str,
    notation: &ValueSyntax,
) -> Result<Value, ValueError>
    requires { ty.index < length modules.now.types }
    ensures { MatchResult result
        (λ v. IsTypedResult modules.now within.now ty.index notation.now (Ok (abstract v)))
        (λ e. IsTypedResult modules.now within.now ty.index notation.now (Err e)) }
{
    modules.typed(alloc, ty, within, notation)
}

/// Returns the type and the value that the name of a type and a given value mean: [`named_values::meant`].
pub fn meant(
    alloc: Global,
    modules: &Modules,
    ty: &str,
    value: ValueGiven<'_>,
) -> Result<(TypeId, Value), Fault>
    ensures { MatchResult result
        (λ r. IsMeantResult modules.now ty.now (as_given value.entry) (Ok (r.0.index, abstract r.1)))
        (λ e. IsMeantResult modules.now ty.now (as_given value.entry) (Err e)) }
{
    named_values::meant(alloc, modules, ty, value)
}

/// Returns the notation of a value of a type: [`value_text::print`].
pub fn printed(
    alloc: Global,
    schema: &Schema,
    id: TypeId,
    value: &Value,
) -> Result<String, value_text::Fault>
    ensures { IfOk result (λ s. IsPrinted schema.now id.index (abstract value.now) (string_bytes s)) }
{
    match value_text::print(alloc, schema, id, value) {
        Ok(text) => Ok(text),
        Err(fault) => Err(fault),
    }
}
